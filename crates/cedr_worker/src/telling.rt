ghost use Rattle.std.specs.Prelude.{◌≡◌, ◌++◌, ◌∷◌, [], List, OnOk, OnErr};
ghost use Rattle.cedr_base.specs.declared.change.Message.{Message as Sent};
ghost use Rattle.cedr_base.specs.Messages.{IsLegal, MayCome};
ghost use Rattle.cedr_worker.specs.Outputs.{list_from, IsTold};

use cedr_base::{Message, OutOfMemory};
use cedr_history::{Close, Writer};

/// What came of handing messages to a writer.
#[derive(Clone, Copy)]
pub(crate) struct Tells {
    /// Memory lacked for one of them.
    pub(crate) lacked: bool,
    /// Something is pending.
    pub(crate) pending: bool,
}

/// Does to a writer what a message says that may come.
fn tell(writer: &mut Writer, message: Message) -> Result<(), OutOfMemory>
    requires { (given : List Sent) × (writer.old.all ≡ list_from given) × MayCome given message }
    ensures ok { OnOk result ((given : List Sent) → writer.old.all ≡ list_from given → MayCome given message → writer.new ≡ record writer.old { all = list_from (given ++ message ∷ []) }) }
    ensures err { OnErr result (writer.new ≡ writer.old) }
{
    match message {
        Message::Change(change) => writer.append(change),
        Message::Mark(time) => writer.mark(time),
        Message::End => writer.close(Close::Ended),
        Message::Broken => writer.close(Close::Broken),
    }
}

/// Does to a writer what the messages of a piece say, in order, up to one for which memory lacks. They are moved out of
/// their list.
pub(crate) fn tell_all(writer: &mut Writer, piece: &mut Vec<Message>) -> Tells
    requires { (given : List Sent) × (writer.old.all ≡ list_from given) × IsLegal (given ++ piece.old.items) }
    ensures { (given : List Sent) → writer.old.all ≡ list_from given → IsLegal (given ++ piece.old.items) → IsTold given piece.old.items writer.old writer.new result.lacked result.pending }
{
    let mut pending = false;
    for message in piece.drain(..) {
        match tell(writer, message) {
            Ok(()) => pending = true,
            Err(_) => {
                return Tells {
                    lacked: true,
                    pending,
                };
            }
        }
    }
    Tells {
        lacked: false,
        pending,
    }
}
