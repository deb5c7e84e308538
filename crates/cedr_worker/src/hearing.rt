ghost use Rattle.std.specs.Prelude.{◌≡◌, ◌++◌, ◌∷◌, [], List, true, false, IfSome, IfNone, MatchBool};
ghost use Rattle.cedr_base.specs.declared.change.Message.{Message as Sent};
ghost use Rattle.cedr_base.specs.Messages.{IsLegal};
ghost use Rattle.cedr_node.specs.Nodes.{made_of};
ghost use Rattle.cedr_worker.specs.Inputs.{Asked, KeptIn, Took};
ghost use Rattle.cedr_worker.specs.Outputs.{Writes};

use crate::taking::take_on;
use crate::telling::{Tells, tell_all};
use cedr_base::Message;
use cedr_edge::EdgeIn;
use cedr_history::{Note, Writer};
use cedr_node::Node;
use std::alloc::Global;
use std::sync::Wait;

/// What an output's take came to.
#[derive(Clone, Copy)]
pub(crate) struct Hears {
    /// A message was taken.
    pub(crate) moved: bool,
    /// Memory lacks.
    pub(crate) lacked: bool,
    /// Something is pending in the writer.
    pub(crate) pending: bool,
}

/// Lets the node take a message, and hands what it gives to the writer. Where memory was lacking the message is
/// dropped.
fn hear(
    alloc: Global,
    node: &mut Node,
    writer: &mut Writer,
    message: Message,
    piece: &mut Vec<Message>,
    lacked: bool,
    pending: bool,
) -> Tells
    requires outputs { (taken : List Sent) × Writes node.old taken writer.old lacked pending × IsLegal (taken ++ message ∷ []) }
    requires published { lacked ≡ false → pending ≡ false }
    ensures outputs { (taken : List Sent) → Writes node.old taken writer.old lacked pending → IsLegal (taken ++ message ∷ []) → Writes node.new (taken ++ message ∷ []) writer.new result.lacked result.pending }
    ensures made { made_of node.new ≡ made_of node.old }
    ensures kept { (writer.new.history ≡ writer.old.history) × (writer.new.published ≡ writer.old.published) }
    ensures lost { lacked ≡ true → (result.lacked ≡ true) × (writer.new ≡ writer.old) }
{
    if lacked {
        return Tells { lacked, pending };
    }
    match take_on(alloc, node, 0, message, piece) {
        Ok(()) => tell_all(writer, piece),
        Err(_) => Tells {
            lacked: true,
            pending,
        },
    }
}

/// Takes a message from the input, if it is open, and hands it on.
pub(crate) fn take_next<R: Wait>(
    rt: &R,
    alloc: Global,
    node: &mut Node,
    input: &mut EdgeIn,
    writer: &mut Writer,
    piece: &mut Vec<Message>,
    lacked: bool,
    pending: bool,
) -> Hears
    requires outputs { Writes node.old input.old.taken writer.old lacked pending }
    requires published { lacked ≡ false → pending ≡ false }
    ensures outputs { Writes node.new input.new.taken writer.new result.lacked result.pending }
    ensures made { made_of node.new ≡ made_of node.old }
    ensures input { KeptIn input.old input.new }
    ensures moved { MatchBool result.moved (Took input.old input.new) (Asked input.old input.new) }
    ensures same { result.moved ≡ false → (writer.new ≡ writer.old) × (result.pending ≡ pending) }
    ensures kept { (writer.new.history ≡ writer.old.history) × (writer.new.published ≡ writer.old.published) }
    ensures lost { lacked ≡ true → (result.lacked ≡ true) × (writer.new ≡ writer.old) }
{
    if input.is_over() {
        return Hears {
            moved: false,
            lacked,
            pending,
        };
    }
    match input.take(rt) {
        None => Hears {
            moved: false,
            lacked,
            pending,
        },
        Some(message) => {
            let told = hear(alloc, node, writer, message, piece, lacked, pending);
            Hears {
                moved: true,
                lacked: told.lacked,
                pending: told.pending,
            }
        }
    }
}

/// Publishes what is pending, if something is. `None` where nothing is, or memory lacks for it: all of it stays pending.
pub(crate) fn show<R: Wait>(rt: &R, writer: &mut Writer, pending: bool) -> Option<Note>
    requires { writer.old.concluded ≡ false }
    ensures some { IfSome result (λ n. (pending ≡ true) × (writer.new ≡ record writer.old { published = writer.old.all }) × (n ≡ record { history = writer.old.history; list = writer.old.all; last = false })) }
    ensures none { IfNone result (writer.new ≡ writer.old) }
{
    if !pending {
        return None;
    }
    match writer.publish(rt) {
        Ok(note) => Some(note),
        Err(_) => None,
    }
}
