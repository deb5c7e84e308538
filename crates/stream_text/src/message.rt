ghost use Rattle.std.specs.Prelude.{◌≡◌, ◌++◌, ◌∷◌, [], codes, OnOk};
ghost use Rattle.cedr_base.specs.Bytes.{line_feed};
ghost use Rattle.cedr_text.specs.Texts.{time_text};
ghost use Rattle.stream_text.specs.MessageTexts.{message_text, messages_text};

use cedr_base::{Message, OutOfMemory, Time};
use cedr_text::{write_change, write_time};

/// `=,` and a time, as a line.
fn write_mark(time: Time, out: &mut Vec<u8>) -> Result<(), OutOfMemory>
    ensures { OnOk result (out.new.items ≡ out.old.items ++ (codes "=," ++ (time_text time ++ line_feed ∷ []))) }
{
    out.extend_from_slice(b"=,")?;
    write_time(time, out)?;
    out.push(b'\n')?;
    Ok(())
}

/// Appends the line of a message of the stream that is written: that of a change as `write_change` appends it, and `=,TIME`
/// for a mark. An end and a break have none. Where memory runs out some of the text may stand there.
pub fn write_message(message: &Message, out: &mut Vec<u8>) -> Result<(), OutOfMemory>
    ensures { OnOk result (out.new.items ≡ out.old.items ++ message_text message.now) }
{
    match message {
        Message::Change(change) => write_change(change, out),
        Message::Mark(time) => write_mark(*time, out),
        Message::End => Ok(()),
        Message::Broken => Ok(()),
    }
}

/// Appends the lines of messages. O(n). Where memory runs out some of the text may stand there.
pub fn write_messages(messages: &[Message], out: &mut Vec<u8>) -> Result<(), OutOfMemory>
    ensures { OnOk result (out.new.items ≡ out.old.items ++ messages_text messages.now) }
{
    for message in messages {
        write_message(message, out)?;
    }
    Ok(())
}
