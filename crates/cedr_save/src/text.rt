ghost use Rattle.std.specs.Prelude.{◌≡◌, ◌++◌, ◌∷◌, [], decimal, IfOk, OnOk};
ghost use Rattle.cedr_base.specs.Bytes.{comma, line_feed};
ghost use Rattle.cedr_text.specs.Texts.{row_text};
ghost use Rattle.cedr_guard.specs.States.{as_it_is};
ghost use Rattle.cedr_guard.specs.Spelt.{state_row};
ghost use Rattle.cedr_save.specs.Checkpoints.{event_line, source_line};

use cedr_base::{OutOfMemory, Payload, Row, Time};
use cedr_guard::EventState;
use cedr_text::{write_number, write_row, write_time};
use std::alloc::Global;

/// Appends the line of an event, with its line feed. Where memory runs out a part may stand there.
pub(crate) fn put_event(event: &EventState, out: &mut Vec<u8>) -> Result<(), OutOfMemory>
    ensures { OnOk result (out.new.items ≡ out.old.items ++ (event_line event.now ++ line_feed ∷ [])) }
{
    let row = row_as_it_is(event, *out.allocator())?;
    write_number(event.id, out)?;
    out.push(b',')?;
    write_row(&row, out)
}

/// The row of an event, without its fields where it is withdrawn.
fn row_as_it_is(event: &EventState, alloc: Global) -> Result<Row, OutOfMemory>
    ensures { IfOk result (λ row. row ≡ as_it_is (state_row event.now)) }
{
    let payload = if event.begin < event.end {
        event.payload.copy(alloc)?
    } else {
        Payload::new(alloc)
    };
    Ok(Row {
        end: event.end,
        begin: event.begin,
        payload,
    })
}

/// Appends the line of a source, with its line feed. Where memory runs out a part may stand there.
pub(crate) fn put_source(name: &[u8], mark: Time, out: &mut Vec<u8>) -> Result<(), OutOfMemory>
    ensures { OnOk result (out.new.items ≡ out.old.items ++ (source_line name.now mark ++ line_feed ∷ [])) }
{
    out.extend_from_slice(b"source,")?;
    out.extend_from_slice(name)?;
    out.push(b',')?;
    write_time(mark, out)?;
    out.push(b'\n')?;
    Ok(())
}
