ghost use Rattle.std.specs.Prelude.{◌≡◌, length, nat_le, option_map};
ghost use Rattle.cedr_base.specs.Bytes.{comma};
ghost use Rattle.cedr_text.specs.Parts.{parts_of, parts_left};
ghost use Rattle.cedr_text.specs.Reading.{event_of, version_of};
ghost use Rattle.cedr_text.specs.declared.event_line.Shape.TheVariants.{AnyText};
ghost use Rattle.cedr_text.specs.EventTexts.{as_reading};

use crate::event_text::EventText;
use crate::fault::LineFault;
use crate::number::{cut_number, cut_time};
use crate::parts::Parts;
use crate::payload_text::{BareFields, PayloadText};
use crate::read::{FIELD_LIMIT, read_guarantee, read_retraction};
use crate::text_row::TextRow;
use cedr_base::FOREVER;

/// What a line without quotes says, whose payload fields are texts. It takes no memory.
pub(crate) fn read_bare(line: &[u8]) -> Result<EventText<'_>, LineFault>
    ensures { as_reading result ≡ event_of AnyText (parts_of comma line.now) }
{
    let [kind, b',', fields @ ..] = line else {
        return Err(LineFault::BadForm);
    };
    match kind {
        b'+' => {
            let (id, row) = read_bare_version(fields)?;
            Ok(EventText::Insert { id, row })
        }
        b'-' => {
            let (id, end) = read_retraction(fields, b',')?;
            Ok(EventText::Retract { id, end })
        }
        b'=' => Ok(EventText::Promise(read_guarantee(fields, b',')?)),
        b'~' => {
            let (id, row) = read_bare_version(fields)?;
            Ok(EventText::Revise { id, row })
        }
        _ => Err(LineFault::BadForm),
    }
}

#[inline(always)]
fn read_bare_version(fields: &[u8]) -> Result<(u64, TextRow<'_>), LineFault>
    ensures { result ≡ version_of AnyText (parts_of comma fields.now) }
{
    let (id, Some(rest)) = cut_number(fields, u64::MAX) else {
        return Err(LineFault::BadForm);
    };
    let (begin, Some(rest)) = cut_number(rest, FOREVER - 1) else {
        return Err(LineFault::BadForm);
    };
    let (end, rest) = cut_time(rest);
    if !are_few(rest) {
        return Err(LineFault::BadForm);
    }
    let (Some(id), Some(begin), Some(end)) = (id, begin, end) else {
        return Err(LineFault::BadNumber);
    };
    if end <= begin {
        return Err(LineFault::EmptyLife);
    }
    let payload = PayloadText::from(BareFields::new(rest));
    let row = TextRow {
        end,
        begin,
        payload,
    };
    Ok((id, row))
}

/// Whether these are no more fields than a payload may have. A text has at most one field more than bytes.
#[inline(always)]
fn are_few(rest: Option<&[u8]>) -> bool
    ensures { result ≡ nat_le (length (parts_left comma (option_map (λ text. text.now) rest.entry))) 16 }
{
    match rest {
        Some(text) if text.len() < FIELD_LIMIT => true,
        _ => Parts::left(rest, b',').nth(FIELD_LIMIT).is_none(),
    }
}
