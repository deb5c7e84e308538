ghost use Rattle.std.specs.Prelude.{◌≡◌, ◌<◌, ◌≤◌, ◌+◌, ◌*◌, ◌++◌, ◌∷◌, ℕ, List, Some, true, false, decimal, drop, length, min, IfOk, IfSome, OnOk, MatchBool, MatchOption};
ghost use Rattle.cedr_base.specs.declared.field.FieldType.{FieldType};
ghost use Rattle.cedr_base.specs.declared.field.FieldType.TheVariants as types;
ghost use Rattle.cedr_base.specs.declared.time.TheConstants.{FOREVER};
ghost use Rattle.cedr_base.specs.Bytes.{comma};
ghost use Rattle.cedr_text.specs.Lines.{has_line_feed};
ghost use Rattle.cedr_text.specs.Shapes.{ShapeHasTypes};
ghost use Rattle.cedr_save.specs.Checkpoints.{source_line};
ghost use Rattle.cedr_save.specs.Lines.{EventOfFront};
ghost use Rattle.cedr_save.specs.Fronts.{source_front, completed, default_fields, IsHighest, FindsHighest, StaysWhole, CompletesEvent, CutsText, EndsField, is_uncut, is_quote_open, Completes, IsRowText, IsEndText, IsFieldsText, CompletesId, CompletesBegin, CompletesEnd, EndsWell};

use crate::line::{read_event, read_source, rest_from};
use cedr_base::{FOREVER, FieldType, OutOfMemory};
use cedr_guard::EventState;
use cedr_text::{Shape, cut_number, write_number};
use std::alloc::Global;

/// An event whose line begins with these bytes, of those of the greatest ids, and nothing where no event's line does. O(n).
pub(crate) fn event_of_front(
    alloc: Global,
    front: &[u8],
    shape: &Shape,
) -> Result<Option<EventState>, OutOfMemory>
    requires { has_line_feed front.now ≡ false }
    ensures { IfOk result (λ found. (types : List FieldType) → ShapeHasTypes shape.now types → EventOfFront found types front.now) }
{
    let Shape::Fields(types) = shape else {
        return Ok(None);
    };
    let line = complete_event(alloc, front, types)?;
    if line.starts_with(front) {
        read_event(alloc, &line, shape)
    } else {
        Ok(None)
    }
}

/// Whether the line of a source with this name, and some guarantee, begins with these bytes. O(n).
pub(crate) fn begins_source(alloc: Global, front: &[u8], name: &[u8]) -> Result<bool, OutOfMemory>
    ensures { IfOk result (λ may. MatchBool may ((mark : ℕ) × (rest : List ℕ) × (mark ≤ FOREVER) × (front.now ++ rest ≡ source_line name.now mark)) ((mark : ℕ) (rest : List ℕ) → mark ≤ FOREVER → front.now ++ rest ≡ source_line name.now mark → ⊥)) }
{
    let line = complete_source(alloc, front, name)?;
    if !line.starts_with(front) {
        return Ok(false);
    }
    match read_source(alloc, &line, name)? {
        Some(_) => Ok(true),
        None => Ok(false),
    }
}

/// A line that is an event's and goes on from these bytes, where some such line is: its id is the greatest that one has.
fn complete_event(alloc: Global, front: &[u8], types: &[FieldType]) -> Result<Vec<u8>, OutOfMemory>
    requires { has_line_feed front.now ≡ false }
    ensures whole { IfOk result (λ line. has_line_feed line.items ≡ false) }
    ensures goes_on { IfOk result (λ line. CompletesEvent types.now front.now line.items) }
{
    let Some((id, rest)) = cut_field(front) else {
        return complete_id(alloc, front, types);
    };
    let mut line = Vec::from_slice(alloc, id)?;
    line.push(b',')?;
    complete_row(rest, types, &mut line)?;
    Ok(line)
}

/// The first field of a text and what stands behind its comma, where the field has one. A comma within quotes ends none.
fn cut_field(text: &[u8]) -> Option<(&[u8], &[u8])>
    ensures { MatchOption result (is_uncut false text.now ≡ true) (λ cut. CutsText text.now cut.0.now cut.1.now) }
{
    let end = field_end(text)?;
    Some((&text[..end], &text[end + 1..]))
}

/// The place of the comma that ends the first field.
fn field_end(text: &[u8]) -> Option<usize>
    ensures { MatchOption result (is_uncut false text.now ≡ true) (λ end. EndsField text.now end) }
{
    let mut is_open = false;
    for (at, byte) in text.iter().enumerate() {
        if *byte == b',' && !is_open {
            return Some(at);
        }
        if *byte == b'"' {
            is_open = !is_open;
        }
    }
    None
}

/// Whether a quote is open behind this text.
fn is_quote_open(text: &[u8]) -> bool
    ensures { result ≡ is_quote_open false text.now }
{
    let mut is_open = false;
    for byte in text {
        if *byte == b'"' {
            is_open = !is_open;
        }
    }
    is_open
}

/// The line of an event that lives for ever, with the greatest id that goes on from this text.
fn complete_id(alloc: Global, text: &[u8], types: &[FieldType]) -> Result<Vec<u8>, OutOfMemory>
    ensures whole { IfOk result (λ line. has_line_feed line.items ≡ false) }
    ensures goes_on { IfOk result (λ line. CompletesId types.now text.now line.items) }
{
    let mut line = Vec::new(alloc);
    let Some(id) = highest_of(text, u64::MAX) else {
        return Ok(line);
    };
    write_number(id, &mut line)?;
    line.extend_from_slice(b",0,inf")?;
    put_defaults(types, &mut line)?;
    Ok(line)
}

/// Appends a begin, an end and fields that go on from this text.
fn complete_row(text: &[u8], types: &[FieldType], line: &mut Vec<u8>) -> Result<(), OutOfMemory>
    ensures whole { OnOk result (StaysWhole text.now line.old.items line.new.items) }
    ensures goes_on { OnOk result (Completes (IsRowText types.now) text.now line.old.items line.new.items) }
{
    let Some((begin, rest)) = cut_field(text) else {
        return complete_begin(text, types, line);
    };
    line.extend_from_slice(begin)?;
    line.push(b',')?;
    complete_end(begin, rest, types, line)
}

/// Appends a begin that goes on from this text, no end, and the least fields.
fn complete_begin(text: &[u8], types: &[FieldType], line: &mut Vec<u8>) -> Result<(), OutOfMemory>
    ensures whole { OnOk result (StaysWhole text.now line.old.items line.new.items) }
    ensures goes_on { OnOk result (CompletesBegin types.now text.now line.old.items line.new.items) }
{
    let Some(begin) = highest_of(text, FOREVER - 1) else {
        return Ok(());
    };
    write_number(begin, line)?;
    line.extend_from_slice(b",inf")?;
    put_defaults(types, line)
}

/// Appends an end and fields that go on from this text, behind this begin.
fn complete_end(
    begin: &[u8],
    text: &[u8],
    types: &[FieldType],
    line: &mut Vec<u8>,
) -> Result<(), OutOfMemory>
    ensures whole { OnOk result (StaysWhole text.now line.old.items line.new.items) }
    ensures goes_on { OnOk result ((time : ℕ) → time < FOREVER → begin.now ≡ decimal time → Completes (IsEndText types.now time) text.now line.old.items line.new.items) }
{
    let Some((end, rest)) = cut_field(text) else {
        let (begin, _) = cut_number(begin, FOREVER - 1);
        return complete_last(begin, text, types, line);
    };
    line.extend_from_slice(end)?;
    complete_fields(rest, types, line)
}

/// Appends the greatest end that goes on from this text. An event that ends where it begins is withdrawn, and has no fields.
fn complete_last(
    begin: Option<u64>,
    text: &[u8],
    types: &[FieldType],
    line: &mut Vec<u8>,
) -> Result<(), OutOfMemory>
    ensures whole { OnOk result (StaysWhole text.now line.old.items line.new.items) }
    ensures goes_on { OnOk result ((time : ℕ) → time < FOREVER → begin ≡ Some time → CompletesEnd types.now time text.now line.old.items line.new.items) }
{
    if b"inf".starts_with(text) {
        line.extend_from_slice(b"inf")?;
        return put_defaults(types, line);
    }
    let Some(end) = highest_of(text, FOREVER - 1) else {
        return Ok(());
    };
    write_number(end, line)?;
    if begin == Some(end) {
        Ok(())
    } else {
        put_defaults(types, line)
    }
}

/// Appends a comma and fields that go on from this text.
fn complete_fields(text: &[u8], types: &[FieldType], line: &mut Vec<u8>) -> Result<(), OutOfMemory>
    ensures whole { OnOk result (StaysWhole text.now line.old.items line.new.items) }
    ensures goes_on { OnOk result (Completes (IsFieldsText types.now) (comma ∷ text.now) line.old.items line.new.items) }
{
    let Some((first, others)) = types.split_first() else {
        return Ok(());
    };
    line.push(b',')?;
    let Some((field, rest)) = cut_field(text) else {
        line.extend_from_slice(text)?;
        line.extend_from_slice(field_rest(text, *first))?;
        return put_defaults(others, line);
    };
    line.extend_from_slice(field)?;
    complete_fields(rest, others, line)
}

/// What may follow in a field of this type that begins with this text.
fn field_rest(text: &[u8], field_type: FieldType) -> &'static [u8]
    ensures whole { has_line_feed result.now ≡ false }
    ensures goes_on { EndsWell field_type text.now result.now }
{
    match field_type {
        FieldType::Number => number_rest(text),
        FieldType::Bytes => text_rest(text),
    }
}

/// What may follow in a number.
fn number_rest(text: &[u8]) -> &'static [u8]
    ensures whole { has_line_feed result.now ≡ false }
    ensures goes_on { EndsWell types.Number text.now result.now }
{
    if text.is_empty() {
        b"0"
    } else if text == b"-".as_slice() {
        b"1"
    } else {
        b""
    }
}

/// What may follow in a text. A quote that is open is closed behind a comma, so that the text has to be quoted, and one
/// that was closed is made one of two.
fn text_rest(text: &[u8]) -> &'static [u8]
    ensures whole { has_line_feed result.now ≡ false }
    ensures goes_on { EndsWell types.Bytes text.now result.now }
{
    if !text.starts_with(b"\"") {
        b""
    } else if is_quote_open(text) {
        b",\""
    } else {
        b"\"\""
    }
}

/// Appends a field for each type.
fn put_defaults(types: &[FieldType], line: &mut Vec<u8>) -> Result<(), OutOfMemory>
    ensures { OnOk result (line.new.items ≡ line.old.items ++ default_fields types.now) }
{
    for field_type in types {
        line.extend_from_slice(match field_type {
            FieldType::Number => b",0",
            FieldType::Bytes => b",",
        })?;
    }
    Ok(())
}

/// The greatest number of at most `last` whose digits begin with this text. All begin with an empty one.
fn highest_of(text: &[u8], last: u64) -> Option<u64>
    ensures low { IfSome result (λ high. high ≤ last) }
    ensures all { FindsHighest result text.now last }
{
    if text.is_empty() {
        return Some(last);
    }
    let number = cut_number(text, last).0?;
    if number <= last {
        Some(highest(number, last))
    } else {
        None
    }
}

/// The greatest number of at most `last` whose digits begin with those of a number.
fn highest(number: u64, last: u64) -> u64
    requires { number ≤ last }
    ensures { IsHighest number last result }
{
    let mut low = number;
    let mut high = number;
    while 0 < low && low <= last / 10 {
        low *= 10;
        high = one_more(high, last);
    }
    high
}

/// A number with a nine behind its digits, or `last` where that is less.
fn one_more(high: u64, last: u64) -> u64
    ensures { result ≡ min (high * 10 + 9) last }
{
    if high < last / 10 {
        high * 10 + 9
    } else {
        last
    }
}

/// A line that goes on from these bytes, and is that of a source with this name where some such line is.
fn complete_source(alloc: Global, front: &[u8], name: &[u8]) -> Result<Vec<u8>, OutOfMemory>
    ensures { IfOk result (λ line. line.items ≡ source_front name.now ++ completed (drop (length (source_front name.now)) front.now)) }
{
    let mut line = Vec::from_slice(alloc, b"source,")?;
    line.extend_from_slice(name)?;
    line.push(b',')?;
    let mark = rest_from(front, line.len());
    line.extend_from_slice(if b"inf".starts_with(mark) {
        b"inf"
    } else {
        mark
    })?;
    Ok(line)
}
