ghost use Rattle.std.specs.Prelude.{◌≡◌, ◌<◌, ◌≤◌, ◌↔◌, ◌∷◌, if◌then◌else◌, [], ℕ, List, true, false, length, map, option_map, Some, IfOk, IfSome, Err};
ghost use Rattle.cedr_base.specs.declared.field.Field.TheVariants.{Number, Bytes};
ghost use Rattle.cedr_text.specs.declared.event_line.Shape.{Shape};
ghost use Rattle.cedr_text.specs.declared.event_line.Shape.TheVariants.{AnyText};
ghost use Rattle.cedr_text.specs.declared.fault.LineFault.TheVariants.{LineTooLong, BadForm};
ghost use Rattle.cedr_text.specs.declared.lines.TheConstants.{LINE_LIMIT};
ghost use Rattle.cedr_text.specs.EventTexts.{ReadsText};
ghost use Rattle.cedr_text.specs.Parts.{parts_of, parts_left, CutsField, IsSeparator};
ghost use Rattle.cedr_text.specs.Quoting.{has_quote, line_fields};
ghost use Rattle.cedr_text.specs.Reading.{breaks_form, Reads, reading, event_of, event_from, version_from, version_reading, inserted_by, revised_by, retraction, guarantee, retracted_by, promised_by, version_of, payload_of, typed_payload, field_value, pushed, IsEvent, SaysEvent};

use crate::bare::read_bare;
use crate::event_line::{EventLine, Shape};
use crate::event_text::EventText;
use crate::fault::{LineFault, ReadLineFault};
use crate::lines::LINE_LIMIT;
use crate::number::{cut_int_at, cut_number_at, cut_time_at};
use crate::parts::{Parts, cut_part};
use crate::quoting::join_fields;
use cedr_base::{FOREVER, FieldType, OutOfMemory, Payload, PayloadWriter, Row, Time};
use memchr::{memchr2, memchr3};
use std::alloc::Global;

/// How many fields a payload of `Shape::AnyText` may have.
pub(crate) const FIELD_LIMIT: usize = 16;

const BYTE_ORDER_MARK: &[u8] = b"\xef\xbb\xbf";

/// What a line says, without its line feed and the carriage return before that: nothing where it is empty.
/// One over `LINE_LIMIT` bytes is too long, which costs O(1). Else O(n), with memory for the payload, and for
/// the line twice where it has a quote.
///
/// In a file the carriage return counts to the line's length, so whoever takes it off looks at that first.
pub fn read_line(
    alloc: Global,
    line: &[u8],
    shape: &Shape,
) -> Result<Option<EventLine>, ReadLineFault>
    ensures read { Reads result (reading shape.now line.now) }
    ensures event { IfOk result (λ event. IfSome event IsEvent) }
{
    if line.is_empty() {
        return Ok(None);
    }
    if line.len() > LINE_LIMIT {
        return Err(ReadLineFault::Line(LineFault::LineTooLong));
    }
    match read_fields(alloc, line, shape) {
        Ok(event) => Ok(Some(event)),
        Err(fault) => Err(fault),
    }
}

/// What a line says whose payload fields are texts, which stay in the line where it has no quote, as
/// `read_line` says it. O(n), and without a quote it takes no memory.
pub fn read_text_line(alloc: Global, line: &[u8]) -> Result<Option<EventText<'_>>, ReadLineFault>
    ensures { ReadsText result (reading AnyText line.now) }
{
    if line.is_empty() {
        return Ok(None);
    }
    if is_plain(line) {
        return match read_bare(line) {
            Ok(event) => Ok(Some(event)),
            Err(fault) => Err(ReadLineFault::Line(fault)),
        };
    }
    match read_line(alloc, line, &Shape::AnyText)? {
        Some(event) => Ok(Some(EventText::from_line(alloc, event)?)),
        None => Ok(None),
    }
}

/// The law of what lines say: an insertion and a revision have a row, no time is above `FOREVER`, and a fault is one of the
/// first five.
pub fn reading_law()
    ensures { (shape : Shape) (line : List ℕ) → SaysEvent (reading shape line) }
{}

/// The law of the limit: a line may have 65,536 bytes, and exactly one that has more is too long.
pub fn line_limit()
    ensures limit { LINE_LIMIT ≡ 65536 }
    ensures long { (shape : Shape) (line : List ℕ) → (reading shape line ≡ Err LineTooLong) ↔ (LINE_LIMIT < length line) }
{}

/// Whether a line has a line break inside, or begins with a byte order mark.
fn is_broken(line: &[u8]) -> bool
    ensures { result ≡ breaks_form line.now }
{
    memchr2(b'\r', b'\n', line).is_some() || line.starts_with(BYTE_ORDER_MARK)
}

/// Whether a line isn't too long, has neither a quote nor a line break, and doesn't begin with a byte order
/// mark.
fn is_plain(line: &[u8]) -> bool
    ensures { result ≡ true → (length line.now ≤ LINE_LIMIT) × (has_quote line.now ≡ false) × (breaks_form line.now ≡ false) }
{
    line.len() <= LINE_LIMIT && has_plain_bytes(line)
}

/// Whether a line has neither a quote nor a line break, and doesn't begin with a byte order mark.
fn has_plain_bytes(line: &[u8]) -> bool
    ensures plain { result ≡ true → (has_quote line.now ≡ false) × (breaks_form line.now ≡ false) }
    ensures some { result ≡ false → 0 < length line.now }
{
    memchr3(b'"', b'\r', b'\n', line).is_none() && !line.starts_with(BYTE_ORDER_MARK)
}

/// What a line of any length says. One without quotes is cut at its commas as it stands, and only one with a quote
/// goes through the csv reader, which costs far more to make.
fn read_fields(alloc: Global, line: &[u8], shape: &Shape) -> Result<EventLine, ReadLineFault>
    ensures { Reads result (if breaks_form line.now then Err BadForm else event_from shape.now (line_fields line.now)) }
{
    if has_plain_bytes(line) {
        return read_event(alloc, line, b',', shape);
    }
    if is_broken(line) {
        return Err(ReadLineFault::Line(LineFault::BadForm));
    }
    match join_fields(alloc, line)? {
        Some(joined) => read_event(alloc, &joined, b'\r', shape),
        None => Err(ReadLineFault::Line(LineFault::BadForm)),
    }
}

/// The id and the row that a line says which begins with the id, as an insertion does behind its `+`. A line of any
/// length is read. O(n), with memory for the payload, and for the line twice where it has a quote.
pub fn read_version_line(
    alloc: Global,
    line: &[u8],
    shape: &Shape,
) -> Result<(u64, Row), ReadLineFault>
    ensures { Reads result (version_reading shape.now line.now) }
{
    if has_plain_bytes(line) {
        return read_version(alloc, line, b',', shape);
    }
    if is_broken(line) {
        return Err(ReadLineFault::Line(LineFault::BadForm));
    }
    match join_fields(alloc, line)? {
        Some(joined) => read_version(alloc, &joined, b'\r', shape),
        None => Err(ReadLineFault::Line(LineFault::BadForm)),
    }
}

/// What the fields between the separators say.
fn read_event(
    alloc: Global,
    bytes: &[u8],
    separator: u8,
    shape: &Shape,
) -> Result<EventLine, ReadLineFault>
    requires { IsSeparator separator }
    ensures { Reads result (event_of shape.now (parts_of separator bytes.now)) }
{
    let [kind, next, fields @ ..] = bytes else {
        return Err(ReadLineFault::Line(LineFault::BadForm));
    };
    if *next != separator {
        return Err(ReadLineFault::Line(LineFault::BadForm));
    }
    read_kind(alloc, *kind, fields, separator, shape)
}

/// What a line of this kind says by the fields behind it.
fn read_kind(
    alloc: Global,
    kind: u8,
    fields: &[u8],
    separator: u8,
    shape: &Shape,
) -> Result<EventLine, ReadLineFault>
    requires { IsSeparator separator }
    ensures { Reads result (event_of shape.now ((kind ∷ []) ∷ parts_of separator fields.now)) }
{
    match kind {
        b'+' => {
            let (id, row) = read_version(alloc, fields, separator, shape)?;
            Ok(EventLine::Insert { id, row })
        }
        b'-' => {
            let (id, end) = read_retraction(fields, separator)?;
            Ok(EventLine::Retract { id, end })
        }
        b'=' => Ok(EventLine::Promise(read_guarantee(fields, separator)?)),
        b'~' => {
            let (id, row) = read_version(alloc, fields, separator, shape)?;
            Ok(EventLine::Revise { id, row })
        }
        _ => Err(ReadLineFault::Line(LineFault::BadForm)),
    }
}

/// The id and the row of an insertion or a revision.
fn read_version(
    alloc: Global,
    fields: &[u8],
    separator: u8,
    shape: &Shape,
) -> Result<(u64, Row), ReadLineFault>
    requires { IsSeparator separator }
    ensures { Reads result (version_of shape.now (parts_of separator fields.now)) }
{
    let (id, Some(rest)) = cut_number_at(fields, separator, u64::MAX) else {
        return Err(ReadLineFault::Line(LineFault::BadForm));
    };
    let (begin, Some(rest)) = cut_number_at(rest, separator, FOREVER - 1) else {
        return Err(ReadLineFault::Line(LineFault::BadForm));
    };
    let (end, rest) = cut_time_at(rest, separator);
    let payload = read_payload(alloc, rest, separator, shape)?;
    let (Some(id), Some(begin), Some(end)) = (id, begin, end) else {
        return Err(ReadLineFault::Line(LineFault::BadNumber));
    };
    if end <= begin {
        return Err(ReadLineFault::Line(LineFault::EmptyLife));
    }
    let Some(payload) = payload else {
        return Err(ReadLineFault::Line(LineFault::BadField));
    };
    let row = Row {
        end,
        begin,
        payload,
    };
    Ok((id, row))
}

/// The fields of an insertion's or a revision's payload, or nothing where one isn't in its form.
fn read_payload(
    alloc: Global,
    rest: Option<&[u8]>,
    separator: u8,
    shape: &Shape,
) -> Result<Option<Payload>, ReadLineFault>
    requires { IsSeparator separator }
    ensures { Reads result (payload_of shape.now (parts_left separator (option_map (λ text. text.now) rest.entry))) }
{
    match shape {
        Shape::AnyText => read_texts(alloc, Parts::left(rest, separator)),
        Shape::Fields(types) => read_typed(alloc, rest, separator, types),
    }
}

/// A payload of at most 16 texts, each of which is in its form.
fn read_texts(alloc: Global, fields: Parts<'_>) -> Result<Option<Payload>, ReadLineFault>
    ensures { Reads result (payload_of AnyText fields.entry) }
{
    let mut texts = PayloadWriter::new(alloc);
    for field in fields {
        if texts.len() == FIELD_LIMIT {
            return Err(ReadLineFault::Line(LineFault::BadForm));
        }
        texts = texts.with_text(field)?;
    }
    Ok(Some(texts.finish()?))
}

/// A payload of one field for each type, or nothing where one isn't in its form.
fn read_typed(
    alloc: Global,
    mut rest: Option<&[u8]>,
    separator: u8,
    types: &[FieldType],
) -> Result<Option<Payload>, ReadLineFault>
    requires { IsSeparator separator }
    ensures { Reads result (typed_payload types.now (parts_left separator (option_map (λ text. text.now) rest.entry))) }
{
    let mut read = Some(PayloadWriter::new(alloc));
    for field_type in types {
        let Some(bytes) = rest else {
            return Err(ReadLineFault::Line(LineFault::BadForm));
        };
        let (with_next, left) = with_field(read, *field_type, bytes, separator)?;
        read = with_next;
        rest = left;
    }
    match rest {
        None => Ok(payload_from(read)?),
        Some(_) => Err(ReadLineFault::Line(LineFault::BadForm)),
    }
}

/// With the first field, or nothing where one isn't in its form; and what stands after that field's separator.
#[inline(always)]
fn with_field(
    read: Option<PayloadWriter>,
    field_type: FieldType,
    bytes: &[u8],
    separator: u8,
) -> Result<(Option<PayloadWriter>, Option<&[u8]>), OutOfMemory>
    requires { IsSeparator separator }
    ensures { IfOk result (λ after. CutsField (parts_of separator bytes.now) (parts_left separator (option_map (λ rest. rest.now) after.1)) (λ field. after.0 ≡ pushed read (field_value field_type field))) }
{
    match field_type {
        FieldType::Number => {
            let (number, rest) = cut_int_at(bytes, separator);
            Ok((with_number(read, number)?, rest))
        }
        FieldType::Bytes => {
            let (text, rest) = cut_part(bytes, separator);
            Ok((with_text(read, text)?, rest))
        }
    }
}

fn with_number(
    read: Option<PayloadWriter>,
    number: Option<i128>,
) -> Result<Option<PayloadWriter>, OutOfMemory>
    ensures { IfOk result (λ after. after ≡ pushed read (option_map (λ n. Number n) number)) }
{
    match (read, number) {
        (Some(read), Some(number)) => Ok(Some(read.with_number(number)?)),
        _ => Ok(None),
    }
}

fn with_text(read: Option<PayloadWriter>, text: &[u8]) -> Result<Option<PayloadWriter>, OutOfMemory>
    ensures { IfOk result (λ after. after ≡ pushed read (Some (Bytes text.now))) }
{
    match read {
        Some(read) => Ok(Some(read.with_text(text)?)),
        None => Ok(None),
    }
}

/// The payload of fields, where each is in its form.
fn payload_from(read: Option<PayloadWriter>) -> Result<Option<Payload>, OutOfMemory>
    ensures { IfOk result (λ payload. payload ≡ read) }
{
    match read {
        Some(read) => Ok(Some(read.finish()?)),
        None => Ok(None),
    }
}

/// The id and the new end of a retraction.
#[inline(always)]
pub(crate) fn read_retraction(fields: &[u8], separator: u8) -> Result<(u64, Time), LineFault>
    requires { IsSeparator separator }
    ensures { retracted_by result ≡ retraction (parts_of separator fields.now) }
{
    let (id, Some(rest)) = cut_number_at(fields, separator, u64::MAX) else {
        return Err(LineFault::BadForm);
    };
    let (end, more) = cut_time_at(rest, separator);
    match (id, end, more) {
        (_, _, Some(_)) => Err(LineFault::BadForm),
        (Some(id), Some(end), None) => Ok((id, end)),
        _ => Err(LineFault::BadNumber),
    }
}

/// The time of a guarantee.
#[inline(always)]
pub(crate) fn read_guarantee(fields: &[u8], separator: u8) -> Result<Time, LineFault>
    requires { IsSeparator separator }
    ensures { promised_by result ≡ guarantee (parts_of separator fields.now) }
{
    match cut_time_at(fields, separator) {
        (_, Some(_)) => Err(LineFault::BadForm),
        (Some(time), None) => Ok(time),
        (None, None) => Err(LineFault::BadNumber),
    }
}
