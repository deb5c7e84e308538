ghost use Rattle.std.specs.Prelude.{◌≡◌, ◌==◌, ◌<◌, ◌↔◌, ℕ, List, nat_eq, true, false, length, is_some, MatchOption, IfOk, Some, None};
ghost use Rattle.std.specs.List.{list_any, starts_with, join_with_byte};
ghost use Rattle.csv.specs.Records.{fields_of};
ghost use Rattle.cedr_text.specs.Parts.{parts_of};
ghost use Rattle.cedr_text.specs.Texts.{carriage_return, line_feed};
ghost use Rattle.cedr_text.specs.Places.{place_after, may_end};
ghost use Rattle.cedr_text.specs.Quoting.{line_fields, AreFields, byte_order_mark};

use cedr_base::OutOfMemory;
use csv::{ByteRecord, ReaderBuilder};
use std::alloc::Global;

/// Where a byte stands in a line that keeps the rule of quotes up to there.
#[derive(Clone, Copy)]
enum Place {
    FieldStart,
    Bare,
    Quoted,
    /// After a quote that ends the field, or that is the first of two.
    BehindQuote,
}

impl Place {
    /// Where the next byte stands, or nothing where this one breaks the rule.
    fn after(self, byte: u8) -> Option<Place>
        ensures { result ≡ place_after self byte }
    {
        match (self, byte) {
            (Place::Quoted, b'"') => Some(Place::BehindQuote),
            (Place::Quoted, _) => Some(Place::Quoted),
            (Place::FieldStart | Place::BehindQuote, b'"') => Some(Place::Quoted),
            (_, b',') => Some(Place::FieldStart),
            (Place::Bare, b'"') => None,
            (Place::BehindQuote, _) => None,
            (Place::FieldStart | Place::Bare, _) => Some(Place::Bare),
        }
    }

    fn may_end(self) -> bool
        ensures { result ≡ may_end self }
    {
        !matches!(self, Place::Quoted)
    }
}

/// The law of the quoting rule: a line has these fields exactly where it is texts that stand for them,
/// each bare or between quotes, with commas between the texts.
pub fn quoting_rule()
    ensures { (line : List ℕ) (values : List (List ℕ)) → (line_fields line ≡ Some values) ↔ AreFields line values }
{}

/// The values of a line's fields, joined by carriage returns, of which they have none: nothing where the
/// line breaks the rule of quotes. O(n), with memory for the fields twice.
pub(crate) fn join_fields(alloc: Global, line: &[u8]) -> Result<Option<Vec<u8>>, OutOfMemory>
    requires some { 0 < length line.now }
    requires no_return { list_any (λ b. b == carriage_return) line.now ≡ false }
    requires no_feed { list_any (λ b. b == line_feed) line.now ≡ false }
    requires no_mark { starts_with nat_eq line.now byte_order_mark ≡ false }
    ensures { IfOk result (λ fields. MatchOption fields (line_fields line.now ≡ None)
        (λ joined. line_fields line.now ≡ Some (parts_of carriage_return joined.items))) }
{
    if !keeps_rule(line) {
        return Ok(None);
    }
    let row = split(alloc, line)?;
    Ok(Some(join(alloc, &row)?))
}

/// Whether each field of a line is bare or quoted, and no quote stands anywhere else.
fn keeps_rule(line: &[u8]) -> bool
    ensures { result ≡ is_some (line_fields line.now) }
{
    let mut place = Place::FieldStart;
    for byte in line {
        let Some(next) = place.after(*byte) else {
            return false;
        };
        place = next;
    }
    place.may_end()
}

/// The fields of a line that keeps the rule.
fn split(alloc: Global, line: &[u8]) -> Result<ByteRecord, OutOfMemory>
    requires some { 0 < length line.now }
    requires no_return { list_any (λ b. b == carriage_return) line.now ≡ false }
    requires no_feed { list_any (λ b. b == line_feed) line.now ≡ false }
    requires no_mark { starts_with nat_eq line.now byte_order_mark ≡ false }
    requires in_rule { is_some (line_fields line.now) ≡ true }
    ensures { IfOk result (λ fields. line_fields line.now ≡ Some (fields_of fields)) }
{
    let mut reader = ReaderBuilder::new()
        .has_headers(false)
        .from_reader(alloc, line);
    let mut row = ByteRecord::new(alloc);
    match reader.read_byte_record(&mut row) {
        Ok(_) => Ok(row),
        Err(_) => Err(OutOfMemory),
    }
}

/// The fields of a row, with a carriage return between each two.
fn join(alloc: Global, row: &ByteRecord) -> Result<Vec<u8>, OutOfMemory>
    ensures { IfOk result (λ joined. joined.items ≡ join_with_byte carriage_return (fields_of row.now)) }
{
    let mut joined = Vec::new(alloc);
    let mut fields = row.iter();
    let Some(first) = fields.next() else {
        return Ok(joined);
    };
    joined.extend_from_slice(first)?;
    for field in fields {
        joined.push(b'\r')?;
        joined.extend_from_slice(field)?;
    }
    Ok(joined)
}
