ghost use Rattle.std.specs.Prelude.{◌≡◌, ◌≢◌, ◌++◌, ◌∷◌, List, ℕ, map, OnOk, IfOk};
ghost use Rattle.std.specs.Option.{option_map};
ghost use Rattle.cedr_base.specs.Order.{field_cmp, payload_cmp};
ghost use Rattle.cedr_base.specs.declared.field.Field.TheVariants.{Bytes};
ghost use Rattle.cedr_text.specs.Texts.{payload_text};
ghost use Rattle.cedr_text.specs.TextRows.{bare_fields, texts_of, texts_cmp};
ghost use Rattle.cedr_text.specs.RowWriters.{text_of, IsInRow};

use crate::parts::Parts;
use crate::write::{put_payload, put_text};
use cedr_base::{FieldRef, FieldRefs, OutOfMemory, Payload};
use csv::Writer;
use std::alloc::Global;
use std::cmp::Ordering;
use std::marker::Model;

/// The payload of a line without quotes, as it stands there. Contracts see the list of its fields.
#[derive(Drop)]
pub struct BareFields<'a> {
    text: Option<&'a [u8]>,
}

impl<'a> Model for BareFields<'a> {
    ghost use Rattle.std.specs.Prelude.{List};
    ghost use Rattle.std.specs.Option.{IfSome, option_map};
    ghost use Rattle.cedr_base.specs.declared.field.Field.{Field};

    ghost Value = { List Field };

    ghost use Rattle.cedr_text.specs.TextRows.{bare_fields};

    ghost view = { λ bare. bare_fields (option_map (λ text. text.now) bare.text) };
}

impl<'a> BareFields<'a> {
    /// The fields between the commas of the text, which is what a line has after its fourth comma, and none
    /// where there is no text.
    pub fn new(text: Option<&'a [u8]>) -> BareFields<'a>
        ensures { result ≡ bare_fields (option_map (λ t. t.now) text.entry) }
    {
        BareFields { text }
    }
}

/// The payload of a line. Contracts see the list of its fields.
///
/// Payloads compare field by field, and a prefix comes first. That takes no memory.
#[derive(Drop)]
pub struct PayloadText<'a> {
    kind: PayloadKind<'a>,
}

#[derive(Drop)]
enum PayloadKind<'a> {
    /// Of a line without quotes.
    Bare(BareFields<'a>),
    /// Of a line with quotes, from which it was read. It stands on the heap, so that a payload of a line without quotes
    /// takes no more room than its place there.
    Read(Box<Payload>),
}

impl<'a> Model for PayloadText<'a> {
    ghost use Rattle.std.specs.Prelude.{List};
    ghost use Rattle.cedr_base.specs.declared.field.Field.{Field};

    ghost Value = { List Field };

    ghost use Rattle.cedr_text.specs.PayloadTexts.{fields_in};

    ghost view = { λ payload. fields_in payload.kind };
}

impl<'a> From<BareFields<'a>> for PayloadText<'a> {
    ghost from_gives = { λ fields payload. payload ≡ fields };

    fn from(fields: BareFields<'a>) -> PayloadText<'a> {
        PayloadText {
            kind: PayloadKind::Bare(fields),
        }
    }
}

impl<'a> PayloadText<'a> {
    /// The same payload, which was read from a line.
    pub fn read(alloc: Global, payload: Payload) -> Result<PayloadText<'a>, OutOfMemory>
        ensures { IfOk result (λ text. text ≡ payload) }
    {
        let payload = Box::new(alloc, payload)?;
        Ok(PayloadText {
            kind: PayloadKind::Read(payload),
        })
    }
}

/// How two fields compare that are alike up to these bytes. A comma ends a field, so it comes before each
/// other byte.
fn compare_next(byte: u8, other: u8) -> Ordering
    requires { byte ≢ other }
    ensures { (behind other_behind : List ℕ) → result ≡ texts_cmp (byte ∷ behind) (other ∷ other_behind) }
{
    if byte == b',' {
        Ordering::Less
    } else if other == b',' {
        Ordering::Greater
    } else {
        byte.cmp(&other)
    }
}

fn compare_texts(text: &[u8], other: &[u8]) -> Ordering
    ensures { result ≡ texts_cmp text.now other.now }
{
    for (at, byte) in text.iter().enumerate() {
        let Some(other_byte) = other.get(at) else {
            return Ordering::Greater;
        };
        if *byte != *other_byte {
            return compare_next(*byte, *other_byte);
        }
    }
    if text.len() < other.len() {
        Ordering::Less
    } else {
        Ordering::Equal
    }
}

fn compare_bare(bare: &BareFields<'_>, other: &BareFields<'_>) -> Ordering
    ensures { result ≡ payload_cmp bare.now other.now }
{
    match (bare.text, other.text) {
        (Some(text), Some(other)) => compare_texts(text, other),
        (Some(_), None) => Ordering::Greater,
        (None, Some(_)) => Ordering::Less,
        (None, None) => Ordering::Equal,
    }
}

fn compare_part_with_field(part: &[u8], field: &FieldRef<'_>) -> Ordering
    ensures { result ≡ field_cmp (Bytes part.now) field.now }
{
    field.compare_text(part).reverse()
}

fn compare_parts_with_fields(mut parts: Parts<'_>, fields: FieldRefs<'_>) -> Ordering
    ensures { result ≡ payload_cmp (map (λ part. Bytes part) parts.entry) fields.entry }
{
    for field in fields {
        let Some(part) = parts.next() else {
            return Ordering::Less;
        };
        let compared = compare_part_with_field(part, &field);
        if compared != Ordering::Equal {
            return compared;
        }
    }
    match parts.next() {
        Some(_) => Ordering::Greater,
        None => Ordering::Equal,
    }
}

fn compare_bare_with_read(bare: &BareFields<'_>, read: &Payload) -> Ordering
    ensures { result ≡ payload_cmp bare.now read.now }
{
    match bare.text {
        Some(text) => compare_parts_with_fields(Parts::new(text, b','), read.fields()),
        None if read.len() == 0 => Ordering::Equal,
        None => Ordering::Less,
    }
}

impl PartialEq for PayloadText<'_> {
    ghost use Rattle.std.specs.Cmp.{partial_equiv_from_equiv, eq_by_cmp_equiv};
    ghost use Rattle.std.specs.Ordering.{eq_by_cmp};
    ghost use Rattle.cedr_base.specs.Order.{payload_cmp};
    ghost use Rattle.cedr_base.specs.OrderLaws.{payload_total};

    ghost eq = { eq_by_cmp payload_cmp };

    ghost laws = { partial_equiv_from_equiv (eq_by_cmp_equiv payload_total) };

    fn eq(&self, other: &Self) -> bool {
        self.cmp(other).is_eq()
    }
}

impl Eq for PayloadText<'_> {
    ghost use Rattle.std.specs.Cmp.{eq_by_cmp_equiv};
    ghost use Rattle.cedr_base.specs.OrderLaws.{payload_total};

    ghost laws = { eq_by_cmp_equiv payload_total };
}

impl PartialOrd for PayloadText<'_> {
    ghost use Rattle.std.specs.Cmp.{partial_order_from_total};
    ghost use Rattle.std.specs.Ordering.{as_partial_cmp};
    ghost use Rattle.cedr_base.specs.Order.{payload_cmp};
    ghost use Rattle.cedr_base.specs.OrderLaws.{payload_total};

    ghost partial_cmp = { as_partial_cmp payload_cmp };

    ghost laws = { partial_order_from_total payload_total };

    fn partial_cmp(&self, other: &Self) -> Option<Ordering> {
        Some(self.cmp(other))
    }
}

impl Ord for PayloadText<'_> {
    ghost use Rattle.std.specs.Cmp.Rules.{comparing};
    ghost use Rattle.std.proofs.Common.{rules};
    ghost use Rattle.cedr_base.specs.Order.{payload_cmp};
    ghost use Rattle.cedr_base.specs.OrderLaws.{payload_total};

    ghost cmp = { payload_cmp };

    ghost total = { payload_total };

    ghost matches_partial_cmp = { Prim.search (comparing, rules) };

    ghost matches_eq = { Prim.search (comparing, rules) };

    fn cmp(&self, other: &Self) -> Ordering {
        match (&self.kind, &other.kind) {
            (PayloadKind::Bare(bare), PayloadKind::Bare(other)) => compare_bare(bare, other),
            (PayloadKind::Bare(bare), PayloadKind::Read(read)) => {
                compare_bare_with_read(bare, read)
            }
            (PayloadKind::Read(read), PayloadKind::Bare(bare)) => {
                compare_bare_with_read(bare, read).reverse()
            }
            (PayloadKind::Read(read), PayloadKind::Read(other)) => read.cmp(other),
        }
    }
}

/// Puts each field of the payload after a comma.
pub(crate) fn put_payload_text(
    alloc: Global,
    payload: &PayloadText<'_>,
    writer: &mut Writer<Vec<u8>>,
) -> Result<(), OutOfMemory>
    requires { IsInRow writer.old }
    ensures text { OnOk result (text_of writer.new ≡ text_of writer.old ++ payload_text payload.now) }
    ensures in_row { OnOk result (IsInRow writer.new) }
{
    match &payload.kind {
        PayloadKind::Bare(bare) => put_bare(bare, writer),
        PayloadKind::Read(read) => put_payload(alloc, read, writer),
    }
}

fn put_bare(bare: &BareFields<'_>, writer: &mut Writer<Vec<u8>>) -> Result<(), OutOfMemory>
    requires { IsInRow writer.old }
    ensures text { OnOk result (text_of writer.new ≡ text_of writer.old ++ payload_text bare.now) }
    ensures in_row { OnOk result (IsInRow writer.new) }
{
    if let Some(text) = bare.text {
        put_parts(text, writer)?;
    }
    Ok(())
}

/// Puts each field of the text after a comma.
fn put_parts(text: &[u8], writer: &mut Writer<Vec<u8>>) -> Result<(), OutOfMemory>
    requires { IsInRow writer.old }
    ensures text { OnOk result (text_of writer.new ≡ text_of writer.old ++ payload_text (texts_of text.now)) }
    ensures in_row { OnOk result (IsInRow writer.new) }
{
    for part in Parts::new(text, b',') {
        put_text(part, writer)?;
    }
    Ok(())
}
