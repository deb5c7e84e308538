ghost use Rattle.std.specs.Prelude.{◌≡◌, IfOk, OnOk, OnErr, ◌++◌, ◌∷◌, [], List, length};
ghost use Rattle.std.specs.List.{slice_get};
ghost use Rattle.cedr_base.specs.declared.field.Field.{Field as AnyField};
ghost use Rattle.cedr_base.specs.Stored.{StoresFields};
ghost use Rattle.cedr_base.specs.StoredLaws.{stored_fields};
ghost use Rattle.cedr_base.specs.FieldCodes.{payload_code, FitFields};

use crate::code_buffer::CodeBuffer;
use crate::code_bytes::CodeBytes;
use crate::code_order::compare_codes;
use crate::field::Field;
use crate::field_ref::FieldRef;
use crate::field_refs::FieldRefs;
use crate::memory::OutOfMemory;
use crate::writer::{PayloadWriter, together};
use std::alloc::Global;
use std::cmp::Ordering;
use std::marker::Model;

/// An event's values, one per column. Contracts see the list of its fields.
///
/// Payloads compare field by field, and a prefix comes first. A copy shares the memory of its source.
pub struct Payload {
    alloc: Global,
    bytes: CodeBytes,
    ghost held: { (fields : List AnyField) × StoresFields bytes fields } by { stored_fields bytes },
}

impl Model for Payload {
    ghost use Rattle.std.specs.Prelude.{List};
    ghost use Rattle.cedr_base.specs.declared.field.Field.{Field};

    ghost Value = { List Field };

    ghost view = { λ p. p.held.0 };
}

impl Payload {
    /// A payload with no field. It takes no memory.
    pub fn new(alloc: Global) -> Payload
        ensures { result ≡ [] }
    {
        let bytes = CodeBytes::Short {
            bytes: [0; 29],
            len: 0,
            width: 0,
        };
        Payload { alloc, bytes }
    }

    /// The fields whose code is stored so.
    pub(crate) fn stored(alloc: Global, bytes: CodeBytes) -> Payload
        requires { (fields : List AnyField) × StoresFields bytes fields }
        ensures { (fields : List AnyField) → StoresFields bytes fields → result ≡ fields }
    {
        Payload { alloc, bytes }
    }

    /// A payload of these fields. O(n) in what they hold. A [`PayloadWriter`] makes one without them.
    pub fn from_fields(alloc: Global, fields: Vec<Field>) -> Result<Payload, OutOfMemory>
        ensures { IfOk result (λ p. p ≡ fields.items) }
    {
        let mut writer = PayloadWriter::new(alloc);
        for field in &fields {
            writer = writer.with_field(field)?;
        }
        writer.finish()
    }

    /// Adds a field at the end. It copies the other fields: to make a payload of several, use a [`PayloadWriter`]. Where
    /// memory runs out it is as before.
    pub fn push(&mut self, field: Field) -> Result<(), OutOfMemory>
        ensures ok { OnOk result (self.new ≡ self.old ++ field ∷ []) }
        ensures err { OnErr result (self.new ≡ self.old) }
    {
        *self = extended(self, &field)?;
        Ok(())
    }

    /// How many fields it has. O(1).
    pub fn len(&self) -> usize
        ensures { result ≡ length self.now }
    {
        self.bytes.width()
    }

    /// The code of its fields, by which it compares. O(1).
    pub fn code(&self) -> &[u8]
        ensures code { result.now ≡ payload_code self.now }
        ensures fits { FitFields self.now }
    {
        self.bytes.bytes()
    }

    /// Its fields, in their order. O(1).
    pub fn fields(&self) -> FieldRefs<'_>
        ensures { result ≡ self.now }
    {
        FieldRefs::new(self.code())
    }

    /// The field in a column, where there is one. O(n) in the fields before it. For several columns go over `fields`.
    pub fn field(&self, column: usize) -> Option<FieldRef<'_>>
        ensures { result ≡ slice_get self.now column }
    {
        self.fields().find_at(column)
    }

    /// The fields of this payload, and then those of the other. O(n) in what they hold.
    pub fn joined(&self, alloc: Global, other: &Payload) -> Result<Payload, OutOfMemory>
        ensures { IfOk result (λ p. p ≡ self.now ++ other.now) }
    {
        let width = together(self.len(), other.len())?;
        let code = CodeBuffer::of_two(alloc, self.code(), other.code())?;
        let bytes = code.finish(width)?;
        Ok(Payload::stored(alloc, bytes))
    }

    /// A payload that shares the memory of this one. It takes none itself. O(1).
    pub fn copy(&self, alloc: Global) -> Result<Payload, OutOfMemory>
        ensures { IfOk result (λ p. p ≡ self.now) }
    {
        let bytes = self.bytes.copy()?;
        Ok(Payload::stored(alloc, bytes))
    }
}

/// The fields of a payload, and one more.
fn extended(payload: &Payload, field: &Field) -> Result<Payload, OutOfMemory>
    ensures { IfOk result (λ p. p ≡ payload.now ++ field.now ∷ []) }
{
    let writer = PayloadWriter::new(payload.alloc).with_all(payload)?;
    writer.with_field(field)?.finish()
}

// By hand, as for each type that other crates hold in vectors, maps, options or boxes: a derived drop is proved anew in
// each of those crates, and one by hand is called. The pattern names every field, by which the fields are dropped.
impl Drop for Payload {
    fn drop(self) {
        let Payload { alloc: _, bytes: _ } = self;
    }
}

impl PartialEq for Payload {
    ghost use Rattle.std.specs.Cmp.{partial_equiv_from_equiv, eq_by_cmp_equiv};
    ghost use Rattle.std.specs.Ordering.{eq_by_cmp};
    ghost use Rattle.cedr_base.specs.Order.{payload_cmp};
    ghost use Rattle.cedr_base.specs.OrderLaws.{payload_total};

    ghost eq = { eq_by_cmp payload_cmp };

    ghost laws = { partial_equiv_from_equiv (eq_by_cmp_equiv payload_total) };

    fn eq(&self, other: &Payload) -> bool {
        self.cmp(other).is_eq()
    }
}

impl Eq for Payload {
    ghost use Rattle.std.specs.Cmp.{eq_by_cmp_equiv};
    ghost use Rattle.cedr_base.specs.OrderLaws.{payload_total};

    ghost laws = { eq_by_cmp_equiv payload_total };
}

impl PartialOrd for Payload {
    ghost use Rattle.std.specs.Cmp.{partial_order_from_total};
    ghost use Rattle.std.specs.Ordering.{as_partial_cmp};
    ghost use Rattle.cedr_base.specs.Order.{payload_cmp};
    ghost use Rattle.cedr_base.specs.OrderLaws.{payload_total};

    ghost partial_cmp = { as_partial_cmp payload_cmp };

    ghost laws = { partial_order_from_total payload_total };

    fn partial_cmp(&self, other: &Payload) -> Option<Ordering> {
        Some(self.cmp(other))
    }
}

impl Ord for Payload {
    ghost use Rattle.std.specs.Cmp.Rules.{comparing};
    ghost use Rattle.std.proofs.Common.{rules};
    ghost use Rattle.cedr_base.specs.Order.{payload_cmp};
    ghost use Rattle.cedr_base.specs.OrderLaws.{payload_total};

    ghost cmp = { payload_cmp };

    ghost total = { payload_total };

    ghost matches_partial_cmp = { Prim.search (comparing, rules) };

    ghost matches_eq = { Prim.search (comparing, rules) };

    fn cmp(&self, other: &Payload) -> Ordering {
        compare_codes(self.code(), other.code())
    }
}
