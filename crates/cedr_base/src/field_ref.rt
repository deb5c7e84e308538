ghost use Rattle.std.specs.Prelude.{◌≡◌, ◌++◌, ℕ, List, Bool, IfSome, IfOk, OnOk};
ghost use Rattle.cedr_base.specs.declared.field.Field.{Field as AnyField};
ghost use Rattle.cedr_base.specs.declared.field.Field.TheVariants.{Number, Bytes};
ghost use Rattle.cedr_base.specs.Order.{field_cmp};
ghost use Rattle.cedr_base.specs.FieldCodes.{FitsField, field_code, is_numeric, number_in};
ghost use Rattle.cedr_base.specs.Stored.{IsCodeOf};
ghost use Rattle.cedr_base.specs.StoredLaws.{one_field};

use crate::field::Field;
use crate::field_code::{TEXT_TAG, append_text, read_number};
use crate::memory::OutOfMemory;
use crate::text::Text;
use crate::text_code::{compare_with_text, plain_text};
use std::alloc::Global;
use std::cmp::Ordering;
use std::marker::Model;

/// A field where it stands in a payload. Contracts see the field.
///
/// It compares as the fields do. O(n) in a text's bytes.
pub struct FieldRef<'a> {
    bytes: &'a [u8],
    ghost held: { (field : AnyField) × IsCodeOf bytes.now field } by { one_field bytes.now },
}

impl<'a> Model for FieldRef<'a> {
    ghost use Rattle.cedr_base.specs.declared.field.Field.{Field};

    ghost Value = { Field };

    ghost view = { λ f. f.held.0 };
}

impl Drop for FieldRef<'_> {
    fn drop(self) {
        let FieldRef { bytes: _ } = self;
    }
}

impl<'a> FieldRef<'a> {
    /// The field whose code these bytes are.
    pub(crate) fn new(bytes: &'a [u8]) -> FieldRef<'a>
        requires { (field : AnyField) × IsCodeOf bytes.now field }
        ensures { (field : AnyField) → IsCodeOf bytes.now field → result ≡ field }
    {
        FieldRef { bytes }
    }

    /// The code of the field, by which it compares. O(1).
    pub fn code(&self) -> &'a [u8]
        ensures code { result.now ≡ field_code self.now }
        ensures fits { FitsField self.now }
    {
        self.bytes
    }

    /// Whether it is a number. O(1).
    pub fn is_number(&self) -> bool
        ensures { result ≡ is_numeric self.now }
    {
        match self.bytes.first() {
            Some(tag) => *tag < TEXT_TAG,
            None => false,
        }
    }

    /// The number, where it is one. O(1).
    pub fn number(&self) -> Option<i128>
        ensures { result ≡ number_in self.now }
    {
        read_number(self.bytes)
    }

    /// The bytes of a text as they stand: None for a number, and for a text that has a byte 0 or 1. No clause says when there
    /// are none: whoever gets none asks `to_field`. O(n).
    pub fn plain_text(&self) -> Option<&'a [u8]>
        ensures { IfSome result (λ text. self.now ≡ Bytes text.now) }
    {
        plain_text(self.bytes)
    }

    /// Appends the bytes of a text. O(n). What it appends for a number isn't determined. Where memory runs out a part may
    /// stand there.
    pub fn append_text(&self, out: &mut Vec<u8>) -> Result<(), OutOfMemory>
        ensures { (text : List ℕ) → self.now ≡ Bytes text → OnOk result (out.new.items ≡ out.old.items ++ text) }
    {
        append_text(self.bytes, out)
    }

    /// A copy of the field, with memory of its own for a text. O(n).
    pub fn to_field(&self, alloc: Global) -> Result<Field, OutOfMemory>
        ensures { IfOk result (λ f. f ≡ self.now) }
    {
        if let Some(number) = self.number() {
            return Ok(Field::Number(number));
        }
        let mut bytes = Vec::new(alloc);
        self.append_text(&mut bytes)?;
        Ok(Field::Bytes(Text::from(bytes)))
    }

    /// How it compares with a number. It takes no memory.
    pub fn compare_number(&self, number: i128) -> Ordering
        ensures { result ≡ field_cmp self.now (Number number) }
    {
        match self.number() {
            Some(own) => own.cmp(&number),
            None => Ordering::Greater,
        }
    }

    /// How it compares with a text. It takes no memory. O(n).
    pub fn compare_text(&self, text: &[u8]) -> Ordering
        ensures { result ≡ field_cmp self.now (Bytes text.now) }
    {
        compare_with_text(self.bytes, text)
    }
}

impl PartialEq for FieldRef<'_> {
    ghost use Rattle.std.specs.Cmp.{partial_equiv_from_equiv, eq_by_cmp_equiv};
    ghost use Rattle.std.specs.Ordering.{eq_by_cmp};
    ghost use Rattle.cedr_base.specs.Order.{field_cmp};
    ghost use Rattle.cedr_base.specs.OrderLaws.{field_total};

    ghost eq = { eq_by_cmp field_cmp };

    ghost laws = { partial_equiv_from_equiv (eq_by_cmp_equiv field_total) };

    fn eq(&self, other: &Self) -> bool {
        self.cmp(other).is_eq()
    }
}

impl Eq for FieldRef<'_> {
    ghost use Rattle.std.specs.Cmp.{eq_by_cmp_equiv};
    ghost use Rattle.cedr_base.specs.OrderLaws.{field_total};

    ghost laws = { eq_by_cmp_equiv field_total };
}

impl PartialOrd for FieldRef<'_> {
    ghost use Rattle.std.specs.Cmp.{partial_order_from_total};
    ghost use Rattle.std.specs.Ordering.{as_partial_cmp};
    ghost use Rattle.cedr_base.specs.Order.{field_cmp};
    ghost use Rattle.cedr_base.specs.OrderLaws.{field_total};

    ghost partial_cmp = { as_partial_cmp field_cmp };

    ghost laws = { partial_order_from_total field_total };

    fn partial_cmp(&self, other: &Self) -> Option<Ordering> {
        Some(self.cmp(other))
    }
}

impl Ord for FieldRef<'_> {
    ghost use Rattle.std.specs.Cmp.Rules.{comparing};
    ghost use Rattle.std.proofs.Common.{rules};
    ghost use Rattle.cedr_base.specs.Order.{field_cmp};
    ghost use Rattle.cedr_base.specs.OrderLaws.{field_total};

    ghost cmp = { field_cmp };

    ghost total = { field_total };

    ghost matches_partial_cmp = { Prim.search (comparing, rules) };

    ghost matches_eq = { Prim.search (comparing, rules) };

    fn cmp(&self, other: &Self) -> Ordering {
        self.code().cmp(&other.code())
    }
}
