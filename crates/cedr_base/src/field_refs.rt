ghost use Rattle.std.specs.Prelude.{◌≡◌, ◌<◌, ◌∷◌, List, length, drop};
ghost use Rattle.std.specs.List.{slice_get};
ghost use Rattle.std.specs.Iterator.{YieldsFirst, item_count};
ghost use Rattle.cedr_base.specs.declared.field.Field.{Field as AnyField};
ghost use Rattle.cedr_base.specs.Stored.{AreCodesOf};
ghost use Rattle.cedr_base.specs.StoredLaws.{fields_of_codes};

use crate::field_code::field_len;
use crate::field_ref::FieldRef;
use std::marker::Model;

/// The fields of a payload that weren't taken yet, in their order. Contracts see the list of them. O(1) for each number,
/// O(n) for a text.
pub struct FieldRefs<'a> {
    rest: &'a [u8],
    ghost held: { (fields : List AnyField) × AreCodesOf rest.now fields } by { fields_of_codes rest.now },
}

impl<'a> Model for FieldRefs<'a> {
    ghost use Rattle.std.specs.Prelude.{List};
    ghost use Rattle.cedr_base.specs.declared.field.Field.{Field};

    ghost Value = { List Field };

    ghost view = { λ f. f.held.0 };
}

impl Drop for FieldRefs<'_> {
    fn drop(self) {
        let FieldRefs { rest: _ } = self;
    }
}

impl<'a> FieldRefs<'a> {
    /// The fields whose codes these bytes are.
    pub(crate) fn new(rest: &'a [u8]) -> FieldRefs<'a>
        requires { (fields : List AnyField) × AreCodesOf rest.now fields }
        ensures { (fields : List AnyField) → AreCodesOf rest.now fields → result ≡ fields }
    {
        FieldRefs { rest }
    }

    /// The field that stands at a place among them. O(n) in those before it.
    pub(crate) fn find_at(self, at: usize) -> Option<FieldRef<'a>>
        ensures { result ≡ slice_get self.entry at }
    {
        first_field(behind(self.rest, at))
    }
}

impl<'a> Iterator for FieldRefs<'a> {
    type Item = FieldRef<'a>;

    ghost next_gives = { YieldsFirst (λ fields. fields) };

    ghost remaining = { item_count (λ fields. fields) };

    fn next(&mut self) -> Option<FieldRef<'a>> {
        if self.rest.is_empty() {
            return None;
        }
        let (first, others) = cut_first(self.rest);
        *self = others;
        Some(first)
    }
}

/// The codes that come behind so many fields.
fn behind(bytes: &[u8], count: usize) -> &[u8]
    ensures { (fields : List AnyField) → AreCodesOf bytes.now fields → AreCodesOf result.now (drop count fields) }
{
    let mut rest = bytes;
    let mut before = count;
    while before > 0 && !rest.is_empty() {
        rest = &rest[field_len(rest)..];
        before -= 1;
    }
    rest
}

/// The first of some fields by their code.
fn first_field(bytes: &[u8]) -> Option<FieldRef<'_>>
    requires { (fields : List AnyField) × AreCodesOf bytes.now fields }
    ensures { (fields : List AnyField) → AreCodesOf bytes.now fields → result ≡ slice_get fields 0 }
{
    if bytes.is_empty() {
        return None;
    }
    Some(FieldRef::new(&bytes[..field_len(bytes)]))
}

/// The first of some fields by their code, and the others.
fn cut_first(bytes: &[u8]) -> (FieldRef<'_>, FieldRefs<'_>)
    requires some { 0 < length bytes.now }
    requires codes { (fields : List AnyField) × AreCodesOf bytes.now fields }
    ensures { (fields : List AnyField) → AreCodesOf bytes.now fields → fields ≡ result.0 ∷ result.1 }
{
    let len = field_len(bytes);
    let first = FieldRef::new(&bytes[..len]);
    let others = FieldRefs::new(&bytes[len..]);
    (first, others)
}
