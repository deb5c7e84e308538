ghost use Rattle.std.specs.Prelude.{◌≡◌, ◌+◌, ◌||◌, not, nat_lt, [], length, IfOk};
ghost use Rattle.cedr_base.specs.declared.field.Field.TheVariants.{Number, Bytes};
ghost use Rattle.cedr_expr.specs.Tests.{accepts, compares, operand_within, is_within, test_holds};

use crate::column::field_at;
use cedr_base::{FieldRef, OutOfMemory, Payload, Text};
use std::alloc::Global;
use std::cmp::Ordering;

/// How the two sides of a test have to compare. Numbers compare by value, texts by their bytes.
#[derive(Clone, Copy, Debug, PartialEq, Eq)]
pub enum Op {
    Eq,
    Ne,
    Lt,
    Le,
    Gt,
    Ge,
}

/// The right side of a test. Columns count from 0 through a left payload and on through a right one.
#[derive(Drop)]
pub enum Operand {
    Column(usize),
    Number(i64),
    Bytes(Text),
}

/// A test of a pair of payloads. Its left side is a column, which counts like that of an `Operand`.
pub struct Test {
    pub left: usize,
    pub op: Op,
    pub right: Operand,
}

impl Drop for Test {
    fn drop(self) {
        let Test {
            left: _,
            op: _,
            right: _,
        } = self;
    }
}

impl Op {
    /// Whether sides that compare so pass.
    fn accepts(self, order: Ordering) -> bool
        ensures { result ≡ accepts self order }
    {
        match self {
            Op::Eq => order.is_eq(),
            Op::Ne => order.is_ne(),
            Op::Lt => order.is_lt(),
            Op::Le => order.is_le(),
            Op::Gt => order.is_gt(),
            Op::Ge => order.is_ge(),
        }
    }
}

impl Operand {
    pub(crate) fn copy(&self, alloc: Global) -> Result<Operand, OutOfMemory>
        ensures { IfOk result (λ operand. operand ≡ self.now) }
    {
        match self {
            Operand::Column(place) => Ok(Operand::Column(*place)),
            Operand::Number(number) => Ok(Operand::Number(*number)),
            Operand::Bytes(text) => {
                let copied = text.copy(alloc)?;
                Ok(Operand::Bytes(copied))
            }
        }
    }

    fn is_within(&self, left: usize, right: usize) -> bool
        ensures { result ≡ operand_within (left + right) self.now }
    {
        match self {
            Operand::Column(place) => is_column(*place, left, right),
            Operand::Number(_) | Operand::Bytes(_) => true,
        }
    }
}

impl Test {
    pub(crate) fn copy(&self, alloc: Global) -> Result<Test, OutOfMemory>
        ensures { IfOk result (λ test. test ≡ self.now) }
    {
        let right = self.right.copy(alloc)?;
        Ok(Test {
            left: self.left,
            op: self.op,
            right,
        })
    }

    /// Whether the test holds for these payloads. It takes no memory.
    pub(crate) fn holds(&self, left: &Payload, right: &Payload) -> bool
        ensures { result ≡ test_holds self.now left.now right.now }
    {
        let Some(field) = field_at(left, right, self.left) else {
            return false;
        };
        match &self.right {
            Operand::Column(place) => match field_at(left, right, *place) {
                Some(other) => field_passes(&field, self.op, &other),
                None => false,
            },
            Operand::Number(number) => number_passes(&field, self.op, i128::from(*number)),
            Operand::Bytes(text) => text_passes(&field, self.op, text),
        }
    }

    /// Whether the test holds for a left payload beside a right one of no fields. It takes no memory.
    pub(crate) fn holds_alone(&self, payload: &Payload) -> bool
        ensures { result ≡ test_holds self.now payload.now [] }
    {
        let Some(field) = payload.field(self.left) else {
            return false;
        };
        match &self.right {
            Operand::Column(place) => match payload.field(*place) {
                Some(other) => field_passes(&field, self.op, &other),
                None => false,
            },
            Operand::Number(number) => number_passes(&field, self.op, i128::from(*number)),
            Operand::Bytes(text) => text_passes(&field, self.op, text),
        }
    }

    /// Whether both sides are columns of payloads of so many fields, or constants.
    fn is_within(&self, left: usize, right: usize) -> bool
        ensures { result ≡ is_within (left + right) self.now }
    {
        is_column(self.left, left, right) && self.right.is_within(left, right)
    }

    /// Whether the test holds for these fields, or has a column that comes after them. It takes no memory.
    pub(crate) fn may_hold(&self, left: &Payload, right: &Payload) -> bool
        ensures { result ≡ (not (is_within (length left.now + length right.now) self.now) || test_holds self.now left.now right.now) }
    {
        !self.is_within(left.len(), right.len()) || self.holds(left, right)
    }
}

/// Whether a column is one of payloads of so many fields, whose number may be over what a `usize` holds.
fn is_column(place: usize, left: usize, right: usize) -> bool
    ensures { result ≡ nat_lt place (left + right) }
{
    place < left || place - left < right
}

#[tactic(auto, using(crate::proofs::CompareLemmas::compares_as))]
fn field_passes(field: &FieldRef<'_>, op: Op, other: &FieldRef<'_>) -> bool
    ensures { result ≡ compares field.now op other.now }
{
    field.is_number() == other.is_number() && op.accepts(field.cmp(other))
}

#[tactic(auto, using(crate::proofs::CompareLemmas::compares_as))]
fn number_passes(field: &FieldRef<'_>, op: Op, other: i128) -> bool
    ensures { result ≡ compares field.now op (Number other) }
{
    field.is_number() && op.accepts(field.compare_number(other))
}

#[tactic(auto, using(crate::proofs::CompareLemmas::compares_as))]
fn text_passes(field: &FieldRef<'_>, op: Op, other: &Text) -> bool
    ensures { result ≡ compares field.now op (Bytes other.now) }
{
    !field.is_number() && op.accepts(field.compare_text(other.bytes()))
}
