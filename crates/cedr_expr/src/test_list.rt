ghost use Rattle.std.specs.Prelude.{◌≡◌, [], IfOk};
ghost use Rattle.std.specs.Result.{result_err};
ghost use Rattle.cedr_expr.specs.Tags.{side_tag, tag_of};
ghost use Rattle.cedr_expr.specs.Tests.{passes, may_pass};
ghost use Rattle.cedr_expr.specs.Types.{sides_of, has_two_types, first_bad_column, first_differing, type_fault_of};

use crate::column::item_at;
use crate::fault::TypeFault;
use crate::side::Side;
use crate::tag::tag_by;
use crate::test::{Operand, Test};
use cedr_base::{FieldType, OutOfMemory, Payload};
use std::alloc::Global;
use std::marker::Model;

/// Tests that a pair of payloads passes where it passes each. Contracts see their list.
pub struct Tests {
    tests: Vec<Test>,
}

impl Drop for Tests {
    fn drop(self) {
        let Tests { tests: _ } = self;
    }
}

impl Model for Tests {
    ghost use Rattle.std.specs.Prelude.{List};
    ghost use Rattle.cedr_expr.specs.declared.test.Test.{Test};

    ghost Value = { List Test };

    ghost view = { λ t. t.tests.items };
}

impl Tests {
    /// The tests, where they fit the types of the left and the right payload. It takes no memory. At a fault
    /// the tests are dropped.
    pub fn new(
        tests: Vec<Test>,
        left: &[FieldType],
        right: &[FieldType],
    ) -> Result<Tests, TypeFault>
        ensures made { IfOk result (λ made. made ≡ tests.items) }
        ensures fault { result_err result ≡ type_fault_of tests.items left.now right.now }
    {
        if let Some(test) = find_bad_column(tests.as_slice(), left, right) {
            return Err(TypeFault::BadColumn { test });
        }
        if let Some(test) = find_differing(tests.as_slice(), left, right) {
            return Err(TypeFault::TypeDiffers { test });
        }
        Ok(Tests { tests })
    }

    /// Whether the payloads pass every test. A test whose column isn't there, or whose sides differ in type,
    /// doesn't hold. It takes no memory, and for each test O(n) in the fields before its columns and in its texts.
    pub fn holds(&self, left: &Payload, right: &Payload) -> bool
        ensures { result ≡ passes self.now left.now right.now }
    {
        self.tests.iter().all(|test| test.holds(left, right))
    }

    /// Whether a left payload passes every test beside a right one of no fields. It takes no memory, and what `holds` costs.
    pub fn holds_alone(&self, payload: &Payload) -> bool
        ensures { result ≡ passes self.now payload.now [] }
    {
        self.tests.iter().all(|test| test.holds_alone(payload))
    }

    /// Whether the payloads pass every test whose columns they have. Where they don't, they fail whatever columns come after
    /// them. It takes no memory, and what `holds` costs.
    pub fn may_hold(&self, left: &Payload, right: &Payload) -> bool
        ensures { result ≡ may_pass self.now left.now right.now }
    {
        self.tests.iter().all(|test| test.may_hold(left, right))
    }

    /// A number from 1 to 2^62 that is the same for a left payload of this many fields and a right payload where they
    /// pass the tests: it depends on the fields alone that equality tests compare between the two sides, so that rows
    /// which may pass can be found by it. It takes no memory. O(n) in these fields.
    pub fn tag(&self, side: Side, width: usize, payload: &Payload) -> u64
        ensures { result ≡ tag_of side width self.now payload.now }
    {
        tag_by(self.as_slice(), side, width, payload)
    }

    /// The tag of a payload beside left payloads of this many fields: 0 for a left payload of another number of them.
    /// It takes no memory, and what `tag` costs.
    pub fn side_tag(&self, side: Side, width: usize, payload: &Payload) -> u64
        ensures { result ≡ side_tag side width self.now payload.now }
    {
        match side {
            Side::Left => {
                if payload.len() == width {
                    self.tag(Side::Left, width, payload)
                } else {
                    0
                }
            }
            Side::Right => self.tag(Side::Right, width, payload),
        }
    }

    /// The tests, in the order in which they were given. It takes no memory.
    pub fn as_slice(&self) -> &[Test]
        ensures { result.now ≡ self.now }
    {
        self.tests.as_slice()
    }

    pub fn copy(&self, alloc: Global) -> Result<Tests, OutOfMemory>
        ensures { IfOk result (λ tests. tests ≡ self.now) }
    {
        let mut tests = Vec::with_capacity(alloc, self.tests.len())?;
        for test in &self.tests {
            let copied = test.copy(alloc)?;
            tests.push(copied)?;
        }
        Ok(Tests { tests })
    }
}

/// The types of a test's two sides, where its columns are there.
fn sides_of(test: &Test, left: &[FieldType], right: &[FieldType]) -> Option<(FieldType, FieldType)>
    ensures { result ≡ sides_of left.now right.now test.now }
{
    let one = *item_at(left, right, test.left)?;
    let other = match &test.right {
        Operand::Column(place) => *item_at(left, right, *place)?,
        Operand::Number(_) => FieldType::Number,
        Operand::Bytes(_) => FieldType::Bytes,
    };
    Some((one, other))
}

fn has_two_types(test: &Test, left: &[FieldType], right: &[FieldType]) -> bool
    ensures { result ≡ has_two_types left.now right.now test.now }
{
    match sides_of(test, left, right) {
        Some((one, other)) => one != other,
        None => false,
    }
}

fn find_bad_column(tests: &[Test], left: &[FieldType], right: &[FieldType]) -> Option<usize>
    ensures { result ≡ first_bad_column tests.now left.now right.now }
{
    tests
        .iter()
        .position(|test| sides_of(test, left, right).is_none())
}

fn find_differing(tests: &[Test], left: &[FieldType], right: &[FieldType]) -> Option<usize>
    ensures { result ≡ first_differing tests.now left.now right.now }
{
    tests
        .iter()
        .position(|test| has_two_types(test, left, right))
}
