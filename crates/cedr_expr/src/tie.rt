ghost use Rattle.std.specs.Prelude.{◌≡◌};
ghost use Rattle.cedr_expr.specs.Ties.{split, places, tied_field};

use crate::side::Side;
use crate::test::{Op, Operand, Test};
use cedr_base::{FieldRef, Payload};

/// The places in a left and in a right payload of two columns on different sides.
fn split(width: usize, one: usize, other: usize) -> Option<(usize, usize)>
    ensures { result ≡ split width one other }
{
    if one < width && width <= other {
        Some((one, other - width))
    } else if other < width && width <= one {
        Some((other, one - width))
    } else {
        None
    }
}

/// The places in a left and in a right payload of the two fields that an equality test compares.
fn places(width: usize, test: &Test) -> Option<(usize, usize)>
    ensures { result ≡ places width test.now }
{
    match (test.op, &test.right) {
        (Op::Eq, Operand::Column(other)) => split(width, test.left, *other),
        _ => None,
    }
}

/// The field of one side's payload that a test wants equal to a field of the other side, where left payloads have this
/// many fields. None where the test wants nothing of the kind, or the payload lacks the field. It takes no memory. O(n) in the
/// fields before it.
pub fn tied_field<'a>(
    side: Side,
    width: usize,
    payload: &'a Payload,
    test: &Test,
) -> Option<FieldRef<'a>>
    ensures { result ≡ tied_field side width payload.now test.now }
{
    let (left, right) = places(width, test)?;
    match side {
        Side::Left => payload.field(left),
        Side::Right => payload.field(right),
    }
}
