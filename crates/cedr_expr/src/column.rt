ghost use Rattle.std.specs.Prelude.{◌≡◌};
ghost use Rattle.std.specs.Option.{option_copied};
ghost use Rattle.cedr_expr.specs.Columns.{column};

use cedr_base::{FieldRef, Payload};

/// What stands at a place that counts through the left list and on through the right one. O(1).
pub(crate) fn item_at<'a, T>(left: &'a [T], right: &'a [T], place: usize) -> Option<&'a T>
    ensures { option_copied result ≡ column left.now right.now place }
{
    if place < left.len() {
        left.get(place)
    } else {
        right.get(place - left.len())
    }
}

/// The field at such a place of a left and a right payload. O(n) in the fields before it.
pub(crate) fn field_at<'a>(
    left: &'a Payload,
    right: &'a Payload,
    place: usize,
) -> Option<FieldRef<'a>>
    ensures { result ≡ column left.now right.now place }
{
    if place < left.len() {
        left.field(place)
    } else {
        right.field(place - left.len())
    }
}
