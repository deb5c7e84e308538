ghost use Rattle.std.specs.Prelude.{◌≡◌, ◌<◌, ◌↔◌, IsTrue};
ghost use Rattle.op_group.specs.Points.{IsOpenCut};
ghost use Rattle.op_group.specs.State.{IsFirstOpen, cuts_of};

use crate::cuts::{Cuts, cut_from};
use crate::group::Groups;
use crate::points::CutPoint;
use cedr_base::{Payload, Time};
use std::collections::BTreeSet;

/// Whether some row is valid from a cut point before a mark on, and no other cut point stands between the two.
fn is_open_in(cuts: &Cuts, at: Time, mark: Time) -> bool
    requires { at < mark }
    ensures { IsTrue result ↔ IsOpenCut cuts.now.entries at mark }
{
    match cuts.get(&at) {
        Some(segment) => segment.living > 0 && cut_from(cuts, at + 1) >= mark,
        None => false,
    }
}

/// Whether a cut point before a mark is open at it in its group.
fn is_open(groups: &Groups, key: &Payload, at: Time, mark: Time) -> bool
    requires { at < mark }
    ensures { IsTrue result ↔ IsOpenCut (cuts_of groups.now.entries key.now) at mark }
{
    match groups.get(key) {
        Some(cuts) => is_open_in(cuts, at, mark),
        None => false,
    }
}

/// The first cut point that is open at a mark, or else the mark. It looks at this one, and at those before it, which
/// `forget` takes away at the same mark. O(log n) for each.
pub(crate) fn first_open(groups: &Groups, all: &BTreeSet<CutPoint>, mark: Time) -> Time
    ensures { IsFirstOpen groups.now.entries all.now.keys mark result }
{
    for point in all.iter() {
        if point.at >= mark {
            return mark;
        }
        if is_open(groups, &point.key, point.at, mark) {
            return point.at;
        }
    }
    mark
}
