ghost use Rattle.std.specs.Prelude.{◌≡◌, ◌<◌, ◌↔◌, ℕ, List, None, true, IfSome, IfNone, IsTrue, length, is_some, nat_lt, nat_eq, ◌&&◌, if◌then◌else◌};
ghost use Rattle.std.specs.BTreeMap.{IsOrdered};
ghost use Rattle.std.specs.Ordering.{nat_cmp};
ghost use Rattle.cedr_base.specs.declared.row.Row.{Row};
ghost use Rattle.op_group.specs.Groups.{Grouping};
ghost use Rattle.op_group.specs.Cuts.{segment_at, IsEdit};
ghost use Rattle.op_group.specs.Points.{IsFirstTaken, NoneBefore, Leaves, is_empty_from, left_from};
ghost use Rattle.op_group.specs.State.{KeepsGroups, KeepsFields, Settles};

use crate::bags::{Bags, forget_fields};
use crate::cuts::Cuts;
use crate::group::Groups;
use crate::points::{CutPoint, Points};
use cedr_base::Time;
use std::collections::BTreeSet;

/// Takes the first cut point out of a set, where it stands before a mark.
fn take_first(due: &mut BTreeSet<CutPoint>, mark: Time) -> Option<CutPoint>
    ensures some { IfSome result (IsFirstTaken due.old.keys due.new.keys mark) }
    ensures fewer { IfSome result (λ _. length due.new.keys < length due.old.keys) }
    ensures none { IfNone result (NoneBefore due.new.keys mark) }
    ensures same { IfNone result (due.new.keys ≡ due.old.keys) }
{
    match due.first() {
        Some(point) if point.at < mark => due.pop_first(),
        _ => None,
    }
}

/// Takes the first cut point of a group away, where it stands before a time.
fn take_before(cuts: &mut Cuts, at: Time) -> Option<Time>
    ensures some { IfSome result (λ t. (t < at) × (is_some (segment_at t cuts.old.entries) ≡ true) × IsEdit t None cuts.old.entries cuts.new.entries) }
    ensures fewer { IfSome result (λ _. length cuts.new.entries < length cuts.old.entries) }
    ensures none { IfNone result ((u : ℕ) → u < at → segment_at u cuts.new.entries ≡ None) }
    ensures same { IfNone result (cuts.new.entries ≡ cuts.old.entries) }
{
    match cuts.first_key_value() {
        Some((first, _)) if *first < at => match cuts.pop_first() {
            Some((before, _)) => Some(before),
            None => None,
        },
        _ => None,
    }
}

/// A cut point's group loses the cut points before it, and the set of all cut points loses them too.
fn drop_before(all: &mut BTreeSet<CutPoint>, cuts: &mut Cuts, point: &mut CutPoint)
    ensures cuts { (u : ℕ) → segment_at u cuts.new.entries ≡ (if nat_lt u point.old.at then None else segment_at u cuts.old.entries) }
    ensures points { Leaves point.old.key cuts.old.entries cuts.new.entries all.old.keys all.new.keys }
    ensures point { point.new ≡ point.old }
{
    let at = point.at;
    while let Some(before) = take_before(cuts, at) {
        point.at = before;
        all.remove(&*point);
    }
    point.at = at;
}

/// Whether nothing is valid from a cut point on.
fn is_empty_from(cuts: &Cuts, at: Time) -> bool
    ensures { result ≡ is_empty_from (segment_at at cuts.now.entries) }
{
    match cuts.get(&at) {
        Some(segment) => segment.living == 0,
        None => false,
    }
}

/// A group loses a cut point from which on nothing is valid, and the set of all cut points loses it too.
fn drop_empty(all: &mut BTreeSet<CutPoint>, cuts: &mut Cuts, point: &CutPoint)
    ensures cuts { (u : ℕ) → segment_at u cuts.new.entries ≡ (if nat_eq u point.now.at && is_empty_from (segment_at u cuts.old.entries) then None else segment_at u cuts.old.entries) }
    ensures points { Leaves point.now.key cuts.old.entries cuts.new.entries all.old.keys all.new.keys }
{
    if is_empty_from(cuts, point.at) {
        cuts.remove(&point.at);
        all.remove(point);
    }
}

/// A group loses what was before a cut point, and the cut point itself where nothing is valid from it on. It says
/// whether the group has no cut point any more.
fn settle_cuts(all: &mut BTreeSet<CutPoint>, cuts: &mut Cuts, point: &mut CutPoint) -> bool
    ensures cuts { (u : ℕ) → segment_at u cuts.new.entries ≡ left_from point.old.at cuts.old.entries u }
    ensures points { Leaves point.old.key cuts.old.entries cuts.new.entries all.old.keys all.new.keys }
    ensures point { point.new ≡ point.old }
    ensures ordered { IsOrdered nat_cmp cuts.new }
    ensures empty { IsTrue result ↔ (length cuts.new.entries ≡ 0) }
{
    drop_before(all, cuts, point);
    drop_empty(all, cuts, point);
    cuts.len() == 0
}

/// A group loses what was before one of its cut points, and the cut point itself where nothing is valid from it on.
/// Where no cut point is left the group goes.
fn settle(groups: &mut Groups, all: &mut BTreeSet<CutPoint>, point: CutPoint)
    ensures { Settles point.at point.key groups.old.entries groups.new.entries all.old.keys all.new.keys }
{
    let mut point = point;
    let is_gone = match groups.get_mut(&point.key) {
        Some(cuts) => settle_cuts(all, cuts, &mut point),
        None => false,
    };
    if is_gone {
        groups.remove(&point.key);
    }
}

/// Forgets what is before a mark: each group keeps of the cut points before it the last one, where some row is valid
/// from it on, and of its fields what lives from there on. O(log n) for each cut point that it forgets or that the mark
/// passes, and for each piece of a field's life. It takes no memory.
pub(crate) fn forget(groups: &mut Groups, points: &mut Points, bags: &mut Bags, mark: Time)
    ensures keeps { (g : Grouping) (rows : List Row) → KeepsGroups g groups.old.entries points.old.all.keys points.old.due.keys rows mark → KeepsGroups g groups.new.entries points.new.all.keys points.new.due.keys rows mark }
    ensures fields { (g : Grouping) (rows : List Row) → KeepsFields g bags.old points.old.due.keys rows mark → KeepsFields g bags.new points.new.due.keys rows mark }
    ensures passed { NoneBefore points.new.due.keys mark }
{
    bags.passed = bags.passed.max(mark);
    while let Some(point) = take_first(&mut points.due, mark) {
        forget_fields(bags, &point.key, point.at);
        settle(groups, &mut points.all, point);
    }
}
