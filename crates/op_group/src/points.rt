ghost use Rattle.std.specs.Prelude.{◌≡◌, ◌<◌, OnOk, is_some};
ghost use Rattle.op_group.specs.Cuts.{segment_at};
ghost use Rattle.op_group.specs.Points.{has_point, Places, Had, Follows};

use crate::cuts::Cuts;
use cedr_base::{OutOfMemory, Payload, Time};
use std::alloc::Global;
use std::collections::BTreeSet;

/// A cut point of a group. Cut points compare by their times, then by the keys of their groups.
#[derive(PartialEq, Eq, PartialOrd, Ord, Drop)]
pub(crate) struct CutPoint {
    pub(crate) at: Time,
    pub(crate) key: Payload,
}

/// The cut points of all groups, in order of time: all of them, and those that no mark has passed yet.
#[derive(Drop)]
pub(crate) struct Points {
    pub(crate) all: BTreeSet<CutPoint>,
    pub(crate) due: BTreeSet<CutPoint>,
}

/// A set of cut points has one, or it doesn't, as it had it or didn't. Only what the set gains is copied.
fn place(
    alloc: Global,
    points: &mut BTreeSet<CutPoint>,
    point: &CutPoint,
    was: bool,
    there: bool,
) -> Result<(), OutOfMemory>
    ensures { OnOk result (has_point points.old.keys point.now.at point.now.key ≡ was → Places points.old.keys points.new.keys point.now.at point.now.key there) }
{
    if was == there {
        return Ok(());
    }
    if was {
        points.remove(point);
        return Ok(());
    }
    let key = point.key.copy(alloc)?;
    let at = point.at;
    points.insert(CutPoint { at, key })?;
    Ok(())
}

/// The cut points of all groups have one, or they don't, as they had it or didn't. One that comes isn't passed yet.
fn place_both(
    alloc: Global,
    points: &mut Points,
    point: &CutPoint,
    was: bool,
    there: bool,
) -> Result<(), OutOfMemory>
    ensures all { OnOk result (has_point points.old.all.keys point.now.at point.now.key ≡ was → Places points.old.all.keys points.new.all.keys point.now.at point.now.key there) }
    ensures due { OnOk result (has_point points.old.due.keys point.now.at point.now.key ≡ was → Places points.old.due.keys points.new.due.keys point.now.at point.now.key there) }
{
    place(alloc, &mut points.all, point, was, there)?;
    place(alloc, &mut points.due, point, was, there)
}

/// Whether a group has a cut point at each of the two times that a change touches.
#[derive(Clone, Copy)]
pub(crate) struct Touched {
    first: bool,
    last: bool,
}

/// Whether a group has a cut point at each of two times.
pub(crate) fn find_touched(cuts: &Cuts, first: Time, last: Time) -> Touched
    ensures first { result.first ≡ is_some (segment_at first cuts.now.entries) }
    ensures last { result.last ≡ is_some (segment_at last cuts.now.entries) }
{
    Touched {
        first: cuts.contains_key(&first),
        last: cuts.contains_key(&last),
    }
}

/// The cut points of all groups follow those of a group, which a change touches at two times alone: at that of a cut
/// point of the group, and at a later one. They had them as the group did.
pub(crate) fn follow(
    alloc: Global,
    points: &mut Points,
    point: &mut CutPoint,
    cuts: &Cuts,
    last: Time,
    was: Touched,
) -> Result<(), OutOfMemory>
    requires { point.old.at < last }
    ensures all { OnOk result (Had points.old.all.keys point.old.key point.old.at last was → Follows points.old.all.keys points.new.all.keys point.old.key cuts.now.entries point.old.at last) }
    ensures due { OnOk result (Had points.old.due.keys point.old.key point.old.at last was → Follows points.old.due.keys points.new.due.keys point.old.key cuts.now.entries point.old.at last) }
    ensures key { point.new.key ≡ point.old.key }
{
    let is = find_touched(cuts, point.at, last);
    place_both(alloc, points, point, was.first, is.first)?;
    point.at = last;
    place_both(alloc, points, point, was.last, is.last)
}
