ghost use Rattle.std.specs.Prelude.{◌≡◌, ◌≤◌, ◌<◌, ◌∷◌, [], ℕ, List, OnOk, cond, length, take};
ghost use Rattle.std.specs.List.Sorted.{IsStrictlySortedBy};
ghost use Rattle.std.specs.Map.{keys_of};
ghost use Rattle.std.specs.BTreeMap.{is_at, IsOrdered};
ghost use Rattle.std.specs.Ordering.{nat_cmp};
ghost use Rattle.cedr_base.specs.declared.row.Row.{Row};
ghost use Rattle.cedr_base.specs.declared.field.Field.{Field};
ghost use Rattle.cedr_base.specs.Order.{payload_cmp};
ghost use Rattle.cedr_base.specs.Rows.{AreRows};
ghost use Rattle.cedr_base.specs.Changes.{IsChange, MayFollow, sync_of, changed_row};
ghost use Rattle.change_laws.specs.Repairs.{IsMoved};
ghost use Rattle.op_group.specs.Groups.{grouping_by, grouping_with, group_of, key_of, rows_of};
ghost use Rattle.op_group.specs.Bags.{lives_of};
ghost use Rattle.cedr_living.specs.Bags.{KeepsLives};
ghost use Rattle.op_group.specs.State.{ShowsFrom, KeepsGroups, KeepsFields, NoneEmpty, AnswersGroup, cuts_of};

use crate::answer::{push_differences, rows_between};
use crate::bags::{Bags, put_bag, take_changed};
use crate::bound::first_open;
use crate::cuts::{Cuts, add_row, cut_row, edges_taken, first_touched, last_touched};
use crate::extremes::Passing;
use crate::forget::forget;
use crate::points::{CutPoint, Points, find_touched, follow};
use crate::segment::{Totalled, numbers};
use cedr_base::{Change, OutOfMemory, Payload, Row, Time};
use cedr_expr::Keep;
use cedr_living::LivingFields;
use cedr_table::Operator;
use std::alloc::Global;
use std::collections::{BTreeMap, BTreeSet};

/// The groups by their keys. No group is kept that has no cut point.
pub(crate) type Groups = BTreeMap<Payload, Cuts>;

/// Counts, sums, least and greatest fields of groups: the rows with equal key fields form one group, and each two
/// neighbouring cut points of it between which some of its rows are valid give one row, with the key, and the count, the
/// sums, and the least and the greatest fields of these rows.
///
/// It keeps the cut points of each group with what is valid from each of them on, and no rows, but, where a least or a
/// greatest field is asked for, the fields of its columns by the times at which they live. At a mark it forgets what no
/// later change and no bound depends on: of the cut points before the mark a group keeps the last one, where some row is
/// valid from it on, of the fields what lives from there on, and a group that has no cut point left goes.
pub struct Group {
    keys: Keep,
    count: bool,
    totalled: Totalled,
    pub(crate) groups: Groups,
    pub(crate) points: Points,
    pub(crate) bags: Bags,
}

impl Drop for Group {
    fn drop(self) {
        let Group {
            keys: _,
            count: _,
            totalled: _,
            groups: _,
            points: _,
            bags: _,
        } = self;
    }
}

impl Group {
    /// Groups by the fields that `keys` keeps, with the number of rows where `count` asks for it, then the sum of each of
    /// the columns `sums`, and then the least field of each of the columns `least` and the greatest one of each of the
    /// columns `greatest`. It takes no memory.
    pub fn new(
        alloc: Global,
        keys: Keep,
        count: bool,
        sums: Keep,
        least: Keep,
        greatest: Keep,
    ) -> Group
        ensures meaning { ⟦<Group as Operator>⟧.meaning result ≡ group_of (grouping_by keys count sums least greatest) }
        ensures stands { ⟦<Group as Operator>⟧.stands result ([] ∷ []) (0 ∷ []) }
    {
        Group {
            keys,
            count,
            totalled: Totalled {
                sums,
                least,
                greatest,
            },
            groups: BTreeMap::new(alloc),
            points: Points {
                all: BTreeSet::new(alloc),
                due: BTreeSet::new(alloc),
            },
            bags: Bags::new(alloc),
        }
    }
}

/// The cut points of a group take a change, which the group's fields have taken already.
fn change_cuts(
    alloc: Global,
    asked: &Totalled,
    cuts: &mut Cuts,
    change: &Change,
    living: &LivingFields,
) -> Result<(), OutOfMemory>
    requires { IsChange change.now }
    ensures { OnOk result ((old new : List Row) (mark from : ℕ) → ShowsFrom asked.now mark from cuts.old.entries old → KeepsLives living.now (lives_of asked.now new) → living.now.from ≤ sync_of change.now → MayFollow old [] change.now → IsMoved change.now old new → mark ≤ sync_of change.now → ShowsFrom asked.now mark from cuts.new.entries new) }
{
    match change {
        Change::Add(row) => {
            let numbers = numbers(alloc, asked.sums.columns(), &row.payload, true)?;
            let passing = Passing {
                up: true,
                payload: &row.payload,
                numbers,
            };
            add_row(alloc, asked, cuts, row.begin, row.end, &passing, living)
        }
        Change::Cut(row, end) => {
            let numbers = numbers(alloc, asked.sums.columns(), &row.payload, false)?;
            let passing = Passing {
                up: false,
                payload: &row.payload,
                numbers,
            };
            cut_row(
                alloc, asked, cuts, row.begin, row.end, *end, &passing, living,
            )
        }
    }
}

/// One group takes a change, which its fields have taken already, and appends what answers it.
fn answer_in(
    alloc: Global,
    count: bool,
    asked: &Totalled,
    key: &Payload,
    cuts: &mut Cuts,
    living: &LivingFields,
    change: &Change,
    out: &mut Vec<Change>,
) -> Result<(), OutOfMemory>
    requires { IsChange change.now }
    ensures shown { OnOk result ((old new : List Row) (mark from : ℕ) → ShowsFrom asked.now mark from cuts.old.entries old → KeepsLives living.now (lives_of asked.now new) → living.now.from ≤ sync_of change.now → MayFollow old [] change.now → IsMoved change.now old new → mark ≤ sync_of change.now → ShowsFrom asked.now mark from cuts.new.entries new) }
    ensures answers { OnOk result ((old new : List Row) (mark from : ℕ) → ShowsFrom asked.now mark from cuts.old.entries old → KeepsLives living.now (lives_of asked.now new) → living.now.from ≤ sync_of change.now → MayFollow old [] change.now → IsMoved change.now old new → mark ≤ sync_of change.now → AreRows old → AreRows new → AnswersGroup count asked.now key.now old new out.old.items out.new.items) }
    ensures ordered { OnOk result (IsOrdered nat_cmp cuts.new) }
    ensures kept { take (length out.old.items) out.new.items ≡ out.old.items }
{
    let taken = edges_taken(change);
    let from = first_touched(cuts, change.sync(), taken);
    let to = last_touched(cuts, change.row().end, taken);
    let olds = rows_between(alloc, count, key, cuts, from, to)?;
    change_cuts(alloc, asked, cuts, change, living)?;
    let news = rows_between(alloc, count, key, cuts, from, to)?;
    push_differences(alloc, olds.as_slice(), news.as_slice(), out)
}

/// Takes the cut points of a group out of the groups.
fn take_group(alloc: Global, groups: &mut Groups, key: &Payload) -> Cuts
    ensures cuts { result.entries ≡ cuts_of groups.old.entries key.now }
    ensures others { (other : List Field) → cuts_of groups.new.entries other ≡ cond (is_at (payload_cmp key.now) other) [] (cuts_of groups.old.entries other) }
    ensures some_cuts { NoneEmpty groups.old.entries → NoneEmpty groups.new.entries }
    ensures sorted { IsOrdered payload_cmp groups.new }
{
    match groups.remove(key) {
        Some(cuts) => cuts,
        None => BTreeMap::new(alloc),
    }
}

/// Puts the cut points of a group among the groups, where it has any.
fn put_group(groups: &mut Groups, key: Payload, cuts: Cuts) -> Result<(), OutOfMemory>
    requires { cuts_of groups.old.entries key ≡ [] }
    ensures cuts { OnOk result ((other : List Field) → cuts_of groups.new.entries other ≡ cond (is_at (payload_cmp key) other) cuts.entries (cuts_of groups.old.entries other)) }
    ensures some_cuts { OnOk result (NoneEmpty groups.old.entries → NoneEmpty groups.new.entries) }
    ensures sorted { IsOrdered payload_cmp groups.old → IsOrdered payload_cmp groups.new }
{
    if cuts.is_empty() {
        return Ok(());
    }
    groups.insert(key, cuts)?;
    Ok(())
}

/// The groups take a change, and append what answers it. Where memory runs out some of that may stand there.
pub(crate) fn answer(
    alloc: Global,
    keys: &Keep,
    count: bool,
    asked: &Totalled,
    groups: &mut Groups,
    points: &mut Points,
    bags: &mut Bags,
    change: &Change,
    out: &mut Vec<Change>,
) -> Result<(), OutOfMemory>
    requires { IsChange change.now }
    ensures keeps { OnOk result ((old new : List Row) (mark : ℕ) → KeepsGroups (grouping_with keys.now count asked.now) groups.old.entries points.old.all.keys points.old.due.keys old mark → KeepsFields (grouping_with keys.now count asked.now) bags.old points.old.due.keys old mark → MayFollow old [] change.now → IsMoved change.now old new → mark ≤ sync_of change.now → KeepsGroups (grouping_with keys.now count asked.now) groups.new.entries points.new.all.keys points.new.due.keys new mark) }
    ensures fields { OnOk result ((old new : List Row) (mark : ℕ) → KeepsGroups (grouping_with keys.now count asked.now) groups.old.entries points.old.all.keys points.old.due.keys old mark → KeepsFields (grouping_with keys.now count asked.now) bags.old points.old.due.keys old mark → MayFollow old [] change.now → IsMoved change.now old new → mark ≤ sync_of change.now → KeepsFields (grouping_with keys.now count asked.now) bags.new points.new.due.keys new mark) }
    ensures answers { OnOk result ((old new : List Row) (mark : ℕ) → KeepsGroups (grouping_with keys.now count asked.now) groups.old.entries points.old.all.keys points.old.due.keys old mark → KeepsFields (grouping_with keys.now count asked.now) bags.old points.old.due.keys old mark → MayFollow old [] change.now → IsMoved change.now old new → mark ≤ sync_of change.now → AreRows old
        → let key = key_of (grouping_with keys.now count asked.now) (changed_row change.now) in AnswersGroup count asked.now key (rows_of (grouping_with keys.now count asked.now) key old) (rows_of (grouping_with keys.now count asked.now) key new) out.old.items out.new.items) }
    ensures kept { take (length out.old.items) out.new.items ≡ out.old.items }
{
    let key = keys.apply(alloc, &change.row().payload)?;
    let at = change.sync();
    let last = change.row().end;
    let living = take_changed(alloc, asked, bags, &key, change)?;
    let mut cuts = take_group(alloc, groups, &key);
    let was = find_touched(&cuts, at, last);
    answer_in(alloc, count, asked, &key, &mut cuts, &living, change, out)?;
    let mut point = CutPoint { at, key };
    follow(alloc, points, &mut point, &cuts, last, was)?;
    put_bag(alloc, bags, &point.key, living)?;
    put_group(groups, point.key, cuts)
}

impl Operator for Group {
    ghost use Rattle.op_group.specs.Groups.{grouping_with};
    ghost use Rattle.op_group.specs.Readings.{group_reading};
    ghost use Rattle.op_group.specs.StateLaws.{group_laws};

    ghost meaning = { group_reading.meaning };

    ghost stands = { group_reading.stands };

    ghost held = { group_reading.held };

    fn ports(&self) -> usize {
        1
    }

    fn apply(
        &mut self,
        alloc: Global,
        _port: usize,
        change: Change,
        out: &mut Vec<Change>,
    ) -> Result<(), OutOfMemory> {
        let before = out.len();
        let result = answer(
            alloc,
            &self.keys,
            self.count,
            &self.totalled,
            &mut self.groups,
            &mut self.points,
            &mut self.bags,
            &change,
            out,
        );
        drop(change);
        if result.is_err() {
            out.truncate(before);
        }
        result
    }

    fn bound(&self, marks: &[Time]) -> Time {
        first_open(&self.groups, &self.points.all, marks[0])
    }

    fn trim(&mut self, marks: &[Time]) {
        forget(&mut self.groups, &mut self.points, &mut self.bags, marks[0]);
    }

    ghost lawful = { λ s. group_laws (grouping_with s.keys s.count s.totalled) s.groups.entries s.points s.bags };
}
