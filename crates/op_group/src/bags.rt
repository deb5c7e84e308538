ghost use Rattle.std.specs.Prelude.{◌≡◌, ◌≤◌, ◌∷◌, [], ℕ, List, None, Some, IsTrue, false, OnOk, IfOk, cond};
ghost use Rattle.std.specs.BTreeMap.{is_at, IsOrdered};
ghost use Rattle.cedr_base.specs.declared.row.Row.{Row};
ghost use Rattle.cedr_base.specs.declared.field.Field.{Field};
ghost use Rattle.cedr_base.specs.Order.{payload_cmp};
ghost use Rattle.cedr_base.specs.Changes.{remnant};
ghost use Rattle.change_laws.specs.Repairs.{IsMoved};
ghost use Rattle.op_group.specs.Bags.{bag_at, BagKeeps, IsLive, lives_of, field_lives, columns_but, indexed, ComesTo, GoesFrom};
ghost use Rattle.cedr_living.specs.Bags.{KeepsLives, IsEmpty};
ghost use Rattle.cedr_living.specs.Lives.{Living};
ghost use Rattle.op_group.specs.State.{IsForgotten, SettlesFields};
ghost use Rattle.cedr_living.specs.declared.living.LivingFields.{LivingFields as LivingBag};

use crate::segment::Totalled;
use cedr_base::{Change, OutOfMemory, Payload, Row, Time};
use cedr_living::LivingFields;
use std::alloc::Global;
use std::collections::BTreeMap;

/// The fields of the groups, of the columns whose least or greatest field is asked for.
pub(crate) struct Bags {
    /// The bags by the keys of their groups. A group has one where it has such fields.
    pub(crate) all: BTreeMap<Payload, LivingFields>,
    /// The greatest mark that was passed. What lives no longer at it needs no place in a bag.
    pub(crate) passed: Time,
}

impl Drop for Bags {
    fn drop(self) {
        let Bags { all: _, passed: _ } = self;
    }
}

impl Bags {
    /// No fields. It takes no memory.
    pub(crate) fn new(alloc: Global) -> Bags
        ensures all { result.all.entries ≡ [] }
        ensures passed { result.passed ≡ 0 }
    {
        Bags {
            all: BTreeMap::new(alloc),
            passed: 0,
        }
    }
}

/// A row's field in a column comes to a bag, and lives from the row's begin to an end.
fn add_field(
    alloc: Global,
    living: &mut LivingFields,
    column: usize,
    row: &Row,
    end: Time,
) -> Result<(), OutOfMemory>
    ensures { OnOk result (ComesTo living.old living.new (field_lives (column ∷ []) (record row.now { end = end }))) }
{
    match row.payload.field(column) {
        Some(field) => {
            let copied = field.to_field(alloc)?;
            living.add(alloc, column, row.begin, end, &copied)
        }
        None => Ok(()),
    }
}

/// A row's field in a column comes to a bag, and lives from the row's begin to an end, unless the column is one of others.
fn add_field_unless(
    alloc: Global,
    living: &mut LivingFields,
    column: usize,
    but: &[usize],
    row: &Row,
    end: Time,
) -> Result<(), OutOfMemory>
    ensures { OnOk result (ComesTo living.old living.new (field_lives (columns_but but.now (column ∷ [])) (record row.now { end = end }))) }
{
    if but.contains(&column) {
        return Ok(());
    }
    add_field(alloc, living, column, row, end)
}

/// A row's fields in some columns come to a bag, but for those in others, and live from the row's begin to an end.
fn add_fields(
    alloc: Global,
    living: &mut LivingFields,
    columns: &[usize],
    but: &[usize],
    row: &Row,
    end: Time,
) -> Result<(), OutOfMemory>
    ensures { OnOk result (ComesTo living.old living.new (field_lives (columns_but but.now columns.now) (record row.now { end = end }))) }
{
    for column in columns {
        add_field_unless(alloc, living, *column, but, row, end)?;
    }
    Ok(())
}

/// A row's field in a column goes from a bag.
fn take_field(
    alloc: Global,
    living: &mut LivingFields,
    column: usize,
    row: &Row,
) -> Result<(), OutOfMemory>
    ensures { OnOk result (GoesFrom living.old living.new (field_lives (column ∷ []) row.now)) }
{
    match row.payload.field(column) {
        Some(field) => {
            let copied = field.to_field(alloc)?;
            living.take(alloc, column, row.begin, row.end, &copied)
        }
        None => Ok(()),
    }
}

/// A row's field in a column goes from a bag, unless the column is one of others.
fn take_field_unless(
    alloc: Global,
    living: &mut LivingFields,
    column: usize,
    but: &[usize],
    row: &Row,
) -> Result<(), OutOfMemory>
    ensures { OnOk result (GoesFrom living.old living.new (field_lives (columns_but but.now (column ∷ [])) row.now)) }
{
    if but.contains(&column) {
        return Ok(());
    }
    take_field(alloc, living, column, row)
}

/// A row's fields in some columns go from a bag, but for those in others.
fn take_fields(
    alloc: Global,
    living: &mut LivingFields,
    columns: &[usize],
    but: &[usize],
    row: &Row,
) -> Result<(), OutOfMemory>
    ensures { OnOk result (GoesFrom living.old living.new (field_lives (columns_but but.now columns.now) row.now)) }
{
    for column in columns {
        take_field_unless(alloc, living, *column, but, row)?;
    }
    Ok(())
}

/// The fields of a row come to a bag, and live from the row's begin to an end.
fn add_row_fields(
    alloc: Global,
    asked: &Totalled,
    living: &mut LivingFields,
    row: &Row,
    end: Time,
) -> Result<(), OutOfMemory>
    ensures { OnOk result (ComesTo living.old living.new (field_lives (indexed asked.now) (record row.now { end = end }))) }
{
    let least = asked.least.columns();
    add_fields(alloc, living, least, &[], row, end)?;
    add_fields(alloc, living, asked.greatest.columns(), least, row, end)
}

/// The fields of a row go from a bag.
fn take_row_fields(
    alloc: Global,
    asked: &Totalled,
    living: &mut LivingFields,
    row: &Row,
) -> Result<(), OutOfMemory>
    ensures { OnOk result (GoesFrom living.old living.new (field_lives (indexed asked.now) row.now)) }
{
    let least = asked.least.columns();
    take_fields(alloc, living, least, &[], row)?;
    take_fields(alloc, living, asked.greatest.columns(), least, row)
}

/// The fields of a row come to a bag with an earlier end, where anything is left of the row.
fn add_left(
    alloc: Global,
    asked: &Totalled,
    living: &mut LivingFields,
    row: &Row,
    earlier: Time,
) -> Result<(), OutOfMemory>
    ensures { OnOk result (ComesTo living.old living.new (lives_of asked.now (remnant row.now earlier))) }
{
    if row.begin < earlier {
        return add_row_fields(alloc, asked, living, row, earlier);
    }
    Ok(())
}

/// A bag of a group's fields takes a change of the group's rows.
fn change_fields(
    alloc: Global,
    asked: &Totalled,
    living: &mut LivingFields,
    change: &Change,
) -> Result<(), OutOfMemory>
    ensures from { OnOk result (living.new.from ≡ living.old.from) }
    ensures keeps { OnOk result ((old new : List Row) → KeepsLives living.old (lives_of asked.now old) → IsMoved change.now old new → KeepsLives living.new (lives_of asked.now new)) }
{
    match change {
        Change::Add(row) => add_row_fields(alloc, asked, living, row, row.end),
        Change::Cut(row, end) => {
            add_left(alloc, asked, living, row, *end)?;
            take_row_fields(alloc, asked, living, row)
        }
    }
}

/// The bag of a group goes out of the bags: an empty one where there is none.
fn take_bag(alloc: Global, bags: &mut Bags, key: &Payload) -> LivingFields
    ensures sorted { IsOrdered payload_cmp bags.new.all }
    ensures passed { bags.new.passed ≡ bags.old.passed }
    ensures others { (other : List Field) → bag_at bags.new.all.entries other ≡ cond (is_at (payload_cmp key.now) other) None (bag_at bags.old.all.entries other) }
    ensures keeps { (lives : List Living) → BagKeeps (bag_at bags.old.all.entries key.now) bags.old.passed lives → KeepsLives result lives × (result.from ≤ bags.old.passed) }
    ensures from_there { (t : ℕ) → IsForgotten bags.old t key.now → t ≤ result.from }
{
    match bags.all.remove(key) {
        Some(living) => living,
        None => LivingFields::new(alloc, bags.passed),
    }
}

/// The bag of a group goes out of the bags, and takes a change of the group's rows.
pub(crate) fn take_changed(
    alloc: Global,
    asked: &Totalled,
    bags: &mut Bags,
    key: &Payload,
    change: &Change,
) -> Result<LivingFields, OutOfMemory>
    ensures sorted { IsOrdered payload_cmp bags.new.all }
    ensures passed { bags.new.passed ≡ bags.old.passed }
    ensures others { (other : List Field) → bag_at bags.new.all.entries other ≡ cond (is_at (payload_cmp key.now) other) None (bag_at bags.old.all.entries other) }
    ensures keeps { IfOk result (λ living. (old new : List Row) → BagKeeps (bag_at bags.old.all.entries key.now) bags.old.passed (lives_of asked.now old) → IsMoved change.now old new → KeepsLives living (lives_of asked.now new) × (living.from ≤ bags.old.passed)) }
    ensures from_there { IfOk result (λ living. (t : ℕ) → IsForgotten bags.old t key.now → t ≤ living.from) }
{
    let mut living = take_bag(alloc, bags, key);
    change_fields(alloc, asked, &mut living, change)?;
    Ok(living)
}

/// Puts the bag of a group among the bags, where it has any fields.
pub(crate) fn put_bag(
    alloc: Global,
    bags: &mut Bags,
    key: &Payload,
    living: LivingFields,
) -> Result<(), OutOfMemory>
    requires { bag_at bags.old.all.entries key.now ≡ None }
    ensures sorted { IsOrdered payload_cmp bags.old.all → IsOrdered payload_cmp bags.new.all }
    ensures passed { bags.new.passed ≡ bags.old.passed }
    ensures others { OnOk result ((other : List Field) → is_at (payload_cmp key.now) other ≡ false → bag_at bags.new.all.entries other ≡ bag_at bags.old.all.entries other) }
    ensures own { OnOk result ((bag : LivingBag) → bag_at bags.new.all.entries key.now ≡ Some bag → bag ≡ living) }
    ensures keeps { OnOk result ((lives : List Living) → KeepsLives living lives → living.from ≤ bags.old.passed → BagKeeps (bag_at bags.new.all.entries key.now) bags.old.passed lives) }
    ensures live { OnOk result (IsLive bags.new.all.entries key.now) }
{
    if living.is_empty() {
        return Ok(());
    }
    let key = key.copy(alloc)?;
    bags.all.insert(key, living)?;
    Ok(())
}

/// A group's bag forgets what lived no longer at a time. It says whether nothing is left in it.
fn forget_in(bags: &mut Bags, key: &Payload, at: Time) -> bool
    ensures settles { SettlesFields at key.now bags.old bags.new }
    ensures empty { IsTrue result → (bag : LivingBag) → bag_at bags.new.all.entries key.now ≡ Some bag → IsEmpty bag }
    ensures live { result ≡ false → IsLive bags.new.all.entries key.now }
{
    match bags.all.get_mut(key) {
        Some(living) => {
            living.forget(at);
            living.is_empty()
        }
        None => false,
    }
}

/// The bag of a group goes.
fn remove_bag(bags: &mut Bags, key: &Payload)
    ensures sorted { IsOrdered payload_cmp bags.new.all }
    ensures passed { bags.new.passed ≡ bags.old.passed }
    ensures others { (other : List Field) → bag_at bags.new.all.entries other ≡ cond (is_at (payload_cmp key.now) other) None (bag_at bags.old.all.entries other) }
{
    bags.all.remove(key);
}

/// A group forgets what its fields were before one of its cut points. A bag without a life goes.
pub(crate) fn forget_fields(bags: &mut Bags, key: &Payload, at: Time)
    ensures settles { SettlesFields at key.now bags.old bags.new }
    ensures live { IsLive bags.new.all.entries key.now }
{
    if forget_in(bags, key, at) {
        remove_bag(bags, key);
    }
}
