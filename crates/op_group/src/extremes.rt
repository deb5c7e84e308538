ghost use Rattle.std.specs.Prelude.{◌≡◌, ◌+◌, ◌<◌, ◌≤◌, ℕ, List, IfOk, OnOk, Some, true, false, length};
ghost use Rattle.std.specs.List.{slice_get};
ghost use Rattle.std.specs.Ordering.{is_gt};
ghost use Rattle.cedr_base.specs.declared.time.TheConstants.{FOREVER};
ghost use Rattle.cedr_base.specs.declared.row.Row.{Row};
ghost use Rattle.cedr_living.specs.Fields.{first_of};
ghost use Rattle.cedr_living.specs.Bags.{KeepsLives};
ghost use Rattle.cedr_living.specs.Lives.{Living};
ghost use Rattle.op_group.specs.Measures.{extremes_of};
ghost use Rattle.op_group.specs.Sides.{sides, side_cmp, met_side, extreme_at, Passes, Tells};

use crate::segment::Totalled;
use cedr_base::{Field, OutOfMemory, Payload, Time};
use cedr_living::LivingFields;
use std::alloc::Global;
use std::marker::Model;

/// A row that comes to segments or goes from them, with what it adds to their sums. Contracts see what it is.
#[derive(Drop)]
pub struct Passing<'a> {
    pub(crate) up: bool,
    pub(crate) payload: &'a Payload,
    pub(crate) numbers: Vec<u128>,
}

impl<'a> Model for Passing<'a> {
    ghost use Rattle.op_group.specs.Tallies.{PassedTotals};

    ghost Value = { PassedTotals };

    ghost view = { λ p. record { up = p.up; payload = p.payload.now; numbers = p.numbers.items } };
}

/// A column, and whether its least or its greatest field is asked for.
#[derive(Clone, Copy)]
pub struct Side {
    pub is_least: bool,
    pub column: usize,
}

impl Side {
    /// Whether a field comes after another one: above it where the least is asked for, and else below it.
    fn is_after(self, field: &Field, other: &Field) -> bool
        ensures { result ≡ is_gt (side_cmp self field.now other.now) }
    {
        if self.is_least {
            field.cmp(other).is_gt()
        } else {
            other.cmp(field).is_gt()
        }
    }
}

/// What is asked for at a place: the least fields first, in the order of their columns, and then the greatest ones.
fn side_at(asked: &Totalled, place: usize) -> Option<Side>
    ensures { result ≡ slice_get (sides asked.now) place }
{
    let least = asked.least.columns();
    if place < least.len() {
        let column = *least.get(place)?;
        return Some(Side {
            is_least: true,
            column,
        });
    }
    let column = *asked.greatest.columns().get(place - least.len())?;
    Some(Side {
        is_least: false,
        column,
    })
}

/// A field comes to those of which the first one is kept.
fn meet(
    alloc: Global,
    side: Side,
    field: &Field,
    extreme: &mut Option<Field>,
) -> Result<(), OutOfMemory>
    ensures { OnOk result (extreme.new ≡ first_of (side_cmp side) field.now extreme.old) }
{
    let is_after = match extreme {
        Some(first) => side.is_after(field, first),
        None => false,
    };
    if !is_after {
        let copied = field.copy(alloc)?;
        *extreme = Some(copied);
    }
    Ok(())
}

/// The first field of those that live at a time.
fn find(
    alloc: Global,
    side: Side,
    at: Time,
    living: &LivingFields,
) -> Result<Option<Field>, OutOfMemory>
    requires { at < FOREVER }
    ensures { IfOk result (λ found. (lives : List Living) → KeepsLives living.now lives → living.now.from ≤ at → found ≡ extreme_at side at lives) }
{
    let found = if side.is_least {
        living.least(side.column, at)
    } else {
        living.greatest(side.column, at)
    };
    match found {
        Some(field) => Ok(Some(field.copy(alloc)?)),
        None => Ok(None),
    }
}

/// A field goes from those of which the first one is kept. Only where it was the first one the others are asked.
fn part(
    alloc: Global,
    side: Side,
    at: Time,
    field: &Field,
    living: &LivingFields,
    extreme: &mut Option<Field>,
) -> Result<(), OutOfMemory>
    requires { at < FOREVER }
    ensures { OnOk result ((lives : List Living) → KeepsLives living.now lives → living.now.from ≤ at → extreme.old ≡ first_of (side_cmp side) field.now (extreme_at side at lives) → extreme.new ≡ extreme_at side at lives) }
{
    let was_first = match extreme {
        Some(first) => *first == *field,
        None => false,
    };
    if was_first {
        *extreme = find(alloc, side, at, living)?;
    }
    Ok(())
}

/// The first field of a side after a row came or went.
fn renew(
    alloc: Global,
    side: Side,
    at: Time,
    passing: &Passing,
    living: &LivingFields,
    extreme: &mut Option<Field>,
) -> Result<(), OutOfMemory>
    requires { at < FOREVER }
    ensures came { OnOk result (passing.now.up ≡ true → extreme.new ≡ met_side side (slice_get passing.now.payload side.column) extreme.old) }
    ensures went { OnOk result (passing.now.up ≡ false → (lives : List Living) → KeepsLives living.now lives → living.now.from ≤ at → extreme.old ≡ met_side side (slice_get passing.now.payload side.column) (extreme_at side at lives) → extreme.new ≡ extreme_at side at lives) }
{
    let Some(field) = passing.payload.field(side.column) else {
        return Ok(());
    };
    let copied = field.to_field(alloc)?;
    if passing.up {
        meet(alloc, side, &copied, extreme)
    } else {
        part(alloc, side, at, &copied, living, extreme)
    }
}

/// The least and the greatest fields of a segment after a row came or went. O(1) for each that stays; one that goes with
/// the row is asked of `living`.
pub(crate) fn renew_all(
    alloc: Global,
    asked: &Totalled,
    at: Time,
    passing: &Passing,
    living: &LivingFields,
    extremes: &mut Vec<Option<Field>>,
) -> Result<(), OutOfMemory>
    requires { at < FOREVER }
    ensures { OnOk result ((old new : List Row) → Passes passing.now.up passing.now.payload old new → Tells asked.now living.now at new → extremes.old.items ≡ extremes_of asked.now old → extremes.new.items ≡ extremes_of asked.now new) }
{
    for place in 0..extremes.len() {
        match side_at(asked, place) {
            Some(side) => renew(alloc, side, at, passing, living, &mut extremes[place])?,
            None => {}
        }
    }
    Ok(())
}
