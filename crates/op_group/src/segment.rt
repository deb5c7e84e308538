ghost use Rattle.std.specs.Prelude.{◌≡◌, ◌+◌, ◌-◌, ◌%◌, ◌^◌, ◌<◌, ◌++◌, [], List, ℕ, IfOk, OnOk, OnErr, Some, None, false, length, map, replicate};
ghost use Rattle.std.specs.List.{slice_get, filter_map, cons_option};
ghost use Rattle.op_group.specs.Groups.{field_number};
ghost use Rattle.std.specs.Int.{w128, cast_signed};
ghost use Rattle.cedr_base.specs.declared.time.TheConstants.{FOREVER};
ghost use Rattle.cedr_base.specs.declared.row.Row.{Row};
ghost use Rattle.cedr_base.specs.declared.field.Field.TheVariants.{Number};
ghost use Rattle.op_group.specs.Cuts.{edge_raised, segment_shifted, shifted_by, summed, totals};
ghost use Rattle.op_group.specs.Measures.{extremes_of, no_totals};
ghost use Rattle.op_group.specs.Sides.{Passes, Tells};

use crate::extremes::{Passing, renew_all};
use cedr_base::{Field, FieldRef, OutOfMemory, Payload, PayloadWriter, Time};
use cedr_expr::Keep;
use cedr_living::LivingFields;
use std::alloc::Global;
use std::marker::Model;

/// The columns over which a segment has totals.
pub struct Totalled {
    /// Those that are summed.
    pub sums: Keep,
    /// Those whose least field is asked for.
    pub least: Keep,
    /// Those whose greatest field is asked for.
    pub greatest: Keep,
}

impl Drop for Totalled {
    fn drop(self) {
        let Totalled {
            sums: _,
            least: _,
            greatest: _,
        } = self;
    }
}

/// The totals of some rows: sums modulo 2^128, one per summed column, and the least and the greatest fields that are
/// asked for, where some row has the column. Contracts see both lists.
#[derive(Drop)]
pub struct Totals {
    sums: Vec<u128>,
    extremes: Vec<Option<Field>>,
}

impl Model for Totals {
    ghost use Rattle.op_group.specs.Tallies.{Tally};

    ghost Value = { Tally };

    ghost view = { λ t. record { sums = t.sums.items; extremes = t.extremes.items } };
}

/// A cut point of a group, and what is valid from there on up to the next one.
#[derive(Drop)]
pub struct Segment {
    /// How many begins and ends of rows stand at the cut point.
    pub edges: usize,
    /// How many rows are valid from it on.
    pub living: usize,
    /// The sums over these rows.
    pub totals: Totals,
}

impl Totals {
    /// The totals of no rows.
    pub(crate) fn nothing(alloc: Global, asked: &Totalled) -> Result<Totals, OutOfMemory>
        ensures { IfOk result (λ t. t ≡ no_totals asked.now) }
    {
        let sums = vec![in alloc; 0u128; asked.sums.columns().len()]?;
        let mut extremes = Vec::new(alloc);
        put_none(asked.least.columns().len(), &mut extremes)?;
        put_none(asked.greatest.columns().len(), &mut extremes)?;
        Ok(Totals { sums, extremes })
    }

    pub(crate) fn copy(&self, alloc: Global) -> Result<Totals, OutOfMemory>
        ensures { IfOk result (λ t. t ≡ self.now) }
    {
        let sums = Vec::from_slice(alloc, self.sums.as_slice())?;
        let extremes = copy_fields(alloc, self.extremes.as_slice())?;
        Ok(Totals { sums, extremes })
    }

    /// With the sums as fields at the end, and then the least and the greatest fields that are there.
    fn write_to(&self, fields: PayloadWriter) -> Result<PayloadWriter, OutOfMemory>
        ensures { IfOk result (λ w. w ≡ fields ++ totals false 0 self.now) }
    {
        let fields = with_sums(self.sums.as_slice(), fields)?;
        with_extremes(self.extremes.as_slice(), fields)
    }
}

/// Appends so many places without a field.
fn put_none(count: usize, extremes: &mut Vec<Option<Field>>) -> Result<(), OutOfMemory>
    ensures { OnOk result (extremes.new.items ≡ extremes.old.items ++ replicate count None) }
{
    for _ in 0..count {
        extremes.push(None)?;
    }
    Ok(())
}

fn copy_fields(alloc: Global, extremes: &[Option<Field>]) -> Result<Vec<Option<Field>>, OutOfMemory>
    ensures { IfOk result (λ copied. copied.items ≡ extremes.now) }
{
    let mut copied = Vec::with_capacity(alloc, extremes.len())?;
    for extreme in extremes {
        let field = copy_field(alloc, extreme)?;
        copied.push(field)?;
    }
    Ok(copied)
}

fn copy_field(alloc: Global, extreme: &Option<Field>) -> Result<Option<Field>, OutOfMemory>
    ensures { IfOk result (λ copied. copied ≡ extreme.now) }
{
    match extreme {
        Some(field) => Ok(Some(field.copy(alloc)?)),
        None => Ok(None),
    }
}

/// Adds numbers, one to each sum.
fn add_numbers(sums: &mut Vec<u128>, numbers: &[u128])
    ensures { sums.new.items ≡ summed sums.old.items numbers.now }
{
    let width = sums.len().min(numbers.len());
    for i in 0..width {
        sums[i] = sums[i].wrapping_add(numbers[i]);
    }
}

/// With sums as fields at the end.
fn with_sums(sums: &[u128], fields: PayloadWriter) -> Result<PayloadWriter, OutOfMemory>
    ensures { IfOk result (λ w. w ≡ fields ++ map (λ n. Number (cast_signed w128 n)) sums.now) }
{
    let mut written = fields;
    for sum in sums {
        written = written.with_number(sum.cast_signed())?;
    }
    Ok(written)
}

/// With those of the least and the greatest fields that are there.
fn with_extremes(
    extremes: &[Option<Field>],
    fields: PayloadWriter,
) -> Result<PayloadWriter, OutOfMemory>
    ensures { IfOk result (λ w. w ≡ fields ++ filter_map (λ extreme. extreme) extremes.now) }
{
    let mut written = fields;
    for extreme in extremes {
        written = with_extreme(extreme, written)?;
    }
    Ok(written)
}

fn with_extreme(
    extreme: &Option<Field>,
    fields: PayloadWriter,
) -> Result<PayloadWriter, OutOfMemory>
    ensures { IfOk result (λ w. w ≡ fields ++ cons_option extreme.now []) }
{
    match extreme {
        Some(field) => fields.with_field(field),
        None => Ok(fields),
    }
}

impl Segment {
    /// A begin or an end more stands at the cut point.
    pub(crate) fn add_edge(&mut self) -> Result<(), OutOfMemory>
        ensures { OnOk result (self.new ≡ edge_raised self.old) }
    {
        match self.edges.checked_add(1) {
            Some(edges) => {
                self.edges = edges;
                Ok(())
            }
            None => Err(OutOfMemory),
        }
    }

    /// A row more is valid from the cut point on, or a row less: the numbers are added to the sums, and the least and the
    /// greatest fields are those of the rows that are valid after it, which `living` already tells.
    pub(crate) fn shift(
        &mut self,
        alloc: Global,
        asked: &Totalled,
        at: Time,
        passing: &Passing,
        living: &LivingFields,
    ) -> Result<(), OutOfMemory>
        requires { at < FOREVER }
        ensures { OnOk result ((old new : List Row) → Passes passing.now.up passing.now.payload old new → Tells asked.now living.now at new → self.old.totals.extremes ≡ extremes_of asked.now old → self.new ≡ segment_shifted passing.now.up passing.now.numbers (extremes_of asked.now new) self.old) }
    {
        if passing.up {
            if self.living == usize::MAX {
                return Err(OutOfMemory);
            }
            self.living += 1;
        } else {
            self.living = self.living.saturating_sub(1);
        }
        add_numbers(&mut self.totals.sums, passing.numbers.as_slice());
        renew_all(alloc, asked, at, passing, living, &mut self.totals.extremes)
    }

    /// With the count at the end, where it is asked for, then the sums, and then the least and the greatest fields.
    pub(crate) fn write_to(
        &self,
        counted: bool,
        fields: PayloadWriter,
    ) -> Result<PayloadWriter, OutOfMemory>
        ensures { IfOk result (λ w. w ≡ fields ++ totals counted self.now.living self.now.totals) }
    {
        if counted {
            let count = self.living as u128;
            self.totals
                .write_to(fields.with_number(count.cast_signed())?)
        } else {
            self.totals.write_to(fields)
        }
    }
}

/// What a field adds to a sum, modulo 2^128: nothing where it isn't there or isn't a number.
fn number(payload: &Payload, column: usize) -> u128
    ensures { result ≡ field_number (slice_get payload.now column) }
{
    match payload.field(column) {
        Some(field) => own_number(&field),
        None => 0,
    }
}

fn own_number(field: &FieldRef<'_>) -> u128
    ensures { result ≡ field_number (Some field.now) }
{
    match field.number() {
        Some(n) => n.cast_unsigned(),
        None => 0,
    }
}

/// What a row adds to the sums of its columns, or what takes that away again.
pub(crate) fn numbers(
    alloc: Global,
    columns: &[usize],
    payload: &Payload,
    up: bool,
) -> Result<Vec<u128>, OutOfMemory>
    ensures { IfOk result (λ v. v.items ≡ map (λ column. shifted_by up (field_number (slice_get payload.now column))) columns.now) }
{
    let mut all = Vec::new(alloc);
    for column in columns {
        let number = number(payload, *column);
        let shift = if up { number } else { number.wrapping_neg() };
        all.push(shift)?;
    }
    Ok(all)
}
