ghost use Rattle.std.specs.Prelude.{◌≡◌, ◌≤◌, ◌<◌, ◌++◌, ◌∷◌, [], ℕ, List, Option, Some, IfOk, OnOk, OnErr, length, take};
ghost use Rattle.cedr_base.specs.declared.time.TheConstants.{FOREVER};
ghost use Rattle.cedr_base.specs.declared.field.Field.{Field};
ghost use Rattle.cedr_base.specs.declared.row.Row.{Row};
ghost use Rattle.cedr_base.specs.Rows.{IsRow};
ghost use Rattle.cedr_base.specs.Changes.{IsChange};
ghost use Rattle.cedr_base.specs.declared.interval.Interval.{Interval};
ghost use Rattle.cedr_table.specs.RowWise.{IsLife, MayBecome, made, lives, row_during, shortened, withdrawn, row_added, replaced, emptied, life_after, answer_to};
ghost use Rattle.cedr_base.specs.declared.change.Change.TheVariants.{Cut};

use crate::operator::Operator;
use cedr_base::{Change, Interval, OutOfMemory, Payload, Row, Time};
use std::alloc::Global;

/// An operator with one port, each of whose rows gives one row of the result or none: an interval is made of its
/// interval, and a payload of its payload. It keeps nothing between changes.
///
/// Whatever implements this is an `Operator`.
pub trait RowWise: Drop {
    /// The parameters are in range.
    ghost in_range: { Self → Type 0 };

    /// The rows of the result that a row gives.
    ghost image: { Self → Row → List Row };

    /// The guarantee that may be handed on at a mark.
    ghost guarantee_at: { Self → ℕ → ℕ };

    /// The interval that is made of an interval.
    ghost life_of: { Self → ℕ → ℕ → Interval };

    /// The payload that is made of a payload, where there is one.
    ghost payload_of: { Self → List Field → Option (List Field) };

    /// The interval that is made of a row's interval.
    fn life(&self, begin: Time, end: Time) -> Interval
        requires { in_range self.now × IsLife begin end }
        ensures { result ≡ life_of self.now begin end };

    /// The payload that is made of a row's payload.
    fn payload(&self, alloc: Global, payload: Payload) -> Result<Option<Payload>, OutOfMemory>
        ensures { IfOk result (λ made. made ≡ payload_of self.now payload) };

    /// The guarantee that may be handed on at a mark.
    fn guarantee(&self, mark: Time) -> Time
        requires { in_range self.now × (mark ≤ FOREVER) }
        ensures { result ≡ guarantee_at self.now mark };

    /// A row gives the row of the interval and the payload that are made of its own.
    ghost one_row: { (s : Self) (r : Row) → IsRow r → image s r ≡ made (life_of s r.begin r.end) (payload_of s r.payload) };

    /// An interval that isn't empty is one that a row may have.
    ghost is_life: { (s : Self) (begin end : ℕ) → in_range s → IsLife begin end → (life_of s begin end).begin < (life_of s begin end).end → IsLife (life_of s begin end).begin (life_of s begin end).end };

    /// What a row gives isn't seen before the guarantee.
    ghost begins_from: { (s : Self) (begin end t : ℕ) → in_range s → IsLife begin end → t ≤ begin → guarantee_at s t ≤ (life_of s begin end).begin };

    /// Nor is what a cut of a row makes of it.
    ghost becomes: { (s : Self) (begin end earlier t : ℕ) → in_range s → IsLife begin end → begin < earlier → earlier < end → t ≤ earlier → MayBecome (guarantee_at s t) (life_of s begin end) (life_of s begin earlier) };

    /// The guarantee never falls while the mark rises.
    ghost guarantee_rises: { (s : Self) (mark higher : ℕ) → in_range s → mark ≤ higher → guarantee_at s mark ≤ guarantee_at s higher };

    /// The guarantee isn't above `FOREVER`.
    ghost guarantee_is_time: { (s : Self) (mark : ℕ) → in_range s → mark ≤ FOREVER → guarantee_at s mark ≤ FOREVER };
}

/// Whether an interval isn't empty.
fn lives(interval: Interval) -> bool
    ensures { result ≡ lives interval }
{
    interval.begin < interval.end
}

/// The row of an interval and a payload.
fn row_during(interval: Interval, payload: Payload) -> Row
    ensures { result ≡ row_during interval payload }
{
    Row {
        end: interval.end,
        begin: interval.begin,
        payload,
    }
}

/// Appends the change by which one row of the result gives way to a shorter one with the same begin.
fn shorten(
    old: Interval,
    new: Interval,
    payload: Payload,
    out: &mut Vec<Change>,
) -> Result<(), OutOfMemory>
    ensures ok { OnOk result (out.new.items ≡ out.old.items ++ shortened payload old new) }
    ensures err { OnErr result (out.new.items ≡ out.old.items) }
{
    if new.end < old.end {
        out.push(Change::Cut(row_during(old, payload), new.end))?;
    }
    Ok(())
}

/// Appends the change that takes a row from the result, where there is one.
fn withdraw(old: Interval, payload: Payload, out: &mut Vec<Change>) -> Result<(), OutOfMemory>
    ensures ok { OnOk result (out.new.items ≡ out.old.items ++ withdrawn payload old) }
    ensures err { OnErr result (out.new.items ≡ out.old.items) }
{
    if lives(old) {
        out.push(Change::Cut(row_during(old, payload), old.begin))?;
    }
    Ok(())
}

/// Appends the change that adds a row to the result, where there is one.
fn add(new: Interval, payload: Payload, out: &mut Vec<Change>) -> Result<(), OutOfMemory>
    ensures ok { OnOk result (out.new.items ≡ out.old.items ++ row_added payload new) }
    ensures err { OnErr result (out.new.items ≡ out.old.items) }
{
    if lives(new) {
        out.push(Change::Add(row_during(new, payload)))?;
    }
    Ok(())
}

/// Appends the changes that put one row of the result in another's place. Where memory runs out some of them may
/// stand there.
fn replace(
    alloc: Global,
    old: Interval,
    new: Interval,
    payload: Payload,
    out: &mut Vec<Change>,
) -> Result<(), OutOfMemory>
    ensures ok { OnOk result (out.new.items ≡ out.old.items ++ replaced (Some payload) old new) }
    ensures err { OnErr result (take (length out.old.items) out.new.items ≡ out.old.items) }
{
    if lives(old) && lives(new) && old.begin == new.begin {
        shorten(old, new, payload, out)
    } else if lives(old) && lives(new) {
        let copied = payload.copy(alloc)?;
        withdraw(old, copied, out)?;
        add(new, payload, out)
    } else if lives(old) {
        withdraw(old, payload, out)
    } else {
        add(new, payload, out)
    }
}

/// Appends the changes that put one row of the result in another's place, both with the payload that is made of
/// one. Where the intervals are the same no payload is made.
fn replace_made<R: RowWise>(
    alloc: Global,
    op: &R,
    old: Interval,
    new: Interval,
    payload: Payload,
    out: &mut Vec<Change>,
) -> Result<(), OutOfMemory>
    ensures ok { OnOk result (out.new.items ≡ out.old.items ++ replaced (R.payload_of op.now payload) old new) }
    ensures err { OnErr result (take (length out.old.items) out.new.items ≡ out.old.items) }
{
    if old == new {
        return Ok(());
    }
    match op.payload(alloc, payload)? {
        None => Ok(()),
        Some(made) => replace(alloc, old, new, made, out),
    }
}

/// Appends the change that adds a row of the result, where there is one, with the payload that is made of one. Where the
/// interval is empty no payload is made.
fn add_made<R: RowWise>(
    alloc: Global,
    op: &R,
    new: Interval,
    payload: Payload,
    out: &mut Vec<Change>,
) -> Result<(), OutOfMemory>
    ensures ok { OnOk result (out.new.items ≡ out.old.items ++ replaced (R.payload_of op.now payload) (emptied new) new) }
    ensures err { OnErr result (out.new.items ≡ out.old.items) }
{
    if !lives(new) {
        return Ok(());
    }
    match op.payload(alloc, payload)? {
        None => Ok(()),
        Some(made) => {
            out.push(Change::Add(row_during(new, made)))?;
            Ok(())
        }
    }
}

/// What is made of a row's interval once the row ends at this time.
fn life_after<R: RowWise>(op: &R, row: &Row, old: Interval, end: Time) -> Interval
    requires range { R.in_range op.now }
    requires cut { IsChange (Cut row.now end) }
    requires old { old ≡ R.life_of op.now row.now.begin row.now.end }
    ensures { result ≡ life_after (R.life_of op.now) row.now end }
{
    if row.begin < end {
        op.life(row.begin, end)
    } else {
        Interval {
            begin: old.begin,
            end: old.begin,
        }
    }
}

/// Appends the changes that answer a change.
fn answer<R: RowWise>(
    alloc: Global,
    op: &R,
    change: Change,
    out: &mut Vec<Change>,
) -> Result<(), OutOfMemory>
    requires range { R.in_range op.now }
    requires change { IsChange change }
    ensures ok { OnOk result (out.new.items ≡ out.old.items ++ answer_to (R.life_of op.now) (R.payload_of op.now) change) }
    ensures err { OnErr result (take (length out.old.items) out.new.items ≡ out.old.items) }
{
    match change {
        Change::Add(row) => {
            let new = op.life(row.begin, row.end);
            add_made(alloc, op, new, row.into_payload(), out)
        }
        Change::Cut(row, end) => {
            let old = op.life(row.begin, row.end);
            let new = life_after(op, &row, old, end);
            replace_made(alloc, op, old, new, row.into_payload(), out)
        }
    }
}

impl<R: RowWise> Operator for R {
    ghost use Rattle.std.specs.Prelude.{[]};
    ghost use Rattle.cedr_table.specs.RowWise.{row_wise, StandsOnOne};
    ghost use Rattle.cedr_table.specs.RowWiseLaws.{row_wise_laws};

    ghost meaning = { λ s. row_wise (R.image s) (R.guarantee_at s) };

    ghost stands = { λ s tables marks. StandsOnOne (R.in_range s) tables marks };

    ghost held = { λ _. [] };

    fn ports(&self) -> usize {
        1
    }

    fn apply(
        &mut self,
        alloc: Global,
        _port: usize,
        change: Change,
        out: &mut Vec<Change>,
    ) -> Result<(), OutOfMemory> {
        let before = out.len();
        let result = answer(alloc, self, change, out);
        if result.is_err() {
            out.truncate(before);
        }
        result
    }

    fn bound(&self, marks: &[Time]) -> Time {
        self.guarantee(marks[0])
    }

    fn trim(&mut self, _marks: &[Time]) {}

    ghost lawful = { λ s. row_wise_laws (R.in_range s) (R.image s) (R.guarantee_at s) (λ range mark higher. R.guarantee_rises s mark higher range) (λ range mark. R.guarantee_is_time s mark range) };
}
