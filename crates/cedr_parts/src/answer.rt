ghost use Rattle.std.specs.Prelude.{ℕ, ◌≡◌, ◌<◌, List};
ghost use Rattle.cedr_io.specs.Counts.{last_count};
ghost use Rattle.cedr_plan.specs.Rules.{IsPlan};
ghost use Rattle.cedr_text.specs.Texts.{rows_text};
ghost use Rattle.cedr_commands.specs.declared.command.Job.TheVariants.{Parts};
ghost use Rattle.cedr_commands.specs.Seen.{seen_files, seen_sink};
ghost use Rattle.cedr_commands.specs.Steps.{EndsPlan, EndsSources, WritesText};
ghost use Rattle.cedr_parts.specs.Divided.{CanBeDivided};
ghost use Rattle.plan_answer.specs.Sources.{AsksFirst, source_files};
ghost use Rattle.plan_serial.specs.Feeding.{AreSources};

use crate::reading::open_beside;
use cedr_base::{OutOfMemory, Row};
use cedr_commands::{Outcome, write_text};
use cedr_io::{Files, Sink};
use cedr_plan::Plan;
use cedr_source::Entries;
use cedr_text::write_rows;
use plan_answer::accepted_sources;
use plan_parts::{answer_entries, source_widths};
use std::alloc::Global;
use std::thread::Threads;

/// How many messages of each source a part is fed before its network settles.
const ROUND: usize = 64;

/// Writes a line for each of these rows.
fn write_answer<K: Sink>(alloc: Global, rows: &[Row], out: &mut K) -> Outcome
    requires { K.faults out.old < last_count }
    ensures { WritesText result (seen_sink K.written K.faults out.old) (seen_sink K.written K.faults out.new) (rows_text rows.now) }
{
    let mut text = Vec::new(alloc);
    match write_rows(rows, &mut text) {
        Ok(()) => write_text(out, &text),
        Err(OutOfMemory) => Outcome::OutOfMemory,
    }
}

/// Writes the answer of a plan over its sources, by so many parts of its keys.
fn answer<R: Threads + Sync, K: Sink>(
    rt: &R,
    alloc: Global,
    count: usize,
    plan: &Plan,
    columns: &[usize],
    left: Vec<Entries>,
    out: &mut K,
) -> Outcome
    requires counts { K.faults out.old < last_count }
    requires plan { IsPlan plan.now }
    requires count { 0 < count }
    requires divided { CanBeDivided columns.now plan.now.nodes.items }
    requires sources { AreSources plan.now.nodes.items left.items }
    ensures { (number : ℕ) → EndsSources (Parts number) plan.now.nodes.items left.items (seen_sink K.written K.faults out.old) (seen_sink K.written K.faults out.new) result }
{
    accepted_sources();
    source_widths();
    match answer_entries(rt, alloc, plan, columns, count, left, ROUND) {
        Ok(rows) => write_answer(alloc, rows.as_slice(), out),
        Err(OutOfMemory) => Outcome::OutOfMemory,
    }
}

/// Reads the sources of a plan, and writes its answer by so many parts of its keys.
pub(crate) fn answer_divided<R: Threads + Sync, F: Files, K: Sink>(
    rt: &R,
    alloc: Global,
    count: usize,
    plan: &Plan,
    columns: &[usize],
    files: &mut F,
    out: &mut K,
) -> Outcome
where
    F::Source: Drop,
    requires files_count { F.faults files.old < last_count }
    requires out_counts { K.faults out.old < last_count }
    requires plan { IsPlan plan.now }
    requires count { 0 < count }
    requires divided { CanBeDivided columns.now plan.now.nodes.items }
    ensures ends { (number : ℕ) → EndsPlan (Parts number) plan.now.nodes.items (seen_files F.content F.faults F.asked files.old) (seen_files F.content F.faults F.asked files.new)
        (seen_sink K.written K.faults out.old) (seen_sink K.written K.faults out.new) result }
    ensures asked { AsksFirst (F.asked files.old) (F.asked files.new) (source_files plan.now.nodes.items) }
    ensures contents { (n : List ℕ) → F.content files.new n ≡ F.content files.old n }
{
    match open_beside(rt, alloc, plan, files) {
        Ok(left) => answer(rt, alloc, count, plan, columns, left, out),
        Err(outcome) => outcome,
    }
}
