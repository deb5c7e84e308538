ghost use Rattle.std.specs.Prelude.{◌<◌, map};
ghost use Rattle.std.specs.String.{string_bytes};
ghost use Rattle.cedr_io.specs.Counts.{last_count};
ghost use Rattle.cedr_keys.specs.Ends.{KeysEnd, KeysFaults, KeysFrom};

use crate::open::open_plan;
use crate::outcome::KeysOutcome;
use crate::text::{keys_text, unkeyed_text};
use cedr_io::{Files, OutsideFault, Sink, write_all};
use plan_key_choice::{KeyFault, key_columns};
use std::alloc::Global;

/// Finds by which column of each source the plan that the word names can be answered key by key, and answers the exit status
/// of the program. A line `NAME,COLUMN` for each source, in the plan's order and with the column counted from 0, goes to
/// `out`, and what is told where there are none to `err`.
pub(crate) fn keys<F: Files, K: Sink, E: Sink>(
    alloc: Global,
    words: &[String],
    files: &mut F,
    out: &mut K,
    err: &mut E,
) -> u8
    requires files_count { F.faults files.old < last_count }
    requires out_counts { K.faults out.old < last_count }
    ensures { KeysEnd (map string_bytes words.now)
        (record { content = F.content files.old; faults = F.faults files.old; out = K.written out.old; out_faults = K.faults out.old; err = E.written err.old; err_faults = E.faults err.old })
        (record { content = F.content files.new; faults = F.faults files.new; out = K.written out.new; out_faults = K.faults out.new; err = E.written err.new; err_faults = E.faults err.new }) result }
{
    let outcome = match words {
        [file] => answer(alloc, file.as_bytes(), files, out),
        _ => KeysOutcome::Usage,
    };
    outcome.report(alloc, err)
}

/// Writes the lines of the plan in a file.
fn answer<F: Files, K: Sink>(alloc: Global, file: &[u8], files: &mut F, out: &mut K) -> KeysOutcome
    requires files_count { F.faults files.old < last_count }
    requires out_counts { K.faults out.old < last_count }
    ensures from { KeysFrom (F.content files.old file.now) (K.written out.old) (K.written out.new) result }
    ensures faults { KeysFaults result (F.faults files.old) (F.faults files.new) (K.faults out.old) (K.faults out.new) }
{
    let plan = match open_plan(alloc, file, files) {
        Ok(plan) => plan,
        Err(outcome) => return outcome,
    };
    let nodes = plan.nodes.as_slice();
    let columns = match key_columns(alloc, &plan) {
        Ok(columns) => columns,
        Err(KeyFault::Unkeyed { node }) => {
            return match unkeyed_text(alloc, &nodes[node]) {
                Ok(said) => KeysOutcome::Unkeyed(said),
                Err(_) => KeysOutcome::OutOfMemory,
            };
        }
        Err(KeyFault::Undecided) => return KeysOutcome::Undecided,
        Err(KeyFault::OutOfMemory) => return KeysOutcome::OutOfMemory,
    };
    let Ok(text) = keys_text(alloc, nodes, &columns) else {
        return KeysOutcome::OutOfMemory;
    };
    match write_all(out, &text) {
        Ok(()) => KeysOutcome::Keyed,
        Err(OutsideFault::Failed) => KeysOutcome::Write,
        Err(OutsideFault::OutOfMemory) => KeysOutcome::OutOfMemory,
    }
}
