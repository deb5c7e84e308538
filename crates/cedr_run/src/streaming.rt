//! A stream of the changes of a plan's answer, by what is read of them while they come.
ghost use Rattle.std.specs.Prelude.{◌≡◌, ◌++◌, List, OnErr, OnOk, [], false};
ghost use Rattle.std.specs.Io.KnownBytes.{Appends};
ghost use Rattle.cedr_base.specs.declared.change.Change.{Change as Changed};
ghost use Rattle.cedr_io.specs.Asked.{AppendsFront};
ghost use Rattle.cedr_io.specs.Counts.{Counts};
ghost use Rattle.plan_answer.specs.Queries.{changes_text};
ghost use Rattle.cedr_run.specs.declared.progress.Progress.TheVariants.{Whole};
ghost use Rattle.cedr_commands.specs.Seen.{SinkSeen, seen_sink};
ghost use Rattle.cedr_run.specs.Threads.{WroteList};

use crate::progress::Progress;
use cedr_base::{Change, OutOfMemory};
use cedr_history::Reader;
use cedr_io::{OutsideFault, Sink, write_all};
use plan_answer::write_changes;
use plan_report::Watcher;
use std::alloc::Global;
use std::marker::PhantomData;

/// Writes the lines of changes, by one write where there are any.
fn write_lines<K: Sink>(alloc: Global, changes: &[Change], out: &mut K) -> Result<(), OutsideFault>
    ensures ok { OnOk result (Appends (K.written out.old) (K.written out.new) (changes_text changes.now)) }
    ensures err { OnErr result (AppendsFront (K.written out.old) (K.written out.new) (changes_text changes.now)) }
    ensures counted { Counts result (K.faults out.old) (K.faults out.new) }
{
    let mut text = Vec::new(alloc);
    write_changes(changes, &mut text)?;
    write_all(out, text.as_slice())
}

/// Writes the lines of changes that follow others, of which all was written.
fn write_next<K: Sink>(alloc: Global, changes: &[Change], out: &mut K) -> Progress
    ensures { (start : SinkSeen) (list : List Changed) → WroteList Whole start (seen_sink K.written K.faults out.old) list → WroteList result start (seen_sink K.written K.faults out.new) (list ++ changes.now) }
{
    match write_lines(alloc, changes, out) {
        Ok(()) => Progress::Whole,
        Err(OutsideFault::Failed) => Progress::Refused,
        Err(OutsideFault::OutOfMemory) => Progress::Lacked,
    }
}

/// Writes the lines of more changes, where all that came before them was written.
fn write_more<K: Sink>(
    alloc: Global,
    progress: Progress,
    changes: &[Change],
    out: &mut K,
) -> Progress
    ensures { (start : SinkSeen) (list : List Changed) → WroteList progress start (seen_sink K.written K.faults out.old) list → WroteList result start (seen_sink K.written K.faults out.new) (list ++ changes.now) }
{
    match progress {
        Progress::Whole => write_next(alloc, changes, out),
        Progress::Refused => Progress::Refused,
        Progress::Lacked => Progress::Lacked,
    }
}

/// A watcher that writes the lines of the changes that it reads: those of each look by one write. After a refused write it
/// reads on, and writes nothing.
#[derive(Drop)]
pub(crate) struct Streamer<K: Sink> {
    alloc: Global,
    /// How many changes it has read.
    count: usize,
    pub(crate) progress: Progress,
    /// A look lacked memory.
    lacked: bool,
    sink: PhantomData<K>,
}

impl<K: Sink> Streamer<K> {
    pub(crate) fn new(alloc: Global) -> Streamer<K>
        ensures stands { (out : K) → ⟦<Streamer<K> as Watcher>⟧.stands out result out [] }
        ensures found { ⟦<Streamer<K> as Watcher>⟧.lacked result ≡ false }
    {
        Streamer {
            alloc,
            count: 0,
            progress: Progress::Whole,
            lacked: false,
            sink: PhantomData,
        }
    }
}

impl<K: Sink> Watcher for Streamer<K> {
    ghost use Rattle.std.specs.Prelude.{◌≡◌, length};
    ghost use Rattle.cedr_commands.specs.Seen.{seen_sink};
    ghost use Rattle.cedr_run.specs.Threads.{WroteList};

    type Out = K;

    ghost stands = { λ start w out list. (w.count ≡ length list) × WroteList w.progress (seen_sink K.written K.faults start) (seen_sink K.written K.faults out) list };

    ghost lacked = { λ w. w.lacked };

    fn look(&mut self, reader: &mut Reader, out: &mut K) -> Result<bool, OutOfMemory> {
        let mut changes = Vec::new(self.alloc);
        let seen = match reader.read(self.count, usize::MAX, &mut changes) {
            Ok(Some(seen)) => seen,
            Ok(None) => return Ok(false),
            Err(OutOfMemory) => {
                self.lacked = true;
                return Err(OutOfMemory);
            }
        };
        self.count = seen.len;
        self.progress = write_more(self.alloc, self.progress, changes.as_slice(), out);
        if self.progress == Progress::Lacked {
            self.lacked = true;
            return Err(OutOfMemory);
        }
        Ok(true)
    }
}
