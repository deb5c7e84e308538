//! The worker of a source and that of an output, each on a thread.
ghost use Rattle.std.specs.Prelude.{◌≡◌, ◌≤◌, ℕ, List, Option};
ghost use Rattle.std.specs.Thread.{IsSync};
ghost use Rattle.cedr_text.specs.declared.event_line.Shape.{Shape as Lined};
ghost use Rattle.cedr_worker.specs.OutputTurns.{OutputWorks};
ghost use Rattle.cedr_worker.specs.Sources.{SourceWorks};

use crate::feeding::one_edge;
use crate::outputs::{ENDS_ALONE, STRONG, Whole, ends, output_over};
use crate::sources::{Text, source_over};
use cedr_base::FOREVER;
use cedr_history::Close;
use cedr_io::{OpenGate, Source};
use cedr_worker::{OutputWorker, SourceWorker};
use std::alloc::Global;
use std::sync::Wait;
use std::test::Fail;
use std::thread::{Threads, join_mut};
use std::time::Clock;

/// The rows of `ENDS_ALONE`, as lines.
const LINES: Text = Text {
    lines: "+,1,1,20,1\n+,2,4,10,2\n=,10\n-,1,10\n",
    piece: 7,
    refused: 1000,
};

const LIST: Whole = Whole {
    changes: &ENDS_ALONE,
    mark: FOREVER,
    close: Close::Ended,
    taken: 5,
};

/// Both run at the same time.
fn run_both<S: Source + Drop + Send, R: Threads + Wait + Clock + Sync>(
    rt: &R,
    source: &mut SourceWorker<S>,
    worker: &mut OutputWorker,
)
    requires source { (shape : Lined) × (content : Option (List ℕ)) × (count : ℕ) × SourceWorks S.rest S.faults shape content count source.old }
    requires works { OutputWorks worker.old }
    ensures works { OutputWorks worker.new }
    ensures history { worker.new.writer.history ≡ worker.old.writer.history }
{
    join_mut(
        rt,
        &mut ||
            requires { IsSync R.row × ((shape : Lined) × (content : Option (List ℕ)) × (count : ℕ) × SourceWorks S.rest S.faults shape content count source.now) }
        { source.run(rt, &OpenGate) },
        &mut ||
            requires { IsSync R.row × OutputWorks worker.now }
            ensures { OutputWorks worker.exit.now × (worker.exit.now.writer.history ≡ worker.entry.now.writer.history) }
        { worker.run(rt, &OpenGate) },
    );
}

/// Whether the reader sees the whole list in the end, over an edge of this room.
fn in_two_threads<R: Threads + Wait + Clock + Sync>(
    rt: &R,
    alloc: Global,
    room: usize,
) -> Result<bool, Fail>
    requires { (1 ≤ room) × (room ≤ 1024) }
{
    let (outputs, input) = one_edge(alloc, room)?;
    let mut source = source_over(alloc, 0, LINES, outputs)?;
    let (mut worker, mut reader) = output_over(rt, alloc, STRONG, input)?;
    run_both(rt, &mut source, &mut worker);
    Ok(ends(rt, alloc, worker, &mut reader, LIST)?)
}

#[test]
fn an_output_runs_on_a_thread_of_its_own(rt: HostRuntime) -> Result<(), Fail> {
    for room in [1usize, 64] {
        assert!(rt;
            in_two_threads(&rt, rt.alloc(), room.clamp(1, 1024))?,
            "room {room}"
        );
    }
    Ok(())
}
