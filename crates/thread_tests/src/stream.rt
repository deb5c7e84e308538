//! The command `stream`, whose workers pass a gate.
use crate::runs::MIDDLE;
use cedr_commands::Status;
use cedr_io::{MemSink, OutsideFault, Sink};
use cedr_run::run;
use std::alloc::Global;
use std::sync::Arc;
use std::sync::atomic::{AtomicU64, Ordering};
use std::test::Fail;
use test_outside::{Holding, NO_READ, files_of};

/// Six additions.
const SIX: &str = "+,1,1,2,a\n+,2,2,3,b\n+,3,3,4,c\n+,4,4,5,d\n+,5,5,6,e\n+,6,6,7,f\n";

/// Takes all, and sets a flag once it was given some.
#[derive(Drop)]
struct Telling {
    some: Arc<AtomicU64, Global>,
}

impl Sink for Telling {
    ghost use Rattle.std.specs.Prelude.{None};

    ghost written = { λ _. None };

    ghost faults = { λ _. 0 };

    fn write(&mut self, piece: &[u8]) -> Result<usize, OutsideFault> {
        self.some.store(1, Ordering::SeqCst);
        Ok(piece.len())
    }
}

#[test]
fn a_stream_writes_before_its_source_ended(rt: HostRuntime) -> Result<(), Fail> {
    let alloc = rt.alloc();
    let mut files = files_of(alloc, &[("p.json", MIDDLE), ("s.csv", SIX)], 8, NO_READ)?;
    let some = Arc::new(alloc, AtomicU64::new(0))?;
    let gate = Holding::until(alloc, 9, &some)?;
    let mut out = Telling { some };
    let mut err = MemSink::new(alloc);
    let words = vec![in alloc;
        String::from_str(alloc, "stream")?,
        String::from_str(alloc, "p.json")?,
    ]?;
    let status = run(rt, alloc, &words, &mut files, &mut out, &mut err, &gate).status;
    assert!(rt; status == Status::Done && gate.held());
    Ok(())
}
