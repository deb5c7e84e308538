ghost use Rattle.std.specs.Prelude.{◌≡◌, None};

use crate::fault::OutsideFault;
use crate::sink::Sink;
use std::io::{Stderr, Stdout, Write};

/// Standard output or standard error. What was written isn't known.
#[derive(Drop)]
pub struct StdSink {
    stream: Stream,
    faults: u64,
}

#[derive(Drop)]
enum Stream {
    Out(Stdout),
    Err(Stderr),
}

impl StdSink {
    pub fn out(rt: &HostRuntime) -> StdSink
        ensures { ⟦<StdSink as Sink>⟧.faults result ≡ 0 }
    {
        StdSink {
            stream: Stream::Out(rt.stdout()),
            faults: 0,
        }
    }

    pub fn err(rt: &HostRuntime) -> StdSink
        ensures { ⟦<StdSink as Sink>⟧.faults result ≡ 0 }
    {
        StdSink {
            stream: Stream::Err(rt.stderr()),
            faults: 0,
        }
    }
}

impl Sink for StdSink {
    ghost written = { λ _. None };

    ghost faults = { λ s. s.faults };

    fn write(&mut self, piece: &[u8]) -> Result<usize, OutsideFault> {
        let taken = match &mut self.stream {
            Stream::Out(out) => out.write(piece),
            Stream::Err(err) => err.write(piece),
        };
        match taken {
            Ok(count) if 0 < count => Ok(count),
            _ => {
                self.faults = self.faults.saturating_add(1);
                Err(OutsideFault::Failed)
            }
        }
    }
}
