ghost use Rattle.std.specs.Prelude.{◌≡◌};

use cedr_edge::EdgeIn;
use cedr_history::Writer;
use cedr_worker::OutputWorker;
use std::sync::Wait;

/// An output's worker with the runtime by which its writer is ended where it is dropped. So a thread may hold it, and give it
/// back.
pub struct Held<R: Wait + Drop> {
    rt: R,
    pub worker: OutputWorker,
    /// Room for the end of its input.
    pub spare: Vec<EdgeIn>,
}

impl<R: Wait + Drop> Held<R> {
    pub fn new(rt: R, worker: OutputWorker, spare: Vec<EdgeIn>) -> Held<R>
        ensures { (result.worker ≡ worker) × (result.spare ≡ spare) }
    {
        Held { rt, worker, spare }
    }

    /// The runtime, the worker and the room.
    pub(crate) fn into_parts(self) -> (R, OutputWorker, Vec<EdgeIn>)
        ensures { (result.1 ≡ self.worker) × (result.2 ≡ self.spare) }
    {
        let Held { rt, worker, spare } = self;
        (rt, worker, spare)
    }
}

impl<R: Wait + Drop> Drop for Held<R> {
    fn drop(self) {
        let Held {
            rt,
            worker,
            spare: _spare,
        } = self;
        worker.into_writer().end(&rt);
    }
}

/// A writer with the runtime by which it is ended where it is dropped.
pub struct HeldWriter<R: Wait + Drop> {
    rt: R,
    pub writer: Writer,
}

impl<R: Wait + Drop> HeldWriter<R> {
    pub fn new(rt: R, writer: Writer) -> HeldWriter<R>
        ensures { result.writer ≡ writer }
    {
        HeldWriter { rt, writer }
    }

    /// The runtime and the writer.
    pub(crate) fn into_parts(self) -> (R, Writer)
        ensures { result.1 ≡ self.writer }
    {
        let HeldWriter { rt, writer } = self;
        (rt, writer)
    }
}

impl<R: Wait + Drop> Drop for HeldWriter<R> {
    fn drop(self) {
        let HeldWriter { rt, writer } = self;
        writer.end(&rt);
    }
}
