ghost use Rattle.std.specs.Prelude.{IfOk};
ghost use Rattle.plan_report.specs.Rooms.{IsReportRoom};

use cedr_base::OutOfMemory;
use cedr_io::Source;
use cedr_worker::SourceEnd;
use plan_answer::FaultySource;
use plan_workers::Desk;
use std::alloc::Global;
use std::sync::Wait;

/// Room for what is left of a plan's workers and for what is reported of its sources, made before anything is read.
#[derive(Drop)]
pub struct ReportRoom<S: Source + Drop, R: Wait + Drop> {
    pub desk: Desk<S, R>,
    pub sources: Vec<SourceEnd<S>>,
    pub faults: Vec<FaultySource>,
}

impl<S: Source + Drop, R: Wait + Drop> ReportRoom<S, R> {
    /// Room for so many nodes.
    pub fn new(alloc: Global, count: usize) -> Result<ReportRoom<S, R>, OutOfMemory>
        ensures { IfOk result (λ room. IsReportRoom count room) }
    {
        Ok(ReportRoom {
            desk: Desk::new(alloc, count)?,
            sources: Vec::with_capacity(alloc, count)?,
            faults: Vec::with_capacity(alloc, count)?,
        })
    }
}
