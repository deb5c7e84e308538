ghost use Rattle.std.specs.Prelude.{◌≡◌, ◌≢◌, ◌⊎◌, IfOk};
ghost use Rattle.cedr_commands.specs.declared.status.Status.TheVariants as status;
ghost use Rattle.cedr_commands.specs.Seen.{SinkGains, seen_sink};
ghost use Rattle.cedr_commands.specs.Outcomes.{status_of, outcome_text, TellsLack};

use crate::refusal::{write_checkpoint_fault, write_plan_fault, write_unsaved};
use crate::status::Status;
use cedr_base::OutOfMemory;
use cedr_io::{OutsideFault, Sink, write_all};
use cedr_plan::PlanKind;
use std::alloc::Global;

/// How a command went.
#[derive(Drop)]
pub enum Outcome {
    Done,
    /// The words match no command.
    Usage,
    /// Some line isn't accepted. This is said of it.
    Events(Vec<u8>),
    /// The plan is refused, for a fault of the node of this number, or of the document at 0.
    BadPlan(PlanKind, usize),
    /// The plan can't be saved, and the node of this number is the first for which it can't.
    Unsaved(usize),
    /// A file isn't a checkpoint of the plan, for the line of this number.
    BadCheckpoint(u64),
    Read,
    Write,
    OutOfMemory,
}

impl Outcome {
    fn status(&self) -> Status
        ensures { result ≡ status_of self.now }
    {
        match self {
            Outcome::Done => Status::Done,
            Outcome::Usage => Status::Usage,
            Outcome::Events(_) => Status::Events,
            Outcome::BadPlan(_, _) | Outcome::Unsaved(_) => Status::Plan,
            Outcome::BadCheckpoint(_) => Status::Checkpoint,
            Outcome::Read => Status::Read,
            Outcome::Write => Status::Write,
            Outcome::OutOfMemory => Status::OutOfMemory,
        }
    }

    /// What is reported of it on standard error.
    fn text(self, alloc: Global) -> Result<Vec<u8>, OutOfMemory>
        ensures { IfOk result (λ text. text.items ≡ outcome_text self) }
    {
        let mut text = Vec::new(alloc);
        match self {
            Outcome::Done => {}
            Outcome::Usage => text.extend_from_slice(
                b"usage: cedr history FILE | check PLAN | serial PLAN | run PLAN | stream PLAN | audit PLAN | live PLAN SCRIPT | make N | pool N PLAN | parts N PLAN | save PLAN SCRIPT | resume PLAN CHECKPOINT SCRIPT | follow PLAN SCRIPT | follow PLAN CHECKPOINT SCRIPT\n",
            )?,
            Outcome::Events(said) => return Ok(said),
            Outcome::BadPlan(kind, node) => write_plan_fault(kind, node, &mut text)?,
            Outcome::Unsaved(node) => write_unsaved(node, &mut text)?,
            Outcome::BadCheckpoint(line) => write_checkpoint_fault(line, &mut text)?,
            Outcome::Read => text.extend_from_slice(b"read fault\n")?,
            Outcome::Write => text.extend_from_slice(b"write fault\n")?,
            Outcome::OutOfMemory => text.extend_from_slice(b"out of memory\n")?,
        }
        Ok(text)
    }

    /// Reports it on standard error, and answers its status, or want of memory where the text found none.
    pub fn report<E: Sink>(self, alloc: Global, err: &mut E) -> Status
        ensures status { (result ≡ status_of self) ⊎ (result ≡ status.OutOfMemory) }
        ensures reported { result ≢ status.OutOfMemory
            → SinkGains (seen_sink E.written E.faults err.old) (seen_sink E.written E.faults err.new) (outcome_text self) }
        ensures lacking { result ≡ status.OutOfMemory
            → TellsLack (seen_sink E.written E.faults err.old) (seen_sink E.written E.faults err.new) (outcome_text self) }
    {
        let status = self.status();
        let Ok(text) = self.text(alloc) else {
            let _ = write_all(err, b"out of memory\n");
            return Status::OutOfMemory;
        };
        match write_all(err, &text) {
            Err(OutsideFault::OutOfMemory) => Status::OutOfMemory,
            Ok(()) | Err(OutsideFault::Failed) => status,
        }
    }
}
