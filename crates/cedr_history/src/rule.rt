//! What a step does to a copy of the list, and the rule of the copies.
ghost use Rattle.std.specs.Prelude.{◌≡◌, OnOk, IfOk, IfErr};
ghost use Rattle.cedr_history.specs.Lists.{stepped};
ghost use Rattle.cedr_history.specs.Versions.{SameStep, listing};

use crate::close::Close;
use crate::states::{Deed, Holding, Knows};
use crate::step::Step;
use crate::version::Version;
use atomic_table::{Join, Split};
use crossbeam_utils::rule::{Outcome, Protocol};
use left_right::Absorb;
use std::alloc::AllocError;
use std::sync::Arc;

impl Step {
    /// A step that does the same. It shares the change.
    fn again(&self) -> Result<Step, AllocError>
        ensures { IfOk result (λ s. SameStep self.now s) }
    {
        match self {
            Step::Change(change) => Ok(Step::Change(Arc::try_clone(change)?)),
            Step::Mark(time) => Ok(Step::Mark(*time)),
            Step::Close(how) => Ok(Step::Close(*how)),
        }
    }
}

impl Version {
    /// Takes a step, which comes back where it finds no room. Once the list is closed no step changes it.
    fn advance(&mut self, step: Step) -> Result<(), Step>
        ensures front { self.new.front ≡ self.old.front }
        ensures ok { OnOk result (listing self.new ≡ stepped (listing self.old) step) }
        ensures err { IfErr result (λ back. (back ≡ step) × (listing self.new ≡ listing self.old)) }
    {
        match self.close {
            Close::Open => {}
            Close::Ended => return Ok(()),
            Close::Broken => return Ok(()),
        }
        match step {
            Step::Change(change) => match self.changes.push(change) {
                Ok(()) => Ok(()),
                Err(refused) => Err(Step::Change(refused.value)),
            },
            Step::Mark(time) => {
                self.mark = self.mark.max(time);
                Ok(())
            }
            Step::Close(how) => {
                self.close = how;
                Ok(())
            }
        }
    }
}

impl Absorb<Deed> for Version {
    type State = Holding;

    ghost use Rattle.cedr_history.specs.Lists.{stepped};
    ghost use Rattle.cedr_history.specs.Versions.{listing};

    ghost state = { λ v. record { listed = listing v; front = v.front } };

    ghost applied = { λ s d. record { listed = stepped s.listed d.step; front = d.front } };

    fn absorb_first(&mut self, deed: &Deed, _other: &Version) -> Result<(), AllocError> {
        let step = deed.step.again()?;
        match self.advance(step) {
            Ok(()) => {
                self.front = deed.front.again();
                Ok(())
            }
            Err(_) => Err(AllocError),
        }
    }

    fn absorb_second(&mut self, deed: Deed, _other: &Version) -> Result<(), Deed> {
        let Deed { step, front } = deed;
        match self.advance(step) {
            Ok(()) => {
                self.front = front;
                Ok(())
            }
            Err(step) => Err(Deed { step, front }),
        }
    }
}

/// The rule: the copy that is shown has what the history up to its front leaves, and goes on from all that each thread
/// has seen or learnt.
pub struct Latest;

impl Protocol<Version, Knows> for Latest {
    ghost use Rattle.std.specs.Prelude.{false, []};
    ghost use Rattle.cedr_history.specs.Versions.{IsLatest};

    ghost holds = { IsLatest };

    ghost first = { record { known = false; front = record { book = record { number = 0; log_name = 0; cells_name = 0 }; steps = [] } } };
}

/// A step that sees what is shown afterwards: an enter, or a publish.
pub struct Sees;

impl Outcome<Version, Knows> for Sees {
    ghost use Rattle.cedr_history.specs.Versions.{Saw};

    ghost then = { Saw };
}

/// The writer hands on all that it knows.
pub struct Tells;

impl Split<Knows> for Tells {
    ghost left = { λ v. v };

    ghost right = { λ v. v };
}

/// The reader knows what the writer handed on.
pub struct Learns;

impl Join<Knows> for Learns {
    ghost use Rattle.std.specs.Prelude.{false, []};

    ghost both = { λ v w. w };

    ghost spent = { record { known = false; front = record { book = record { number = 0; log_name = 0; cells_name = 0 }; steps = [] } } };
}

pub type Behind = left_right::reader::Reader<Version, Knows, Latest>;

pub type Ahead = left_right::writer::Writer<Version, Deed, Knows, Latest>;
