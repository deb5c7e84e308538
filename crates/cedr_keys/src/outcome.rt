ghost use Rattle.std.specs.Prelude.{◌≡◌, ◌≢◌, ◌⊎◌, ◌++◌, IfOk, OnOk};
ghost use Rattle.cedr_keys.specs.Ends.{keys_code, told_text, IsToldOn};
ghost use Rattle.cedr_keys.specs.Texts.{bad_plan_text};

use cedr_base::OutOfMemory;
use cedr_io::{OutsideFault, Sink, write_all};
use cedr_plan::PlanKind;
use cedr_text::write_number;
use std::alloc::Global;

/// How a call went.
#[derive(Drop)]
pub(crate) enum KeysOutcome {
    /// The lines of the sources were written.
    Keyed,
    /// The plan isn't keyed. This is told of it.
    Unkeyed(Vec<u8>),
    /// As many columns were tried as there may be, and the plan may be keyed or not.
    Undecided,
    /// The words name no plan.
    Usage,
    /// The plan is refused, for a fault of the node of this number, or of the document at 0.
    BadPlan(PlanKind, usize),
    Read,
    Write,
    OutOfMemory,
}

impl KeysOutcome {
    /// The exit status: those of `cedr`, and 1 where the plan isn't keyed or it isn't known.
    fn code(&self) -> u8
        ensures { result ≡ keys_code self.now }
    {
        match self {
            KeysOutcome::Keyed => 0,
            KeysOutcome::Unkeyed(_) | KeysOutcome::Undecided | KeysOutcome::Usage => 1,
            KeysOutcome::BadPlan(_, _) => 2,
            KeysOutcome::Read => 4,
            KeysOutcome::Write => 5,
            KeysOutcome::OutOfMemory => 6,
        }
    }

    /// What is told of it on standard error.
    fn text(self, alloc: Global) -> Result<Vec<u8>, OutOfMemory>
        ensures { IfOk result (λ text. text.items ≡ told_text self) }
    {
        let mut text = Vec::new(alloc);
        match self {
            KeysOutcome::Keyed => {}
            KeysOutcome::Unkeyed(told) => return Ok(told),
            KeysOutcome::Undecided => {
                text.extend_from_slice(b"no column of the output was found in 2000 tries\n")?;
            }
            KeysOutcome::Usage => text.extend_from_slice(b"usage: cedr_keys PLAN\n")?,
            KeysOutcome::BadPlan(kind, node) => write_bad_plan(kind, node, &mut text)?,
            KeysOutcome::Read => text.extend_from_slice(b"read fault\n")?,
            KeysOutcome::Write => text.extend_from_slice(b"write fault\n")?,
            KeysOutcome::OutOfMemory => text.extend_from_slice(b"out of memory\n")?,
        }
        Ok(text)
    }

    /// Tells it on standard error, and answers its exit status, or that of want of memory where the text found none.
    pub(crate) fn report<E: Sink>(self, alloc: Global, err: &mut E) -> u8
        ensures code { (result ≡ keys_code self) ⊎ (result ≡ 6) }
        ensures told { result ≢ 6 → IsToldOn (E.written err.old) (E.written err.new) (E.faults err.old) (E.faults err.new) (told_text self) }
    {
        let code = self.code();
        let Ok(text) = self.text(alloc) else {
            let _ = write_all(err, b"out of memory\n");
            return 6;
        };
        match write_all(err, &text) {
            Err(OutsideFault::OutOfMemory) => 6,
            Ok(()) | Err(OutsideFault::Failed) => code,
        }
    }
}

/// Appends the number of a plan's fault, and of the node that has it.
fn write_bad_plan(kind: PlanKind, node: usize, text: &mut Vec<u8>) -> Result<(), OutOfMemory>
    ensures { OnOk result (text.new.items ≡ text.old.items ++ bad_plan_text kind node) }
{
    text.extend_from_slice(b"plan fault ")?;
    write_number(kind.number(), text)?;
    text.extend_from_slice(b" node ")?;
    write_number(node, text)?;
    text.push(b'\n')?;
    Ok(())
}
