ghost use Rattle.std.specs.Prelude.{◌≡◌, ◌++◌, OnOk};
ghost use Rattle.cedr_commands.specs.Refusals.{plan_fault_text, unsaved_text, checkpoint_fault_text, fault_at};

use cedr_base::OutOfMemory;
use cedr_guard::{GuardFault, Refusal};
use cedr_plan::PlanKind;
use cedr_text::write_number;

/// Why a file wasn't judged to its end.
#[derive(Clone, Copy)]
pub(crate) enum JudgeFault {
    Refused(Refusal),
    OutOfMemory,
}

impl JudgeFault {
    /// The fault of the line with this number.
    pub(crate) fn at(line: u64, fault: GuardFault) -> JudgeFault
        ensures { result ≡ fault_at line fault }
    {
        match fault {
            GuardFault::Line(fault) => JudgeFault::Refused(Refusal { line, fault }),
            GuardFault::OutOfMemory => JudgeFault::OutOfMemory,
        }
    }
}

/// Appends what is reported on standard error of a refused plan.
pub(crate) fn write_plan_fault(
    kind: PlanKind,
    node: usize,
    text: &mut Vec<u8>,
) -> Result<(), OutOfMemory>
    ensures { OnOk result (text.new.items ≡ text.old.items ++ plan_fault_text kind node) }
{
    text.extend_from_slice(b"plan fault ")?;
    write_number(kind.number(), text)?;
    text.extend_from_slice(b" node ")?;
    write_number(node, text)?;
    text.push(b'\n')?;
    Ok(())
}

/// Appends what is reported on standard error of a plan that can't be saved.
pub(crate) fn write_unsaved(node: usize, text: &mut Vec<u8>) -> Result<(), OutOfMemory>
    ensures { OnOk result (text.new.items ≡ text.old.items ++ unsaved_text node) }
{
    text.extend_from_slice(b"plan fault 15 node ")?;
    write_number(node, text)?;
    text.push(b'\n')?;
    Ok(())
}

/// Appends what is reported on standard error of a file that isn't a checkpoint.
pub(crate) fn write_checkpoint_fault(line: u64, text: &mut Vec<u8>) -> Result<(), OutOfMemory>
    ensures { OnOk result (text.new.items ≡ text.old.items ++ checkpoint_fault_text line) }
{
    text.extend_from_slice(b"checkpoint line ")?;
    write_number(line, text)?;
    text.push(b'\n')?;
    Ok(())
}
