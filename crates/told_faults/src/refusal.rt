ghost use Rattle.std.specs.Prelude.{◌≡◌, ◌++◌, OnOk};
ghost use Rattle.told_faults.specs.FaultTexts.{kept_text, refusal_text};

use cedr_base::OutOfMemory;
use cedr_guard::Refusal;
use cedr_text::{LineFault, write_number, write_time};

/// Appends what is told of a file whose line has a fault: `events FILE line N fault K`, the numbers that the fault carries, and
/// a line feed. Where memory runs out some of the text may stand there.
pub fn write_refusal(file: &[u8], refusal: &Refusal, text: &mut Vec<u8>) -> Result<(), OutOfMemory>
    ensures { OnOk result (text.new.items ≡ text.old.items ++ refusal_text file.now refusal.now) }
{
    text.extend_from_slice(b"events ")?;
    text.extend_from_slice(file)?;
    text.extend_from_slice(b" line ")?;
    write_number(refusal.line, text)?;
    text.extend_from_slice(b" fault ")?;
    write_number(refusal.fault.number(), text)?;
    write_kept(&refusal.fault, text)?;
    text.push(b'\n')?;
    Ok(())
}

/// Appends the numbers that a fault carries.
fn write_kept(fault: &LineFault, text: &mut Vec<u8>) -> Result<(), OutOfMemory>
    ensures { OnOk result (text.new.items ≡ text.old.items ++ kept_text fault.now) }
{
    match fault {
        LineFault::BadEnd { begin, end } => {
            text.extend_from_slice(b" begin ")?;
            write_time(*begin, text)?;
            text.extend_from_slice(b" end ")?;
            write_time(*end, text)?;
        }
        LineFault::BeforeGuarantee { sync, mark } => {
            text.extend_from_slice(b" sync ")?;
            write_time(*sync, text)?;
            text.extend_from_slice(b" mark ")?;
            write_time(*mark, text)?;
        }
        _ => {}
    }
    Ok(())
}
