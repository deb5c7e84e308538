ghost use Rattle.std.specs.Prelude.{◌≡◌, ◌<◌, ◌≤◌, IfOk, length};
ghost use Rattle.std.specs.Io.KnownBytes.{Keeps};
ghost use Rattle.plan_follow.specs.Following.{CountsReads, CountsWrites};
ghost use Rattle.plan_follow.specs.Sending.{outside_of, OnlyWrites, SendsBoth, SendsText, TellsOf, ReadsPiece};

use crate::fault::FollowFault;
use cedr_io::{OutsideFault, Sink, write_all};
use cedr_script::{Wire, send_all};

/// Reads the next piece of a script to the front of `buf`, and answers how many bytes it has: 0 where the script has ended.
pub(crate) fn read_piece<W: Wire>(wire: &mut W, buf: &mut [u8]) -> Result<usize, FollowFault>
    requires { 0 < length buf.old }
    ensures within { IfOk result (λ n. n ≤ length buf.new) }
    ensures read { ReadsPiece result (W.rest wire.old) (W.rest wire.new) (W.log wire.old) (W.log wire.new) buf.new }
    ensures written { Keeps (W.written wire.old) (W.written wire.new) }
    ensures reads { CountsReads result (W.refused_reads wire.old) (W.refused_reads wire.new) }
    ensures writes { W.refused_writes wire.new ≡ W.refused_writes wire.old }
    ensures loans { W.loans wire.new ≡ W.loans wire.old }
{
    match wire.read(buf) {
        Ok(count) => Ok(count),
        Err(OutsideFault::Failed) => Err(FollowFault::Read),
        Err(OutsideFault::OutOfMemory) => Err(FollowFault::OutOfMemory),
    }
}

/// Writes a text.
fn send_text<W: Wire>(wire: &mut W, text: &[u8]) -> Result<(), FollowFault>
    ensures sent { SendsText result (W.written wire.old) (W.written wire.new) (W.log wire.old) (W.log wire.new) text.now }
    ensures rest { Keeps (W.rest wire.old) (W.rest wire.new) }
    ensures writes { CountsWrites result (W.refused_writes wire.old) (W.refused_writes wire.new) }
    ensures reads { W.refused_reads wire.new ≡ W.refused_reads wire.old }
    ensures loans { W.loans wire.new ≡ W.loans wire.old }
{
    match send_all(wire, text) {
        Ok(()) => Ok(()),
        Err(OutsideFault::Failed) => Err(FollowFault::Write),
        Err(OutsideFault::OutOfMemory) => Err(FollowFault::OutOfMemory),
    }
}

/// Tells a text. Where it is refused following goes on: the answer doesn't depend on it.
fn tell<E: Sink>(err: &mut E, said: &[u8]) -> Result<(), FollowFault>
    ensures { TellsOf result (E.faults err.old) (E.faults err.new) (E.written err.old) (E.written err.new) said.now }
{
    match write_all(err, said) {
        Ok(()) | Err(OutsideFault::Failed) => Ok(()),
        Err(OutsideFault::OutOfMemory) => Err(FollowFault::OutOfMemory),
    }
}

/// Writes a text, and then tells what is told of lines that aren't accepted.
pub(crate) fn send_both<W: Wire, E: Sink>(
    wire: &mut W,
    err: &mut E,
    text: &[u8],
    said: &[u8],
) -> Result<(), FollowFault>
    ensures sent { SendsBoth result (outside_of W.rest W.written W.log E.faults E.written wire.old err.old) (outside_of W.rest W.written W.log E.faults E.written wire.new err.new) text.now said.now }
    ensures writes { CountsWrites result (W.refused_writes wire.old) (W.refused_writes wire.new) }
    ensures reads { W.refused_reads wire.new ≡ W.refused_reads wire.old }
    ensures loans { W.loans wire.new ≡ W.loans wire.old }
{
    send_text(wire, text)?;
    tell(err, said)
}
