ghost use Rattle.std.specs.Prelude.{◌≡◌, ◌<◌, ◌≤◌, ℕ, List, Option, length, IfOk, OnOk, OnErr};
ghost use Rattle.std.specs.Borrow.{GName};
ghost use Rattle.std.specs.Io.KnownBytes.{Keeps, ReadConsumes, WriteAppends, Appends};
ghost use Rattle.cedr_io.specs.Counts.{Counts};
ghost use Rattle.cedr_script.specs.declared.step.WireStep.{WireStep};
ghost use Rattle.cedr_script.specs.Logs.{LogsRead, LogsWrite, Sends, SendsFront};

use cedr_io::OutsideFault;

/// Where a script comes from, and where what comes of its lines goes. What went over it is known in its order where the log
/// is.
pub trait Wire {
    /// The bytes of the script that weren't read yet, where they are known.
    ghost rest: { Self → Option (List ℕ) };

    /// The bytes that were written, where they are known.
    ghost written: { Self → Option (List ℕ) };

    /// What came and what went, one after the other, where it is known.
    ghost log: { Self → Option (List WireStep) };

    /// The names of the `&mut` that it holds: each call leaves them as they are.
    ghost loans: { Self → List GName };

    /// How many reads were refused. It stays at its last value, that of a `u64`.
    ghost refused_reads: { Self → ℕ };

    /// How many writes were refused, likewise.
    ghost refused_writes: { Self → ℕ };

    /// Reads up to `buf.len()` bytes to the front of `buf`, and answers how many: 0 exactly where no byte is left. A refused
    /// read takes nothing from what is left, and neither does one for which memory runs out.
    fn read(&mut self, buf: &mut [u8]) -> Result<usize, OutsideFault>
        requires { 0 < length buf.old }
        ensures within { IfOk result (λ n. n ≤ length buf.new) }
        ensures bytes { ReadConsumes (rest self.old) (rest self.new) result buf.new }
        ensures kept { Keeps (written self.old) (written self.new) }
        ensures logged { LogsRead result (log self.old) (log self.new) buf.new }
        ensures counted { Counts result (refused_reads self.old) (refused_reads self.new) }
        ensures writes { refused_writes self.new ≡ refused_writes self.old }
        ensures loans { loans self.new ≡ loans self.old };

    /// Takes the first bytes of `piece`, and answers how many, at least 1. A refused write takes none.
    fn write(&mut self, piece: &[u8]) -> Result<usize, OutsideFault>
        requires { 0 < length piece.now }
        ensures some { IfOk result (λ n. 0 < n) }
        ensures within { IfOk result (λ n. n ≤ length piece.now) }
        ensures bytes { WriteAppends (written self.old) (written self.new) result piece.now }
        ensures kept { Keeps (rest self.old) (rest self.new) }
        ensures logged { LogsWrite result (log self.old) (log self.new) piece.now }
        ensures counted { Counts result (refused_writes self.old) (refused_writes self.new) }
        ensures reads { refused_reads self.new ≡ refused_reads self.old }
        ensures loans { loans self.new ≡ loans self.old };
}

/// Writes all of the bytes, in as many pieces as the wire takes them in. After a refusal it has taken a front of them, and the
/// log has just that.
pub fn send_all<W: Wire>(wire: &mut W, bytes: &[u8]) -> Result<(), OutsideFault>
    ensures ok { OnOk result (Appends (W.written wire.old) (W.written wire.new) bytes.now) }
    ensures err { OnErr result (SendsFront (W.written wire.old) (W.written wire.new) (W.log wire.old) (W.log wire.new) bytes.now) }
    ensures sent { OnOk result (Sends (W.log wire.old) (W.log wire.new) bytes.now) }
    ensures kept { Keeps (W.rest wire.old) (W.rest wire.new) }
    ensures counted { Counts result (W.refused_writes wire.old) (W.refused_writes wire.new) }
    ensures reads { W.refused_reads wire.new ≡ W.refused_reads wire.old }
    ensures loans { W.loans wire.new ≡ W.loans wire.old }
{
    let mut done = 0;
    while done < bytes.len() {
        let taken = wire.write(&bytes[done..])?;
        done += taken;
    }
    Ok(())
}
