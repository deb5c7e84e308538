ghost use Rattle.std.specs.Prelude.{◌≡◌, ◌<◌, ◌≤◌, ℕ, List, Option, length, IfOk, OnOk, OnErr};
ghost use Rattle.std.specs.Io.KnownBytes.{WriteAppends, Appends};
ghost use Rattle.cedr_io.specs.Counts.{Counts};
ghost use Rattle.cedr_io.specs.Asked.{AppendsFront};

use crate::fault::OutsideFault;

/// Where bytes go.
pub trait Sink {
    /// The bytes that were taken so far, where they are known.
    ghost written: { Self → Option (List ℕ) };

    /// How many writes were refused. It stays at its last value, that of a `u64`.
    ghost faults: { Self → ℕ };

    /// Takes the first bytes of `piece`, and answers how many, at least 1. A refused write takes none.
    fn write(&mut self, piece: &[u8]) -> Result<usize, OutsideFault>
        requires { 0 < length piece.now }
        ensures some { IfOk result (λ n. 0 < n) }
        ensures within { IfOk result (λ n. n ≤ length piece.now) }
        ensures bytes { WriteAppends (written self.old) (written self.new) result piece.now }
        ensures counted { Counts result (faults self.old) (faults self.new) };
}

/// Writes all of the bytes, in as many pieces as the sink takes them in. After a refusal the sink has
/// taken a front of them.
pub fn write_all<K: Sink>(sink: &mut K, bytes: &[u8]) -> Result<(), OutsideFault>
    ensures ok { OnOk result (Appends (K.written sink.old) (K.written sink.new) bytes.now) }
    ensures err { OnErr result (AppendsFront (K.written sink.old) (K.written sink.new) bytes.now) }
    ensures counted { Counts result (K.faults sink.old) (K.faults sink.new) }
{
    let mut done = 0;
    while done < bytes.len() {
        let taken = sink.write(&bytes[done..])?;
        done += taken;
    }
    Ok(())
}
