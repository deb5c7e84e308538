ghost use Rattle.std.specs.Prelude.{◌≡◌, ◌<◌, ◌≤◌, ℕ, List, Option, length, IfOk};
ghost use Rattle.std.specs.Io.KnownBytes.{ReadConsumes};
ghost use Rattle.cedr_io.specs.Counts.{CountsRead};

use crate::fault::Failed;

/// Where bytes come from.
pub trait Source {
    /// The bytes that weren't read yet, where they are known.
    ghost rest: { Self → Option (List ℕ) };

    /// How many reads were refused. It stays at its last value, that of a `u64`.
    ghost faults: { Self → ℕ };

    /// Reads up to `buf.len()` bytes to the front of `buf`, and answers how many. It answers 0 exactly
    /// where no byte is left. A refused read takes nothing from what is left.
    fn read(&mut self, buf: &mut [u8]) -> Result<usize, Failed>
        requires { 0 < length buf.old }
        ensures within { IfOk result (λ n. n ≤ length buf.new) }
        ensures bytes { ReadConsumes (rest self.old) (rest self.new) result buf.new }
        ensures counted { CountsRead result (faults self.old) (faults self.new) };
}
