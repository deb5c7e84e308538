ghost use Rattle.std.specs.Prelude.{◌≡◌, ℕ, List, Option, IfOk};
ghost use Rattle.cedr_io.specs.Counts.{Counts, count_sum};
ghost use Rattle.cedr_io.specs.Asked.{Asks};

use crate::fault::OutsideFault;
use crate::source::Source;

/// Sources of bytes by name.
pub trait Files {
    type Source: Source + Send;

    /// The bytes under a name, where there are some and they are known.
    ghost content: { Self → List ℕ → Option (List ℕ) };

    /// How many finds were refused, and reads of the sources that were given back. It stays at its
    /// last value, that of a `u64`.
    ghost faults: { Self → ℕ };

    /// The names that were looked for, in order.
    ghost asked: { Self → List (List ℕ) };

    /// A source of the bytes under this name, none of them read. A name that isn't there is refused.
    fn find(&mut self, name: &[u8]) -> Result<Self::Source, OutsideFault>
        ensures found { IfOk result (λ source. Self.Source.rest source ≡ content self.old name.now) }
        ensures fresh { IfOk result (λ source. Self.Source.faults source ≡ 0) }
        ensures counted { Counts result (faults self.old) (faults self.new) }
        ensures asked { Asks result (asked self.old) (asked self.new) name.now }
        ensures contents { (n : List ℕ) → content self.new n ≡ content self.old n };

    /// Takes a source back, and adds its faults to the files' own.
    fn give_back(&mut self, source: Self::Source)
        ensures counted { faults self.new ≡ count_sum (faults self.old) (Self.Source.faults source) }
        ensures asked { asked self.new ≡ asked self.old }
        ensures contents { (n : List ℕ) → content self.new n ≡ content self.old n };
}
