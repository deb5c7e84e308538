ghost use Rattle.std.specs.Prelude.{◌≡◌, Bool, List, true, false, IfOk, IfSome, OnErr, OnOk};
ghost use mathlib.Core.List.{IsPrefix};
ghost use Rattle.cedr_base.specs.declared.change.Change.{Change};
ghost use Rattle.cedr_base.specs.Counters.{raised};
ghost use Rattle.plan_report.specs.Watching.{ReadsOn};

use cedr_base::OutOfMemory;
use cedr_history::Reader;

/// One who reads the result while it grows. It stands for the changes that it has read, in order, of which there are none at
/// first.
pub trait Watcher {
    /// Where it reports what it reads.
    type Out;

    // the changes that it has read, and what was reported of them since the outside was as the first value
    ghost stands: { Self.Out → Self → Self.Out → List Change → Type 0 };

    // whether a look lacked memory
    ghost lacked: { Self → Bool };

    /// Reads once, and says whether the read was let in. Where it was, the watcher stands for the whole list that the
    /// reader entered, and else for the same list as before; the reader's count of refused enters rose then. At
    /// `OutOfMemory` it stands for some first changes of what the reader has seen, and isn't asked again.
    fn look(&mut self, reader: &mut Reader, out: &mut Self::Out) -> Result<bool, OutOfMemory>
        requires { (start : Self.Out) × (list : List Change) × stands start self.old out.old list × IsPrefix list reader.old.seen.changes }
        ensures reads { ReadsOn reader.old reader.new }
        ensures seen { IfOk result (λ seen. seen ≡ true → (start : Self.Out) (list : List Change) → stands start self.old out.old list → IsPrefix list reader.old.seen.changes → stands start self.new out.new reader.new.seen.changes) }
        ensures none { IfOk result (λ seen. seen ≡ false → (start : Self.Out) (list : List Change) → stands start self.old out.old list → stands start self.new out.new list) }
        ensures refused { IfOk result (λ seen. seen ≡ false → reader.new.refused ≡ raised reader.old.refused) }
        ensures found { OnOk result (lacked self.new ≡ lacked self.old) }
        ensures short { OnErr result (lacked self.new ≡ true) }
        ensures last { IfOk result (λ seen. seen ≡ true → IfSome reader.old.last (λ l. reader.new.seen ≡ l)) }
        ensures err { OnErr result ((start : Self.Out) (list : List Change) → stands start self.old out.old list → IsPrefix list reader.old.seen.changes → (first : List Change) × stands start self.new out.new first × IsPrefix first reader.new.seen.changes) };
}
