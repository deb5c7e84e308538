ghost use Rattle.std.specs.Prelude.{◌≡◌, ◌++◌, ◌∷◌, [], ℕ, List, true, OnOk, OnErr};
ghost use Rattle.cedr_base.specs.declared.row.Row.{Row};
ghost use Rattle.change_laws.specs.Repairs.{IsMoved};
ghost use Rattle.cedr_table.specs.Operators.{Tables, Meaning, table_at, with_table, CanTake, Gains, AllRise, AreTimes, OnlyHolds};
ghost use Rattle.cedr_table.specs.OperatorLaws.{OperatorLaws};

use cedr_base::{Change, OutOfMemory, Time};
use std::alloc::Global;

/// A step of a query: tables on its ports, and a result that it repairs change by change.
///
/// The state stands for a table and a mark on each port. A new operator stands for empty tables and marks of 0.
/// Where the state stands for several tables and marks, each clause holds of all of them.
pub trait Operator {
    /// What the operator means. No call changes it.
    ghost meaning: { Self → Meaning };

    /// The state stands for these tables and marks of its ports.
    ghost stands: { Self → Tables → List ℕ → Type 0 };

    /// The rows that the state holds, port by port.
    ghost held: { Self → Tables };

    /// How many ports there are. It takes no memory.
    fn ports(&self) -> usize
        ensures { result ≡ (meaning self.now).ports };

    /// Takes a change on a port, and appends changes that repair the result: they are legal one after the
    /// other from the old result, lead to the new one, aren't seen before the bound, and between them each
    /// row's count stays between its old and its new one. Their order is free. Where memory runs out nothing
    /// is appended, and the operator is only to be dropped.
    fn apply(
        &mut self,
        alloc: Global,
        port: usize,
        change: Change,
        out: &mut Vec<Change>,
    ) -> Result<(), OutOfMemory>
        requires { (tables : Tables) × (marks : List ℕ) × stands self.old tables marks × CanTake tables marks port change }
        ensures stands { OnOk result ((tables : Tables) (marks : List ℕ) (after : List Row) → stands self.old tables marks → CanTake tables marks port change → IsMoved change (table_at tables port) after → stands self.new (with_table tables port after) marks) }
        ensures repairs { OnOk result ((tables : Tables) (marks : List ℕ) (after : List Row) → stands self.old tables marks → CanTake tables marks port change → IsMoved change (table_at tables port) after → Gains ((meaning self.old).result tables) ((meaning self.old).result (with_table tables port after)) ((meaning self.old).bound tables marks) out.old.items out.new.items) }
        ensures meaning { meaning self.new ≡ meaning self.old }
        ensures echoes { OnOk result ((meaning self.old).echoes ≡ true → out.new.items ≡ out.old.items ++ change ∷ []) }
        ensures stateless { OnOk result ((meaning self.old).stateless ≡ true → self.new ≡ self.old) }
        ensures err { OnErr result (out.new.items ≡ out.old.items) };

    /// The guarantee that may be handed on: no later change of the result is seen before it. There is a mark
    /// for each port, and none is above `FOREVER`. It takes no memory.
    fn bound(&self, marks: &[Time]) -> Time
        requires { (tables : Tables) × stands self.now tables marks.now × AreTimes marks.now }
        ensures { (tables : Tables) → stands self.now tables marks.now → result ≡ (meaning self.now).bound tables marks.now };

    /// Forgets rows that can't change the result any more, at marks that are none below the earlier ones and
    /// none above `FOREVER`. The state stands for the same full tables. It takes no memory.
    fn trim(&mut self, marks: &[Time])
        requires { (tables : Tables) × (earlier : List ℕ) × stands self.old tables earlier × AllRise earlier marks.now × AreTimes marks.now }
        ensures stands { (tables : Tables) (earlier : List ℕ) → stands self.old tables earlier → AllRise earlier marks.now → stands self.new tables marks.now }
        ensures held { (tables : Tables) (earlier : List ℕ) → stands self.old tables earlier → AllRise earlier marks.now → OnlyHolds (meaning self.old) tables marks.now (held self.new) }
        ensures meaning { meaning self.new ≡ meaning self.old }
        ensures stateless { (meaning self.old).stateless ≡ true → self.new ≡ self.old };

    /// The laws of what it means and of what its state stands for: they depend on bags alone, what stands for some
    /// marks stands for greater ones, nothing comes of empty tables, and the bound never falls.
    ghost lawful: { (s : Self) → OperatorLaws (meaning s) (stands s) };
}
