ghost use Rattle.std.specs.Prelude.{ℕ, ◌≡◌, ◌≤◌, ◌<◌, ◌++◌, ◌∷◌, [], List, max};
ghost use Rattle.cedr_base.specs.declared.row.Row.{Row};
ghost use Rattle.cedr_base.specs.declared.change.Change.{Change};
ghost use Rattle.cedr_base.specs.declared.change.Message.{Message};
ghost use Rattle.cedr_base.specs.declared.change.Message.TheVariants as message;
ghost use Rattle.cedr_base.specs.Rows.{IsRow, count_of, AreRows, SameRows};
ghost use Rattle.cedr_base.specs.Changes.{MayFollow};
ghost use Rattle.cedr_base.specs.Messages.{changes_of, mark_of, IsOpen, IsTableOf, MayCome, IsLegal};
ghost use Rattle.change_laws.specs.Repairs.{IsMoved, Repair, wrapped};
ghost use Rattle.change_laws.specs.Agreeing.{AgreeUpTo};

/// The law of legal lists, message by message: a legal list stays legal with a message that may come after it. A
/// change that comes may follow in the list's table, and the longer list has the table that the change makes of it.
/// Other messages leave the table as it is. The mark of the longer list is the greater one. The table has only rows.
pub fn legal_lists()
    ensures goes_on { (ms : List Message) (m : Message) → IsLegal ms → MayCome ms m → IsLegal (ms ++ m ∷ []) }
    ensures follows { (ms : List Message) (c : Change) (rows : List Row) → IsTableOf ms rows → MayCome ms (message.Change c) → MayFollow rows [] c }
    ensures table { (ms : List Message) (c : Change) (old new : List Row) → IsTableOf ms old → IsMoved c old new → IsTableOf (ms ++ message.Change c ∷ []) new }
    ensures same_table { (ms : List Message) (m : Message) (rows : List Row) → IsTableOf ms rows → changes_of (m ∷ []) ≡ [] → IsTableOf (ms ++ m ∷ []) rows }
    ensures mark { (ms : List Message) (m : Message) → mark_of (ms ++ m ∷ []) ≡ max (mark_of ms) (mark_of (m ∷ [])) }
    ensures rows { (ms : List Message) (rows : List Row) → IsLegal ms → IsTableOf ms rows → AreRows rows }
{}

/// The law of repairs: after a legal list whose table is the old one, the changes of a repair from the list's
/// mark on are legal, and the table is then the new one.
pub fn repairs()
    ensures legal { (given : List Message) (old new : List Row) (cs : List Change) → IsLegal given → IsOpen given → IsTableOf given old → Repair old new (mark_of given) cs → IsLegal (given ++ wrapped cs) }
    ensures table { (given : List Message) (old new : List Row) (t : ℕ) (cs : List Change) → IsTableOf given old → Repair old new t cs → IsTableOf (given ++ wrapped cs) new }
{}

/// The law of tables that agree up to a time: where a legal list goes on, its table agrees with the earlier one
/// up to the earlier mark, and tables that agree up to a time agree up to each earlier one. To agree is an equivalence
/// that equal bags meet, and tables that agree have the same copies of each row that ends before the time.
pub fn agreement()
    ensures going_on { (ms more : List Message) (old new : List Row) → IsLegal (ms ++ more) → IsTableOf ms old → IsTableOf (ms ++ more) new → AgreeUpTo (mark_of ms) old new }
    ensures earlier { (t s : ℕ) (xs ys : List Row) → t ≤ s → AgreeUpTo s xs ys → AgreeUpTo t xs ys }
    ensures itself { (t : ℕ) (xs : List Row) → AgreeUpTo t xs xs }
    ensures back { (t : ℕ) (xs ys : List Row) → AgreeUpTo t xs ys → AgreeUpTo t ys xs }
    ensures along { (t : ℕ) (xs ys zs : List Row) → AgreeUpTo t xs ys → AgreeUpTo t ys zs → AgreeUpTo t xs zs }
    ensures same { (t : ℕ) (xs ys : List Row) → SameRows xs ys → AgreeUpTo t xs ys }
    ensures ended { (t : ℕ) (xs ys : List Row) (r : Row) → AgreeUpTo t xs ys → IsRow r → r.end < t → count_of r xs ≡ count_of r ys }
{}
