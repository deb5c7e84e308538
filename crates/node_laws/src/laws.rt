ghost use Rattle.std.specs.Prelude.{ℕ, ◌≡◌, ◌++◌, List, [], ◌∷◌, length, Option, Some, None, true, false};
ghost use Rattle.cedr_base.specs.declared.time.TheConstants.{FOREVER};
ghost use Rattle.cedr_base.specs.declared.level.Level.{Level};
ghost use Rattle.cedr_base.specs.declared.change.Message.{Message};
ghost use Rattle.cedr_base.specs.declared.row.Row.{Row};
ghost use Rattle.cedr_base.specs.Rows.{AreRows, SameRows};
ghost use Rattle.cedr_base.specs.Changes.{all_puts, all_takes};
ghost use Rattle.cedr_base.specs.Messages.{changes_of, mark_of, IsTableOf, IsOpen, IsLegal};
ghost use Rattle.change_laws.specs.Agreeing.{AgreeUpTo};
ghost use Rattle.cedr_table.specs.Operators.{Tables, Meaning, HaveRows, SameTables};
ghost use Rattle.cedr_table.specs.Agreements.{KeepsAgreement};
ghost use Rattle.node_laws.specs.Surplus.{Ascend};
ghost use Rattle.node_laws.specs.Kept.{kept, kept_table, forgot, changes_in, AreOld, AgreeOnRecent};
ghost use Rattle.node_laws.specs.Pass.{has_end, held, passed_table, front, pass, added, HasNoCut};
ghost use Rattle.node_laws.specs.Lists.{Lists, list_at};
ghost use Rattle.node_laws.specs.Lawful.{passes_of, has_broken, any_broken, all_over, any_came, Fits, EndsBroken, IsLawful};
ghost use Rattle.node_laws.specs.Approaching.{Approaches, AllApproach, RememberAll, AddsFirst};

/// The law of passing on: what a port passes on of a legal list is legal, its table is the passed table, and its mark
/// is the front. The passed table agrees with the kept one up to the front. After the end it is the kept one, and the
/// front is `FOREVER`.
pub fn passing()
    ensures legal { (level : Level) (ms : List Message) → IsLegal ms → IsLegal (pass level ms) }
    ensures table { (level : Level) (ms : List Message) → IsLegal ms → IsTableOf (pass level ms) (passed_table level ms) }
    ensures mark { (level : Level) (ms : List Message) → IsLegal ms → mark_of (pass level ms) ≡ front level ms }
    ensures agree { (level : Level) (ms : List Message) → AgreeUpTo (front level ms) (kept_table level.memory ms) (passed_table level ms) }
    ensures ended { (level : Level) (ms : List Message) → has_end ms ≡ true → passed_table level ms ≡ kept_table level.memory ms }
    ensures last { (level : Level) (ms : List Message) → has_end ms ≡ true → front level ms ≡ FOREVER }
{}

/// The law of strong ports: where the block is without limit, additions alone are passed on, and their rows are in
/// canonical order over the whole run.
pub fn strong_passing()
    ensures no_cut { (level : Level) (ms : List Message) → level.block ≡ None → IsLegal ms → HasNoCut (changes_of (pass level ms)) }
    ensures ascend { (level : Level) (ms : List Message) → level.block ≡ None → IsLegal ms → Ascend (added (changes_of (pass level ms))) }
{}

/// The law of middle ports: where the block is 0 nothing is held, so until the end the front is the mark. Where besides
/// the memory is without limit, the passed table is the table of all that came.
pub fn middle_passing()
    ensures held { (level : Level) (ms : List Message) → level.block ≡ Some 0 → held level ms ≡ [] }
    ensures mark { (level : Level) (ms : List Message) → level.block ≡ Some 0 → has_end ms ≡ false → front level ms ≡ mark_of ms }
    ensures table { (level : Level) (ms : List Message) → level.block ≡ Some 0 → level.memory ≡ None → IsLegal ms → IsTableOf ms (passed_table level ms) }
{}

/// The law of forgetting: each change that a port forgets, orphans included, is of a row that begins more than the
/// memory before the greatest time that came before it, and on each other row the kept table is the full one. What is
/// kept and what is forgotten are together what came, and what is kept takes away nothing that it didn't put. Where the
/// memory is without limit nothing is forgotten.
pub fn forgetting()
    ensures old { (level : Level) (ms : List Message) → IsLegal ms → AreOld level.memory (forgot level.memory ms) }
    ensures recent { (level : Level) (ms : List Message) → IsLegal ms → AgreeOnRecent level.memory ms }
    ensures puts { (memory : Option ℕ) (ms : List Message) → SameRows (all_puts (changes_of ms)) (all_puts (kept memory ms ++ changes_in (forgot memory ms))) }
    ensures takes { (memory : Option ℕ) (ms : List Message) → SameRows (all_takes (changes_of ms)) (all_takes (kept memory ms ++ changes_in (forgot memory ms))) }
    ensures sound { (level : Level) (ms : List Message) → IsLegal ms → SameRows (kept_table level.memory ms ++ all_takes (kept level.memory ms)) (all_puts (kept level.memory ms)) }
    ensures none { (ms : List Message) → IsLegal ms → forgot None ms ≡ [] }
{}

/// The law of lawful nodes. There is a list for each level. Once a message came, and while no list is broken, what was
/// given fits; before, nothing was given. Where some list is broken, what was given is broken exactly where each list
/// is over. What was given of legal lists is legal, broken or not, so its `Broken` stands once, at its end, and it is
/// open while some list is. An output gave what its port passed on, a break included.
pub fn lawful_giving()
    ensures count { (meaning : Meaning) (levels : List Level) (lists : Lists) (given : List Message) → IsLawful meaning levels lists given → length lists ≡ length levels }
    ensures fits { (meaning : Meaning) (levels : List Level) (lists : Lists) (given : List Message) → IsLawful meaning levels lists given → any_came lists ≡ true → any_broken lists ≡ false → Fits meaning levels lists given }
    ensures nothing { (meaning : Meaning) (levels : List Level) (lists : Lists) (given : List Message) → IsLawful meaning levels lists given → any_came lists ≡ false → given ≡ [] }
    ensures broken { (meaning : Meaning) (levels : List Level) (lists : Lists) (given : List Message) → IsLawful meaning levels lists given → any_broken lists ≡ true → has_broken given ≡ all_over lists }
    ensures unbroken { (meaning : Meaning) (levels : List Level) (lists : Lists) (given : List Message) → IsLawful meaning levels lists given → any_broken lists ≡ false → has_broken given ≡ false }
    ensures legal { (meaning : Meaning) (levels : List Level) (lists : Lists) (given : List Message) → IsLawful meaning levels lists given → ((port : ℕ) → IsLegal (list_at lists port)) → IsLegal given }
    ensures opened { (meaning : Meaning) (levels : List Level) (lists : Lists) (given : List Message) → IsLawful meaning levels lists given → ((port : ℕ) → IsLegal (list_at lists port)) → all_over lists ≡ false → IsOpen given }
    ensures once { (meaning : Meaning) (levels : List Level) (lists : Lists) (given : List Message) → IsLawful meaning levels lists given → ((port : ℕ) → IsLegal (list_at lists port)) → has_broken given ≡ true → EndsBroken given }
    ensures echo { (meaning : Meaning) (levels : List Level) (lists : Lists) (given : List Message) → IsLawful meaning levels lists given → ((port : ℕ) → IsLegal (list_at lists port)) → meaning.echoes ≡ true → length levels ≡ 1 → passes_of levels lists ≡ given ∷ [] }
{}

/// The law of lists that are on the way to a table. A legal list that isn't broken is on the way to its own table, and its
/// first messages are too. Where no port has a limit on its memory, what a node gave of such lists is on the way to its
/// result at their tables. What a port whose block is without limit passed on of one adds the first of the table's rows in
/// canonical order.
pub fn approaching()
    ensures itself { (ms : List Message) (rows : List Row) → IsLegal ms → has_broken ms ≡ false → IsTableOf ms rows → Approaches ms rows }
    ensures begins { (ms more : List Message) (rows : List Row) → Approaches (ms ++ more) rows → Approaches ms rows }
    ensures node { (meaning : Meaning) (levels : List Level) (lists : Lists) (given : List Message) (tables : Tables) → KeepsAgreement meaning → ((some : Tables) → HaveRows some → AreRows (meaning.result some)) → ((some others : Tables) → SameTables some others → SameRows (meaning.result some) (meaning.result others)) → RememberAll levels → length lists ≡ length levels → AllApproach lists tables → Fits meaning levels lists given → Approaches given (meaning.result tables) }
    ensures strong { (level : Level) (ms : List Message) (rows : List Row) → level.block ≡ None → level.memory ≡ None → Approaches ms rows → AddsFirst (changes_of (pass level ms)) rows }
{}
