ghost use Rattle.std.specs.Prelude.{ℕ, List};
ghost use Rattle.cedr_base.specs.Rows.{AreRows, SameRows};
ghost use Rattle.cedr_expr.specs.declared.test.Test.{Test};
ghost use Rattle.cedr_table.specs.Agreements.{KeepsAgreement};
ghost use Rattle.cedr_table.specs.Operators.{Tables, HaveRows};
ghost use Rattle.pat_atleast.specs.AtLeasts.{at_least, at_least_of};
ghost use Rattle.pat_atleast.specs.Finding.{in_each_order};

/// The laws of the definition. Where the tables of the ports agree up to their marks, the results agree up to the bound. Each
/// row of the result is one. And the choices are those of the sequences of so many ports in each order: the rows of a
/// choice begin one after the other in one order at most.
pub fn at_least_law()
    ensures agrees { (ports number scope : ℕ) (tests : List Test) → KeepsAgreement (at_least_of ports number scope tests) }
    ensures rows { (number scope : ℕ) (tests : List Test) (tables : Tables) → HaveRows tables → AreRows (at_least number scope tests tables) }
    ensures orders { (number scope : ℕ) (tests : List Test) (tables : Tables) → SameRows (at_least number scope tests tables) (in_each_order number scope tests tables) }
{}
