ghost use Rattle.std.specs.Prelude.{ℕ, ◌≡◌, ◌≤◌, ◌<◌, ◌⊎◌, List};
ghost use Rattle.cedr_base.specs.declared.row.Row.{Row};
ghost use Rattle.cedr_base.specs.Rows.{SameRows, AreRows, count_of};
ghost use Rattle.cedr_expr.specs.declared.test.Test.{Test};
ghost use Rattle.cedr_table.specs.Agreements.{KeepsAgreement};
ghost use Rattle.op_except.specs.Parts.{parts, all_excepted, except_of};
ghost use Rattle.op_except.specs.Lives.{life_row, bares};
ghost use Rattle.op_except.specs.Standing.{NeverMeet, ExceptStands};
ghost use Rattle.op_except.specs.declared.except.Except.{Except};
ghost use Rattle.filed_rows.specs.Filed.{all_under};
ghost use Rattle.cedr_table.specs.Operators.{Tables, table_at, least_of};

/// The law of the parts of a row, in which none of the others lives. They are the same bag in whatever order the others
/// stand, and none of them is there twice. Each lies within the row, isn't empty, has its payload and meets none of the
/// others; two different ones never meet; and each life within the row that meets none of the others lies within one of them.
/// So none of them lies within a longer life that meets none of the others.
pub fn longest_parts()
    ensures same { (a : Row) (others turned : List Row) → SameRows others turned → SameRows (parts a others) (parts a turned) }
    ensures once { (a x : Row) (others : List Row) → AreRows others → count_of x (parts a others) ≤ 1 }
    ensures within { (a x : Row) (others : List Row) → 0 < count_of x (parts a others) → (a.begin ≤ x.begin) × (x.begin < x.end) × (x.end ≤ a.end) × (x.payload ≡ a.payload) }
    ensures free { (a x : Row) (others : List Row) → AreRows others → 0 < count_of x (parts a others) → (b : Row) → 0 < count_of b others → NeverMeet x b }
    ensures apart { (a x y : Row) (others : List Row) → AreRows others → 0 < count_of x (parts a others) → 0 < count_of y (parts a others) → (x ≡ y → ⊥) → NeverMeet x y }
    ensures covers { (a : Row) (others : List Row) (begin end : ℕ) → begin < end → a.begin ≤ begin → end ≤ a.end → ((b : Row) → 0 < count_of b others → (end ≤ b.begin) ⊎ (b.end ≤ begin)) → (part : Row) × (0 < count_of part (parts a others)) × (part.begin ≤ begin) × (end ≤ part.end) }
{}

/// The law of an except of tables that agree up to the marks of their ports: its results agree up to its bound, which is the
/// same for both.
pub fn agreeing_excepts()
    ensures { (tests : List Test) → KeepsAgreement (except_of tests) }
{}

/// The law of what an except holds of port 0 and of its result: all copies of each row, and of each life, that doesn't end before
/// the least mark. So the rows of port 1 that it may hold are those that end after that mark, and those that meet a row of port 0
/// that it holds.
pub fn held_rows()
    ensures rows { (op : Except) (tables : Tables) (marks : List ℕ) (a : Row) → ExceptStands op tables marks → least_of marks ≤ a.end → count_of a (all_under op.left.by_tag.entries) ≡ count_of a (table_at tables 0) }
    ensures lives { (op : Except) (tables : Tables) (marks : List ℕ) (begin end : ℕ) → ExceptStands op tables marks → least_of marks ≤ end
        → count_of (life_row begin end) op.parts.by_end ≡ count_of (life_row begin end) (bares (all_excepted op.tests tables)) }
{}
