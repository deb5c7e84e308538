ghost use Rattle.std.specs.Prelude.{ℕ, ◌≡◌, ◌<◌, ◌≤◌, ◌↔◌, List, true, ◌∷◌, []};
ghost use Rattle.cedr_base.specs.declared.row.Row.{Row};
ghost use Rattle.cedr_base.specs.Rows.{count_of};
ghost use Rattle.cedr_base.specs.declared.field.Field.{Field};
ghost use Rattle.op_group.specs.Groups.{Grouping, rows_of, segments, group_of};
ghost use Rattle.op_group.specs.Measures.{is_cut_of};

/// The law of the bound of groups: of the rows of the result that begin before a mark, those that don't end before it
/// are those that begin at their group's greatest cut point below the mark.
pub fn open_groups()
    ensures { (grouping : Grouping) (rows : List Row) (mark : ℕ) (key : List Field) (r : Row) → 0 < count_of r (segments grouping key (rows_of grouping key rows)) → r.begin < mark → (mark ≤ r.end) ↔ ((t : ℕ) → t < mark → is_cut_of (rows_of grouping key rows) t ≡ true → t ≤ r.begin) }
{}

/// The law of what groups hold: what may be held at a mark, from a cut point of a group to the next one or as long as a
/// field lives, doesn't end before the mark, and so not below its group's greatest cut point below the mark.
pub fn held_groups()
    ensures { (grouping : Grouping) (rows : List Row) (mark : ℕ) (r : Row) → (group_of grouping).may_hold (rows ∷ []) (mark ∷ []) 0 r ≡ true → r.begin < r.end → mark ≤ r.end }
{}
