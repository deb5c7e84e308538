ghost use Rattle.std.specs.Prelude.{◌≡◌, ◌∷◌, [], Some};
ghost use Rattle.cedr_expr.specs.Columns.{kept_columns};
ghost use Rattle.cedr_table.specs.RowWise.{row_wise};
ghost use Rattle.op_row.specs.Rows.{projected, same_life};

use cedr_base::{Interval, OutOfMemory, Payload, Time};
use cedr_expr::Keep;
use cedr_table::{Operator, RowWise};
use std::alloc::Global;

/// Each row with the kept columns. The bound is the mark.
pub struct Project {
    keep: Keep,
}

impl Drop for Project {
    fn drop(self) {
        let Project { keep: _ } = self;
    }
}

impl Project {
    /// It takes no memory.
    pub fn new(keep: Keep) -> Project
        ensures meaning { ⟦<Project as Operator>⟧.meaning result ≡ row_wise (projected keep) (λ mark. mark) }
        ensures stands { ⟦<Project as Operator>⟧.stands result ([] ∷ []) (0 ∷ []) }
    {
        Project { keep }
    }
}

impl RowWise for Project {
    ghost use Rattle.op_row.specs.RowLaws.{one_projected, cut_becomes};

    ghost in_range = { λ _. Unit {0} };

    ghost image = { λ s. projected s.keep };

    ghost guarantee_at = { λ _ mark. mark };

    ghost life_of = { λ _. same_life };

    ghost payload_of = { λ s payload. Some (kept_columns s.keep payload) };

    fn life(&self, begin: Time, end: Time) -> Interval {
        Interval { begin, end }
    }

    fn payload(&self, alloc: Global, payload: Payload) -> Result<Option<Payload>, OutOfMemory> {
        if self.keep.keeps_all(&payload) {
            return Ok(Some(payload));
        }
        Ok(Some(self.keep.apply(alloc, &payload)?))
    }

    fn guarantee(&self, mark: Time) -> Time {
        mark
    }

    ghost one_row = { λ s r h. one_projected s.keep r h };

    ghost is_life = { λ s begin end range h lives. h };

    ghost begins_from = { λ s begin end t range h from. from };

    ghost becomes = { λ s begin end earlier t range h lives below from. cut_becomes begin end earlier t below from };

    ghost guarantee_rises = { λ s mark higher range rise. rise };

    ghost guarantee_is_time = { λ s mark range h. h };
}
