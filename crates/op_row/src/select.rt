ghost use Rattle.std.specs.Prelude.{◌≡◌, ◌∷◌, []};
ghost use Rattle.cedr_table.specs.RowWise.{row_wise};
ghost use Rattle.op_row.specs.Rows.{selected, same_life, passing};

use cedr_base::{Interval, OutOfMemory, Payload, Time};
use cedr_expr::Tests;
use cedr_table::{Operator, RowWise};
use std::alloc::Global;

/// The rows whose payload passes tests. The bound is the mark.
pub struct Select {
    tests: Tests,
}

impl Drop for Select {
    fn drop(self) {
        let Select { tests: _ } = self;
    }
}

impl Select {
    /// The tests see a row's payload as the left one. It takes no memory.
    pub fn new(tests: Tests) -> Select
        ensures meaning { ⟦<Select as Operator>⟧.meaning result ≡ row_wise (selected tests) (λ mark. mark) }
        ensures stands { ⟦<Select as Operator>⟧.stands result ([] ∷ []) (0 ∷ []) }
    {
        Select { tests }
    }
}

impl RowWise for Select {
    ghost use Rattle.op_row.specs.RowLaws.{one_selected, cut_becomes};

    ghost in_range = { λ _. Unit {0} };

    ghost image = { λ s. selected s.tests };

    ghost guarantee_at = { λ _ mark. mark };

    ghost life_of = { λ _. same_life };

    ghost payload_of = { λ s. passing s.tests };

    fn life(&self, begin: Time, end: Time) -> Interval {
        Interval { begin, end }
    }

    fn payload(&self, _alloc: Global, payload: Payload) -> Result<Option<Payload>, OutOfMemory> {
        if self.tests.holds_alone(&payload) {
            Ok(Some(payload))
        } else {
            Ok(None)
        }
    }

    fn guarantee(&self, mark: Time) -> Time {
        mark
    }

    ghost one_row = { λ s r h. one_selected s.tests r h };

    ghost is_life = { λ s begin end range h lives. h };

    ghost begins_from = { λ s begin end t range h from. from };

    ghost becomes = { λ s begin end earlier t range h lives below from. cut_becomes begin end earlier t below from };

    ghost guarantee_rises = { λ s mark higher range rise. rise };

    ghost guarantee_is_time = { λ s mark range h. h };
}
