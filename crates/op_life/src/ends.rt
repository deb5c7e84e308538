ghost use Rattle.std.specs.Prelude.{◌≡◌, ◌∷◌, [], Some};
ghost use Rattle.cedr_table.specs.RowWise.{row_wise};
ghost use Rattle.op_life.specs.Lifetimes.{ended, with_life};

use cedr_base::{FOREVER, Interval, OutOfMemory, Payload, Time};
use cedr_table::{Operator, RowWise};
use std::alloc::Global;

/// Each row from its end on, for ever: `[end, FOREVER)`. A row that never ends gives none. The bound is the mark.
#[derive(Drop)]
pub struct Ends;

impl Ends {
    /// It takes no memory.
    pub fn new() -> Ends
        ensures meaning { ⟦<Ends as Operator>⟧.meaning result ≡ row_wise (with_life ended) (λ mark. mark) }
        ensures stands { ⟦<Ends as Operator>⟧.stands result ([] ∷ []) (0 ∷ []) }
    {
        Ends
    }
}

impl RowWise for Ends {
    ghost use Rattle.std.specs.Prelude.{refl};
    ghost use Rattle.std.proofs.Common.{arith};
    ghost use Rattle.op_life.specs.LifetimeLaws.{end_becomes};

    ghost in_range = { λ s. Unit {0} };

    ghost image = { λ s. with_life ended };

    ghost guarantee_at = { λ s. (λ mark. mark) };

    ghost life_of = { λ s. ended };

    ghost payload_of = { λ _ payload. Some payload };

    fn life(&self, begin: Time, end: Time) -> Interval {
        Interval {
            begin: end,
            end: FOREVER,
        }
    }

    fn payload(&self, _alloc: Global, payload: Payload) -> Result<Option<Payload>, OutOfMemory> {
        Ok(Some(payload))
    }

    fn guarantee(&self, mark: Time) -> Time {
        mark
    }

    ghost one_row = { λ s r h. refl };

    ghost is_life = { λ s begin end range h lives. record { lives = lives; begins = lives; ends = Prim.omega arith } };

    ghost begins_from = { λ s begin end t range h from. let x = h.lives in Prim.omega arith };

    ghost becomes = { λ s begin end earlier t range h lives below from. end_becomes begin end earlier t below from };

    ghost guarantee_rises = { λ s mark higher range rise. rise };

    ghost guarantee_is_time = { λ s mark range h. h };
}
