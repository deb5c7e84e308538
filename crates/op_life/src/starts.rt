ghost use Rattle.std.specs.Prelude.{◌≡◌, ◌∷◌, [], Some};
ghost use Rattle.cedr_table.specs.RowWise.{row_wise};
ghost use Rattle.op_life.specs.Lifetimes.{started, with_life};

use cedr_base::{FOREVER, Interval, OutOfMemory, Payload, Time};
use cedr_table::{Operator, RowWise};
use std::alloc::Global;

/// Each row from its begin on, for ever: `[begin, FOREVER)`. The bound is the mark.
#[derive(Drop)]
pub struct Starts;

impl Starts {
    /// It takes no memory.
    pub fn new() -> Starts
        ensures meaning { ⟦<Starts as Operator>⟧.meaning result ≡ row_wise (with_life started) (λ mark. mark) }
        ensures stands { ⟦<Starts as Operator>⟧.stands result ([] ∷ []) (0 ∷ []) }
    {
        Starts
    }
}

impl RowWise for Starts {
    ghost use Rattle.std.specs.Prelude.{refl};
    ghost use Rattle.std.proofs.Common.{arith};
    ghost use Rattle.op_life.specs.LifetimeLaws.{stays};

    ghost in_range = { λ s. Unit {0} };

    ghost image = { λ s. with_life started };

    ghost guarantee_at = { λ s. (λ mark. mark) };

    ghost life_of = { λ s. started };

    ghost payload_of = { λ _ payload. Some payload };

    fn life(&self, begin: Time, end: Time) -> Interval {
        Interval {
            begin,
            end: FOREVER,
        }
    }

    fn payload(&self, _alloc: Global, payload: Payload) -> Result<Option<Payload>, OutOfMemory> {
        Ok(Some(payload))
    }

    fn guarantee(&self, mark: Time) -> Time {
        mark
    }

    ghost one_row = { λ s r h. refl };

    ghost is_life = { λ s begin end range h lives. record { lives = lives; begins = h.begins; ends = Prim.omega arith } };

    ghost begins_from = { λ s begin end t range h from. from };

    ghost becomes = { λ s begin end earlier t range h lives below from. stays t (started begin end) };

    ghost guarantee_rises = { λ s mark higher range rise. rise };

    ghost guarantee_is_time = { λ s mark range h. h };
}
