ghost use Rattle.std.specs.Prelude.{◌≡◌, ◌∷◌, [], Some};
ghost use Rattle.cedr_table.specs.RowWise.{row_wise};
ghost use Rattle.change_laws.specs.Times.{IsWhile};
ghost use Rattle.op_life.specs.Lifetimes.{with_life, windowed};

use cedr_base::{Interval, OutOfMemory, Payload, Time, later};
use cedr_table::{Operator, RowWise};
use std::alloc::Global;

/// Each row for at most a while from its begin on: `[begin, min(end, begin + width))`. The bound is the mark.
#[derive(Drop)]
pub struct Window {
    width: u64,
}

impl Window {
    /// It takes no memory.
    pub fn new(width: u64) -> Window
        requires { IsWhile width }
        ensures meaning { ⟦<Window as Operator>⟧.meaning result ≡ row_wise (with_life (windowed width)) (λ mark. mark) }
        ensures stands { ⟦<Window as Operator>⟧.stands result ([] ∷ []) (0 ∷ []) }
    {
        Window { width }
    }
}

impl RowWise for Window {
    ghost use Rattle.std.specs.Prelude.{refl};
    ghost use Rattle.op_life.specs.LifetimeLaws.{window_is_life, window_becomes};

    ghost in_range = { λ s. IsWhile s.width };

    ghost image = { λ s. with_life (windowed s.width) };

    ghost guarantee_at = { λ _ mark. mark };

    ghost life_of = { λ s. windowed s.width };

    ghost payload_of = { λ _ payload. Some payload };

    fn life(&self, begin: Time, end: Time) -> Interval {
        Interval {
            begin,
            end: end.min(later(begin, self.width)),
        }
    }

    fn payload(&self, _alloc: Global, payload: Payload) -> Result<Option<Payload>, OutOfMemory> {
        Ok(Some(payload))
    }

    fn guarantee(&self, mark: Time) -> Time {
        mark
    }

    ghost one_row = { λ s r h. refl };

    ghost is_life = { λ s begin end range h. window_is_life s.width begin end h };

    ghost begins_from = { λ s begin end t range h from. from };

    ghost becomes = { λ s begin end earlier t range h lives below from. window_becomes s.width begin end earlier t below from };

    ghost guarantee_rises = { λ s mark higher range rise. rise };

    ghost guarantee_is_time = { λ s mark range h. h };
}
