ghost use Rattle.std.specs.Prelude.{◌≡◌, ◌∷◌, [], Some};
ghost use Rattle.cedr_table.specs.RowWise.{row_wise};
ghost use Rattle.change_laws.specs.Times.{IsWhile};
ghost use Rattle.op_life.specs.Lifetimes.{hopped, hopped_mark, with_life};

use cedr_base::{FOREVER, Interval, OutOfMemory, Payload, Time, later};
use cedr_table::{Operator, RowWise};
use std::alloc::Global;

/// Each row from the last multiple of `every` that isn't above its begin, for `width`: `[t, t + width)`. The bound is
/// the last multiple that isn't above the mark, and `FOREVER` at `FOREVER`.
#[derive(Drop)]
pub struct Hop {
    every: u64,
    width: u64,
}

impl Hop {
    /// It takes no memory.
    pub fn new(every: u64, width: u64) -> Hop
        requires { IsWhile every × IsWhile width }
        ensures meaning { ⟦<Hop as Operator>⟧.meaning result ≡ row_wise (with_life (hopped every width)) (hopped_mark every) }
        ensures stands { ⟦<Hop as Operator>⟧.stands result ([] ∷ []) (0 ∷ []) }
    {
        Hop { every, width }
    }
}

impl RowWise for Hop {
    ghost use Rattle.std.specs.Prelude.{refl};
    ghost use Rattle.std.proofs.Common.{arith};
    ghost use Rattle.op_life.specs.LifetimeLaws.{hop_is_life, hopped_below, hopped_rises, hopped_is_time, stays};

    ghost in_range = { λ s. IsWhile s.every × IsWhile s.width };

    ghost image = { λ s. with_life (hopped s.every s.width) };

    ghost guarantee_at = { λ s. (hopped_mark s.every) };

    ghost life_of = { λ s. (hopped s.every s.width) };

    ghost payload_of = { λ _ payload. Some payload };

    fn life(&self, begin: Time, end: Time) -> Interval {
        let first = begin - begin % self.every;
        Interval {
            begin: first,
            end: later(first, self.width),
        }
    }

    fn payload(&self, _alloc: Global, payload: Payload) -> Result<Option<Payload>, OutOfMemory> {
        Ok(Some(payload))
    }

    fn guarantee(&self, mark: Time) -> Time {
        if mark == FOREVER {
            FOREVER
        } else {
            mark - mark % self.every
        }
    }

    ghost one_row = { λ s r h. refl };

    ghost is_life = { λ s begin end range h lives. hop_is_life s.every s.width begin end h lives };

    ghost begins_from = { λ s begin end t range h from. hopped_below s.every t begin range.0.least from h.begins };

    ghost becomes = { λ s begin end earlier t range h lives below from. stays (hopped_mark s.every t) (hopped s.every s.width begin end) };

    ghost guarantee_rises = { λ s mark higher range rise. hopped_rises s.every mark higher range.0.least rise };

    ghost guarantee_is_time = { λ s mark range h. hopped_is_time s.every mark };
}
