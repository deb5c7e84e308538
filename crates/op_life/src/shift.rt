ghost use Rattle.std.specs.Prelude.{◌≡◌, ◌∷◌, [], Some};
ghost use Rattle.cedr_table.specs.RowWise.{row_wise};
ghost use Rattle.change_laws.specs.Times.{IsWhile};
ghost use Rattle.op_life.specs.Lifetimes.{shifted, shifted_mark, with_life};

use cedr_base::{Interval, OutOfMemory, Payload, Time, later};
use cedr_table::{Operator, RowWise};
use std::alloc::Global;

/// Each row a while later: `[begin + by, end + by)`, where a time that isn't finite is `FOREVER`. At the mark 0 the
/// bound is 0, and at each other mark it is a while later.
#[derive(Drop)]
pub struct Shift {
    by: u64,
}

impl Shift {
    /// It takes no memory.
    pub fn new(by: u64) -> Shift
        requires { IsWhile by }
        ensures meaning { ⟦<Shift as Operator>⟧.meaning result ≡ row_wise (with_life (shifted by)) (shifted_mark by) }
        ensures stands { ⟦<Shift as Operator>⟧.stands result ([] ∷ []) (0 ∷ []) }
    {
        Shift { by }
    }
}

impl RowWise for Shift {
    ghost use Rattle.std.specs.Prelude.{refl};
    ghost use Rattle.std.proofs.Common.{arith};
    ghost use Rattle.op_life.specs.LifetimeLaws.{shift_is_life, shifted_below, shift_becomes, shifted_rises, shifted_is_time};

    ghost in_range = { λ s. IsWhile s.by };

    ghost image = { λ s. with_life (shifted s.by) };

    ghost guarantee_at = { λ s. (shifted_mark s.by) };

    ghost life_of = { λ s. (shifted s.by) };

    ghost payload_of = { λ _ payload. Some payload };

    fn life(&self, begin: Time, end: Time) -> Interval {
        Interval {
            begin: later(begin, self.by),
            end: later(end, self.by),
        }
    }

    fn payload(&self, _alloc: Global, payload: Payload) -> Result<Option<Payload>, OutOfMemory> {
        Ok(Some(payload))
    }

    fn guarantee(&self, mark: Time) -> Time {
        if mark == 0 { 0 } else { later(mark, self.by) }
    }

    ghost one_row = { λ s r h. refl };

    ghost is_life = { λ s begin end range h lives. shift_is_life s.by begin end h lives };

    ghost begins_from = { λ s begin end t range h from. shifted_below s.by t begin from };

    ghost becomes = { λ s begin end earlier t range h lives below from. shift_becomes s.by begin end earlier t below from };

    ghost guarantee_rises = { λ s mark higher range rise. shifted_rises s.by mark higher rise };

    ghost guarantee_is_time = { λ s mark range h. shifted_is_time s.by mark };
}
