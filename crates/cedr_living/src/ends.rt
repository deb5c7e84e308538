ghost use Rattle.std.specs.Prelude.{◌≡◌, ◌<◌, ◌≤◌, IfSome, IfNone, Some, None, IsSome, length};
ghost use Rattle.cedr_living.specs.declared.ending.Ending.{Ending as EndingValue};
ghost use Rattle.cedr_living.specs.Counts.{IsUpdate};
ghost use Rattle.cedr_living.specs.Ends.{ending_cmp, end_count};

use crate::ending::Ending;
use cedr_base::Time;
use std::collections::BTreeMap;

/// Takes the lives that end first, with the number of them, where they end at a time or before it. O(log n).
pub(crate) fn pop_ended(ends: &mut BTreeMap<Ending, usize>, time: Time) -> Option<(Ending, usize)>
    ensures ended { IfSome result (λ p. p.0.end ≤ time) }
    ensures count { IfSome result (λ p. end_count ends.old.entries p.0 ≡ Some p.1) }
    ensures gone { IfSome result (λ p. IsUpdate ending_cmp p.0 None ends.old.entries ends.new.entries) }
    ensures fewer { IfSome result (λ p. length ends.new.entries < length ends.old.entries) }
    ensures none { IfNone result ((e : EndingValue) → IsSome (end_count ends.old.entries e) → time < e.end) }
    ensures unchanged { IfNone result (ends.new.entries ≡ ends.old.entries) }
{
    match ends.first_key_value() {
        Some((first, _)) if first.end <= time => ends.pop_first(),
        _ => None,
    }
}
