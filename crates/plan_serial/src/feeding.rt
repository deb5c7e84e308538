ghost use Rattle.std.specs.Prelude.{ℕ, ◌≡◌, ◌<◌, ◌+◌, ◌∷◌, [], List, true, false, OnOk, IfOk, IfSome, IfNone, length, map, slice_set};
ghost use Rattle.node_laws.specs.Lists.{Lists};
ghost use Rattle.cedr_plan.specs.declared.plan.PlanNode.{PlanNode};
ghost use Rattle.cedr_net.specs.Networks.{NetStands};
ghost use Rattle.plan_serial.specs.Rounds.{ByLine, entries_at};
ghost use Rattle.plan_serial.specs.Feeding.{MayBeFed, FeedsOne, FeedsEach, StandsAfterRounds, IsSettledAt, behind_first, left_count};

use cedr_base::{Message, OutOfMemory};
use cedr_net::SerialNet;
use cedr_source::Entries;
use std::alloc::Global;

/// Takes the first entry of the node at a place.
fn pop_at(
    alloc: Global,
    left: &mut Vec<Entries>,
    place: usize,
) -> Result<Option<Vec<Message>>, OutOfMemory>
    requires { place < length left.old.items }
    ensures some { IfOk result (λ entry. IfSome entry (λ messages. (entries_at left.old.items place ≡ messages.items ∷ entries_at left.new.items place) × (left.new.items ≡ slice_set left.old.items place (entries_at left.new.items place)))) }
    ensures none { IfOk result (λ entry. IfNone entry ((entries_at left.old.items place ≡ []) × (left.new.items ≡ left.old.items))) }
{
    left[place].pop(alloc)
}

/// Feeds the next line of the node at a place, where it has one: the line's messages, in order. Whether there was a line.
fn feed_one(
    alloc: Global,
    net: &mut SerialNet,
    remaining: &mut Vec<Entries>,
    place: usize,
) -> Result<bool, OutOfMemory>
    requires { (nodes : List PlanNode) × (ports : List Lists) × (given : Lists) × NetStands nodes net.old ports given × MayBeFed nodes given remaining.old.items × (place < length nodes) }
    ensures stands { OnOk result ((nodes : List PlanNode) (ports : List Lists) (given : Lists) → NetStands nodes net.old ports given → MayBeFed nodes given remaining.old.items → place < length nodes → FeedsOne nodes net.new ports given place remaining.old.items remaining.new.items) }
    ensures fed { IfOk result (λ fed. fed ≡ true → left_count remaining.new.items < left_count remaining.old.items) }
    ensures none { IfOk result (λ fed. fed ≡ false → (entries_at remaining.old.items place ≡ []) × (remaining.new.items ≡ remaining.old.items)) }
    ensures taken { OnOk result (remaining.new.items ≡ slice_set remaining.old.items place (behind_first (entries_at remaining.old.items place))) }
{
    let Some(messages) = pop_at(alloc, remaining, place)? else {
        return Ok(false);
    };
    match net.feed_all(alloc, place, messages) {
        Ok(()) => Ok(true),
        Err(_) => Err(OutOfMemory),
    }
}

/// Feeds the next line of each source that has one, in the order of the plan. Whether one had.
fn feed_each(
    alloc: Global,
    net: &mut SerialNet,
    remaining: &mut Vec<Entries>,
) -> Result<bool, OutOfMemory>
    requires { (nodes : List PlanNode) × (ports : List Lists) × (given : Lists) × NetStands nodes net.old ports given × MayBeFed nodes given remaining.old.items }
    ensures stands { OnOk result ((nodes : List PlanNode) (ports : List Lists) (given : Lists) → NetStands nodes net.old ports given → MayBeFed nodes given remaining.old.items → FeedsEach nodes net.new ports given remaining.old.items remaining.new.items) }
    ensures fed { IfOk result (λ fed. fed ≡ true → left_count remaining.new.items < left_count remaining.old.items) }
    ensures none { IfOk result (λ fed. fed ≡ false → (k : ℕ) → entries_at remaining.old.items k ≡ []) }
    ensures taken { OnOk result (remaining.new.items ≡ map behind_first remaining.old.items) }
{
    let mut fed = false;
    for place in 0..remaining.len() {
        fed |= feed_one(alloc, net, remaining, place)?;
    }
    Ok(fed)
}

/// A round: feeds the next line of each source that has one, in the order of the plan, and then the network settles. All
/// messages of a line are fed, and a line without a message takes its turn like any other. Whether a source had a line left
/// before the round. Where memory runs out the network and what remains are only to be dropped.
pub fn feed_round(
    alloc: Global,
    net: &mut SerialNet,
    remaining: &mut Vec<Entries>,
) -> Result<bool, OutOfMemory>
    requires { (nodes : List PlanNode) × (whole : ByLine) × (rounds : ℕ) × StandsAfterRounds nodes net.old remaining.old.items whole rounds }
    ensures round { OnOk result ((nodes : List PlanNode) (whole : ByLine) (rounds : ℕ) → StandsAfterRounds nodes net.old remaining.old.items whole rounds → StandsAfterRounds nodes net.new remaining.new.items whole (rounds + 1) × IsSettledAt nodes net.new) }
    ensures fed { IfOk result (λ fed. fed ≡ true → left_count remaining.new.items < left_count remaining.old.items) }
    ensures none { IfOk result (λ fed. fed ≡ false → (k : ℕ) → entries_at remaining.old.items k ≡ []) }
    ensures taken { OnOk result (remaining.new.items ≡ map behind_first remaining.old.items) }
{
    let fed = feed_each(alloc, net, remaining)?;
    match net.settle(alloc) {
        Ok(()) => Ok(fed),
        Err(_) => Err(OutOfMemory),
    }
}

/// Rounds until each source has given all its lines: the run of a plan over whole sources. Where memory runs out the
/// network and what remains are only to be dropped.
pub fn feed_all(
    alloc: Global,
    net: &mut SerialNet,
    remaining: &mut Vec<Entries>,
) -> Result<(), OutOfMemory>
    requires { (nodes : List PlanNode) × (whole : ByLine) × (rounds : ℕ) × StandsAfterRounds nodes net.old remaining.old.items whole rounds }
    ensures { OnOk result ((nodes : List PlanNode) (whole : ByLine) (rounds : ℕ) → StandsAfterRounds nodes net.old remaining.old.items whole rounds → (all : ℕ) × StandsAfterRounds nodes net.new remaining.new.items whole all × IsSettledAt nodes net.new × ((k : ℕ) → entries_at remaining.new.items k ≡ [])) }
{
    while feed_round(alloc, net, remaining)? {}
    Ok(())
}
