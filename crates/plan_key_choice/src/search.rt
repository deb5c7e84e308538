ghost use Rattle.std.specs.Prelude.{◌≡◌, ◌<◌, ◌≤◌, ◌-◌, ◌⊎◌, ◌↔◌, All, ℕ, List, [], None, IfErr, IfOk, IfSome, nat_le, true, false, length, map};
ghost use Rattle.cedr_plan.specs.Drawn.{node_of};
ghost use Rattle.cedr_plan.specs.Rules.{AreNodes};
ghost use Rattle.plan_keys.specs.Keys.{AreKeyed, width_at};
ghost use Rattle.plan_key_choice.specs.Choices.{AreInWidths};
ghost use Rattle.plan_key_choice.specs.Partial.{AreAllChosen, AreCandidates, AwaitAll, HasChosen, IsGivenUp, IsSameChoice, chosen_at, chosen_columns};

use crate::fault::KeyFault;
use crate::node::{keeps_within, may_keep_at, reads};
use crate::range::{chosen_at, width_at};
use cedr_base::OutOfMemory;
use cedr_plan::PlanNode;
use std::alloc::Global;

/// How far a search has come: which choice came nearest to a source, by the least place whose column was tried and that of the node
/// that didn't keep it, and how many columns more are tried, where there is a limit.
#[derive(Clone, Copy, Drop)]
pub(crate) struct Progress {
    pub(crate) nearest: usize,
    pub(crate) node: usize,
    pub(crate) tries: Option<u64>,
}

impl Progress {
    /// Counts one try, or answers that no more are left.
    fn take_try(&mut self) -> Result<(), KeyFault>
        ensures fault { IfErr result (IsGivenUp self.old.tries) }
        ensures limited { self.new.tries ≡ None ↔ self.old.tries ≡ None }
        ensures node { self.new.node ≡ self.old.node }
    {
        match self.tries {
            None => {}
            Some(0) => return Err(KeyFault::Undecided),
            Some(left) => self.tries = Some(left - 1),
        }
        Ok(())
    }

    /// Notes a node that doesn't keep the columns that were tried from a place on.
    fn fails(&mut self, place: usize, node: usize)
        ensures tries { self.new.tries ≡ self.old.tries }
        ensures node { (self.new.node ≡ node) ⊎ (self.new.node ≡ self.old.node) }
    {
        if place <= self.nearest {
            self.nearest = place;
            self.node = node;
        }
    }
}

/// Tries columns of the nodes of these places, one place after the other, beside those that are chosen. Where it answers true all
/// nodes have a column that is kept; else no columns go with the chosen ones.
pub(crate) fn search(
    alloc: Global,
    nodes: &[PlanNode],
    candidates: &[Vec<usize>],
    order: &[usize],
    choice: &mut [Option<usize>],
    progress: &mut Progress,
) -> Result<bool, KeyFault>
    requires nodes { AreNodes [] (map node_of nodes.now) }
    requires count { length choice.old ≡ length nodes.now }
    requires inside { All (λ place. place < length nodes.now) order.now }
    requires awaited { AwaitAll order.now choice.old }
    requires known { AreCandidates candidates.now nodes.now }
    requires many { length candidates.now ≡ length nodes.now }
    requires node { progress.old.node < length nodes.now }
    ensures keyed { IfOk result (λ found. found ≡ true → AreKeyed (chosen_columns choice.new) [] nodes.now) }
    ensures widths { IfOk result (λ found. found ≡ true → AreInWidths (chosen_columns choice.new) nodes.now) }
    ensures none { IfOk result (λ found. found ≡ false → (columns : List ℕ) → HasChosen choice.old columns → AreInWidths columns nodes.now → AreKeyed columns [] nodes.now → ⊥) }
    ensures same { IfOk result (λ found. found ≡ false → IsSameChoice choice.new choice.old) }
    ensures count { length choice.new ≡ length choice.old }
    ensures fault { IfErr result (IsGivenUp progress.old.tries) }
    ensures limited { progress.new.tries ≡ None ↔ progress.old.tries ≡ None }
    ensures node { progress.new.node < length nodes.now }
{
    let Some((place, rest)) = order.split_first() else {
        return Ok(is_choice(alloc, nodes, choice)?);
    };
    if chosen_at(choice, *place).is_some() {
        return search(alloc, nodes, candidates, rest, choice, progress);
    }
    for column in &candidates[*place] {
        progress.take_try()?;
        choice[*place] = Some(*column);
        if stands(alloc, nodes, candidates, choice, *place, progress)?
            && search(alloc, nodes, candidates, rest, choice, progress)?
        {
            return Ok(true);
        }
        choice[*place] = None;
    }
    Ok(false)
}

/// Whether each node keeps the key with these columns, and each column is one of its node's.
fn is_choice(
    alloc: Global,
    nodes: &[PlanNode],
    choice: &[Option<usize>],
) -> Result<bool, OutOfMemory>
    requires nodes { AreNodes [] (map node_of nodes.now) }
    requires count { length choice.now ≡ length nodes.now }
    requires chosen { AreAllChosen choice.now }
    ensures keyed { IfOk result (λ found. found ≡ true → AreKeyed (chosen_columns choice.now) [] nodes.now) }
    ensures widths { IfOk result (λ found. found ≡ true → AreInWidths (chosen_columns choice.now) nodes.now) }
    ensures none { IfOk result (λ found. found ≡ false → (columns : List ℕ) → HasChosen choice.now columns → AreInWidths columns nodes.now → AreKeyed columns [] nodes.now → ⊥) }
{
    for place in 0..nodes.len() {
        if !is_in_width(nodes, choice, place) || !may_keep_at(alloc, nodes, choice, place)? {
            return Ok(false);
        }
    }
    Ok(true)
}

/// Whether the column that is chosen for the node at a place is one of its columns.
fn is_in_width(nodes: &[PlanNode], choice: &[Option<usize>], place: usize) -> bool
    ensures { IfSome (chosen_at choice.now place) (λ column. result ≡ nat_le column (width_at nodes.now place - 1)) }
{
    match chosen_at(choice, place) {
        Some(column) => column <= width_at(nodes, place).saturating_sub(1),
        None => true,
    }
}

/// Whether the node at a place and those that read it may keep the key with the columns that are chosen. Where one of them can't
/// it is noted.
fn stands(
    alloc: Global,
    nodes: &[PlanNode],
    candidates: &[Vec<usize>],
    choice: &mut [Option<usize>],
    place: usize,
    progress: &mut Progress,
) -> Result<bool, OutOfMemory>
    requires nodes { AreNodes [] (map node_of nodes.now) }
    requires count { length choice.old ≡ length nodes.now }
    requires known { AreCandidates candidates.now nodes.now }
    requires many { length candidates.now ≡ length nodes.now }
    requires node { progress.old.node < length nodes.now }
    ensures none { IfOk result (λ stands. stands ≡ false → (columns : List ℕ) → HasChosen choice.old columns → AreInWidths columns nodes.now → AreKeyed columns [] nodes.now → ⊥) }
    ensures same { IfOk result (λ _. IsSameChoice choice.new choice.old) }
    ensures count { length choice.new ≡ length choice.old }
    ensures tries { progress.new.tries ≡ progress.old.tries }
    ensures node { progress.new.node < length nodes.now }
{
    for node in place..nodes.len() {
        if (node == place || reads(&nodes[node], place))
            && !keeps_within(alloc, nodes, candidates, choice, node, 0)?
        {
            progress.fails(place, node);
            return Ok(false);
        }
    }
    Ok(true)
}
