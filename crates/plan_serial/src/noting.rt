//! What was read of the sources of a plan one by one, put together.
ghost use Rattle.std.specs.Prelude.{ℕ, ◌≡◌, ◌<◌, ◌∷◌, List, length, Option, Err, true, false, IfOk};
ghost use Rattle.std.specs.List.{All, list_any};
ghost use Rattle.cedr_base.specs.Messages.{IsLegal};
ghost use Rattle.cedr_guard.specs.Messages.{messages_in};
ghost use Rattle.cedr_plan.specs.Places.{is_source, source_count};
ghost use Rattle.plan_serial.specs.declared.sources.SourcesFault.TheVariants.{Read as FailedRead};
ghost use Rattle.plan_serial.specs.Feeding.{AreSources};
ghost use Rattle.plan_serial.specs.Sources.{AnswersSources, AreReadOf, IsNothing, is_failed};
ghost use Rattle.plan_answer.specs.Sources.{AreTold, source_files};

use crate::sources::{ReadSoFar, SourcesFault};
use cedr_plan::{PlanNode, is_source};
use cedr_source::{Entries, Unread};
use std::alloc::Global;
use std::collections::VecDeque;

/// What the next node of a plan gives, where these were read of its sources from there on.
fn next_read(
    alloc: Global,
    node: &PlanNode,
    reads: &mut VecDeque<Result<Entries, Unread>>,
) -> Result<Entries, Unread>
    requires { is_source node.now.kind ≡ true → 0 < length reads.old.items }
    ensures source { is_source node.now.kind ≡ true → reads.old.items ≡ result ∷ reads.new.items }
    ensures other { is_source node.now.kind ≡ false → IsNothing result × (reads.new.items ≡ reads.old.items) }
{
    if !is_source(&node.kind) {
        return Ok(Entries::new(alloc));
    }
    match reads.pop_front() {
        Some(read) => read,
        None => unreachable!(),
    }
}

/// What each node of a plan has to give, where these were read of its sources, in its order: it answers as `read_sources` does.
/// A read that failed is answered only where there is one among them. O(n) in the nodes and the sources.
pub fn note_sources(
    alloc: Global,
    nodes: &[PlanNode],
    reads: Vec<Result<Entries, Unread>>,
) -> Result<Vec<Entries>, SourcesFault>
    requires count { length reads.items ≡ source_count nodes.now }
    requires legal { All (λ read. IfOk read (λ entries. IsLegal (messages_in entries))) reads.items }
    ensures answer { (content : List ℕ → Option (List ℕ)) (told : List ℕ → List ℕ) → AreTold content told (source_files nodes.now) → AreReadOf content nodes.now reads.items → AnswersSources result told nodes.now }
    ensures sources { IfOk result (λ left. AreSources nodes.now left.items) }
    ensures failed { result ≡ Err FailedRead → list_any is_failed reads.items ≡ true }
{
    let mut so_far = ReadSoFar {
        left: Vec::new(alloc),
        faulty: Vec::new(alloc),
    };
    let mut rest = VecDeque::from_vec(reads);
    for place in 0..nodes.len() {
        let read = next_read(alloc, &nodes[place], &mut rest);
        so_far.note(alloc, place, read)?;
    }
    if so_far.faulty.is_empty() {
        return Ok(so_far.left);
    }
    Err(SourcesFault::Events(so_far.faulty))
}
