ghost use Rattle.std.specs.Prelude.{ℕ, ◌≡◌, ◌<◌, ◌≤◌, List, [], length, map, true, false, Option};
ghost use Rattle.std.specs.List.{All, list_any};
ghost use Rattle.plan_workers.specs.Wents.{HaveClosed};
ghost use Rattle.cedr_io.specs.Counts.{last_count};
ghost use Rattle.node_laws.specs.Lists.{Lists};
ghost use Rattle.cedr_plan.specs.declared.plan.PlanNode.{PlanNode};
ghost use Rattle.plan_runs.specs.Runs.{sources_in};
ghost use Rattle.plan_answer.specs.Sources.{AllHaveGiven, AreRead, AreTold, faulty_from, source_files};
ghost use Rattle.cedr_worker.specs.declared.source.SourceEnd.{SourceEnd};
ghost use Rattle.plan_answer.specs.Finds.{AreFound, count_with};
ghost use Rattle.plan_workers.specs.Stopping.{is_short, is_unread, stop_in};
ghost use Rattle.plan_workers.specs.Tellings.{AreEnded, IsJudged, refusal_in, is_faulty, node_faults, source_left_in, source_lists};

use cedr_io::{Files, Source};
use cedr_worker::SourceEnd;
use std::collections::VecDeque;

/// The law of sources that ended, where it is known what their files hold. Where each was read far enough to judge its
/// lines, these are the lists that the sources gave, and the faults of those that aren't accepted. Where each closed,
/// all are accepted.
pub fn ended_sources<S: Source + Drop>()
    ensures judged { (ends : List (SourceEnd S)) → list_any is_short (map stop_in ends) ≡ false → list_any is_unread (map stop_in ends) ≡ false → All (λ (end : SourceEnd S). IsJudged (stop_in end)) ends }
    ensures given { (nodes : List PlanNode) (sources : List S) (given : Lists) (ends : List (SourceEnd S)) (content : List ℕ → Option (List ℕ)) (told : List ℕ → List ℕ) → AreEnded S.rest S.faults nodes sources given ends → AreFound S.rest content nodes sources → AreTold content told (source_files nodes)
        → All (λ (end : SourceEnd S). IsJudged (stop_in end)) ends → AllHaveGiven told nodes (source_lists nodes given) (node_faults nodes (map refusal_in ends)) }
    ensures faulty { (nodes : List PlanNode) (sources : List S) (given : Lists) (ends : List (SourceEnd S)) → AreEnded S.rest S.faults nodes sources given ends
        → list_any is_faulty (map stop_in ends) ≡ true → 0 < length (faulty_from 0 (node_faults nodes (map refusal_in ends))) }
    ensures closed { (nodes : List PlanNode) (sources : List S) (given : Lists) (ends : List (SourceEnd S)) (content : List ℕ → Option (List ℕ)) (told : List ℕ → List ℕ) → AreEnded S.rest S.faults nodes sources given ends → AreFound S.rest content nodes sources → AreTold content told (source_files nodes)
        → HaveClosed ends → AreRead told nodes (source_lists nodes given) [] }
{}

/// The law of the counts of sources that ended and are given back: a count stays as it is where no read was refused, and rises
/// where one was.
pub fn ended_counts<S: Source + Drop>()
    ensures kept { (nodes : List PlanNode) (sources : List S) (given : Lists) (ends : List (SourceEnd S)) (count : ℕ) → AreEnded S.rest S.faults nodes sources given ends
        → list_any is_unread (map stop_in ends) ≡ false → count ≤ last_count → count_with S.faults count (map source_left_in ends) ≡ count }
    ensures rose { (nodes : List PlanNode) (sources : List S) (given : Lists) (ends : List (SourceEnd S)) (count : ℕ) → AreEnded S.rest S.faults nodes sources given ends
        → list_any is_unread (map stop_in ends) ≡ true → count < last_count → count < count_with S.faults count (map source_left_in ends) }
{}

/// The law of the sources' lists: they are the same among those of all nodes.
pub fn listed_sources()
    ensures { (nodes : List PlanNode) (given : Lists) → sources_in nodes (source_lists nodes given) ≡ sources_in nodes given }
{}

/// Gives the sources of all ends back, in order.
pub fn give_back_ends<F: Files>(files: &mut F, ends: Vec<SourceEnd<F::Source>>)
where
    F::Source: Drop,
    ensures counted { F.faults files.new ≡ count_with F.Source.faults (F.faults files.old) (map source_left_in ends.items) }
    ensures asked { F.asked files.new ≡ F.asked files.old }
    ensures contents { (n : List ℕ) → F.content files.new n ≡ F.content files.old n }
{
    let mut ends = VecDeque::from_vec(ends);
    while let Some(end) = ends.pop_front() {
        files.give_back(end.source);
    }
}
