ghost use Rattle.std.specs.Prelude.{ℕ, ◌≡◌, ◌+◌, ◌<◌, ◌≤◌, ◌++◌, List, map, length, IfOk, OnOk, OnErr};
ghost use Rattle.std.specs.List.{All};
ghost use Rattle.std.specs.Vec.{vec_capacity};
ghost use Rattle.cedr_io.specs.Counts.{Counts, last_count};
ghost use Rattle.cedr_plan.specs.Places.{source_count};
ghost use Rattle.plan_answer.specs.Sources.{files_of, source_files};
ghost use Rattle.plan_answer.specs.Finds.{AreFound, AsksSources, count_with};

use cedr_io::{Files, OutsideFault, Source};
use cedr_plan::{NodeKind, PlanNode};
use std::alloc::Global;
use std::collections::VecDeque;

/// Gives all sources back, in order.
pub fn give_back_each<F: Files>(files: &mut F, sources: Vec<F::Source>)
where
    F::Source: Drop,
    ensures counted { F.faults files.new ≡ count_with F.Source.faults (F.faults files.old) sources.items }
    ensures asked { F.asked files.new ≡ F.asked files.old }
    ensures contents { (n : List ℕ) → F.content files.new n ≡ F.content files.old n }
{
    let mut sources = VecDeque::from_vec(sources);
    while let Some(source) = sources.pop_front() {
        files.give_back(source);
    }
}

/// Finds the file of a node, where it is a source. It goes after those that were found before.
fn find_node<F: Files>(
    node: &PlanNode,
    files: &mut F,
    sources: &mut Vec<F::Source>,
) -> Result<(), OutsideFault>
    requires { length sources.old.items < vec_capacity sources.old }
    ensures found { OnOk result (map F.Source.rest sources.new.items ≡ map F.Source.rest sources.old.items ++ map (F.content files.old) (files_of node.now)) }
    ensures err { OnErr result (sources.new.items ≡ sources.old.items) }
    ensures fresh { All (λ s. F.Source.faults s ≡ 0) sources.old.items → All (λ s. F.Source.faults s ≡ 0) sources.new.items }
    ensures count { length sources.new.items ≤ length sources.old.items + 1 }
    ensures room { vec_capacity sources.new ≡ vec_capacity sources.old }
    ensures counted { Counts result (F.faults files.old) (F.faults files.new) }
    ensures asked { AsksSources result (F.asked files.old) (F.asked files.new) (files_of node.now) }
    ensures contents { (n : List ℕ) → F.content files.new n ≡ F.content files.old n }
{
    if let NodeKind::Source { file } = &node.kind {
        match files.find(file.bytes()) {
            Ok(source) => sources.push_reserved(source),
            Err(fault) => return Err(fault),
        }
    }
    Ok(())
}

/// Finds the files of all sources among the nodes, up to the first that isn't found.
fn find_each<F: Files>(
    nodes: &[PlanNode],
    files: &mut F,
    sources: &mut Vec<F::Source>,
) -> Result<(), OutsideFault>
    requires none { length sources.old.items ≡ 0 }
    requires room { length nodes.now ≤ vec_capacity sources.old }
    ensures found { OnOk result (AreFound F.Source.rest (F.content files.old) nodes.now sources.new.items) }
    ensures fresh { All (λ s. F.Source.faults s ≡ 0) sources.new.items }
    ensures counted { Counts result (F.faults files.old) (F.faults files.new) }
    ensures asked { AsksSources result (F.asked files.old) (F.asked files.new) (source_files nodes.now) }
    ensures contents { (n : List ℕ) → F.content files.new n ≡ F.content files.old n }
{
    for node in nodes {
        match find_node(node, files, sources) {
            Ok(()) => {}
            Err(fault) => return Err(fault),
        }
    }
    Ok(())
}

/// Finds the files of all sources of a plan, in order. Nothing is read of them. Where one isn't found, those found before are
/// given back.
pub fn find_sources<F: Files>(
    alloc: Global,
    nodes: &[PlanNode],
    files: &mut F,
) -> Result<Vec<F::Source>, OutsideFault>
where
    F::Source: Drop,
    requires { F.faults files.old < last_count }
    ensures found { IfOk result (λ sources. AreFound F.Source.rest (F.content files.old) nodes.now sources.items) }
    ensures count { IfOk result (λ sources. length sources.items ≡ source_count nodes.now) }
    ensures fresh { IfOk result (λ sources. All (λ s. F.Source.faults s ≡ 0) sources.items) }
    ensures counted { Counts result (F.faults files.old) (F.faults files.new) }
    ensures asked { AsksSources result (F.asked files.old) (F.asked files.new) (source_files nodes.now) }
    ensures contents { (n : List ℕ) → F.content files.new n ≡ F.content files.old n }
{
    let mut sources = Vec::with_capacity(alloc, nodes.len())?;
    match find_each(nodes, files, &mut sources) {
        Ok(()) => Ok(sources),
        Err(fault) => {
            give_back_each(files, sources);
            Err(fault)
        }
    }
}
