ghost use Rattle.std.specs.Prelude.{◌≡◌, ◌≤◌, ◌+◌, ◌++◌, ◌∷◌, [], IfSome, IfNone, length};
ghost use Rattle.std.specs.List.{list_any};
ghost use Rattle.std.specs.Vec.{vec_capacity};
ghost use Rattle.plan_workers.specs.Sortings.{source_ends_in, writer_left, writers_in};
ghost use Rattle.plan_workers.specs.Wents.{part_lacked, source_left};

use crate::ended::Part;
use crate::held::HeldWriter;
use cedr_io::Source;
use cedr_worker::SourceEnd;
use std::collections::VecDeque;
use std::sync::Wait;

impl<S: Source + Drop, R: Wait + Drop> Part<S, R> {
    /// Whether memory was lacking for a node that is no source.
    fn lacked(&self) -> bool
        ensures { result ≡ part_lacked self.now }
    {
        match self {
            Part::Source(_) => false,
            Part::Operator(_, lacked) => *lacked,
            Part::Output(_, lacked, _) => *lacked,
        }
    }
}

/// Whether memory was lacking for some node that is no source.
pub fn any_lacked<S: Source + Drop, R: Wait + Drop>(parts: &[Part<S, R>]) -> bool
    ensures { result ≡ list_any part_lacked parts.now }
{
    parts.iter().any(|part| part.lacked())
}

/// The end of a source goes after the others, and the writer of an output is given back. All else is dropped.
fn sort_part<S: Source + Drop, R: Wait + Drop>(
    part: Part<S, R>,
    sources: &mut Vec<SourceEnd<S>>,
) -> Option<HeldWriter<R>>
    requires { length sources.old.items + length (source_left part) ≤ vec_capacity sources.old }
    ensures sources { sources.new.items ≡ sources.old.items ++ source_left part }
    ensures room { vec_capacity sources.new ≡ vec_capacity sources.old }
    ensures some { IfSome result (λ held. writer_left part ≡ held ∷ []) }
    ensures none { IfNone result (writer_left part ≡ []) }
{
    match part {
        Part::Source(end) => {
            sources.push_reserved(end);
            None
        }
        Part::Operator(_node, _lacked) => None,
        Part::Output(_node, _lacked, held) => Some(held),
    }
}

/// The ends of the sources, in order, for which `sources` has room, and the writer of the result. All else is dropped. It takes
/// no memory.
pub fn sort_parts<S: Source + Drop, R: Wait + Drop>(
    parts: Vec<Part<S, R>>,
    sources: &mut Vec<SourceEnd<S>>,
) -> HeldWriter<R>
    requires one { length (writers_in parts.items) ≡ 1 }
    requires room { (sources.old.items ≡ []) × (length (source_ends_in parts.items) ≤ vec_capacity sources.old) }
    ensures sources { sources.new.items ≡ source_ends_in parts.items }
    ensures writer { writers_in parts.items ≡ result ∷ [] }
{
    let mut left = VecDeque::from_vec(parts);
    let mut writer = None;
    while let Some(part) = left.pop_front() {
        if let Some(held) = sort_part(part, sources) {
            writer = Some(held);
        }
    }
    let Some(writer) = writer else { unreachable!() };
    writer
}
