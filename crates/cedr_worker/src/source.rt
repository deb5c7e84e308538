ghost use Rattle.std.specs.Prelude.{◌≡◌, ◌<◌, ◌⊎◌, ◌↔◌, ◌≢◌, ◌&&◌, ℕ, true, false, not, is_none, List, [], length, map, Option, Some, None, IsSome, IfOk, IfErr};
ghost use Rattle.std.specs.List.{All};
ghost use Rattle.cedr_text.specs.declared.event_line.Shape.{Shape};
ghost use Rattle.cedr_edge.specs.Ends.{OutEnd, as_u64};
ghost use Rattle.worker_outlets.specs.Outlets.{AllOver, SomePut, bare, outlet_edge, sent_of, total_of, sent_count, end_edge, end_sent};
ghost use Rattle.cedr_worker.specs.declared.turn.Turn.TheVariants.{Moved, Idle, Ended};
ghost use Rattle.cedr_worker.specs.Sources.{SourceWorks, SourceEnds};
ghost use Rattle.cedr_worker.specs.Tries.{AllTried};
ghost use Rattle.cedr_worker.specs.SourceTurns.{SameSource, Stepped, Rests, BrokenOnly, StaysStopped};

use crate::giving::give_answer;
use crate::ran::Ran;
use crate::reading::{BLOCK, take_step};
use crate::resting::rest;
use crate::stop::SourceStop;
use crate::turn::Turn;
use cedr_edge::EdgeOut;
use cedr_io::{Gate, Source};
use cedr_source::SourceLines;
use cedr_text::Shape;
use crossbeam_utils::Backoff;
use std::alloc::Global;
use std::sync::Wait;
use std::time::Clock;
use worker_outlets::Outlets;

/// Reads one event source and sends the messages of its lines on each of its out edges, with `End` after them, or
/// `Broken` where it stopped otherwise.
#[derive(Drop)]
pub struct SourceWorker<S: Source + Drop> {
    number: usize,
    source: S,
    lines: SourceLines,
    /// What a read fills.
    block: Vec<u8>,
    outlets: Outlets,
    stop: Option<SourceStop>,
    alloc: Global,
}

/// What is left of a worker whose source was sent to its end.
#[derive(Drop)]
pub struct SourceEnd<S: Source + Drop> {
    pub number: usize,
    pub source: S,
    /// The out edges, in order.
    pub outputs: Vec<EdgeOut>,
    /// Why the source was read no further.
    pub stop: SourceStop,
    pub ran: Ran,
}

/// A worker wants memory. The source is handed back.
#[derive(Drop)]
pub struct NoSource<S: Drop> {
    pub source: S,
}

impl<S: Source + Drop> SourceWorker<S> {
    /// A worker of this number that reads a source of this shape and sends on these edges, over which nothing went yet.
    /// It makes the block that a read fills. An error hands the source back as it is.
    pub fn new(
        alloc: Global,
        number: usize,
        source: S,
        shape: Shape,
        outputs: Vec<EdgeOut>,
    ) -> Result<SourceWorker<S>, NoSource<S>>
        requires nothing { All (λ (e : OutEnd). e.sent ≡ []) outputs.items }
        requires some { 0 < length outputs.items }
        ensures works { IfOk result (λ w. SourceWorks S.rest S.faults shape (S.rest source) (S.faults source) w) }
        ensures number { IfOk result (λ w. (w.number ≡ number) × (w.source ≡ source)) }
        ensures edges { IfOk result (λ w. map outlet_edge w.outlets ≡ map end_edge outputs.items) }
        ensures err { IfErr result (λ n. n.source ≡ source) }
    {
        let Ok(block) = vec![in alloc; 0u8; BLOCK] else {
            return Err(NoSource { source });
        };
        let Ok(outlets) = Outlets::new(alloc, outputs) else {
            return Err(NoSource { source });
        };
        Ok(SourceWorker {
            number,
            source,
            lines: SourceLines::new(alloc, shape),
            block,
            outlets,
            stop: None,
            alloc,
        })
    }

    /// Tries to put one pending message on each out edge. Where nothing is pending any more it takes the next line of what
    /// was read, or reads a block. A source is never idle for want of input.
    pub fn turn<G: Gate, R: Wait>(&mut self, rt: &R, gate: &G) -> Turn
        requires { (shape : Shape) × (content : Option (List ℕ)) × (count : ℕ) × SourceWorks S.rest S.faults shape content count self.old }
        ensures works { (shape : Shape) (content : Option (List ℕ)) (count : ℕ) → SourceWorks S.rest S.faults shape content count self.old → SourceWorks S.rest S.faults shape content count self.new }
        ensures same { SameSource self.old self.new }
        ensures ended { result ≡ Ended ↔ AllOver self.new.outlets }
        ensures moved { result ≡ Moved ↔ ((result ≢ Ended) × (SomePut self.old.outlets self.new.outlets ⊎ Stepped S.rest self.old self.new)) }
        ensures idle { result ≡ Idle → Rests self.old self.new }
        ensures tried { AllTried self.old.outlets self.new.outlets }
        ensures steps { Stepped S.rest self.old self.new → map sent_of self.new.outlets ≡ map total_of self.old.outlets }
        ensures broken { BrokenOnly self.new.stop self.new.outlets }
        ensures stays { IsSome self.old.stop → StaysStopped self.old self.new }
    {
        gate.pass(self.number);
        let puts = self.outlets.put_each(rt);
        let stepped = self.step_where(!puts.pending);
        turn_of(self.outlets.all_over(), puts.moved | stepped)
    }

    /// Takes a step where nothing is pending and the source didn't stop, and says whether it did.
    fn step_where(&mut self, free: bool) -> bool
        requires { (shape : Shape) × (content : Option (List ℕ)) × (count : ℕ) × SourceWorks S.rest S.faults shape content count self.old }
        ensures works { (shape : Shape) (content : Option (List ℕ)) (count : ℕ) → SourceWorks S.rest S.faults shape content count self.old → SourceWorks S.rest S.faults shape content count self.new }
        ensures number { self.new.number ≡ self.old.number }
        ensures bare { map bare self.new.outlets ≡ map bare self.old.outlets }
        ensures stepped { result ≡ true → Stepped S.rest self.old self.new }
        ensures rested { result ≡ false → self.new ≡ self.old }
        ensures free { result ≡ (free && is_none self.old.stop) }
    {
        if !free || self.stop.is_some() {
            return false;
        }
        self.step();
        true
    }

    /// Takes a step: the next line of what was read, or the next block.
    fn step(&mut self)
        requires going { self.old.stop ≡ None }
        requires works { (shape : Shape) × (content : Option (List ℕ)) × (count : ℕ) × SourceWorks S.rest S.faults shape content count self.old }
        ensures works { (shape : Shape) (content : Option (List ℕ)) (count : ℕ) → SourceWorks S.rest S.faults shape content count self.old → SourceWorks S.rest S.faults shape content count self.new }
        ensures number { self.new.number ≡ self.old.number }
        ensures bare { map bare self.new.outlets ≡ map bare self.old.outlets }
        ensures stepped { Stepped S.rest self.old self.new }
    {
        let answer = take_step(
            self.alloc,
            &mut self.source,
            &mut self.lines,
            &mut self.block,
        );
        self.stop = give_answer(self.alloc, &mut self.outlets, answer);
    }

    /// Takes turns until the end was sent on each out edge. It rests where a turn was idle, and isn't promised to return,
    /// since the other ends of the edges may take no more.
    pub fn run<G: Gate, R: Wait + Clock>(&mut self, rt: &R, gate: &G)
        requires { (shape : Shape) × (content : Option (List ℕ)) × (count : ℕ) × SourceWorks S.rest S.faults shape content count self.old }
        ensures works { (shape : Shape) (content : Option (List ℕ)) (count : ℕ) → SourceWorks S.rest S.faults shape content count self.old → SourceWorks S.rest S.faults shape content count self.new }
        ensures same { SameSource self.old self.new }
        ensures over { AllOver self.new.outlets }
        ensures broken { BrokenOnly self.new.stop self.new.outlets }
        ensures stays { IsSome self.old.stop → StaysStopped self.old self.new }
    {
        let mut backoff = Backoff::new();
        for _ in rt.forever() {
            match self.turn(rt, gate) {
                Turn::Moved => backoff.reset(),
                Turn::Idle => rest(rt, &backoff),
                Turn::Ended => return,
            }
        }
        unreachable!()
    }

    /// The source as it is. The rest is dropped. It takes no memory.
    pub fn into_source(self) -> S
        ensures { result ≡ self.source }
    {
        let SourceWorker { source, .. } = self;
        source
    }

    /// What is left where the end was sent on each out edge. It takes no memory.
    pub fn finish(self) -> SourceEnd<S>
        requires over { AllOver self.outlets }
        requires works { (shape : Shape) × (content : Option (List ℕ)) × (count : ℕ) × SourceWorks S.rest S.faults shape content count self }
        ensures ends { (shape : Shape) (content : Option (List ℕ)) (count : ℕ) → SourceWorks S.rest S.faults shape content count self → SourceEnds S.rest S.faults shape content count result }
        ensures number { (result.number ≡ self.number) × (result.source ≡ self.source) }
        ensures stop { self.stop ≡ Some result.stop }
        ensures edges { map end_edge result.outputs.items ≡ map outlet_edge self.outlets }
        ensures sent { map end_sent result.outputs.items ≡ map sent_of self.outlets }
        ensures ran { (result.ran.number ≡ self.number) × (result.ran.taken ≡ 0) × (result.ran.put ≡ as_u64 (sent_count self.outlets)) }
    {
        let SourceWorker {
            number,
            source,
            outlets,
            stop,
            ..
        } = self;
        let ran = Ran::new(number, 0, outlets.sent_count());
        SourceEnd {
            number,
            source,
            outputs: outlets.into_edges(),
            stop: stop.unwrap(),
            ran,
        }
    }
}

/// What a turn came to, where each out edge is over and where something happened.
fn turn_of(over: bool, moved: bool) -> Turn
    ensures ended { result ≡ Ended ↔ over ≡ true }
    ensures moved { result ≡ Moved ↔ ((over ≡ false) × (moved ≡ true)) }
    ensures idle { result ≡ Idle → (over ≡ false) × (moved ≡ false) }
{
    if over {
        return Turn::Ended;
    }
    if moved { Turn::Moved } else { Turn::Idle }
}
