ghost use Rattle.std.specs.Prelude.{◌≡◌, ◌<◌, ◌≤◌, ◌++◌, ◌∷◌, [], ℕ, List, true, false, drop, length, slice_index_or, AllPairs, IfOk, OnOk, MatchBool, MatchOption};
ghost use Rattle.cedr_guard.specs.declared.state.EventState.{EventState};
ghost use Rattle.cedr_plan.specs.declared.plan.PlanNode.{PlanNode};
ghost use Rattle.cedr_text.specs.Lines.{has_line_feed};
ghost use Rattle.cedr_text.specs.Shapes.{ShapeHasTypes};
ghost use Rattle.cedr_save.specs.Checkpoints.{Source, plan_sources, end_line};
ghost use Rattle.cedr_save.specs.declared.states.Spot.TheVariants.{Head, InSource};
ghost use Rattle.cedr_save.specs.Lines.{ComesNext, IsFront, AreLower, ids_of, IsEventLine, IsNextLine};
ghost use Rattle.cedr_save.specs.Reading.{Stands, CanClose, is_ended_spot, IsPlaceOfNext, ClosesSource, other_sources};

use crate::front::{begins_source, event_of_front};
use crate::line::{read_event, read_source};
use cedr_base::{OutOfMemory, Time};
use cedr_guard::{EventState, SourceState};
use cedr_plan::{PlanNode, is_source};
use cedr_text::Shape;
use std::alloc::Global;
use std::mem::replace;

const HEAD_LINE: &[u8] = b"checkpoint,1";

const END_LINE: &[u8] = b"end";

/// Behind which line of a checkpoint the next one stands.
#[derive(Clone, Copy)]
enum Spot {
    /// Behind none.
    Head,
    /// Behind the first line.
    Begun,
    /// Behind the line of a source, or of one of its events.
    InSource,
    /// Behind the last line.
    Ended,
}

/// Takes the lines of a checkpoint, as far as they may stand one after the other. It stands for the lines taken.
#[derive(Drop)]
pub(crate) struct StateReader {
    spot: Spot,
    /// The place, in the plan, of the first node behind the source whose lines are read.
    next: usize,
    /// The states of the sources before that one.
    states: Vec<SourceState>,
    /// What the fields of that source's events are, its guarantee, and its events so far.
    shape: Shape,
    mark: Time,
    events: Vec<EventState>,
}

/// The place of the first source from a place on.
fn next_source(nodes: &[PlanNode], from: usize) -> Option<usize>
    ensures { MatchOption result (plan_sources (drop from nodes.now) ≡ []) (λ place. IsPlaceOfNext nodes.now from place) }
{
    let mut place = from;
    while place < nodes.len() {
        if is_source(&nodes[place].kind) {
            return Some(place);
        }
        place += 1;
    }
    None
}

impl StateReader {
    pub(crate) fn new(alloc: Global) -> StateReader
        ensures { (nodes : List PlanNode) → Stands result nodes [] }
    {
        StateReader {
            spot: Spot::Head,
            next: 0,
            states: Vec::new(alloc),
            shape: Shape::AnyText,
            mark: 0,
            events: Vec::new(alloc),
        }
    }

    /// Whether all lines of a checkpoint were taken.
    pub(crate) fn is_ended(&self) -> bool
        ensures { result ≡ is_ended_spot self.now.spot }
    {
        matches!(self.spot, Spot::Ended)
    }

    /// The states that the lines spell.
    pub(crate) fn into_states(self) -> Vec<SourceState>
        ensures { result ≡ self.states }
    {
        self.states
    }

    /// Takes the next line, and answers whether it may stand there. Where it may not, no more is taken.
    pub(crate) fn take(&mut self, nodes: &[PlanNode], line: &[u8]) -> Result<bool, OutOfMemory>
        requires { has_line_feed line.now ≡ false }
        ensures { IfOk result (λ taken. (before : List (List ℕ)) → Stands self.old nodes.now before
            → MatchBool taken (Stands self.new nodes.now (before ++ line.now ∷ [])) (ComesNext (plan_sources nodes.now) before line.now → ⊥)) }
    {
        match self.spot {
            Spot::Head => Ok(self.take_head(line)),
            Spot::Begun => self.take_next(nodes, line),
            Spot::InSource => self.take_in_source(nodes, line),
            Spot::Ended => Ok(false),
        }
    }

    fn take_head(&mut self, line: &[u8]) -> bool
        requires { self.old.spot ≡ Head }
        ensures { (nodes : List PlanNode) (before : List (List ℕ)) → Stands self.old nodes before
            → MatchBool result (Stands self.new nodes (before ++ line.now ∷ [])) (ComesNext (plan_sources nodes) before line.now → ⊥) }
    {
        if line != HEAD_LINE {
            return false;
        }
        self.spot = Spot::Begun;
        true
    }

    /// Takes the line of an event of the source, or the one behind its events.
    fn take_in_source(&mut self, nodes: &[PlanNode], line: &[u8]) -> Result<bool, OutOfMemory>
        requires spot { self.old.spot ≡ InSource }
        requires whole { has_line_feed line.now ≡ false }
        ensures { IfOk result (λ taken. (before : List (List ℕ)) → Stands self.old nodes.now before
            → MatchBool taken (Stands self.new nodes.now (before ++ line.now ∷ [])) (ComesNext (plan_sources nodes.now) before line.now → ⊥)) }
    {
        match read_event(*self.events.allocator(), line, &self.shape)? {
            Some(event) => {
                if !self.is_above(event.id) {
                    return Ok(false);
                }
                self.events.push(event)?;
                Ok(true)
            }
            None => self.take_next(nodes, line),
        }
    }

    /// Whether an id is above those of the events so far.
    fn is_above(&self, id: u64) -> bool
        ensures { AllPairs (λ (e : EventState) (later : EventState). e.id < later.id) self.now.events.items
            → MatchBool result (AreLower id (ids_of self.now.events.items)) (AreLower id (ids_of self.now.events.items) → ⊥) }
    {
        match self.events.last() {
            Some(last) => last.id < id,
            None => true,
        }
    }

    /// Takes the line of the next source, or the last line where there is none.
    fn take_next(&mut self, nodes: &[PlanNode], line: &[u8]) -> Result<bool, OutOfMemory>
        ensures { IfOk result (λ taken. (before : List (List ℕ)) → CanClose self.old nodes.now before
            → MatchBool taken (Stands self.new nodes.now (before ++ line.now ∷ [])) (IsNextLine (other_sources self.old nodes.now) line.now → ⊥)) }
    {
        let Some(place) = next_source(nodes, self.next) else {
            return self.take_end(line);
        };
        let alloc = *self.events.allocator();
        let Some(mark) = read_source(alloc, line, nodes[place].name.bytes())? else {
            return Ok(false);
        };
        let types = Vec::from_slice(alloc, &nodes[place].types)?;
        self.close_source()?;
        self.spot = Spot::InSource;
        self.next = place + 1;
        self.shape = Shape::Fields(types);
        self.mark = mark;
        Ok(true)
    }

    fn take_end(&mut self, line: &[u8]) -> Result<bool, OutOfMemory>
        ensures { IfOk result (λ taken. (nodes : List PlanNode) (before : List (List ℕ)) → other_sources self.old nodes ≡ [] → CanClose self.old nodes before
            → MatchBool taken (Stands self.new nodes (before ++ line.now ∷ [])) (line.now ≡ end_line → ⊥)) }
    {
        if line != END_LINE {
            return Ok(false);
        }
        self.close_source()?;
        self.spot = Spot::Ended;
        Ok(true)
    }

    /// Puts the state of the source whose lines were read behind the others.
    fn close_source(&mut self) -> Result<(), OutOfMemory>
        ensures { OnOk result (ClosesSource self.old.spot self.old self.new) }
    {
        if let Spot::InSource = self.spot {
            let alloc = *self.events.allocator();
            let events = replace(&mut self.events, Vec::new(alloc));
            self.states.push(SourceState {
                mark: self.mark,
                events,
            })?;
        }
        Ok(())
    }

    /// Whether a line that may stand next begins with these bytes, which aren't none.
    pub(crate) fn may_begin(&self, nodes: &[PlanNode], front: &[u8]) -> Result<bool, OutOfMemory>
        requires { has_line_feed front.now ≡ false }
        ensures { IfOk result (λ may. (before : List (List ℕ)) → Stands self.now nodes.now before
            → MatchBool may (IsFront (plan_sources nodes.now) before front.now) (IsFront (plan_sources nodes.now) before front.now → ⊥)) }
    {
        match self.spot {
            Spot::Head => Ok(HEAD_LINE.starts_with(front)),
            Spot::Begun => self.may_begin_next(nodes, front),
            Spot::InSource => {
                Ok(self.may_begin_event(front)? || self.may_begin_next(nodes, front)?)
            }
            Spot::Ended => Ok(false),
        }
    }

    fn may_begin_event(&self, front: &[u8]) -> Result<bool, OutOfMemory>
        requires { has_line_feed front.now ≡ false }
        ensures { IfOk result (λ may. (source : Source) → ShapeHasTypes self.now.shape source.types → AllPairs (λ (e : EventState) (later : EventState). e.id < later.id) self.now.events.items
            → MatchBool may ((rest : List ℕ) × IsEventLine source (ids_of self.now.events.items) (front.now ++ rest)) ((rest : List ℕ) → IsEventLine source (ids_of self.now.events.items) (front.now ++ rest) → ⊥)) }
    {
        match event_of_front(*self.events.allocator(), front, &self.shape)? {
            Some(event) => Ok(self.is_above(event.id)),
            None => Ok(false),
        }
    }

    fn may_begin_next(&self, nodes: &[PlanNode], front: &[u8]) -> Result<bool, OutOfMemory>
        ensures { IfOk result (λ may. MatchBool may ((rest : List ℕ) × IsNextLine (other_sources self.now nodes.now) (front.now ++ rest)) ((rest : List ℕ) → IsNextLine (other_sources self.now nodes.now) (front.now ++ rest) → ⊥)) }
    {
        match next_source(nodes, self.next) {
            Some(place) => {
                begins_source(*self.events.allocator(), front, nodes[place].name.bytes())
            }
            None => Ok(END_LINE.starts_with(front)),
        }
    }
}
