ghost use Rattle.std.specs.Prelude.{ℕ, ◌≡◌, ◌<◌, ◌++◌, ◌∷◌, [], List, true, false, IfOk, OnOk, OnErr, IsErrOf, IfSome};
ghost use Rattle.cedr_base.specs.Messages.{IsLegal};
ghost use Rattle.cedr_guard.specs.Messages.{messages_in};
ghost use Rattle.cedr_io.specs.Counts.{last_count};
ghost use Rattle.cedr_source.specs.Whole.{CountsSource};
ghost use Rattle.cedr_plan.specs.Places.{is_source};
ghost use Rattle.plan_serial.specs.declared.sources.SourcesFault.TheVariants.{OutOfMemory as NoMemory};
ghost use Rattle.plan_serial.specs.Feeding.{AreSources};
ghost use Rattle.plan_serial.specs.Sources.{AnswersFile, AnswersSources, CountsSources, IsNothing, Notes, PassesOn};
ghost use Rattle.plan_answer.specs.Sources.{AsksFirst, AsksSource, AreTold, file_of, files_of, source_files};
ghost use Rattle.cedr_text.specs.Shapes.{ShapeHasTypes};

use cedr_base::{FieldType, OutOfMemory};
use cedr_guard::message_laws;
use cedr_io::{Files, OutsideFault, Source};
use cedr_plan::{NodeKind, PlanNode};
use cedr_source::{Entries, Unread, read_by_line};
use cedr_text::Shape;
use plan_answer::FaultySource;
use std::alloc::Global;

/// Why the sources of a plan gave no messages.
#[derive(Drop)]
pub enum SourcesFault {
    /// The sources that aren't accepted, at least one, in the order of the plan.
    Events(Vec<FaultySource>),
    /// A file wasn't found, or a read was refused.
    Read,
    OutOfMemory,
}

fn shape_of(alloc: Global, types: &[FieldType]) -> Result<Shape, OutOfMemory>
    ensures { IfOk result (λ shape. ShapeHasTypes shape types.now) }
{
    Ok(Shape::Fields(Vec::from_slice(alloc, types)?))
}

/// All messages of a source of these types line by line, or its first fault. It reads what `read_by_line` reads.
pub fn read_source<S: Source>(
    alloc: Global,
    types: &[FieldType],
    source: &mut S,
) -> Result<Entries, Unread>
    ensures answer { IfSome (S.rest source.old) (λ all. AnswersFile result types.now all) }
    ensures legal { IfOk result (λ entries. IsLegal (messages_in entries)) }
    ensures counted { CountsSource result (S.faults source.old) (S.faults source.new) }
{
    message_laws();
    let shape = shape_of(alloc, types)?;
    read_by_line(alloc, shape, source)
}

/// All messages of a file line by line, or its first fault.
fn read_file<F: Files>(
    alloc: Global,
    files: &mut F,
    name: &[u8],
    types: &[FieldType],
) -> Result<Entries, Unread>
    requires { F.faults files.old < last_count }
    ensures answer { IfSome (F.content files.old name.now) (λ all. AnswersFile result types.now all) }
    ensures legal { IfOk result (λ entries. IsLegal (messages_in entries)) }
    ensures counted { CountsSource result (F.faults files.old) (F.faults files.new) }
    ensures asked { AsksSource result (F.asked files.old) (F.asked files.new) (name.now ∷ []) }
    ensures contents { (n : List ℕ) → F.content files.new n ≡ F.content files.old n }
{
    let mut source = match files.find(name) {
        Ok(source) => source,
        Err(OutsideFault::Failed) => return Err(Unread::Failed),
        Err(OutsideFault::OutOfMemory) => return Err(Unread::OutOfMemory),
    };
    let entries = read_source(alloc, types, &mut source);
    files.give_back(source);
    entries
}

/// What a node gives: the messages of a source's file line by line, and nothing where it is no source.
fn read_node<F: Files>(alloc: Global, files: &mut F, node: &PlanNode) -> Result<Entries, Unread>
    requires { F.faults files.old < last_count }
    ensures answer { is_source node.now.kind ≡ true → IfSome (F.content files.old (file_of node.now.kind)) (λ all. AnswersFile result node.now.types.items all) }
    ensures none { is_source node.now.kind ≡ false → IsNothing result }
    ensures legal { IfOk result (λ entries. IsLegal (messages_in entries)) }
    ensures counted { CountsSource result (F.faults files.old) (F.faults files.new) }
    ensures asked { AsksSource result (F.asked files.old) (F.asked files.new) (files_of node.now) }
    ensures contents { (n : List ℕ) → F.content files.new n ≡ F.content files.old n }
{
    if let NodeKind::Source { file } = &node.kind {
        return read_file(alloc, files, file.bytes(), node.types.as_slice());
    }
    Ok(Entries::new(alloc))
}

/// What was read of the sources so far: what each node has to give, and the sources that aren't accepted.
#[derive(Drop)]
pub(crate) struct ReadSoFar {
    pub(crate) left: Vec<Entries>,
    pub(crate) faulty: Vec<FaultySource>,
}

impl ReadSoFar {
    /// Notes what the node at a place gave.
    pub(crate) fn note(
        &mut self,
        alloc: Global,
        place: usize,
        read: Result<Entries, Unread>,
    ) -> Result<(), SourcesFault>
        ensures noted { OnOk result (Notes read self.old self.new place) }
        ensures fault { PassesOn result read }
    {
        match read {
            Ok(entries) => self.push(entries),
            Err(Unread::Refused(refusal)) => {
                self.push(Entries::new(alloc))?;
                self.blame(FaultySource { place, refusal })
            }
            Err(Unread::Failed) => Err(SourcesFault::Read),
            Err(Unread::OutOfMemory) => Err(SourcesFault::OutOfMemory),
        }
    }

    fn push(&mut self, left: Entries) -> Result<(), SourcesFault>
        ensures pushed { OnOk result ((self.new.left.items ≡ self.old.left.items ++ left ∷ []) × (self.new.faulty.items ≡ self.old.faulty.items)) }
        ensures fault { OnErr result (IsErrOf result NoMemory) }
    {
        match self.left.push(left) {
            Ok(()) => Ok(()),
            Err(_) => Err(SourcesFault::OutOfMemory),
        }
    }

    fn blame(&mut self, source: FaultySource) -> Result<(), SourcesFault>
        ensures blamed { OnOk result ((self.new.faulty.items ≡ self.old.faulty.items ++ source ∷ []) × (self.new.left.items ≡ self.old.left.items)) }
        ensures fault { OnErr result (IsErrOf result NoMemory) }
    {
        match self.faulty.push(source) {
            Ok(()) => Ok(()),
            Err(_) => Err(SourcesFault::OutOfMemory),
        }
    }
}

/// Reads all sources of a plan, in its order. It answers what each node has to give, which is all messages of a source
/// line by line; or the sources that aren't accepted, each with its first fault. A source that isn't accepted doesn't
/// keep the others from being read; a read that fails does. Each file is asked for once for each source that names it.
/// O(n log n) in the bytes; no file is held as a whole beside its entries.
pub fn read_sources<F: Files>(
    alloc: Global,
    nodes: &[PlanNode],
    files: &mut F,
) -> Result<Vec<Entries>, SourcesFault>
    requires { F.faults files.old < last_count }
    ensures answer { (told : List ℕ → List ℕ) → AreTold (F.content files.old) told (source_files nodes.now) → AnswersSources result told nodes.now }
    ensures sources { IfOk result (λ left. AreSources nodes.now left.items) }
    ensures counted { CountsSources result (F.faults files.old) (F.faults files.new) }
    ensures asked { AsksFirst (F.asked files.old) (F.asked files.new) (source_files nodes.now) }
    ensures contents { (n : List ℕ) → F.content files.new n ≡ F.content files.old n }
{
    let mut so_far = ReadSoFar {
        left: Vec::new(alloc),
        faulty: Vec::new(alloc),
    };
    for place in 0..nodes.len() {
        let read = read_node(alloc, files, &nodes[place]);
        so_far.note(alloc, place, read)?;
    }
    if so_far.faulty.is_empty() {
        return Ok(so_far.left);
    }
    Err(SourcesFault::Events(so_far.faulty))
}
