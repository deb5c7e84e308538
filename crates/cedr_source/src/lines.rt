ghost use Rattle.std.specs.Prelude.{◌≡◌, ◌==◌, ◌≤◌, ◌++◌, [], List, ℕ, true, false, length, IfOk, OnOk, OnErr};
ghost use Rattle.cedr_base.specs.declared.change.Message.{Message};
ghost use Rattle.cedr_text.specs.declared.event_line.EventLine.{EventLine};
ghost use Rattle.cedr_text.specs.declared.event_line.Shape.{Shape};
ghost use Rattle.cedr_text.specs.Reading.{reading};
ghost use Rattle.cedr_guard.specs.declared.refusal.TheConstants.{FILE_LIMIT};
ghost use Rattle.cedr_guard.specs.Messages.{Appended};
ghost use Rattle.cedr_guard.specs.Sources.{with_reading};
ghost use Rattle.cedr_guard.specs.Standing.{Guards};
ghost use Rattle.cedr_source.specs.Reads.{ReadsSource, ReadsByLine, is_ended};
ghost use Rattle.cedr_source.specs.Steps.{LineAnswered, JudgesLine, AnswersLine, refused_at};

use crate::step::SourceStep;
use cedr_base::{Message, OutOfMemory};
use cedr_guard::{FILE_LIMIT, Guard, GuardFault, Refusal};
use cedr_text::{LineFault, LineStep, Lines, Shape, read_line};
use std::alloc::Global;

/// Reads the lines of one source, whose bytes come in pieces of any size, and answers the messages of the
/// accepted ones. Contracts speak of the bytes that were fed and the messages that were given.
///
/// It never holds a whole source: it keeps what isn't cut into lines yet, at most twice that and the last
/// piece, and of each insertion what a `Guard` keeps. Of a source over `FILE_LIMIT` bytes it takes the first
/// `FILE_LIMIT` ones, which decide.
#[derive(Drop)]
pub struct SourceLines {
    lines: Lines,
    guard: Guard,
    shape: Shape,
    /// The line that was taken last.
    line: Vec<u8>,
    /// The number of the next line, from 1 on.
    number: u64,
    /// How many bytes may come until the limit is reached.
    room: usize,
    /// Whether more came.
    over_limit: bool,
}

impl SourceLines {
    /// Nothing was fed or given. It takes no memory.
    pub fn new(alloc: Global, shape: Shape) -> SourceLines
        ensures reads { ReadsSource result shape [] [] }
        ensures by_line { ReadsByLine result shape [] [] }
        ensures goes_on { is_ended result ≡ false }
    {
        SourceLines {
            lines: Lines::new(alloc),
            guard: Guard::new(alloc),
            shape,
            line: Vec::new(alloc),
            number: 1,
            room: FILE_LIMIT,
            over_limit: false,
        }
    }

    /// Takes the next bytes of the source. O(n) in them. An error leaves all as it was.
    pub fn feed(&mut self, piece: &[u8]) -> Result<(), OutOfMemory>
        requires { is_ended self.old ≡ false }
        ensures reads { OnOk result ((shape : Shape) (bytes : List ℕ) (given : List Message) → ReadsSource self.old shape bytes given → ReadsSource self.new shape (bytes ++ piece.now) given) }
        ensures by_line { OnOk result ((shape : Shape) (bytes : List ℕ) (given : List (List Message)) → ReadsByLine self.old shape bytes given → ReadsByLine self.new shape (bytes ++ piece.now) given) }
        ensures err { OnErr result (self.new ≡ self.old) }
        ensures goes_on { is_ended self.new ≡ false }
    {
        let count = piece.len().min(self.room);
        self.lines.feed(&piece[..count])?;
        self.room -= count;
        if count < piece.len() {
            self.over_limit = true;
        }
        Ok(())
    }

    /// Says that no more bytes come. It takes no memory.
    pub fn finish(&mut self)
        ensures reads { (shape : Shape) (bytes : List ℕ) (given : List Message) → ReadsSource self.old shape bytes given → ReadsSource self.new shape bytes given }
        ensures by_line { (shape : Shape) (bytes : List ℕ) (given : List (List Message)) → ReadsByLine self.old shape bytes given → ReadsByLine self.new shape bytes given }
        ensures finished { (shape : Shape) (bytes : List ℕ) (given : List Message) → ReadsSource self.old shape bytes given → length bytes ≤ FILE_LIMIT → is_ended self.new ≡ true }
    {
        if !self.over_limit {
            self.lines.finish();
        }
    }

    /// Takes the next line and appends its messages, at most two, or says why there is none yet, or none any more. An
    /// empty line has none, and neither has a guarantee that isn't above an earlier one. O(n) in the bytes of the line,
    /// and O(log n) in the insertions before it.
    ///
    /// After `Refused`, and after want of memory, the lines are only to be dropped. Nothing was appended then.
    pub fn take_line(&mut self, out: &mut Vec<Message>) -> Result<SourceStep, OutOfMemory>
        ensures answered { IfOk result (λ said. LineAnswered said self.old self.new out.old.items out.new.items) }
        ensures kept { OnErr result (out.new.items ≡ out.old.items) }
        ensures finished { is_ended self.new ≡ is_ended self.old }
    {
        match self.lines.next_line(&mut self.line)? {
            LineStep::Line => {
                let alloc = *self.line.allocator();
                let judged = judge_line(alloc, &mut self.guard, &self.shape, &self.line, out);
                let number = self.number;
                // No source has so many lines that it stays at its last value.
                self.number = number.saturating_add(1);
                step_of(number, judged)
            }
            LineStep::TooLong => Ok(refused(self.number, LineFault::LineTooLong)),
            LineStep::NotYet if self.over_limit => Ok(refused(self.number, LineFault::TooLarge)),
            LineStep::NotYet => Ok(SourceStep::NotYet),
            LineStep::Finished => Ok(SourceStep::Closed),
        }
    }

    /// Whether the line that was taken last is an empty one.
    pub(crate) fn was_empty(&self) -> bool
        ensures { result ≡ (length self.now.line.items == 0) }
    {
        self.line.is_empty()
    }
}

/// Judges a line, without its line feed and the carriage return before that, after the accepted ones, and
/// appends its messages, at most two. An error leaves the guard and `out` as they were. O(n) in the bytes, and
/// O(log n) in the insertions before it.
pub fn judge_line(
    alloc: Global,
    guard: &mut Guard,
    shape: &Shape,
    line: &[u8],
    out: &mut Vec<Message>,
) -> Result<(), GuardFault>
    ensures judged { (before : List EventLine) → Guards guard.old before → JudgesLine result guard.new before (with_reading before (reading shape.now line.now)) out.old.items out.new.items }
    ensures appended { Appended out.old.items out.new.items }
    ensures kept { OnErr result (out.new.items ≡ out.old.items) }
{
    match read_line(alloc, line, shape) {
        Ok(Some(event)) => guard.accept(&event, out),
        Ok(None) => Ok(()),
        Err(fault) => Err(GuardFault::from(fault)),
    }
}

/// The answer for the line of this number.
fn step_of(number: u64, judged: Result<(), GuardFault>) -> Result<SourceStep, OutOfMemory>
    ensures { AnswersLine number judged result }
{
    match judged {
        Ok(()) => Ok(SourceStep::Line),
        Err(GuardFault::Line(fault)) => Ok(refused(number, fault)),
        Err(GuardFault::OutOfMemory) => Err(OutOfMemory),
    }
}

fn refused(line: u64, fault: LineFault) -> SourceStep
    ensures { result ≡ refused_at line fault }
{
    SourceStep::Refused(Refusal { line, fault })
}
