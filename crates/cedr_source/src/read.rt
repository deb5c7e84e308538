ghost use Rattle.std.specs.Prelude.{◌≡◌, ◌≤◌, ◌++◌, [], ℕ, List, false, length, IfSome};
ghost use Rattle.cedr_text.specs.declared.event_line.Shape.{Shape};
ghost use Rattle.cedr_guard.specs.declared.refusal.TheConstants.{FILE_LIMIT};
ghost use Rattle.cedr_source.specs.Reads.{is_ended};
ghost use Rattle.cedr_source.specs.Whole.{HoldsRead, TookAll, CountsSource, AnswersAll, Answered, ReadBlocks, Closes};

use crate::entries::Entries;
use crate::fault::Unread;
use crate::lines::SourceLines;
use crate::step::SourceStep;
use cedr_base::Message;
use cedr_io::Source;
use cedr_text::Shape;
use std::alloc::Global;

/// Reads a source to its end and answers its messages line by line, or stops at its first fault. Each line that isn't
/// empty has an entry, which has its messages, and the last entry is `End`. It reads blocks of 4,096 bytes, and
/// at most one more than a source may have. O(n log n) in the bytes; besides the entries it keeps what `SourceLines`
/// keeps.
pub fn read_by_line<S: Source>(
    alloc: Global,
    shape: Shape,
    source: &mut S,
) -> Result<Entries, Unread>
    ensures answer { IfSome (S.rest source.old) (λ all. AnswersAll result shape all) }
    ensures read { Answered result shape (S.rest source.old) (S.rest source.new) }
    ensures counted { CountsSource result (S.faults source.old) (S.faults source.new) }
{
    let reading = read_blocks(alloc, shape, source)?;
    reading.into_entries()
}

/// Takes the lines of all blocks of a source, up to its first fault. Each turn takes a byte at least.
fn read_blocks<S: Source>(alloc: Global, shape: Shape, source: &mut S) -> Result<Reading, Unread>
    ensures read { ReadBlocks result shape (S.rest source.old) (S.rest source.new) }
    ensures counted { CountsSource result (S.faults source.old) (S.faults source.new) }
{
    let mut reading = Reading::new(alloc, shape);
    let mut block = [0u8; 4096];
    loop {
        let count = source.read(&mut block)?;
        if count == 0 {
            return Ok(reading);
        }
        reading.take_block(&block[..count])?;
    }
}

/// A source whose bytes come, and the messages that it gave line by line.
#[derive(Drop)]
struct Reading {
    lines: SourceLines,
    /// How many messages each entry has.
    counts: Vec<u8>,
    messages: Vec<Message>,
}

impl Reading {
    fn new(alloc: Global, shape: Shape) -> Reading
        ensures reads { HoldsRead result shape [] }
        ensures goes_on { is_ended result.lines ≡ false }
    {
        Reading {
            lines: SourceLines::new(alloc, shape),
            counts: Vec::new(alloc),
            messages: Vec::new(alloc),
        }
    }

    /// Takes the lines of a block.
    fn take_block(&mut self, block: &[u8]) -> Result<(), Unread>
        requires { is_ended self.old.lines ≡ false }
        ensures took { (shape : Shape) (bytes : List ℕ) → HoldsRead self.old shape bytes → TookAll result self.new shape (bytes ++ block.now) }
        ensures goes_on { is_ended self.new.lines ≡ false }
    {
        self.lines.feed(block)?;
        self.take_all()
    }

    /// Takes all lines that there are.
    fn take_all(&mut self) -> Result<(), Unread>
        ensures took { (shape : Shape) (bytes : List ℕ) → HoldsRead self.old shape bytes → TookAll result self.new shape bytes }
        ensures finished { is_ended self.new.lines ≡ is_ended self.old.lines }
    {
        loop {
            let before = self.messages.len();
            match self.lines.take_line(&mut self.messages)? {
                SourceStep::Line if self.lines.was_empty() => {}
                SourceStep::Line => self.counts.push((self.messages.len() - before) as u8)?,
                SourceStep::NotYet => return Ok(()),
                SourceStep::Closed => return Ok(()),
                SourceStep::Refused(refusal) => return Err(Unread::Refused(refusal)),
            }
        }
    }

    /// All messages line by line, where no more bytes come.
    fn into_entries(mut self) -> Result<Entries, Unread>
        ensures { (shape : Shape) (bytes : List ℕ) → HoldsRead self shape bytes → length bytes ≤ FILE_LIMIT → Closes result shape bytes }
    {
        self.lines.finish();
        self.take_all()?;
        self.messages.push(Message::End)?;
        self.counts.push(1)?;
        Ok(Entries::from_parts(self.counts, self.messages))
    }
}
