ghost use Rattle.std.specs.Prelude.{◌≡◌, ◌≤◌, ◌<◌, ◌↔◌, ◌++◌, ◌∷◌, ℕ, List, true, false, [], length, drop, IfOk, OnOk, IsTrue, MatchOption};
ghost use Rattle.cedr_text.specs.Lines.{without_return, has_line_feed, IsLineEnd};
ghost use Rattle.cedr_text.specs.declared.lines.TheConstants.{LINE_LIMIT};
ghost use Rattle.std.proofs.Props.{props};
ghost use Rattle.cedr_script.specs.Cutting.{answers_left, line_answer, step_answers, BeginsOn, Cuts};

use cedr_base::OutOfMemory;
use cedr_text::{LINE_LIMIT, without_return};
use memchr::memchr;
use std::alloc::Global;

/// What a piece of a script gave.
#[derive(Clone, Copy, PartialEq, Eq)]
pub enum CutStep {
    /// The next line was put in place of what the line held.
    Line,
    /// The next line has over `LINE_LIMIT` bytes before its line feed. What comes of it is left out.
    TooLong,
    /// The next line may still go on.
    NotYet,
}

/// Cuts a script that comes in pieces of any size into lines. Contracts see what came of the line that has begun, and
/// whether the rest of it is left out.
///
/// It holds the bytes of the line that has begun, at most `LINE_LIMIT`, and nothing of a line that is too long.
#[derive(Drop)]
pub struct LineCutter {
    begun: Vec<u8>,
    /// Whether the line that has begun is too long, which was answered.
    leaves: bool,
    ghost none: { has_line_feed begun.items ≡ false },
    ghost short: { length begun.items ≤ LINE_LIMIT },
    ghost left: { leaves ≡ true → begun.items ≡ [] } by { Prim.hlevel props },
}

/// The place of the first line feed.
fn find_feed(bytes: &[u8]) -> Option<usize>
    ensures { MatchOption result (has_line_feed bytes.now ≡ false) (λ end. IsLineEnd bytes.now end) }
{
    let place = memchr(b'\n', bytes)?;
    Some(place)
}

/// Drops one carriage return at the end.
fn drop_return(line: &mut Vec<u8>)
    ensures { line.new.items ≡ without_return line.old.items }
{
    let length = without_return(line).len();
    line.truncate(length);
}

impl LineCutter {
    ghost use Rattle.cedr_script.specs.Cutters.{begun_of};

    /// Nothing came. It takes no memory.
    pub fn new(alloc: Global) -> LineCutter
        ensures { begun_of result ≡ record { line = []; leaves = false } }
    {
        LineCutter {
            begun: Vec::new(alloc),
            leaves: false,
        }
    }

    /// How many bytes at the front of a piece belong to a line that is left out.
    fn leave_out(&mut self, piece: &[u8]) -> usize
        ensures within { result ≤ length piece.now }
        ensures left { (more : List ℕ) → answers_left (begun_of self.old) (piece.now ++ more) ≡ answers_left (begun_of self.new) (drop result piece.now ++ more) }
        ensures all { self.new.leaves ≡ true → result ≡ length piece.now }
    {
        if !self.leaves {
            return 0;
        }
        match find_feed(piece) {
            Some(end) => {
                self.leaves = false;
                end + 1
            }
            None => piece.len(),
        }
    }

    /// Whether the line that has begun is too long with these bytes.
    fn overflows(&self, rest: &[u8]) -> bool
        ensures { IsTrue result ↔ (LINE_LIMIT < length (self.now.begun.items ++ rest.now)) }
    {
        rest.len() > LINE_LIMIT - self.begun.len()
    }

    /// The line that has begun ends behind these bytes.
    fn end_line(&mut self, rest: &[u8], line: &mut Vec<u8>) -> Result<CutStep, OutOfMemory>
        requires { self.old.leaves ≡ false }
        ensures answered { IfOk result (λ step. step_answers step line.new.items ≡ line_answer (self.old.begun.items ++ rest.now) ∷ []) }
        ensures new { OnOk result (begun_of self.new ≡ record { line = []; leaves = false }) }
    {
        if self.overflows(rest) {
            self.begun.clear();
            return Ok(CutStep::TooLong);
        }
        line.clear();
        line.extend_from_slice(&self.begun)?;
        line.extend_from_slice(rest)?;
        drop_return(line);
        self.begun.clear();
        Ok(CutStep::Line)
    }

    /// The line that has begun goes on with these bytes.
    fn go_on(&mut self, rest: &[u8]) -> Result<CutStep, OutOfMemory>
        requires none { has_line_feed rest.now ≡ false }
        requires taken { self.old.leaves ≡ false }
        ensures { IfOk result (λ step. BeginsOn step (begun_of self.old) (begun_of self.new) rest.now) }
    {
        if self.overflows(rest) {
            self.begun.clear();
            self.leaves = true;
            return Ok(CutStep::TooLong);
        }
        self.begun.extend_from_slice(rest)?;
        Ok(CutStep::NotYet)
    }

    /// Takes bytes at the front of a piece: up to the end of the next line, or all where that hasn't ended.
    fn take_line(
        &mut self,
        piece: &[u8],
        line: &mut Vec<u8>,
    ) -> Result<(CutStep, usize), OutOfMemory>
        requires { self.old.leaves ≡ false }
        ensures { IfOk result (λ answer. Cuts answer.0 (begun_of self.old) (begun_of self.new) piece.now answer.1 line.new.items) }
    {
        match find_feed(piece) {
            Some(end) => {
                let step = self.end_line(&piece[..end], line)?;
                Ok((step, end + 1))
            }
            None => {
                let step = self.go_on(piece)?;
                Ok((step, piece.len()))
            }
        }
    }

    /// Takes bytes at the front of a piece: up to the end of the next line, or all where that hasn't ended. It says how many.
    /// A line has no line feed, and no carriage return before that. O(n) in the bytes that are taken. Where memory runs out the
    /// cutter is only to be dropped.
    pub fn cut(&mut self, piece: &[u8], line: &mut Vec<u8>) -> Result<(CutStep, usize), OutOfMemory>
        ensures { IfOk result (λ answer. Cuts answer.0 (begun_of self.old) (begun_of self.new) piece.now answer.1 line.new.items) }
    {
        let start = self.leave_out(piece);
        if self.leaves {
            return Ok((CutStep::NotYet, piece.len()));
        }
        let (step, count) = self.take_line(&piece[start..], line)?;
        Ok((step, start + count))
    }

    /// Says that no more comes: what has begun is the last line, where it has a byte and isn't left out. Else it answers
    /// `NotYet`. Nothing has begun behind it.
    pub fn finish(&mut self, line: &mut Vec<u8>) -> Result<CutStep, OutOfMemory>
        ensures answered { IfOk result (λ step. step_answers step line.new.items ≡ answers_left (begun_of self.old) []) }
        ensures new { OnOk result (begun_of self.new ≡ record { line = []; leaves = false }) }
    {
        if self.leaves || self.begun.is_empty() {
            self.leaves = false;
            return Ok(CutStep::NotYet);
        }
        self.end_line(&[], line)
    }
}
