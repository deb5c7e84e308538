ghost use Rattle.std.specs.Prelude.{◌≡◌, ◌≤◌, ◌++◌, ◌+◌, ◌==◌, ℕ, true, false, [], length, take, drop, IfOk, OnOk, OnErr, MatchOption};
ghost use Rattle.cedr_text.specs.Lines.{without_return, has_line_feed, Steps, IsLineEnd};

use cedr_base::OutOfMemory;
use memchr::memchr;
use std::alloc::Global;
use std::marker::Model;

/// How many bytes a line may have before its line feed.
pub const LINE_LIMIT: usize = 65_536;

/// What `Lines::next_line` found.
#[derive(Clone, Copy, PartialEq, Eq)]
pub enum LineStep {
    /// The next line was put in place of what the line held.
    Line,
    /// The next line has over `LINE_LIMIT` bytes. It isn't left: each later call answers this too.
    TooLong,
    /// The next line may still go on.
    NotYet,
    /// All lines were given, and no more will come.
    Finished,
}

/// Cuts bytes that come in pieces of any size into lines. Contracts see the bytes that were fed and not
/// given, and whether no more will come.
///
/// Feeding n bytes and taking their lines costs O(n), whatever the pieces. After a piece it holds at most
/// twice the bytes that were fed before and not given, and that piece.
#[derive(Drop)]
pub struct Lines {
    /// The bytes from `start` on were fed and not given.
    bytes: Vec<u8>,
    start: usize,
    /// So many bytes from `start` on were searched for a line feed, and none is among them.
    searched: usize,
    finished: bool,
}

impl Model for Lines {
    ghost use Rattle.std.specs.Prelude.{◌≤◌, drop, length};
    ghost use Rattle.cedr_text.specs.Lines.{Fed, IsSearched};

    ghost Value = { Fed };

    ghost view = { λ lines. record { kept = drop lines.start lines.bytes.items; finished = lines.finished } };

    ghost invariant = { λ lines. (lines.start ≤ length lines.bytes.items) × IsSearched (drop lines.start lines.bytes.items) lines.searched };
}

impl Lines {
    pub fn new(alloc: Global) -> Lines
        ensures { result ≡ record { kept = []; finished = false } }
    {
        Lines {
            bytes: Vec::new(alloc),
            start: 0,
            searched: 0,
            finished: false,
        }
    }

    /// Takes the next piece. An error leaves the lines as they were.
    pub fn feed(&mut self, piece: &[u8]) -> Result<(), OutOfMemory>
        requires { self.old.finished ≡ false }
        ensures ok { OnOk result (self.new ≡ record { kept = self.old.kept ++ piece.now; finished = false }) }
        ensures err { OnErr result (self.new ≡ self.old) }
    {
        if self.start >= self.bytes.len() - self.start {
            drop_front(&mut self.bytes, self.start);
            self.start = 0;
        }
        self.bytes.extend_from_slice(piece)?;
        Ok(())
    }

    /// Says that no more will come, so that the last line needs no line feed.
    pub fn finish(&mut self)
        ensures { self.new ≡ record { kept = self.old.kept; finished = true } }
    {
        self.finished = true;
    }

    /// Puts the next line in place of what `line` held, without its line feed and without one carriage
    /// return before that. Each other answer leaves `line` as it was, and want of memory leaves all as it was.
    pub fn next_line(&mut self, line: &mut Vec<u8>) -> Result<LineStep, OutOfMemory>
        ensures ok { IfOk result (λ step. Steps step self.old self.new line.old.items line.new.items) }
        ensures err { OnErr result (self.new ≡ self.old) }
        ensures goes_on { self.new.finished ≡ self.old.finished }
        ensures line_kept { OnErr result (line.new.items ≡ line.old.items) }
    {
        let kept = &self.bytes[self.start..];
        let window = &kept[..kept.len().min(LINE_LIMIT + 1)];
        if let Some(end) = find_end(window, self.searched) {
            replace(line, without_return(&window[..end]))?;
            self.start += end + 1;
            self.searched = 0;
            return Ok(LineStep::Line);
        }
        self.searched = window.len();
        if window.len() > LINE_LIMIT {
            Ok(LineStep::TooLong)
        } else if !self.finished {
            Ok(LineStep::NotYet)
        } else if kept.is_empty() {
            Ok(LineStep::Finished)
        } else {
            replace(line, without_return(kept))?;
            self.start = self.bytes.len();
            self.searched = 0;
            Ok(LineStep::Line)
        }
    }
}

/// The place of the first line feed, which isn't among the bytes that were searched.
fn find_end(window: &[u8], searched: usize) -> Option<usize>
    requires within { searched ≤ length window.now }
    requires none { has_line_feed (take searched window.now) ≡ false }
    ensures { MatchOption result (has_line_feed window.now ≡ false) (λ end. IsLineEnd window.now end) }
{
    let place = memchr(b'\n', &window[searched..])?;
    Some(searched + place)
}

/// The line without one carriage return at its end.
pub fn without_return(line: &[u8]) -> &[u8]
    ensures { result.now ≡ without_return line.now }
{
    let Some((last, front)) = line.split_last() else {
        return line;
    };
    if *last == b'\r' { front } else { line }
}

/// Drops so many bytes at the front.
fn drop_front(bytes: &mut Vec<u8>, count: usize)
    requires { count ≤ length bytes.old.items }
    ensures { bytes.new.items ≡ drop count bytes.old.items }
{
    let rest = bytes.len() - count;
    bytes.copy_within(count.., 0);
    bytes.truncate(rest);
}

/// Puts the bytes in place of what the line held. An error leaves it as it was.
fn replace(line: &mut Vec<u8>, bytes: &[u8]) -> Result<(), OutOfMemory>
    ensures ok { OnOk result (line.new.items ≡ bytes.now) }
    ensures err { OnErr result (line.new.items ≡ line.old.items) }
{
    line.try_reserve(bytes.len().saturating_sub(line.len()))?;
    line.clear();
    line.extend_from_slice(bytes)?;
    Ok(())
}
