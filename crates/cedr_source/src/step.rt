use cedr_guard::Refusal;

/// What `SourceLines::take_line` answers.
#[derive(Drop)]
pub enum SourceStep {
    /// The next line was taken, and its messages were appended.
    Line,
    /// All lines that ended were taken, and the next one may still go on: more bytes are needed.
    NotYet,
    /// No more bytes come, and all lines were accepted.
    Closed,
    /// The next line is the first that isn't accepted.
    Refused(Refusal),
}
