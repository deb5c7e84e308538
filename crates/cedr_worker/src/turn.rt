/// What a worker's turn came to.
#[derive(Clone, Copy, Debug, PartialEq, Eq)]
pub enum Turn {
    /// Something happened: a message was put or taken, an output published more, or a source read, took a line or stopped.
    Moved,
    /// Nothing happened. A pending message met a full queue, or nothing is pending and each open input was empty.
    Idle,
    /// `End` or `Broken` was sent on every out edge. An output's list is published with its close, or its input is over
    /// after memory was lacking.
    Ended,
}
