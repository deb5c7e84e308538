/// How much was written of what was read.
#[derive(Clone, Copy, PartialEq, Eq, Debug)]
pub(crate) enum Progress {
    /// All of it.
    Whole,
    /// A front: a write was refused, and nothing is written since.
    Refused,
    /// A front: memory was lacking.
    Lacked,
}
