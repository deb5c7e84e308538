/// Whether more may follow in a list of changes.
#[derive(Clone, Copy, Debug, PartialEq, Eq)]
pub enum Close {
    /// More may follow.
    Open,
    /// Nothing follows: the list is whole.
    Ended,
    /// Nothing follows: the list broke off, and may lack its end.
    Broken,
}
