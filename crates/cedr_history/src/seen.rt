use crate::close::Close;
use cedr_base::Time;

/// What a read says of the list that it entered.
#[derive(Clone, Copy, Debug, PartialEq, Eq)]
pub struct Seen {
    /// How many changes the list has.
    pub len: usize,
    pub mark: Time,
    pub close: Close,
}
