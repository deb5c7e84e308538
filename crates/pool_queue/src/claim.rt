use std::collections::LinkedList;

/// A number and the place of its task. No value of it is made.
pub struct Entry<X> {
    pub number: usize,
    pub place: X,
}

/// What a pass has of a queue: its parts of the right to close it, what was opened there, and what it holds of that. No value
/// of it is made.
pub struct Claim<X> {
    pub parts: u64,
    pub opened: LinkedList<Entry<X>>,
    pub held: LinkedList<Entry<X>>,
}
