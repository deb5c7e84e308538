use crate::book::Front;
use crate::listed::Listed;
use crate::step::Step;

/// What a thread knows of the copies. No value of it is made.
pub struct Knows {
    pub known: bool,
    pub front: Front,
}

/// What the two copies have in common. No value of it is made.
pub struct Holding {
    pub listed: Listed,
    pub front: Front,
}

/// A step, and the history with it.
#[derive(Drop)]
pub struct Deed {
    pub step: Step,
    pub front: Front,
}
