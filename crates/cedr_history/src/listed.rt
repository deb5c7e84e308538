use crate::close::Close;
use cedr_base::{Change, Time};
use std::collections::LinkedList;

/// A list of changes with a mark and a close, as contracts see it. No value of it is made.
pub struct Listed {
    pub changes: LinkedList<Change>,
    pub mark: Time,
    pub close: Close,
}
