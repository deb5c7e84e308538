use crate::close::Close;
use cedr_base::{Change, OutOfMemory, Time};
use std::sync::Arc;

/// What a writer does to its list. Both copies of the list share a change.
#[derive(Drop)]
pub enum Step {
    Change(Arc<Change>),
    Mark(Time),
    Close(Close),
}
