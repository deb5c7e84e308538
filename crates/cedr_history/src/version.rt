use crate::book::Front;
use crate::close::Close;
use cedr_base::{Change, Time};
use std::sync::Arc;

/// One of the two copies of the list, with the beginning of the history that leaves it.
#[derive(Drop)]
pub struct Version {
    pub changes: Vec<Arc<Change>>,
    pub mark: Time,
    pub close: Close,
    pub front: Front,
}
