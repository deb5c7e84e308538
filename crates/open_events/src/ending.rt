use cedr_base::Time;

/// When the event of an id ends. Endings compare by their times, then by their ids.
#[derive(Clone, Copy, PartialEq, Eq, PartialOrd, Ord)]
pub(crate) struct Ending {
    pub(crate) end: Time,
    pub(crate) id: u64,
}
