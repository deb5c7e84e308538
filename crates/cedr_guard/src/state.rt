use cedr_base::{Payload, Time};

/// An event of a source as it is after some lines.
pub struct EventState {
    pub id: u64,
    /// Application time, which is finite.
    pub begin: Time,
    /// It is `begin` where the event is withdrawn.
    pub end: Time,
    /// It has no field where the event is withdrawn.
    pub payload: Payload,
}

impl Drop for EventState {
    fn drop(self) {
        let EventState {
            id: _,
            begin: _,
            end: _,
            payload: _,
        } = self;
    }
}

/// What a source's accepted lines come to, without the order in which they came: by it alone later lines are
/// judged. It is the reduced history of the CIDR 2007 paper, with the ids.
pub struct SourceState {
    /// The greatest guarantee, 0 where there was none.
    pub mark: Time,
    /// One for each id that was inserted, withdrawn ones too, with ascending ids.
    pub events: Vec<EventState>,
}

impl Drop for SourceState {
    fn drop(self) {
        let SourceState { mark: _, events: _ } = self;
    }
}
