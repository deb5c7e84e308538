use cedr_base::{Change, Time};

/// Why a port forgets a change.
#[derive(Clone, Copy, PartialEq, Eq)]
pub enum Cause {
    /// It is seen more than the port's memory before the greatest time that came.
    Late,
    /// It cuts a row that isn't kept.
    Orphan,
}

/// A change that a port left out.
pub struct Forgotten {
    pub change: Change,
    pub cause: Cause,
    /// The greatest sync or mark that came before it, 0 where there was none.
    pub high: Time,
}

impl Drop for Forgotten {
    fn drop(self) {
        let Forgotten {
            change: _,
            cause: _,
            high: _,
        } = self;
    }
}
