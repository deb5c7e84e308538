use crate::time::Time;

/// When something is valid: from `begin` on and before `end`. It is empty where `end` isn't above `begin`.
#[derive(Clone, Copy, PartialEq, Eq)]
pub struct Interval {
    pub begin: Time,
    pub end: Time,
}
