use cedr_guard::Refusal;

/// A source that isn't accepted: its place in the plan, and its first fault.
#[derive(Clone, Copy, Debug, PartialEq, Eq)]
pub struct FaultySource {
    pub place: usize,
    pub refusal: Refusal,
}
