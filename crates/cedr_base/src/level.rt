/// How long a port waits for order, and how long it takes late changes, in application time. `None` is without
/// limit.
///
/// A row that begins less than `block` before the greatest time that came is held back, until the mark is above its
/// end or no more comes. A change whose sync is more than `memory` before the greatest time is forgotten.
#[derive(Clone, Copy, Debug, PartialEq, Eq)]
pub struct Level {
    pub block: Option<u64>,
    pub memory: Option<u64>,
}
