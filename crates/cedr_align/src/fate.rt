use node_laws::Forgotten;

/// What became of a message.
#[derive(Drop)]
pub enum Fate {
    /// It counts.
    Kept,
    /// It is a change that is left out.
    Forgotten(Forgotten),
}
