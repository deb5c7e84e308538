use cedr_base::Level;

/// Rows are held back until the mark is above their end, and none is forgotten.
pub const STRONG: Level = Level {
    block: None,
    memory: None,
};

/// No row is held back, and none is forgotten.
pub const MIDDLE: Level = Level {
    block: Some(0),
    memory: None,
};
