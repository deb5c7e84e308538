use cedr_base::{FieldType, Row, Time};

/// What a line of an event file says.
#[derive(Drop)]
pub enum EventLine {
    /// `+,ID,BEGIN,END,FIELD..`: an event, with the valid interval and the payload of its row.
    Insert { id: u64, row: Row },
    /// `-,ID,END`: the event with this id ends at this earlier time.
    Retract { id: u64, end: Time },
    /// `~,ID,BEGIN,END,FIELD..`: the event with this id has the valid interval and the payload of this row
    /// instead.
    Revise { id: u64, row: Row },
    /// `=,TIME`: no later line of the file has a sync below this time.
    Promise(Time),
}

/// What the payload of an insertion or a revision has to be.
#[derive(Drop)]
pub enum Shape {
    /// From 0 to 16 fields, all of them texts.
    AnyText,
    /// One field of each type, in this order.
    Fields(Vec<FieldType>),
}
