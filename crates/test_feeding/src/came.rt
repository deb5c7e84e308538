ghost use Rattle.std.specs.Prelude.{◌≡◌, ◌++◌, ◌∷◌, [], List, true, OnOk};
ghost use Rattle.cedr_base.specs.declared.change.Message.{Message};
ghost use Rattle.cedr_base.specs.Messages.{MayCome};

use crate::feeding::{may_come, note};
use cedr_base::{FOREVER, Message, OutOfMemory, Time};
use cedr_table::Table;
use std::alloc::Global;

/// What came on a port, as far as it says what may come next.
#[derive(Drop)]
pub struct Came {
    table: Table,
    mark: Time,
    open: bool,
}

impl Came {
    ghost use Rattle.test_feeding.specs.Came.{CameFor};

    /// A port to which nothing came. It takes no memory.
    pub fn new(alloc: Global) -> Came
        ensures { CameFor result [] }
    {
        Came {
            table: Table::new(alloc),
            mark: 0,
            open: true,
        }
    }

    /// Whether the message may come after those that came. It takes O(log n) and no memory.
    pub fn may_come(&self, message: &Message) -> bool
        ensures { result ≡ true → (ms : List Message) → CameFor self.now ms → MayCome ms message.now }
    {
        if !self.open {
            return false;
        }
        match message {
            Message::Change(change) => {
                self.mark <= change.sync() && may_come(&self.table, change)
            }
            Message::Mark(time) => self.mark < *time && *time <= FOREVER,
            Message::End => true,
            Message::Broken => true,
        }
    }

    /// A message came that may. Where memory runs out this is only to be dropped.
    pub fn note(&mut self, alloc: Global, message: &Message) -> Result<(), OutOfMemory>
        ensures { OnOk result ((ms : List Message) → CameFor self.old ms → MayCome ms message.now → CameFor self.new (ms ++ message.now ∷ [])) }
    {
        match message {
            Message::Change(change) => note(&mut self.table, change.copy(alloc)?)?,
            Message::Mark(time) => self.mark = *time,
            Message::End => self.open = false,
            Message::Broken => self.open = false,
        }
        Ok(())
    }
}
