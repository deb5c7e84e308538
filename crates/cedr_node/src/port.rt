ghost use Rattle.std.specs.Prelude.{◌≡◌, ◌++◌, ◌∷◌, [], List, IfOk, OnOk, true, false};
ghost use Rattle.cedr_base.specs.declared.change.Message.{Message};
ghost use Rattle.cedr_base.specs.Messages.{MayCome};
ghost use Rattle.node_laws.specs.Pass.{HasBlockWithin};

use cedr_align::{Aligner, Fate};
use cedr_base::{Level, Message, OutOfMemory};
use node_laws::Forgotten;
use std::alloc::Global;

/// An aligner and what it forgot.
#[derive(Drop)]
pub(crate) struct Port {
    aligner: Aligner,
    forgotten: Vec<Forgotten>,
}

impl Port {
    ghost use Rattle.cedr_node.specs.Standing.{PortStands, IsPortTaken};

    /// A port to which nothing came. Its block isn't over its memory. It takes no memory.
    pub(crate) fn new(alloc: Global, level: Level) -> Port
        requires { HasBlockWithin level }
        ensures stands { PortStands result [] }
        ensures level { result.aligner.level ≡ level }
    {
        Port {
            aligner: Aligner::new(level, alloc),
            forgotten: Vec::new(alloc),
        }
    }

    /// Takes a message that may come after those before it, where it goes through: it is then all that is passed on.
    /// Whether it did. Where it didn't the port stays as it is. Where memory runs out it is only to be dropped.
    pub(crate) fn go_through(
        &mut self,
        alloc: Global,
        message: &Message,
    ) -> Result<bool, OutOfMemory>
        ensures through { IfOk result (λ went. went ≡ true → (ms : List Message) → PortStands self.old ms → MayCome ms message.now → IsPortTaken self.old self.new ms message.now [] (message.now ∷ [])) }
        ensures stays { IfOk result (λ went. went ≡ false → self.new ≡ self.old) }
        ensures level { self.new.aligner.level ≡ self.old.aligner.level }
    {
        self.aligner.take_through(alloc, message)
    }

    /// Takes a message that may come after those before it, and notes what is forgotten. What is passed on stands in the
    /// list, in place of what stood there. Where memory runs out the port is only to be dropped.
    pub(crate) fn take(
        &mut self,
        alloc: Global,
        message: Message,
        passed: &mut Vec<Message>,
    ) -> Result<(), OutOfMemory>
        ensures taken { OnOk result ((ms : List Message) → PortStands self.old ms → MayCome ms message → IsPortTaken self.old self.new ms message [] passed.new.items) }
        ensures level { self.new.aligner.level ≡ self.old.aligner.level }
    {
        passed.clear();
        match self.aligner.take(alloc, message, passed)? {
            Fate::Kept => {}
            Fate::Forgotten(forgotten) => self.forgotten.push(forgotten)?,
        }
        Ok(())
    }

    /// What was forgotten, in the order in which it came. It takes no memory.
    pub(crate) fn forgotten(&self) -> &[Forgotten]
        ensures { result.now ≡ self.now.forgotten.items }
    {
        self.forgotten.as_slice()
    }
}
