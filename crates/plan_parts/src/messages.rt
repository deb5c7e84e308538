ghost use Rattle.std.specs.Prelude.{◌≡◌, ◌≤◌, ◌++◌, take, length, IfOk, OnOk};
ghost use Rattle.cedr_guard.specs.Messages.{messages_in};
ghost use Rattle.plan_serial.specs.Rounds.{all_messages};

use cedr_base::{Message, OutOfMemory};
use cedr_source::Entries;
use std::alloc::Global;
use std::collections::VecDeque;
use std::marker::Model;

/// All messages of a node of a plan, in their order: what is no source has none. Contracts see the list of them.
pub struct SourceMessages {
    messages: Vec<Message>,
}

impl Model for SourceMessages {
    ghost use Rattle.std.specs.Prelude.{List};
    ghost use Rattle.cedr_base.specs.declared.change.Message.{Message};

    ghost Value = { List Message };

    ghost view = { λ s. s.messages.items };
}

impl Drop for SourceMessages {
    fn drop(self) {
        let SourceMessages { messages: _ } = self;
    }
}

impl SourceMessages {
    /// These messages, of one source. It takes no memory.
    pub fn new(messages: Vec<Message>) -> SourceMessages
        ensures { result ≡ messages.items }
    {
        SourceMessages { messages }
    }

    /// How many messages there are.
    pub(crate) fn len(&self) -> usize
        ensures { result ≡ length self.now }
    {
        self.messages.len()
    }

    /// The messages from one place on up to another one, or up to the last.
    pub(crate) fn between(&self, from: usize, until: usize) -> &[Message]
        requires { from ≤ until }
        ensures { take from self.now ++ result.now ≡ take until self.now }
    {
        let messages = self.messages.as_slice();
        let first = from.min(messages.len());
        let end = until.min(messages.len());
        &messages[first..end]
    }
}

/// All messages of a source that was read line by line, one line after the other.
fn messages_of(alloc: Global, mut entries: Entries) -> Result<Vec<Message>, OutOfMemory>
    ensures { IfOk result (λ messages. messages.items ≡ messages_in entries) }
{
    let mut messages = Vec::new(alloc);
    while let Some(mut entry) = entries.pop(alloc)? {
        messages.append(&mut entry)?;
    }
    Ok(messages)
}

/// The messages of what each node of a plan has to give, by its place. O(n) in the messages, which are moved. Where memory
/// runs out all of them are dropped.
pub fn messages_of_entries(
    alloc: Global,
    left: Vec<Entries>,
) -> Result<Vec<SourceMessages>, OutOfMemory>
    ensures { IfOk result (λ lists. lists.items ≡ all_messages left.items) }
{
    let mut lists = Vec::with_capacity(alloc, left.len())?;
    let mut left = VecDeque::from_vec(left);
    while let Some(entries) = left.pop_front() {
        let messages = messages_of(alloc, entries)?;
        lists.push(SourceMessages::new(messages))?;
    }
    Ok(lists)
}
