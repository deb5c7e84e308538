ghost use Rattle.std.specs.Prelude.{◌≡◌, ◌∷◌, [], take, drop, IfOk, IfSome, IfNone};
ghost use Rattle.cedr_source.specs.Entries.{entries_by};

use cedr_base::{Message, OutOfMemory};
use std::alloc::Global;
use std::collections::VecDeque;
use std::marker::Model;

/// What a source gives, line by line: an entry has the messages of one line, in order. Contracts see the list of the entries.
///
/// It keeps the messages one after the other and a byte for each entry, so that a line without a message costs one byte.
#[derive(Drop)]
pub struct Entries {
    /// How many messages each entry has.
    counts: VecDeque<u8>,
    messages: VecDeque<Message>,
}

impl Model for Entries {
    ghost use Rattle.std.specs.Prelude.{List};
    ghost use Rattle.cedr_base.specs.declared.change.Message.{Message};
    ghost use Rattle.cedr_source.specs.Entries.{entries_by};

    ghost Value = { List (List Message) };

    ghost view = { λ e. entries_by e.counts.items e.messages.items };
}

impl Entries {
    /// No entry. It takes no memory.
    pub fn new(alloc: Global) -> Entries
        ensures { result ≡ [] }
    {
        Entries {
            counts: VecDeque::new(alloc),
            messages: VecDeque::new(alloc),
        }
    }

    /// The messages that these entries hold together, of which each has so many. It takes no memory.
    pub(crate) fn from_parts(counts: Vec<u8>, messages: Vec<Message>) -> Entries
        ensures { result ≡ entries_by counts.items messages.items }
    {
        Entries {
            counts: VecDeque::from_vec(counts),
            messages: VecDeque::from_vec(messages),
        }
    }

    /// Takes the first entry. It takes memory for its messages alone; at an error the entries are only to be dropped.
    pub fn pop(&mut self, alloc: Global) -> Result<Option<Vec<Message>>, OutOfMemory>
        ensures some { IfOk result (λ entry. IfSome entry (λ messages. self.old ≡ messages.items ∷ self.new)) }
        ensures none { IfOk result (λ entry. IfNone entry ((self.old ≡ []) × (self.new ≡ []))) }
    {
        let Some(count) = self.counts.pop_front() else {
            return Ok(None);
        };
        Ok(Some(take_first(alloc, &mut self.messages, count)?))
    }
}

/// Takes the first messages, at most so many.
fn take_first(
    alloc: Global,
    messages: &mut VecDeque<Message>,
    count: u8,
) -> Result<Vec<Message>, OutOfMemory>
    ensures { IfOk result (λ first. (first.items ≡ take count messages.old.items) × (messages.new.items ≡ drop count messages.old.items)) }
{
    let mut first = Vec::with_capacity(alloc, usize::from(count))?;
    for _ in 0..count {
        if let Some(message) = messages.pop_front() {
            first.push(message)?;
        }
    }
    Ok(first)
}
