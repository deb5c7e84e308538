ghost use Rattle.std.specs.Prelude.{◌≡◌, ◌<◌, ◌/◌, ◌%◌, IfOk};
ghost use Rattle.std.specs.List.{slice_get};
ghost use Rattle.plan_parts.specs.Parts.{hash_on, part_of, is_in_part, keys_of, goes_to, list_part};

use cedr_base::{FieldRef, Message, OutOfMemory, Payload};
use std::alloc::Global;

/// One of several parts of the keys, counted from 0.
#[derive(Clone, Copy)]
pub(crate) struct Share {
    /// How many parts there are.
    pub(crate) count: usize,
    /// Which of them it is.
    pub(crate) part: usize,
}

/// A number for the bytes of a code. Each is added, and the sum multiplied by 2^64 over the golden ratio, which spreads codes
/// that are alike over the high bits.
fn hash_of(code: &[u8]) -> u64
    ensures { result ≡ hash_on 0 code.now }
{
    let mut hash = 0u64;
    for byte in code {
        hash = hash
            .wrapping_add(u64::from(*byte))
            .wrapping_mul(11_400_714_819_323_198_485);
    }
    hash
}

/// The part, of so many, that the high half of a hash says.
fn part_of_hash(count: usize, hash: u64) -> usize
    requires { 0 < count }
    ensures { result ≡ (hash / 4294967296) % count }
{
    (hash / 4_294_967_296) as usize % count
}

/// The part, of so many, that a key is in. A row without the key's field is in the first one.
fn part_of(count: usize, key: Option<FieldRef<'_>>) -> usize
    requires { 0 < count }
    ensures { result ≡ part_of count key.entry }
{
    match key {
        Some(field) => part_of_hash(count, hash_of(field.code())),
        None => 0,
    }
}

impl Share {
    /// Whether the key of a row with this payload is in the part. O(n) in the fields before it and its bytes.
    fn has_key(&self, column: usize, payload: &Payload) -> bool
        requires { 0 < self.now.count }
        ensures { result ≡ keys_of self.now (slice_get payload.now column) }
    {
        part_of(self.count, payload.field(column)) == self.part
    }

    /// Whether a message goes to the part.
    fn takes(&self, column: usize, message: &Message) -> bool
        requires { 0 < self.now.count }
        ensures { result ≡ goes_to (keys_of self.now) column message.now }
    {
        match message {
            Message::Change(change) => self.has_key(column, &change.row().payload),
            Message::Mark(_) => true,
            Message::End => true,
            Message::Broken => true,
        }
    }

    /// Copies of the messages that go to the part, in their order. They share the memory of long payloads. O(n) in the
    /// messages.
    pub(crate) fn pick(
        &self,
        alloc: Global,
        column: usize,
        messages: &[Message],
    ) -> Result<Vec<Message>, OutOfMemory>
        requires { 0 < self.now.count }
        ensures { IfOk result (λ picked. picked.items ≡ list_part (keys_of self.now) column messages.now) }
    {
        let mut picked = Vec::new(alloc);
        for message in messages {
            if !self.takes(column, message) {
                continue;
            }
            let copied = message.copy(alloc)?;
            picked.push(copied)?;
        }
        Ok(picked)
    }
}
