ghost use Rattle.std.specs.Prelude.{◌≡◌, ◌++◌, ◌∷◌, [], List, IfOk, OnErr, false, true, length, take};
ghost use Rattle.cedr_base.specs.declared.change.Message.{Message};
ghost use Rattle.cedr_base.specs.declared.change.Message.TheVariants as message;
ghost use Rattle.cedr_base.specs.Messages.{MayCome};
ghost use Rattle.cedr_align.specs.declared.fate.Fate.TheVariants as fate;
ghost use Rattle.node_laws.specs.Kept.{high_of};
ghost use Rattle.node_laws.specs.Pass.{front, HasBlockWithin};

use crate::fate::Fate;
use crate::held::Held;
use crate::keep::find_cause;
use cedr_base::{Change, Level, Message, OutOfMemory, Row, Time};
use cedr_table::Table;
use node_laws::Forgotten;
use std::alloc::Global;

/// Holds a port's rows back until they may pass. Of those that passed it remembers the ones that a retraction may still
/// name where the memory has a limit, and no other one.
///
/// It stands for the list of messages that it took, which it doesn't keep. Each clause speaks of every list that it
/// stands for.
pub struct Aligner {
    pub(crate) level: Level,
    pub(crate) mark: Time,
    pub(crate) high: Time,
    pub(crate) ended: bool,
    pub(crate) held: Held,
    pub(crate) passed: Table,
    /// Room for the rows that are released.
    pub(crate) released: Vec<Row>,
    // each row that was released passed
    ghost none_released: { released.items ≡ [] },
}

impl Drop for Aligner {
    fn drop(self) {
        let Aligner {
            level: _,
            mark: _,
            high: _,
            ended: _,
            held: _,
            passed: _,
            released: _,
        } = self;
    }
}

impl Aligner {
    ghost use Rattle.cedr_align.specs.Aligner.{Aligns, IsTaken, OnlyKeeps};

    /// An aligner that took nothing. Its block isn't over its memory. It takes no memory.
    pub fn new(level: Level, alloc: Global) -> Aligner
        requires { HasBlockWithin level }
        ensures aligns { Aligns result [] }
        ensures held { OnlyKeeps result [] }
        ensures level { result.level ≡ level }
    {
        Aligner {
            level,
            mark: 0,
            high: 0,
            ended: false,
            held: Held::new(alloc),
            passed: Table::new(alloc),
            released: Vec::new(alloc),
        }
    }

    /// The guarantee that is passed on: no row that passes later begins before it. It never falls, and is `FOREVER`
    /// after `End`. It takes no memory. O(log n) in the rows that wait.
    pub fn front(&self) -> Time
        ensures { (ms : List Message) → Aligns self.now ms → result ≡ front self.now.level ms }
    {
        self.guarantee()
    }

    /// The greatest sync or mark that came, 0 at first. It takes no memory.
    pub fn high(&self) -> Time
        ensures { (ms : List Message) → Aligns self.now ms → result ≡ high_of ms }
    {
        self.high
    }

    /// Takes a change where it goes through. Whether it did.
    fn change_through(&mut self, alloc: Global, change: &Change) -> Result<bool, OutOfMemory>
        ensures through { IfOk result (λ went. went ≡ true → (ms : List Message) → Aligns self.old ms → MayCome ms (message.Change change.now) → IsTaken self.old self.new ms (message.Change change.now) [] (message.Change change.now ∷ []) fate.Kept) }
        ensures stays { IfOk result (λ went. went ≡ false → self.new ≡ self.old) }
        ensures level { self.new.level ≡ self.old.level }
    {
        let high = self.high.max(change.sync());
        if !self.goes_through(high, change) {
            return Ok(false);
        }
        match find_cause(
            self.level.memory,
            self.high,
            &self.held,
            &self.passed,
            change,
        ) {
            Some(_) => Ok(false),
            None => {
                self.high = high;
                self.keep_through(alloc, change)?;
                Ok(true)
            }
        }
    }

    /// Takes a mark where it goes through. Whether it did.
    fn mark_through(&mut self, alloc: Global, mark: Time) -> bool
        ensures through { result ≡ true → (ms : List Message) → Aligns self.old ms → MayCome ms (message.Mark mark) → IsTaken self.old self.new ms (message.Mark mark) [] (message.Mark mark ∷ []) fate.Kept }
        ensures stays { result ≡ false → self.new ≡ self.old }
        ensures level { self.new.level ≡ self.old.level }
    {
        if !self.held.is_empty() {
            return false;
        }
        self.mark = mark;
        self.high = self.high.max(mark);
        self.forget(alloc);
        true
    }

    /// Takes a message that may come after those before it, where it goes through: it is then all that is passed on.
    /// Says whether it did, and where it didn't the aligner stays as it is. `take` does the same with it, and for all
    /// messages: this is the short way for a change that isn't forgotten, while no row waits and its own needn't, and for
    /// a mark while no row waits. No clause says when it is taken. Where memory runs out the aligner is only to be
    /// dropped. O(1) where the memory has no limit, and else O(log n) in the rows that are remembered, for the message and
    /// for each that is forgotten.
    pub fn take_through(&mut self, alloc: Global, message: &Message) -> Result<bool, OutOfMemory>
        ensures through { IfOk result (λ went. went ≡ true → (ms : List Message) → Aligns self.old ms → MayCome ms message.now → IsTaken self.old self.new ms message.now [] (message.now ∷ []) fate.Kept) }
        ensures held { IfOk result (λ went. went ≡ true → (ms : List Message) → Aligns self.old ms → MayCome ms message.now → OnlyKeeps self.new (ms ++ message.now ∷ [])) }
        ensures stays { IfOk result (λ went. went ≡ false → self.new ≡ self.old) }
        ensures level { self.new.level ≡ self.old.level }
    {
        match message {
            Message::Change(change) => self.change_through(alloc, change),
            Message::Mark(mark) => Ok(self.mark_through(alloc, *mark)),
            Message::End => Ok(false),
            Message::Broken => Ok(false),
        }
    }

    fn take_change(
        &mut self,
        alloc: Global,
        change: Change,
        out: &mut Vec<Message>,
    ) -> Result<Fate, OutOfMemory>
        ensures taken { IfOk result (λ fate. (ms : List Message) → Aligns self.old ms → MayCome ms (message.Change change) → IsTaken self.old self.new ms (message.Change change) out.old.items out.new.items fate) }
        ensures level { self.new.level ≡ self.old.level }
        ensures kept { take (length out.old.items) out.new.items ≡ out.old.items }
    {
        let high = self.high;
        let cause = find_cause(self.level.memory, high, &self.held, &self.passed, &change);
        self.high = high.max(change.sync());
        match cause {
            None => {
                self.keep_and_settle(alloc, change, out)?;
                Ok(Fate::Kept)
            }
            Some(cause) => {
                let before = self.guarantee();
                self.settle(alloc, before, out)?;
                Ok(Fate::Forgotten(Forgotten {
                    change,
                    cause,
                    high,
                }))
            }
        }
    }

    /// Takes a message. Where memory runs out some of what it passes on may stand there.
    fn take_message(
        &mut self,
        alloc: Global,
        message: Message,
        out: &mut Vec<Message>,
    ) -> Result<Fate, OutOfMemory>
        ensures taken { IfOk result (λ fate. (ms : List Message) → Aligns self.old ms → MayCome ms message → IsTaken self.old self.new ms message out.old.items out.new.items fate) }
        ensures level { self.new.level ≡ self.old.level }
        ensures kept { take (length out.old.items) out.new.items ≡ out.old.items }
    {
        match message {
            Message::Change(change) => self.take_change(alloc, change, out),
            Message::Mark(t) => {
                let before = self.guarantee();
                self.mark = t;
                self.high = self.high.max(t);
                self.settle(alloc, before, out)?;
                Ok(Fate::Kept)
            }
            Message::End => {
                let before = self.guarantee();
                self.ended = true;
                self.settle(alloc, before, out)?;
                out.push(Message::End)?;
                Ok(Fate::Kept)
            }
            Message::Broken => {
                out.push(Message::Broken)?;
                Ok(Fate::Kept)
            }
        }
    }

    /// Takes a message that may come after those before it, and appends what it passes on: a retraction of a row
    /// that passed, the rows that needn't wait any longer in canonical order, the front where it rose, and the end. A
    /// break passes on itself alone. Where memory runs out nothing is appended, and the aligner is only to be dropped.
    /// O(log n) in the rows that wait and those that are remembered, for the message and for each row that passes or is
    /// forgotten. A row that passes is moved, and copied only where it must be remembered.
    pub fn take(
        &mut self,
        alloc: Global,
        message: Message,
        out: &mut Vec<Message>,
    ) -> Result<Fate, OutOfMemory>
        ensures taken { IfOk result (λ fate. (ms : List Message) → Aligns self.old ms → MayCome ms message → IsTaken self.old self.new ms message out.old.items out.new.items fate) }
        ensures held { IfOk result (λ fate. (ms : List Message) → Aligns self.old ms → MayCome ms message → OnlyKeeps self.new (ms ++ message ∷ [])) }
        ensures level { self.new.level ≡ self.old.level }
        ensures err { OnErr result (out.new.items ≡ out.old.items) }
    {
        let before = out.len();
        let result = self.take_message(alloc, message, out);
        if result.is_err() {
            out.truncate(before);
        }
        result
    }
}
