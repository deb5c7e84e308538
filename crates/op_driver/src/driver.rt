ghost use Rattle.std.specs.Prelude.{◌≡◌, ◌<◌, ◌++◌, ◌∷◌, [], ℕ, List, OnOk, OnErr, IfOk, max, length, replicate, take};
ghost use Rattle.cedr_base.specs.declared.change.Message.{Message};
ghost use Rattle.cedr_base.specs.Messages.{IsLegalBehind, mark_of};
ghost use Rattle.change_laws.specs.Repairs.{wrapped};
ghost use Rattle.node_laws.specs.Lists.{Lists, list_at, mark_above};
ghost use Rattle.op_driver.specs.Driving.{DriverWorks, Drives, MayTake, IsFed, Answers};

use crate::only::{empty, take_only};
use cedr_base::{Change, Message, OutOfMemory, Time};
use cedr_table::{Operator, no_marks};
use std::alloc::Global;

/// An operator, the last mark of each of its ports, and the last mark that was given.
pub struct Driver<O> {
    op: O,
    marks: Vec<Time>,
    sent: Time,
    /// Room for what answers one change.
    changes: Vec<Change>,
}

impl<O: Drop> Drop for Driver<O> {
    fn drop(self) {
        let Driver {
            op: _,
            marks: _,
            sent: _,
            changes: _,
        } = self;
    }
}

/// Moves changes out, and appends them as messages, whatever their number is.
fn push_all(changes: &mut Vec<Change>, out: &mut Vec<Message>) -> Result<(), OutOfMemory>
    ensures out { OnOk result (out.new.items ≡ out.old.items ++ wrapped changes.old.items) }
    ensures kept { take (length out.old.items) out.new.items ≡ out.old.items }
{
    for change in changes.drain(..) {
        out.push(Message::Change(change))?;
    }
    Ok(())
}

/// Moves changes out, and appends them as messages. Where memory runs out some of them may stand there.
fn push_changes(changes: &mut Vec<Change>, out: &mut Vec<Message>) -> Result<(), OutOfMemory>
    ensures out { OnOk result (out.new.items ≡ out.old.items ++ wrapped changes.old.items) }
    ensures kept { take (length out.old.items) out.new.items ≡ out.old.items }
{
    match take_only(changes) {
        Some(change) => {
            out.push(Message::Change(change))?;
            Ok(())
        }
        None => push_all(changes, out),
    }
}

/// Appends a mark where it is above the last one.
fn push_mark(bound: Time, sent: &mut Time, out: &mut Vec<Message>) -> Result<(), OutOfMemory>
    ensures sent { OnOk result ((out.new.items ≡ out.old.items ++ mark_above sent.old bound) × (sent.new ≡ max sent.old bound)) }
    ensures kept { take (length out.old.items) out.new.items ≡ out.old.items }
{
    if bound > *sent {
        out.push(Message::Mark(bound))?;
        *sent = bound;
    }
    Ok(())
}

/// Hands one message to the operator. Where memory runs out some of what answers it may stand there.
fn feed_one<O: Operator>(
    alloc: Global,
    op: &mut O,
    marks: &mut Vec<Time>,
    changes: &mut Vec<Change>,
    port: usize,
    message: Message,
    out: &mut Vec<Message>,
) -> Result<(), OutOfMemory>
    requires { (lists : Lists) × (given : List Message) × DriverWorks (O.meaning op.old) (O.stands op.old) marks.old.items lists given × MayTake lists port message }
    ensures fed { OnOk result ((lists : Lists) (given : List Message) → DriverWorks (O.meaning op.old) (O.stands op.old) marks.old.items lists given → MayTake lists port message → IsFed (O.meaning op.old) (O.stands op.new) marks.new.items lists port (message ∷ []) given out.old.items out.new.items) }
    ensures meaning { O.meaning op.new ≡ O.meaning op.old }
    ensures kept { take (length out.old.items) out.new.items ≡ out.old.items }
{
    match message {
        Message::Change(change) => {
            empty(changes);
            op.apply(alloc, port, change, changes)?;
            push_changes(changes, out)?;
            Ok(())
        }
        Message::Mark(t) => {
            marks[port] = t;
            Ok(())
        }
        Message::End => Ok(()),
        Message::Broken => Ok(()),
    }
}

/// Moves messages out, and hands them to the operator, one after the other, whatever their number is.
fn feed_all<O: Operator>(
    alloc: Global,
    op: &mut O,
    marks: &mut Vec<Time>,
    changes: &mut Vec<Change>,
    port: usize,
    taken: &mut Vec<Message>,
    out: &mut Vec<Message>,
) -> Result<(), OutOfMemory>
    requires { (lists : Lists) × (given : List Message) × DriverWorks (O.meaning op.old) (O.stands op.old) marks.old.items lists given × (port < length lists) × IsLegalBehind (list_at lists port) taken.old.items }
    ensures fed { OnOk result ((lists : Lists) (given : List Message) → DriverWorks (O.meaning op.old) (O.stands op.old) marks.old.items lists given → port < length lists → IsLegalBehind (list_at lists port) taken.old.items → IsFed (O.meaning op.old) (O.stands op.new) marks.new.items lists port taken.old.items given out.old.items out.new.items) }
    ensures taken { OnOk result (taken.new.items ≡ []) }
    ensures meaning { O.meaning op.new ≡ O.meaning op.old }
    ensures kept { take (length out.old.items) out.new.items ≡ out.old.items }
{
    for message in taken.drain(..) {
        feed_one(alloc, op, marks, changes, port, message, out)?;
    }
    Ok(())
}

/// Moves messages out, and hands them to the operator, one after the other. Where memory runs out some of what answers
/// them may stand there.
fn feed<O: Operator>(
    alloc: Global,
    op: &mut O,
    marks: &mut Vec<Time>,
    changes: &mut Vec<Change>,
    port: usize,
    taken: &mut Vec<Message>,
    out: &mut Vec<Message>,
) -> Result<(), OutOfMemory>
    requires { (lists : Lists) × (given : List Message) × DriverWorks (O.meaning op.old) (O.stands op.old) marks.old.items lists given × (port < length lists) × IsLegalBehind (list_at lists port) taken.old.items }
    ensures fed { OnOk result ((lists : Lists) (given : List Message) → DriverWorks (O.meaning op.old) (O.stands op.old) marks.old.items lists given → port < length lists → IsLegalBehind (list_at lists port) taken.old.items → IsFed (O.meaning op.old) (O.stands op.new) marks.new.items lists port taken.old.items given out.old.items out.new.items) }
    ensures taken { OnOk result (taken.new.items ≡ []) }
    ensures meaning { O.meaning op.new ≡ O.meaning op.old }
    ensures kept { take (length out.old.items) out.new.items ≡ out.old.items }
{
    match take_only(taken) {
        Some(message) => feed_one(alloc, op, marks, changes, port, message, out),
        None => feed_all(alloc, op, marks, changes, port, taken, out),
    }
}

impl<O: Operator> Driver<O> {
    /// An operator that took nothing.
    pub fn new(alloc: Global, op: O) -> Result<Driver<O>, OutOfMemory>
    where
        O: Drop,
        requires stands { O.stands op (replicate (O.meaning op).ports []) (replicate (O.meaning op).ports 0) }
        ensures meaning { IfOk result (λ d. O.meaning d.op ≡ O.meaning op) }
        ensures drives { IfOk result (λ d. Drives (O.meaning d.op) (O.stands d.op) d.marks.items d.sent (replicate (O.meaning op).ports []) []) }
    {
        let marks = no_marks(alloc, op.ports())?;
        Ok(Driver {
            op,
            marks,
            sent: 0,
            changes: Vec::new(alloc),
        })
    }

    /// Appends a mark where the bound rose with what the operator was fed, and lets it forget. Where memory runs out
    /// the mark isn't there.
    fn close(&mut self, out: &mut Vec<Message>) -> Result<(), OutOfMemory>
        requires { (lists : Lists) × (port : ℕ) × (taken : List Message) × (given : List Message) × (before : List Message) × IsFed (O.meaning self.old.op) (O.stands self.old.op) self.old.marks.items lists port taken given before out.old.items }
        ensures answers { OnOk result ((lists : Lists) (port : ℕ) (taken given before : List Message) → IsFed (O.meaning self.old.op) (O.stands self.old.op) self.old.marks.items lists port taken given before out.old.items → self.old.sent ≡ mark_of given → Answers (O.meaning self.old.op) (O.stands self.new.op) (O.held self.new.op) self.new.marks.items self.old.sent self.new.sent lists port taken given before out.new.items) }
        ensures meaning { O.meaning self.new.op ≡ O.meaning self.old.op }
        ensures kept { take (length out.old.items) out.new.items ≡ out.old.items }
    {
        let bound = self.op.bound(self.marks.as_slice());
        push_mark(bound, &mut self.sent, out)?;
        self.op.trim(self.marks.as_slice());
        Ok(())
    }

    /// Takes messages on a port, and leaves their list empty. Where memory runs out some of what answers them may stand
    /// there.
    fn answer(
        &mut self,
        alloc: Global,
        port: usize,
        taken: &mut Vec<Message>,
        out: &mut Vec<Message>,
    ) -> Result<(), OutOfMemory>
        requires { (lists : Lists) × (given : List Message) × Drives (O.meaning self.old.op) (O.stands self.old.op) self.old.marks.items self.old.sent lists given × (port < length lists) × IsLegalBehind (list_at lists port) taken.old.items }
        ensures answers { OnOk result ((lists : Lists) (given : List Message) → Drives (O.meaning self.old.op) (O.stands self.old.op) self.old.marks.items self.old.sent lists given → port < length lists → IsLegalBehind (list_at lists port) taken.old.items → Answers (O.meaning self.old.op) (O.stands self.new.op) (O.held self.new.op) self.new.marks.items self.old.sent self.new.sent lists port taken.old.items given out.old.items out.new.items) }
        ensures taken { OnOk result (taken.new.items ≡ []) }
        ensures meaning { O.meaning self.new.op ≡ O.meaning self.old.op }
        ensures kept { take (length out.old.items) out.new.items ≡ out.old.items }
    {
        feed(
            alloc,
            &mut self.op,
            &mut self.marks,
            &mut self.changes,
            port,
            taken,
            out,
        )?;
        self.close(out)
    }

    /// Takes one message on a port. Where memory runs out some of what answers it may stand there.
    fn answer_one(
        &mut self,
        alloc: Global,
        port: usize,
        message: Message,
        out: &mut Vec<Message>,
    ) -> Result<(), OutOfMemory>
        requires { (lists : Lists) × (given : List Message) × Drives (O.meaning self.old.op) (O.stands self.old.op) self.old.marks.items self.old.sent lists given × MayTake lists port message }
        ensures answers { OnOk result ((lists : Lists) (given : List Message) → Drives (O.meaning self.old.op) (O.stands self.old.op) self.old.marks.items self.old.sent lists given → MayTake lists port message → Answers (O.meaning self.old.op) (O.stands self.new.op) (O.held self.new.op) self.new.marks.items self.old.sent self.new.sent lists port (message ∷ []) given out.old.items out.new.items) }
        ensures meaning { O.meaning self.new.op ≡ O.meaning self.old.op }
        ensures kept { take (length out.old.items) out.new.items ≡ out.old.items }
    {
        feed_one(
            alloc,
            &mut self.op,
            &mut self.marks,
            &mut self.changes,
            port,
            message,
            out,
        )?;
        self.close(out)
    }

    /// Takes messages on a port, and appends the repairs that they call for, and then a mark where the bound rose. The
    /// list of the messages is left empty with its room. Where memory runs out nothing is appended, and the driver is
    /// only to be dropped.
    pub fn take(
        &mut self,
        alloc: Global,
        port: usize,
        taken: &mut Vec<Message>,
        out: &mut Vec<Message>,
    ) -> Result<(), OutOfMemory>
        requires { (lists : Lists) × (given : List Message) × Drives (O.meaning self.old.op) (O.stands self.old.op) self.old.marks.items self.old.sent lists given × (port < length lists) × IsLegalBehind (list_at lists port) taken.old.items }
        ensures answers { OnOk result ((lists : Lists) (given : List Message) → Drives (O.meaning self.old.op) (O.stands self.old.op) self.old.marks.items self.old.sent lists given → port < length lists → IsLegalBehind (list_at lists port) taken.old.items → Answers (O.meaning self.old.op) (O.stands self.new.op) (O.held self.new.op) self.new.marks.items self.old.sent self.new.sent lists port taken.old.items given out.old.items out.new.items) }
        ensures taken { OnOk result (taken.new.items ≡ []) }
        ensures meaning { O.meaning self.new.op ≡ O.meaning self.old.op }
        ensures kept { take (length out.old.items) out.new.items ≡ out.old.items }
        ensures err { OnErr result (out.new.items ≡ out.old.items) }
    {
        let before = out.len();
        let result = self.answer(alloc, port, taken, out);
        if result.is_err() {
            out.truncate(before);
        }
        result
    }

    /// Takes one message on a port, and appends the repairs that it calls for, and then a mark where the bound rose.
    /// Where memory runs out nothing is appended, and the driver is only to be dropped.
    pub fn take_one(
        &mut self,
        alloc: Global,
        port: usize,
        message: Message,
        out: &mut Vec<Message>,
    ) -> Result<(), OutOfMemory>
        requires { (lists : Lists) × (given : List Message) × Drives (O.meaning self.old.op) (O.stands self.old.op) self.old.marks.items self.old.sent lists given × MayTake lists port message }
        ensures answers { OnOk result ((lists : Lists) (given : List Message) → Drives (O.meaning self.old.op) (O.stands self.old.op) self.old.marks.items self.old.sent lists given → MayTake lists port message → Answers (O.meaning self.old.op) (O.stands self.new.op) (O.held self.new.op) self.new.marks.items self.old.sent self.new.sent lists port (message ∷ []) given out.old.items out.new.items) }
        ensures meaning { O.meaning self.new.op ≡ O.meaning self.old.op }
        ensures kept { take (length out.old.items) out.new.items ≡ out.old.items }
        ensures err { OnErr result (out.new.items ≡ out.old.items) }
    {
        let before = out.len();
        let result = self.answer_one(alloc, port, message, out);
        if result.is_err() {
            out.truncate(before);
        }
        result
    }
}
