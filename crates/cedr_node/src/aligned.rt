ghost use Rattle.std.specs.Prelude.{◌≡◌, ◌<◌, ◌+◌, ◌-◌, ◌++◌, ◌∷◌, [], List, OnOk, OnErr, IfOk, cond, true, false, length, replicate, take};
ghost use Rattle.std.specs.List.{All};
ghost use Rattle.cedr_base.specs.declared.change.Message.{Message};
ghost use Rattle.node_laws.specs.Pass.{HasBlockWithin};
ghost use Rattle.node_laws.specs.Lists.{Lists, list_at, with_more};
ghost use Rattle.node_laws.specs.Lawful.{any_broken, all_over};
ghost use Rattle.op_driver.specs.Driving.{MayTake};
ghost use Rattle.cedr_node.specs.Standing.{AllStand, StandsBetween, IsTakenOn, IsForgottenAt, levels_of, waiting_of, is_broken, is_closing, end_of_ports, breaking, HoldsAtFronts};

use crate::port::Port;
use cedr_base::{Level, Message, OutOfMemory};
use cedr_table::Operator;
use node_laws::Forgotten;
use op_driver::Driver;
use std::alloc::Global;

/// An operator with an aligner on each port.
#[derive(Drop)]
pub(crate) struct Aligned<O> {
    driver: Driver<O>,
    ports: Vec<Port>,
    /// How many ports have neither ended nor broken.
    waiting: usize,
    /// Whether a port broke.
    broken: bool,
    /// Room for what a port passes on.
    passed: Vec<Message>,
}

fn closes(message: &Message) -> bool
    ensures { result ≡ is_closing message.now }
{
    match message {
        Message::Change(_) => false,
        Message::Mark(_) => false,
        Message::End => true,
        Message::Broken => true,
    }
}

fn breaks(message: &Message) -> bool
    ensures { result ≡ is_broken message.now }
{
    match message {
        Message::Change(_) => false,
        Message::Mark(_) => false,
        Message::End => false,
        Message::Broken => true,
    }
}

/// One port fewer waits where it closed.
fn count_down(waiting: usize, closed: bool) -> usize
    requires { cond closed 1 0 < waiting + 1 }
    ensures { result ≡ waiting - cond closed 1 0 }
{
    if closed { waiting - 1 } else { waiting }
}

/// Appends the end where no port waits.
fn push_end(waiting: usize, out: &mut Vec<Message>) -> Result<(), OutOfMemory>
    ensures ok { OnOk result (out.new.items ≡ out.old.items ++ end_of_ports waiting) }
    ensures kept { take (length out.old.items) out.new.items ≡ out.old.items }
{
    if waiting == 0 {
        out.push(Message::End)?;
    }
    Ok(())
}

/// Appends a break where no port waits.
fn push_broken(waiting: usize, out: &mut Vec<Message>) -> Result<(), OutOfMemory>
    ensures ok { OnOk result (out.new.items ≡ out.old.items ++ breaking waiting) }
    ensures kept { take (length out.old.items) out.new.items ≡ out.old.items }
{
    if waiting == 0 {
        out.push(Message::Broken)?;
    }
    Ok(())
}

/// Hands a message to a port where it closes nothing and goes through. Whether it did. Where it didn't the ports stay as
/// they are.
fn go_through(
    alloc: Global,
    ports: &mut Vec<Port>,
    port: usize,
    message: &Message,
) -> Result<bool, OutOfMemory>
    requires { port < length ports.old.items }
    ensures goes_on { IfOk result (λ went. went ≡ true → is_closing message.now ≡ false) }
    ensures through { IfOk result (λ went. went ≡ true → (lists : Lists) → AllStand ports.old.items lists → MayTake lists port message.now → IsTakenOn ports.old.items ports.new.items port (list_at lists port) message.now (message.now ∷ [])) }
    ensures stays { IfOk result (λ went. went ≡ false → ports.new.items ≡ ports.old.items) }
    ensures levels { levels_of ports.new.items ≡ levels_of ports.old.items }
{
    if closes(message) {
        return Ok(false);
    }
    ports[port].go_through(alloc, message)
}

/// Hands a message to a port. What that passes on stands in the list, in place of what stood there.
fn take_on(
    alloc: Global,
    ports: &mut Vec<Port>,
    port: usize,
    message: Message,
    passed: &mut Vec<Message>,
) -> Result<(), OutOfMemory>
    requires { port < length ports.old.items }
    ensures taken { OnOk result ((lists : Lists) → AllStand ports.old.items lists → MayTake lists port message → IsTakenOn ports.old.items ports.new.items port (list_at lists port) message passed.new.items) }
    ensures levels { levels_of ports.new.items ≡ levels_of ports.old.items }
{
    ports[port].take(alloc, message, passed)
}

fn make_ports(alloc: Global, levels: &[Level]) -> Result<Vec<Port>, OutOfMemory>
    requires { All HasBlockWithin levels.now }
    ensures stand { IfOk result (λ ports. AllStand ports.items (replicate (length levels.now) [])) }
    ensures levels { IfOk result (λ ports. levels_of ports.items ≡ levels.now) }
{
    let mut ports = Vec::new(alloc);
    for level in levels {
        ports.push(Port::new(alloc, *level))?;
    }
    Ok(ports)
}

impl<O: Operator> Aligned<O> {
    /// An operator that took nothing, with a level for each port.
    pub(crate) fn new(alloc: Global, op: O, levels: &[Level]) -> Result<Aligned<O>, OutOfMemory>
    where
        O: Drop,
        requires count { length levels.now ≡ (O.meaning op).ports }
        requires stands { O.stands op (replicate (O.meaning op).ports []) (replicate (O.meaning op).ports 0) }
        requires levels { All HasBlockWithin levels.now }
        ensures meaning { IfOk result (λ a. O.meaning a.driver.op ≡ O.meaning op) }
        ensures levels { IfOk result (λ a. levels_of a.ports.items ≡ levels.now) }
        ensures stands { IfOk result (λ a. StandsBetween (O.meaning a.driver.op) (O.stands a.driver.op) a.ports.items a.driver.marks.items a.driver.sent a.waiting a.broken (replicate (length levels.now) []) []) }
    {
        let ports = make_ports(alloc, levels)?;
        let driver = Driver::new(alloc, op)?;
        Ok(Aligned {
            driver,
            ports,
            waiting: levels.len(),
            broken: false,
            passed: Vec::new(alloc),
        })
    }

    /// Takes a message, whatever its port passes on. Where memory runs out some of what is given for it may stand there.
    fn answer_whole(
        &mut self,
        alloc: Global,
        port: usize,
        message: Message,
        out: &mut Vec<Message>,
    ) -> Result<(), OutOfMemory>
        requires { (lists : Lists) × (given : List Message) × StandsBetween (O.meaning self.old.driver.op) (O.stands self.old.driver.op) self.old.ports.items self.old.driver.marks.items self.old.driver.sent self.old.waiting self.old.broken lists given × MayTake lists port message }
        ensures taken { OnOk result ((lists : Lists) (given : List Message) → StandsBetween (O.meaning self.old.driver.op) (O.stands self.old.driver.op) self.old.ports.items self.old.driver.marks.items self.old.driver.sent self.old.waiting self.old.broken lists given → MayTake lists port message → (piece : List Message) × (out.new.items ≡ out.old.items ++ piece) × StandsBetween (O.meaning self.new.driver.op) (O.stands self.new.driver.op) self.new.ports.items self.new.driver.marks.items self.new.driver.sent self.new.waiting self.new.broken (with_more lists port (message ∷ [])) (given ++ piece)) }
        ensures holds { OnOk result ((lists : Lists) (given : List Message) → StandsBetween (O.meaning self.old.driver.op) (O.stands self.old.driver.op) self.old.ports.items self.old.driver.marks.items self.old.driver.sent self.old.waiting self.old.broken lists given → MayTake lists port message → any_broken (with_more lists port (message ∷ [])) ≡ false → HoldsAtFronts (O.meaning self.new.driver.op) (levels_of self.new.ports.items) (with_more lists port (message ∷ [])) (O.held self.new.driver.op)) }
        ensures levels { levels_of self.new.ports.items ≡ levels_of self.old.ports.items }
        ensures meaning { O.meaning self.new.driver.op ≡ O.meaning self.old.driver.op }
        ensures kept { take (length out.old.items) out.new.items ≡ out.old.items }
    {
        let closed = closes(&message);
        let broke = breaks(&message);
        take_on(alloc, &mut self.ports, port, message, &mut self.passed)?;
        self.waiting = count_down(self.waiting, closed);
        self.broken = self.broken | broke;
        if self.broken {
            return push_broken(self.waiting, out);
        }
        self.driver.take(alloc, port, &mut self.passed, out)?;
        push_end(self.waiting, out)
    }

    /// Takes a message, and hands it on by itself where it goes through its port. Where memory runs out some of what is
    /// given for it may stand there.
    fn answer(
        &mut self,
        alloc: Global,
        port: usize,
        message: Message,
        out: &mut Vec<Message>,
    ) -> Result<(), OutOfMemory>
        requires { (lists : Lists) × (given : List Message) × StandsBetween (O.meaning self.old.driver.op) (O.stands self.old.driver.op) self.old.ports.items self.old.driver.marks.items self.old.driver.sent self.old.waiting self.old.broken lists given × MayTake lists port message }
        ensures taken { OnOk result ((lists : Lists) (given : List Message) → StandsBetween (O.meaning self.old.driver.op) (O.stands self.old.driver.op) self.old.ports.items self.old.driver.marks.items self.old.driver.sent self.old.waiting self.old.broken lists given → MayTake lists port message → (piece : List Message) × (out.new.items ≡ out.old.items ++ piece) × StandsBetween (O.meaning self.new.driver.op) (O.stands self.new.driver.op) self.new.ports.items self.new.driver.marks.items self.new.driver.sent self.new.waiting self.new.broken (with_more lists port (message ∷ [])) (given ++ piece)) }
        ensures holds { OnOk result ((lists : Lists) (given : List Message) → StandsBetween (O.meaning self.old.driver.op) (O.stands self.old.driver.op) self.old.ports.items self.old.driver.marks.items self.old.driver.sent self.old.waiting self.old.broken lists given → MayTake lists port message → any_broken (with_more lists port (message ∷ [])) ≡ false → HoldsAtFronts (O.meaning self.new.driver.op) (levels_of self.new.ports.items) (with_more lists port (message ∷ [])) (O.held self.new.driver.op)) }
        ensures levels { levels_of self.new.ports.items ≡ levels_of self.old.ports.items }
        ensures meaning { O.meaning self.new.driver.op ≡ O.meaning self.old.driver.op }
        ensures kept { take (length out.old.items) out.new.items ≡ out.old.items }
    {
        if self.broken {
            return self.answer_whole(alloc, port, message, out);
        }
        if go_through(alloc, &mut self.ports, port, &message)? {
            return self.driver.take_one(alloc, port, message, out);
        }
        self.answer_whole(alloc, port, message, out)
    }

    /// Takes a message on a port that may come after those before it there, and appends what is given for it: the
    /// repairs of the result, a mark where the bound rose, and `End` with the last of the ports. Once a port broke one
    /// `Broken` is given, with the last of the ports, and nothing else. Afterwards the operator holds only rows that it
    /// may hold at its ports' fronts, unless a port broke. Where memory runs out nothing is appended, and what it
    /// stands for isn't known any more.
    pub(crate) fn take(
        &mut self,
        alloc: Global,
        port: usize,
        message: Message,
        out: &mut Vec<Message>,
    ) -> Result<(), OutOfMemory>
        requires { (lists : Lists) × (given : List Message) × StandsBetween (O.meaning self.old.driver.op) (O.stands self.old.driver.op) self.old.ports.items self.old.driver.marks.items self.old.driver.sent self.old.waiting self.old.broken lists given × MayTake lists port message }
        ensures taken { OnOk result ((lists : Lists) (given : List Message) → StandsBetween (O.meaning self.old.driver.op) (O.stands self.old.driver.op) self.old.ports.items self.old.driver.marks.items self.old.driver.sent self.old.waiting self.old.broken lists given → MayTake lists port message → (piece : List Message) × (out.new.items ≡ out.old.items ++ piece) × StandsBetween (O.meaning self.new.driver.op) (O.stands self.new.driver.op) self.new.ports.items self.new.driver.marks.items self.new.driver.sent self.new.waiting self.new.broken (with_more lists port (message ∷ [])) (given ++ piece)) }
        ensures holds { OnOk result ((lists : Lists) (given : List Message) → StandsBetween (O.meaning self.old.driver.op) (O.stands self.old.driver.op) self.old.ports.items self.old.driver.marks.items self.old.driver.sent self.old.waiting self.old.broken lists given → MayTake lists port message → any_broken (with_more lists port (message ∷ [])) ≡ false → HoldsAtFronts (O.meaning self.new.driver.op) (levels_of self.new.ports.items) (with_more lists port (message ∷ [])) (O.held self.new.driver.op)) }
        ensures levels { levels_of self.new.ports.items ≡ levels_of self.old.ports.items }
        ensures meaning { O.meaning self.new.driver.op ≡ O.meaning self.old.driver.op }
        ensures err { OnErr result (out.new.items ≡ out.old.items) }
    {
        let before = out.len();
        let result = self.answer(alloc, port, message, out);
        if result.is_err() {
            out.truncate(before);
        }
        result
    }

    /// What was forgotten on a port, in the order in which it came. It takes no memory.
    pub(crate) fn forgotten(&self, port: usize) -> &[Forgotten]
        requires { port < length self.now.ports.items }
        ensures { (lists : Lists) → AllStand self.now.ports.items lists → IsForgottenAt self.now.ports.items port (list_at lists port) result.now }
    {
        self.ports[port].forgotten()
    }

    /// Whether each port has ended or broken. It takes no memory.
    pub(crate) fn ended(&self) -> bool
        ensures { (lists : Lists) → self.now.waiting ≡ waiting_of lists → result ≡ all_over lists }
    {
        self.waiting == 0
    }
}
