ghost use Rattle.std.specs.Prelude.{◌≡◌, IfOk};

use crate::operator::Operator;
use cedr_base::{Change, OutOfMemory, Time};
use std::alloc::Global;
use std::marker::Model;

/// An operator on the heap, to which each call goes: it moves as a pointer does, whatever it keeps. Contracts see the
/// operator.
pub struct Boxed<O> {
    op: Box<O>,
}

impl<O> Model for Boxed<O> {
    ghost Value = { O };

    ghost view = { λ b. b.op.value };
}

impl<O: Drop> Drop for Boxed<O> {
    fn drop(self) {
        let Boxed { op: _ } = self;
    }
}

impl<O: Drop> Boxed<O> {
    pub fn new(alloc: Global, op: O) -> Result<Boxed<O>, OutOfMemory>
        ensures { IfOk result (λ b. b ≡ op) }
    {
        let op = Box::new(alloc, op)?;
        Ok(Boxed { op })
    }
}

impl<O: Operator> Operator for Boxed<O> {
    ghost meaning = { O.meaning };

    ghost stands = { O.stands };

    ghost held = { O.held };

    fn ports(&self) -> usize {
        self.op.ports()
    }

    fn apply(
        &mut self,
        alloc: Global,
        port: usize,
        change: Change,
        out: &mut Vec<Change>,
    ) -> Result<(), OutOfMemory> {
        self.op.apply(alloc, port, change, out)
    }

    fn bound(&self, marks: &[Time]) -> Time {
        self.op.bound(marks)
    }

    fn trim(&mut self, marks: &[Time]) {
        self.op.trim(marks)
    }

    ghost lawful = { O.lawful };
}
