use crate::operator::Operator;
use cedr_base::{Change, OutOfMemory, Time};
use std::alloc::Global;

/// One of two operators, to which each call goes. An operator of several kinds is one of these of these.
pub enum Either<A, B> {
    First(A),
    Second(B),
}

impl<A: Drop, B: Drop> Drop for Either<A, B> {
    fn drop(self) {
        match self {
            Either::First(_) | Either::Second(_) => {}
        }
    }
}

impl<A: Operator, B: Operator> Operator for Either<A, B> {
    ghost use Rattle.cedr_table.specs.Eithers.{either_meaning, EitherStands, either_held};
    ghost use Rattle.cedr_table.specs.EitherLaws.{either_laws};

    ghost meaning = { either_meaning A.meaning B.meaning };

    ghost stands = { EitherStands A.stands B.stands };

    ghost held = { either_held A.held B.held };

    fn ports(&self) -> usize {
        match self {
            Either::First(op) => op.ports(),
            Either::Second(op) => op.ports(),
        }
    }

    fn apply(
        &mut self,
        alloc: Global,
        port: usize,
        change: Change,
        out: &mut Vec<Change>,
    ) -> Result<(), OutOfMemory> {
        match self {
            Either::First(op) => op.apply(alloc, port, change, out),
            Either::Second(op) => op.apply(alloc, port, change, out),
        }
    }

    fn bound(&self, marks: &[Time]) -> Time {
        match self {
            Either::First(op) => op.bound(marks),
            Either::Second(op) => op.bound(marks),
        }
    }

    fn trim(&mut self, marks: &[Time]) {
        match self {
            Either::First(op) => op.trim(marks),
            Either::Second(op) => op.trim(marks),
        }
    }

    ghost lawful = { either_laws A.meaning A.stands A.lawful B.meaning B.stands B.lawful };
}
