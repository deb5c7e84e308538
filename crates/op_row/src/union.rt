ghost use Rattle.std.specs.Prelude.{◌≡◌, ◌≤◌, ◌++◌, ◌∷◌, [], replicate, OnOk, OnErr};
ghost use Rattle.op_row.specs.Unions.{union_of};

use cedr_base::{Change, OutOfMemory, Time};
use cedr_table::{Operator, least_mark};
use std::alloc::Global;

/// All rows of all ports. The bound is the least mark.
#[derive(Drop)]
pub struct Union {
    ports: usize,
}

impl Union {
    /// A union has 2 to 4 ports. It takes no memory.
    pub fn new(ports: usize) -> Union
        requires { (2 ≤ ports) × (ports ≤ 4) }
        ensures meaning { ⟦<Union as Operator>⟧.meaning result ≡ union_of ports }
        ensures stands { ⟦<Union as Operator>⟧.stands result (replicate ports []) (replicate ports 0) }
    {
        Union { ports }
    }
}

/// Hands a change on, as an operator does that takes every row as it is. An error leaves `out` as it was.
pub fn hand_on(change: Change, out: &mut Vec<Change>) -> Result<(), OutOfMemory>
    ensures ok { OnOk result (out.new.items ≡ out.old.items ++ change ∷ []) }
    ensures err { OnErr result (out.new.items ≡ out.old.items) }
{
    out.push(change)?;
    Ok(())
}

impl Operator for Union {
    ghost use Rattle.op_row.specs.Readings.{union_reading};
    ghost use Rattle.op_row.specs.UnionLaws.{union_laws};

    ghost meaning = { union_reading.meaning };

    ghost stands = { union_reading.stands };

    ghost held = { union_reading.held };

    fn ports(&self) -> usize {
        self.ports
    }

    fn apply(
        &mut self,
        _alloc: Global,
        _port: usize,
        change: Change,
        out: &mut Vec<Change>,
    ) -> Result<(), OutOfMemory> {
        hand_on(change, out)
    }

    fn bound(&self, marks: &[Time]) -> Time {
        least_mark(marks)
    }

    fn trim(&mut self, _marks: &[Time]) {}

    ghost lawful = { λ s. union_laws s.ports };
}
