ghost use Rattle.std.specs.Prelude.{◌≡◌, ◌∷◌, []};
ghost use Rattle.op_node.specs.Outputs.{handed_on};

use cedr_base::{Change, OutOfMemory, Time};
use cedr_table::Operator;
use op_row::hand_on;
use std::alloc::Global;

/// All rows, as they are. It answers each change by that change alone, whatever came before, and the bound is the mark.
#[derive(Drop)]
pub struct Output;

impl Output {
    /// It takes no memory.
    pub fn new() -> Output
        ensures meaning { ⟦<Output as Operator>⟧.meaning result ≡ handed_on }
        ensures stands { ⟦<Output as Operator>⟧.stands result ([] ∷ []) (0 ∷ []) }
    {
        Output
    }
}

impl Operator for Output {
    ghost use Rattle.op_node.specs.Readings.{output_reading};
    ghost use Rattle.op_node.specs.OutputLaws.{output_laws};

    ghost meaning = { output_reading.meaning };

    ghost stands = { output_reading.stands };

    ghost held = { output_reading.held };

    fn ports(&self) -> usize {
        1
    }

    fn apply(
        &mut self,
        _alloc: Global,
        _port: usize,
        change: Change,
        out: &mut Vec<Change>,
    ) -> Result<(), OutOfMemory> {
        hand_on(change, out)
    }

    fn bound(&self, marks: &[Time]) -> Time {
        marks[0]
    }

    fn trim(&mut self, _marks: &[Time]) {}

    ghost lawful = { λ _. output_laws };
}
