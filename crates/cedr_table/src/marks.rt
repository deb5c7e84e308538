ghost use Rattle.std.specs.Prelude.{◌≡◌, IfOk, replicate};
ghost use Rattle.cedr_table.specs.Operators.{least_of};

use cedr_base::{FOREVER, OutOfMemory, Time};
use std::alloc::Global;

/// The least mark, and `FOREVER` of none: the bound of an operator whose rows may come of any of its ports.
pub fn least_mark(marks: &[Time]) -> Time
    ensures { result ≡ least_of marks.now }
{
    let mut least = FOREVER;
    for mark in marks {
        least = least.min(*mark);
    }
    least
}

/// A mark of 0 for each port.
pub fn no_marks(alloc: Global, ports: usize) -> Result<Vec<Time>, OutOfMemory>
    ensures { IfOk result (λ marks. marks.items ≡ replicate ports 0) }
{
    let mut marks = Vec::new(alloc);
    for _ in 0..ports {
        marks.push(0)?;
    }
    Ok(marks)
}
