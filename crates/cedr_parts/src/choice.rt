ghost use Rattle.std.specs.Prelude.{IfOk, IfSome};
ghost use Rattle.cedr_plan.specs.Rules.{IsPlan};
ghost use Rattle.cedr_parts.specs.Divided.{CanBeDivided};

use cedr_base::OutOfMemory;
use cedr_plan::Plan;
use plan_answer::has_memory;
use plan_key_choice::{KeyFault, key_columns};
use std::alloc::Global;

/// The key columns by which a plan is divided into so many parts, or that it is answered as a whole: into one part, where some
/// port has a finite memory, and where no columns were found that all nodes keep. It costs what `key_columns` costs.
pub(crate) fn dividing_columns(
    alloc: Global,
    plan: &Plan,
    count: usize,
) -> Result<Option<Vec<usize>>, OutOfMemory>
    requires { IsPlan plan.now }
    ensures { IfOk result (λ chosen. IfSome chosen (λ columns. CanBeDivided columns.items plan.now.nodes.items)) }
{
    if count == 1 || has_memory(plan.nodes.as_slice()) {
        return Ok(None);
    }
    match key_columns(alloc, plan) {
        Ok(columns) => Ok(Some(columns)),
        Err(KeyFault::OutOfMemory) => Err(OutOfMemory),
        Err(KeyFault::Unkeyed { node: _ } | KeyFault::Undecided) => Ok(None),
    }
}
