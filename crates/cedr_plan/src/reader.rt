ghost use Rattle.std.specs.Prelude.{◌≡◌, IfOk, IfErr, Ok, Some, option_map};
ghost use Rattle.serde_json.specs.View.{view};
ghost use Rattle.cedr_plan.specs.Drawn.{drawn};
ghost use Rattle.cedr_plan.specs.Plans.{json_of, plan_of, stated_version, IsFaultOf};
ghost use Rattle.cedr_plan.specs.Rules.{IsPlan, HasPlainGroups};

use crate::document::plan_of_value;
use crate::fault::{PlanFault, PlanKind};
use crate::plan::Plan;
use cedr_base::OutOfMemory;
use serde_json::Value;
use std::alloc::Global;
use std::str;

/// The most bytes that a plan may have.
pub const PLAN_LIMIT: usize = 1_048_576;

/// The plan that the bytes describe, or their first fault. A fault of a node has its number, from 1, and a
/// fault of the document the number 0. A group of a version 1 plan asks for no least and no greatest fields,
/// whatever members it has.
pub fn read_plan(alloc: Global, bytes: &[u8]) -> Result<Plan, PlanFault>
    ensures plan { IfOk result (λ plan. plan_of bytes.now ≡ Ok (drawn plan)) }
    ensures sound { IfOk result IsPlan }
    ensures plain { IfOk result (λ plan. stated_version bytes.now ≡ Some 1 → HasPlainGroups (drawn plan)) }
    ensures fault { IfErr result (IsFaultOf bytes.now) }
{
    plan_of(alloc, bytes)
}

#[tactic(auto, unfolding(crate::specs::Plans::plan_of))]
fn plan_of(alloc: Global, bytes: &[u8]) -> Result<Plan, PlanFault>
    ensures plan { IfOk result (λ plan. plan_of bytes.now ≡ Ok (drawn plan)) }
    ensures fault { IfErr result (IsFaultOf bytes.now) }
{
    if bytes.len() > PLAN_LIMIT {
        return Err(PlanFault::Refused {
            kind: PlanKind::TooLong,
            node: 0,
        });
    }
    let Some(document) = read_json(alloc, bytes)? else {
        return Err(PlanFault::Refused {
            kind: PlanKind::BadJson,
            node: 0,
        });
    };
    plan_of_value(alloc, &document)
}

/// The JSON value that the bytes are.
fn read_json(alloc: Global, bytes: &[u8]) -> Result<Option<Value>, OutOfMemory>
    ensures { IfOk result (λ found. option_map view found ≡ json_of bytes.now) }
{
    let Ok(text) = str::from_utf8(bytes) else {
        return Ok(None);
    };
    match Value::from_str(alloc, text) {
        Ok(value) => Ok(Some(value)),
        Err(error) => if error.is_memory() {
            Err(OutOfMemory)
        } else {
            Ok(None)
        },
    }
}
