//! Plans: JSON documents that say how sources become an answer, and what is wrong with those that don't.
//!
//! `read_plan` accepts the plan that the bytes describe, or refuses them with the first of fourteen faults, both
//! exactly as `plan_of` in `specs/Plans.antt` says. The plan language is there in parts: what the members and
//! the ports of each operator are (`Operators`), each fault of a node and the types of its result (`Nodes`,
//! `NodeFaults`), and the document (`Plans`). An accepted plan keeps the rules of `IsPlan` (`Rules`), which
//! whatever takes a plan asks for. A copy of a node equals its source.
//! `plan_limit`, `operator_words` and `sound_plans` are laws of the language, and `plan_places` is one of where the
//! sources and the output of a plan stand (`Places`).
#![tactic(auto)]

mod check;
mod document;
mod early;
mod fault;
mod form;
mod inputs;
mod json;
mod kind;
mod law;
mod level;
mod lists;
mod node;
mod operator;
mod places;
mod plan;
mod reader;
mod result;
mod test;
mod whole;

pub use check::write_check;
pub use fault::{PlanFault, PlanKind};
pub use law::{operator_words, plan_limit, plan_places, sound_plans};
pub use places::{count_sources, find_output, is_output, is_source};
pub use plan::{NodeKind, Plan, PlanNode};
pub use reader::{PLAN_LIMIT, read_plan};
