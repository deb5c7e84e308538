ghost use Rattle.std.specs.Prelude.{◌≡◌};
ghost use Rattle.cedr_plan.specs.Faults.{plan_fault_number, kind_of_types};
ghost use Rattle.cedr_plan.specs.declared.fault.NodeFault.TheVariants as node_fault;
ghost use Rattle.cedr_plan.specs.declared.fault.PlanFault.TheVariants as plan_fault;

use cedr_base::OutOfMemory;
use cedr_expr::TypeFault;
use std::alloc::AllocFailed;
use std::fmt;
use thiserror::Error;

/// What is wrong with a plan. Where several hold of one node, the one with the least number counts.
#[derive(Clone, Copy, Debug, PartialEq, Eq)]
pub enum PlanKind {
    TooLong,
    BadJson,
    MissingPart,
    UnknownOp,
    TooMany,
    BadNumber,
    BadLevel,
    TwiceNamed,
    UnknownNode,
    TooWide,
    BadColumn,
    TypeDiffers,
    NotOneOutput,
    Unused,
}

impl PlanKind {
    /// The fault's number, from 1 to 14, as messages show it.
    pub fn number(&self) -> u8
        ensures { result ≡ plan_fault_number self.now }
    {
        match self {
            PlanKind::TooLong => 1,
            PlanKind::BadJson => 2,
            PlanKind::MissingPart => 3,
            PlanKind::UnknownOp => 4,
            PlanKind::TooMany => 5,
            PlanKind::BadNumber => 6,
            PlanKind::BadLevel => 7,
            PlanKind::TwiceNamed => 8,
            PlanKind::UnknownNode => 9,
            PlanKind::TooWide => 10,
            PlanKind::BadColumn => 11,
            PlanKind::TypeDiffers => 12,
            PlanKind::NotOneOutput => 13,
            PlanKind::Unused => 14,
        }
    }

    /// What is wrong, in words.
    fn text(&self) -> &'static str {
        match self {
            PlanKind::TooLong => "the plan is too long",
            PlanKind::BadJson => "the plan isn't JSON",
            PlanKind::MissingPart => "a required member is missing or isn't in form",
            PlanKind::UnknownOp => "the operator isn't known",
            PlanKind::TooMany => "there are too many nodes, ports, fields or tests",
            PlanKind::BadNumber => "a number isn't whole or isn't in its range",
            PlanKind::BadLevel => "the level isn't known, or its block is over its memory",
            PlanKind::TwiceNamed => "the name is an earlier node's",
            PlanKind::UnknownNode => "an input is no earlier node, or an output",
            PlanKind::TooWide => "the result has too many fields",
            PlanKind::BadColumn => "a column isn't there",
            PlanKind::TypeDiffers => "types differ",
            PlanKind::NotOneOutput => "there isn't exactly one output",
            PlanKind::Unused => "a node is never used",
        }
    }
}

impl fmt::Display for PlanKind {
    fn fmt<W: fmt::Write>(&self, f: &mut fmt::Formatter<W>) -> fmt::Result {
        f.write_str(self.text())
    }
}

/// Why there is no plan. Nodes are numbered from 1, and a fault of the document has the number 0.
#[derive(Clone, Copy, Debug, PartialEq, Eq, Error)]
pub enum PlanFault {
    #[error("{kind} (node {node})")]
    Refused { kind: PlanKind, node: usize },
    #[error("out of memory")]
    OutOfMemory,
}

/// Why a node has no reading.
#[derive(Clone, Copy)]
pub(crate) enum NodeFault {
    Fault(PlanKind),
    OutOfMemory,
}

impl From<OutOfMemory> for NodeFault {
    ghost from_gives = { λ _ fault. fault ≡ node_fault.OutOfMemory };

    fn from(_error: OutOfMemory) -> NodeFault {
        NodeFault::OutOfMemory
    }
}

/// The kind of a fault of types.
pub(crate) fn kind_of_types(fault: TypeFault) -> PlanKind
    ensures { result ≡ kind_of_types fault }
{
    match fault {
        TypeFault::BadColumn { test: _ } => PlanKind::BadColumn,
        TypeFault::TypeDiffers { test: _ } => PlanKind::TypeDiffers,
    }
}

impl<T: Drop> From<AllocFailed<T>> for PlanFault {
    ghost from_gives = { λ _ fault. fault ≡ plan_fault.OutOfMemory };

    fn from(_error: AllocFailed<T>) -> PlanFault {
        PlanFault::OutOfMemory
    }
}

impl From<OutOfMemory> for PlanFault {
    ghost from_gives = { λ _ fault. fault ≡ plan_fault.OutOfMemory };

    fn from(_error: OutOfMemory) -> PlanFault {
        PlanFault::OutOfMemory
    }
}
