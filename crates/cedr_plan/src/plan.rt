ghost use Rattle.std.specs.Prelude.{◌≡◌, IfOk};
ghost use Rattle.cedr_plan.specs.declared.plan.NodeKind.TheVariants as kind;
ghost use Rattle.cedr_plan.specs.Drawn.{node_of};

use cedr_base::{FieldType, Level, OutOfMemory, Text};
use cedr_expr::{Keep, Tests};
use std::alloc::Global;

/// What a node does, with its numbers in application time.
#[derive(Drop)]
pub enum NodeKind {
    /// Rows that come from outside, from the file of this name.
    Source {
        file: Text,
    },
    Select(Tests),
    Project(Keep),
    Union,
    Join(Tests),
    Window {
        width: u64,
    },
    Shift {
        by: u64,
    },
    Hop {
        every: u64,
        width: u64,
    },
    Starts,
    Ends,
    /// For each key the number of its rows, the sums of columns of numbers, and the least and the greatest fields of columns
    /// of either type, each where it is asked for.
    Group {
        keys: Keep,
        count: bool,
        sums: Keep,
        least: Keep,
        greatest: Keep,
    },
    Sequence {
        scope: u64,
        tests: Tests,
    },
    Unless {
        scope: u64,
        hold: u64,
        tests: Tests,
    },
    /// Rows of `number` different inputs, which all have the same types. The tests' columns count through so many payloads of
    /// these types.
    AtLeast {
        number: usize,
        scope: u64,
        tests: Tests,
    },
    Except(Tests),
    Output,
}

/// A node of a plan. Columns count from 0, in tests through the fields of all inputs in their order but where a kind says
/// otherwise.
pub struct PlanNode {
    pub name: Text,
    pub kind: NodeKind,
    /// The places of earlier nodes in the plan, one per port. A source has none.
    pub inputs: Vec<usize>,
    /// The level of each port. A source has the middle one.
    pub level: Level,
    /// The types of the result's fields.
    pub types: Vec<FieldType>,
}

impl Drop for PlanNode {
    fn drop(self) {
        let PlanNode {
            name: _,
            kind: _,
            inputs: _,
            level: _,
            types: _,
        } = self;
    }
}

/// The nodes of a query, each after those that it reads, and how many messages an edge between two of them
/// holds.
pub struct Plan {
    pub nodes: Vec<PlanNode>,
    pub edge: usize,
}

impl Drop for Plan {
    fn drop(self) {
        let Plan { nodes: _, edge: _ } = self;
    }
}

impl NodeKind {
    /// O(n) in the tests, the columns and the file's name.
    pub fn copy(&self, alloc: Global) -> Result<NodeKind, OutOfMemory>
        ensures { IfOk result (λ kind. kind ≡ self.now) }
    {
        match self {
            NodeKind::Source { file } => Ok(NodeKind::Source {
                file: file.copy(alloc)?,
            }),
            NodeKind::Select(tests) => Ok(NodeKind::Select(tests.copy(alloc)?)),
            NodeKind::Project(keep) => Ok(NodeKind::Project(keep.copy(alloc)?)),
            NodeKind::Union => Ok(NodeKind::Union),
            NodeKind::Join(tests) => Ok(NodeKind::Join(tests.copy(alloc)?)),
            NodeKind::Window { width } => Ok(NodeKind::Window { width: *width }),
            NodeKind::Shift { by } => Ok(NodeKind::Shift { by: *by }),
            NodeKind::Hop { every, width } => Ok(NodeKind::Hop {
                every: *every,
                width: *width,
            }),
            NodeKind::Starts => Ok(NodeKind::Starts),
            NodeKind::Ends => Ok(NodeKind::Ends),
            NodeKind::Group {
                keys,
                count,
                sums,
                least,
                greatest,
            } => Ok(NodeKind::Group {
                keys: keys.copy(alloc)?,
                count: *count,
                sums: sums.copy(alloc)?,
                least: least.copy(alloc)?,
                greatest: greatest.copy(alloc)?,
            }),
            NodeKind::Sequence { scope, tests } => Ok(NodeKind::Sequence {
                scope: *scope,
                tests: tests.copy(alloc)?,
            }),
            NodeKind::Unless { scope, hold, tests } => Ok(NodeKind::Unless {
                scope: *scope,
                hold: *hold,
                tests: tests.copy(alloc)?,
            }),
            NodeKind::AtLeast {
                number,
                scope,
                tests,
            } => Ok(NodeKind::AtLeast {
                number: *number,
                scope: *scope,
                tests: tests.copy(alloc)?,
            }),
            NodeKind::Except(tests) => Ok(NodeKind::Except(tests.copy(alloc)?)),
            NodeKind::Output => Ok(NodeKind::Output),
        }
    }
}

impl PlanNode {
    /// O(n) in what the node holds.
    pub fn copy(&self, alloc: Global) -> Result<PlanNode, OutOfMemory>
        ensures { IfOk result (λ node. node_of node ≡ node_of self.now) }
    {
        let name = self.name.copy(alloc)?;
        let kind = self.kind.copy(alloc)?;
        let inputs = Vec::from_slice(alloc, self.inputs.as_slice())?;
        let types = Vec::from_slice(alloc, self.types.as_slice())?;
        Ok(PlanNode {
            name,
            kind,
            inputs,
            level: self.level,
            types,
        })
    }
}
