ghost use Rattle.std.specs.Prelude.{ℕ, ◌≡◌, [], IfOk, replicate};
ghost use Rattle.op_node.specs.Meanings.{node_meaning};
ghost use Rattle.op_node.specs.Ready.{IsReady};

use crate::output::Output;
use cedr_base::OutOfMemory;
use cedr_plan::NodeKind;
use cedr_table::Either::{First, Second};
use cedr_table::{Boxed, Either, Operator};
use op_except::Except;
use op_group::Group;
use op_join::Join;
use op_life::{Ends, Hop, Shift, Starts, Window};
use op_row::{Project, Select, Union};
use pat_atleast::AtLeast;
use pat_seq::Sequence;
use pat_unless::Unless;
use std::alloc::Global;

/// The operator of a plan's node: that of its kind, to which each call goes. It stands on the heap, since whoever holds
/// it would else be proved with the fields of every operator.
pub type NodeOperator = Boxed<KindOperator>;

type KindOperator = Either<
    Either<
        Either<Select, Project>,
        Either<Either<Window, Shift>, Either<Hop, Either<Starts, Ends>>>,
    >,
    Either<
        Either<Either<Union, Join>, Either<Sequence, Unless>>,
        Either<Either<AtLeast, Except>, Either<Group, Output>>,
    >,
>;

/// The operator of a node of a kind, with so many ports. The node is no source, and is as an accepted plan has it.
pub fn node_operator(
    alloc: Global,
    kind: &NodeKind,
    ports: usize,
) -> Result<NodeOperator, OutOfMemory>
    requires { IsReady kind.now ports }
    ensures meaning { IfOk result (λ op. ⟦<NodeOperator as Operator>⟧.meaning op ≡ node_meaning kind.now ports) }
    ensures ports { IfOk result (λ op. (⟦<NodeOperator as Operator>⟧.meaning op).ports ≡ ports) }
    ensures stands { IfOk result (λ op. ⟦<NodeOperator as Operator>⟧.stands op (replicate ports []) (replicate ports 0)) }
{
    let op = kind_operator(alloc, kind, ports)?;
    Boxed::new(alloc, op)
}

/// The operator of a kind by itself.
fn kind_operator(alloc: Global, kind: &NodeKind, ports: usize) -> Result<KindOperator, OutOfMemory>
    requires { IsReady kind.now ports }
    ensures meaning { IfOk result (λ op. ⟦<KindOperator as Operator>⟧.meaning op ≡ node_meaning kind.now ports) }
    ensures ports { IfOk result (λ op. (⟦<KindOperator as Operator>⟧.meaning op).ports ≡ ports) }
    ensures stands { IfOk result (λ op. ⟦<KindOperator as Operator>⟧.stands op (replicate ports []) (replicate ports 0)) }
{
    match kind {
        NodeKind::Source { .. } => unreachable!(),
        NodeKind::Select(tests) => Ok(First(First(First(Select::new(tests.copy(alloc)?))))),
        NodeKind::Project(keep) => Ok(First(First(Second(Project::new(keep.copy(alloc)?))))),
        NodeKind::Window { width } => Ok(First(Second(First(First(Window::new(*width)))))),
        NodeKind::Shift { by } => Ok(First(Second(First(Second(Shift::new(*by)))))),
        NodeKind::Hop { every, width } => Ok(First(Second(Second(First(Hop::new(
            *every, *width,
        )))))),
        NodeKind::Starts => Ok(First(Second(Second(Second(First(Starts::new())))))),
        NodeKind::Ends => Ok(First(Second(Second(Second(Second(Ends::new())))))),
        NodeKind::Union => Ok(Second(First(First(First(Union::new(ports)))))),
        NodeKind::Join(tests) => Ok(Second(First(First(Second(Join::new(
            alloc,
            tests.copy(alloc)?,
        )))))),
        NodeKind::Sequence { scope, tests } => {
            let sequence = Sequence::new(alloc, ports, *scope, tests.copy(alloc)?)?;
            Ok(Second(First(Second(First(sequence)))))
        }
        NodeKind::Unless { scope, hold, tests } => {
            let unless = Unless::new(alloc, *scope, *hold, tests.copy(alloc)?);
            Ok(Second(First(Second(Second(unless)))))
        }
        NodeKind::AtLeast {
            number,
            scope,
            tests,
        } => {
            let at_least = AtLeast::new(alloc, ports, *number, *scope, tests.copy(alloc)?)?;
            Ok(Second(Second(First(First(at_least)))))
        }
        NodeKind::Except(tests) => Ok(Second(Second(First(Second(Except::new(
            alloc,
            tests.copy(alloc)?,
        )))))),
        NodeKind::Group {
            keys,
            count,
            sums,
            least,
            greatest,
        } => {
            let keys = keys.copy(alloc)?;
            let sums = sums.copy(alloc)?;
            let least = least.copy(alloc)?;
            let group = Group::new(alloc, keys, *count, sums, least, greatest.copy(alloc)?);
            Ok(Second(Second(Second(First(group)))))
        }
        NodeKind::Output => Ok(Second(Second(Second(Second(Output::new()))))),
    }
}
