ghost use Rattle.std.specs.Prelude.{◌≡◌, ◌≢◌, ◌<◌, ℕ, [], true, false, length, map, slice_index_or};
ghost use Rattle.node_laws.specs.Lawful.{all_over};
ghost use Rattle.cedr_node.specs.declared.node.Node.{Node as Standing};
ghost use Rattle.cedr_node.specs.Nodes.{made_of};
ghost use Rattle.worker_outlets.specs.Outgoing.{Outgoing};
ghost use Rattle.worker_outlets.specs.Outlets.{bare};
ghost use Rattle.cedr_worker.specs.Inputs.{taken_in};
ghost use Rattle.cedr_worker.specs.Operators.{NodeWorks, TurnDone};

use crate::taking::{all_closed, take_unless};
use cedr_base::Message;
use cedr_edge::EdgeIn;
use cedr_node::Node;
use std::alloc::Global;
use std::sync::Wait;
use worker_outlets::{Last, Outlets};

/// What a turn came to.
#[derive(Clone, Copy)]
pub(crate) struct Worked {
    /// Something was put or taken.
    pub(crate) moved: bool,
    /// Memory lacks.
    pub(crate) lacked: bool,
    /// A break was pending or sent.
    pub(crate) broke: bool,
}

/// Where memory was lacking, a break is pending once each input is over. Says whether it is, or was.
fn break_off(inputs: &Vec<EdgeIn>, outlets: &mut Outlets, lacked: bool, broke: bool) -> bool
    requires { (node : Standing) × NodeWorks node (taken_in inputs.now.items) outlets.old lacked broke }
    ensures works { (node : Standing) → NodeWorks node (taken_in inputs.now.items) outlets.old lacked broke → NodeWorks node (taken_in inputs.now.items) outlets.new lacked result }
    ensures bare { map bare outlets.new ≡ map bare outlets.old }
    ensures same { all_over (taken_in inputs.now.items) ≡ false → outlets.new ≡ outlets.old }
    ensures pending { (k : ℕ) (d : Outgoing) → k < length outlets.old → (slice_index_or outlets.old k d).pending ≢ [] → (slice_index_or outlets.new k d).pending ≢ [] }
    ensures breaks { lacked ≡ true → all_over (taken_in inputs.now.items) ≡ true → result ≡ true }
{
    if !lacked || broke || !all_closed(inputs) {
        return broke;
    }
    outlets.close(Last::Broken);
    true
}

/// What a worker does in a turn.
pub(crate) fn work<R: Wait>(
    rt: &R,
    alloc: Global,
    node: &mut Node,
    inputs: &mut Vec<EdgeIn>,
    outlets: &mut Outlets,
    piece: &mut Vec<Message>,
    lacked: bool,
    broke: bool,
) -> Worked
    requires { NodeWorks node.old (taken_in inputs.old.items) outlets.old lacked broke }
    ensures works { NodeWorks node.new (taken_in inputs.new.items) outlets.new result.lacked result.broke }
    ensures made { made_of node.new ≡ made_of node.old }
    ensures turn { TurnDone outlets.old outlets.new inputs.old.items inputs.new.items result.moved }
    ensures breaks { lacked ≡ true → all_over (taken_in inputs.old.items) ≡ true → result.broke ≡ true }
{
    let broke = break_off(inputs, outlets, lacked, broke);
    let puts = outlets.put_each(rt);
    let takes = take_unless(
        rt,
        alloc,
        node,
        inputs,
        outlets,
        piece,
        puts.pending,
        lacked,
    );
    Worked {
        moved: puts.moved | takes.moved,
        lacked: takes.lacked,
        broke,
    }
}
