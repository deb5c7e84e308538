ghost use Rattle.std.specs.Prelude.{◌≡◌, ◌<◌, ◌++◌, ◌∷◌, [], true, false, Bool, List, map, length, OnOk, OnErr};
ghost use Rattle.cedr_base.specs.declared.change.Message.{Message as Sent};
ghost use Rattle.op_driver.specs.Driving.{MayTake};
ghost use Rattle.node_laws.specs.Lawful.{all_over};
ghost use Rattle.node_laws.specs.Lists.{Lists, with_more};
ghost use Rattle.cedr_node.specs.Nodes.{made_of, NodeStands};
ghost use Rattle.worker_outlets.specs.Outlets.{total_of, bare};
ghost use Rattle.cedr_worker.specs.Inputs.{TakenSoFar, TakenAt, taken_in};
ghost use Rattle.cedr_worker.specs.Operators.{Sound, NodeWorks};

use cedr_base::{Message, OutOfMemory};
use cedr_edge::EdgeIn;
use cedr_node::Node;
use std::alloc::Global;
use std::sync::Wait;
use worker_outlets::Outlets;

/// What a round of takes came to.
#[derive(Clone, Copy)]
pub(crate) struct Takes {
    /// Something was taken.
    pub(crate) moved: bool,
    /// Memory lacks.
    pub(crate) lacked: bool,
}

/// Whether each input is over.
pub(crate) fn all_closed(inputs: &Vec<EdgeIn>) -> bool
    ensures { result ≡ all_over (taken_in inputs.now.items) }
{
    for i in 0..inputs.len() {
        if !inputs[i].is_over() {
            return false;
        }
    }
    true
}

/// Lets the node take a message. The piece that it gives for it stands in the list, in place of what stood there.
pub(crate) fn take_on(
    alloc: Global,
    node: &mut Node,
    port: usize,
    message: Message,
    piece: &mut Vec<Message>,
) -> Result<(), OutOfMemory>
    requires { (lists : Lists) × (given : List Sent) × NodeStands node.old lists given × MayTake lists port message }
    ensures made { made_of node.new ≡ made_of node.old }
    ensures taken { OnOk result ((lists : Lists) (given : List Sent) → NodeStands node.old lists given → MayTake lists port message → NodeStands node.new (with_more lists port (message ∷ [])) (given ++ piece.new.items)) }
{
    piece.clear();
    match node.take(alloc, port, message, piece) {
        Ok(()) => Ok(()),
        Err(_) => Err(OutOfMemory),
    }
}

/// Lets the node take a message, and what it gives for it is pending at each out edge, or nothing of it at any.
fn pass_on(
    alloc: Global,
    node: &mut Node,
    outlets: &mut Outlets,
    port: usize,
    message: Message,
    piece: &mut Vec<Message>,
) -> Result<(), OutOfMemory>
    requires { (lists : Lists) × Sound node.old lists outlets.old × MayTake lists port message }
    ensures made { made_of node.new ≡ made_of node.old }
    ensures bare { map bare outlets.new ≡ map bare outlets.old }
    ensures ok { OnOk result ((lists : Lists) → Sound node.old lists outlets.old → MayTake lists port message → Sound node.new (with_more lists port (message ∷ [])) outlets.new) }
    ensures err { OnErr result (map total_of outlets.new ≡ map total_of outlets.old) }
{
    take_on(alloc, node, port, message, piece)?;
    outlets.stage_all(alloc, piece)?;
    outlets.commit();
    Ok(())
}

/// Lets the node take a message, or drops it where memory was lacking. Says whether memory lacks.
fn take_in(
    alloc: Global,
    node: &mut Node,
    outlets: &mut Outlets,
    port: usize,
    message: Message,
    piece: &mut Vec<Message>,
    lacked: bool,
) -> bool
    requires { lacked ≡ false → (lists : Lists) × Sound node.old lists outlets.old × MayTake lists port message }
    ensures made { made_of node.new ≡ made_of node.old }
    ensures bare { map bare outlets.new ≡ map bare outlets.old }
    ensures ok { result ≡ false → (lacked ≡ false) × ((lists : Lists) → Sound node.old lists outlets.old → MayTake lists port message → Sound node.new (with_more lists port (message ∷ [])) outlets.new) }
    ensures lost { result ≡ true → map total_of outlets.new ≡ map total_of outlets.old }
{
    if lacked {
        return true;
    }
    match pass_on(alloc, node, outlets, port, message, piece) {
        Ok(()) => false,
        Err(_) => true,
    }
}

/// Takes a message from an input that is open, and hands it on.
fn take_at<R: Wait>(
    rt: &R,
    alloc: Global,
    node: &mut Node,
    inputs: &mut Vec<EdgeIn>,
    outlets: &mut Outlets,
    port: usize,
    piece: &mut Vec<Message>,
    lacked: bool,
) -> Takes
    requires works { (broke : Bool) × NodeWorks node.old (taken_in inputs.old.items) outlets.old lacked broke }
    requires within { port < length inputs.old.items }
    ensures works { (broke : Bool) → NodeWorks node.old (taken_in inputs.old.items) outlets.old lacked broke → NodeWorks node.new (taken_in inputs.new.items) outlets.new result.lacked broke }
    ensures made { made_of node.new ≡ made_of node.old }
    ensures taken { TakenAt inputs.old.items inputs.new.items port result.moved }
    ensures bare { map bare outlets.new ≡ map bare outlets.old }
    ensures same { result.moved ≡ false → outlets.new ≡ outlets.old }
{
    let input = &mut inputs[port];
    if input.is_over() {
        return Takes {
            moved: false,
            lacked,
        };
    }
    match input.take(rt) {
        None => Takes {
            moved: false,
            lacked,
        },
        Some(message) => {
            let lacks = take_in(alloc, node, outlets, port, message, piece, lacked);
            Takes {
                moved: true,
                lacked: lacks,
            }
        }
    }
}

/// Takes at most one message from each input that is open, in port order, and hands it on.
fn take_each<R: Wait>(
    rt: &R,
    alloc: Global,
    node: &mut Node,
    inputs: &mut Vec<EdgeIn>,
    outlets: &mut Outlets,
    piece: &mut Vec<Message>,
    lacked: bool,
) -> Takes
    requires { (broke : Bool) × NodeWorks node.old (taken_in inputs.old.items) outlets.old lacked broke }
    ensures works { (broke : Bool) → NodeWorks node.old (taken_in inputs.old.items) outlets.old lacked broke → NodeWorks node.new (taken_in inputs.new.items) outlets.new result.lacked broke }
    ensures made { made_of node.new ≡ made_of node.old }
    ensures taken { TakenSoFar inputs.old.items inputs.new.items result.moved (length inputs.old.items) }
    ensures bare { map bare outlets.new ≡ map bare outlets.old }
    ensures same { result.moved ≡ false → outlets.new ≡ outlets.old }
{
    let mut moved = false;
    let mut lacks = lacked;
    for port in 0..inputs.len() {
        let took = take_at(rt, alloc, node, inputs, outlets, port, piece, lacks);
        moved = moved | took.moved;
        lacks = took.lacked;
    }
    Takes {
        moved,
        lacked: lacks,
    }
}

/// The same where nothing is pending at an out edge, and else nothing.
pub(crate) fn take_unless<R: Wait>(
    rt: &R,
    alloc: Global,
    node: &mut Node,
    inputs: &mut Vec<EdgeIn>,
    outlets: &mut Outlets,
    piece: &mut Vec<Message>,
    pending: bool,
    lacked: bool,
) -> Takes
    requires { (broke : Bool) × NodeWorks node.old (taken_in inputs.old.items) outlets.old lacked broke }
    ensures works { (broke : Bool) → NodeWorks node.old (taken_in inputs.old.items) outlets.old lacked broke → NodeWorks node.new (taken_in inputs.new.items) outlets.new result.lacked broke }
    ensures made { made_of node.new ≡ made_of node.old }
    ensures taken { pending ≡ false → TakenSoFar inputs.old.items inputs.new.items result.moved (length inputs.old.items) }
    ensures waits { pending ≡ true → (inputs.new.items ≡ inputs.old.items) × (result.moved ≡ false) }
    ensures bare { map bare outlets.new ≡ map bare outlets.old }
    ensures same { result.moved ≡ false → outlets.new ≡ outlets.old }
{
    if pending {
        return Takes {
            moved: false,
            lacked,
        };
    }
    take_each(rt, alloc, node, inputs, outlets, piece, lacked)
}
