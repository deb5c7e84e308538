ghost use Rattle.std.specs.Prelude.{◌≡◌, true, false, List, [], ◌∷◌, ◌++◌, length, map, IfOk, OnOk, OnErr, ◌||◌, ◌≤◌};
ghost use Rattle.std.specs.List.{All};
ghost use Rattle.std.specs.Vec.{vec_len, vec_capacity};
ghost use Rattle.cedr_base.specs.declared.change.Message.{Message as Sent};
ghost use Rattle.cedr_base.specs.Messages.{IsLegal};
ghost use Rattle.cedr_edge.specs.Ends.{OutEnd, as_u64};
ghost use Rattle.node_laws.specs.Lawful.{is_over};
ghost use Rattle.worker_outlets.specs.Outgoing.{last_message};
ghost use Rattle.worker_outlets.specs.Outlets.{PutSoFar, NonePending, SomePending, AllOver, SomeOpen, AllTotal, AllStaged, StagedUpTo, total_of, bare, opened, outlet_edge, sent_of, sent_count, end_edge, end_sent};

use crate::last::Last;
use crate::outlet::Outlet;
use cedr_base::{Message, OutOfMemory};
use cedr_edge::EdgeOut;
use std::alloc::Global;
use std::sync::Wait;

/// What a round of puts came to.
#[derive(Clone, Copy)]
pub struct Puts {
    /// Something was put.
    pub moved: bool,
    /// Something is pending still.
    pub pending: bool,
}

/// Edges over which nothing went.
pub(crate) fn outlets_of(alloc: Global, edges: Vec<EdgeOut>) -> Result<Vec<Outlet>, OutOfMemory>
    requires { All (λ (e : OutEnd). e.sent ≡ []) edges.items }
    ensures { IfOk result (λ list. list.items ≡ map opened edges.items) }
{
    let mut list = Vec::with_capacity(alloc, edges.len())?;
    for edge in edges {
        list.push_reserved(Outlet::new(alloc, edge));
    }
    Ok(list)
}

/// Tries to put one message on each out edge.
pub(crate) fn put_each<R: Wait>(rt: &R, list: &mut Vec<Outlet>) -> Puts
    ensures put { PutSoFar list.old.items list.new.items result.moved (length list.old.items) }
    ensures none { result.pending ≡ false → NonePending list.new.items (length list.new.items) }
    ensures some { result.pending ≡ true → SomePending list.new.items (length list.new.items) }
{
    let mut moved = false;
    let mut pending = false;
    for i in 0..list.len() {
        let outlet = &mut list[i];
        let put = outlet.put_one(rt);
        let still = outlet.is_pending();
        moved = moved | put;
        pending = pending | still;
    }
    Puts { moved, pending }
}

/// Whether each out edge has its end or break.
pub(crate) fn all_over(list: &Vec<Outlet>) -> bool
    ensures over { result ≡ true → AllOver list.now.items }
    ensures open { result ≡ false → SomeOpen list.now.items }
{
    for i in 0..list.len() {
        if !list[i].is_over() {
            return false;
        }
    }
    true
}

/// Sets copies of a message down at the first out edges.
fn stage_copies(
    alloc: Global,
    list: &mut Vec<Outlet>,
    message: &Message,
    count: usize,
) -> Result<(), OutOfMemory>
    requires { count ≤ length list.old.items }
    ensures bare { map bare list.new.items ≡ map bare list.old.items }
    ensures totals { map total_of list.new.items ≡ map total_of list.old.items }
    ensures ok { OnOk result ((staged : List Sent) → AllStaged staged list.old.items → StagedUpTo (staged ++ message.now ∷ []) staged list.new.items count) }
{
    for i in 0..count {
        let copy = message.copy(alloc)?;
        let outlet = &mut list[i];
        outlet.stage(copy)?;
    }
    Ok(())
}

/// Sets a message down at each out edge: copies of it, and at the last one the message itself.
fn stage_each(alloc: Global, list: &mut Vec<Outlet>, message: Message) -> Result<(), OutOfMemory>
    ensures bare { map bare list.new.items ≡ map bare list.old.items }
    ensures totals { map total_of list.new.items ≡ map total_of list.old.items }
    ensures ok { OnOk result ((staged : List Sent) → AllStaged staged list.old.items → AllStaged (staged ++ message ∷ []) list.new.items) }
{
    if list.is_empty() {
        return Ok(());
    }
    let others = list.len() - 1;
    stage_copies(alloc, list, &message, others)?;
    let outlet = &mut list[others];
    outlet.stage(message)?;
    Ok(())
}

/// Moves messages out of their list, and sets them down at each out edge.
pub(crate) fn stage_all(
    alloc: Global,
    list: &mut Vec<Outlet>,
    piece: &mut Vec<Message>,
) -> Result<(), OutOfMemory>
    ensures bare { map bare list.new.items ≡ map bare list.old.items }
    ensures totals { map total_of list.new.items ≡ map total_of list.old.items }
    ensures ok { OnOk result (AllStaged [] list.old.items → AllStaged piece.old.items list.new.items) }
{
    for message in piece.drain(..) {
        stage_each(alloc, list, message)?;
    }
    Ok(())
}

/// What is set down at the out edges is pending.
pub(crate) fn commit_each(list: &mut Vec<Outlet>)
    requires { (given piece : List Sent) × AllTotal given list.old.items × AllStaged piece list.old.items × IsLegal (given ++ piece) }
    ensures bare { map bare list.new.items ≡ map bare list.old.items }
    ensures given { (given piece : List Sent) → AllTotal given list.old.items → AllStaged piece list.old.items → AllTotal (given ++ piece) list.new.items × AllStaged [] list.new.items }
{
    for i in 0..list.len() {
        let outlet = &mut list[i];
        outlet.commit();
    }
}

/// A last message is pending at each out edge.
pub(crate) fn close_each(list: &mut Vec<Outlet>, last: Last)
    requires { (given : List Sent) × AllTotal given list.old.items × (is_over given ≡ false) }
    ensures bare { map bare list.new.items ≡ map bare list.old.items }
    ensures given { (given : List Sent) → AllTotal given list.old.items → AllTotal (given ++ last_message last ∷ []) list.new.items }
{
    for i in 0..list.len() {
        let outlet = &mut list[i];
        outlet.close(last);
    }
}

/// How many messages were sent over all out edges, or the last `u64` where there are more.
pub(crate) fn count_sent(list: &Vec<Outlet>) -> u64
    ensures { result ≡ as_u64 (sent_count list.now.items) }
{
    let mut count = 0u64;
    for outlet in list {
        count = count.saturating_add(outlet.count());
    }
    count
}

/// The edges, in a list that is empty and has room for them. What is pending or set down is dropped.
pub(crate) fn edges_of(list: Vec<Outlet>, spare: Vec<EdgeOut>) -> Vec<EdgeOut>
    requires none { (spare.items ≡ []) × (vec_len spare ≡ 0) }
    requires room { length list.items ≤ vec_capacity spare }
    ensures edges { map end_edge result.items ≡ map outlet_edge list.items }
    ensures sent { map end_sent result.items ≡ map sent_of list.items }
    ensures all { AllOver list.items → map end_sent result.items ≡ map total_of list.items }
{
    let mut edges = spare;
    for outlet in list {
        edges.push_reserved(outlet.into_edge());
    }
    edges
}
