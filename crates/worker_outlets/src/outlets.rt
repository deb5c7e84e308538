ghost use Rattle.std.specs.Prelude.{◌≡◌, true, false, List, [], ◌∷◌, ◌++◌, length, map, IfOk, OnOk};
ghost use Rattle.std.specs.List.{All};
ghost use Rattle.cedr_base.specs.declared.change.Message.{Message as Sent};
ghost use Rattle.cedr_base.specs.Messages.{IsLegal};
ghost use Rattle.cedr_edge.specs.Ends.{OutEnd, as_u64};
ghost use Rattle.node_laws.specs.Lawful.{is_over};
ghost use Rattle.worker_outlets.specs.Outgoing.{last_message};
ghost use Rattle.worker_outlets.specs.Outlets.{PutSoFar, NonePending, SomePending, AllOver, SomeOpen, AllTotal, AllStaged, total_of, bare, outlet_edge, sent_of, sent_count, end_edge, end_sent};

use crate::fan::{
    Puts, all_over, close_each, commit_each, count_sent, edges_of, outlets_of, put_each, stage_all,
};
use crate::last::Last;
use crate::outlet::Outlet;
use cedr_base::{Message, OutOfMemory};
use cedr_edge::EdgeOut;
use std::alloc::Global;
use std::marker::Model;
use std::sync::Wait;

/// The out edges of a worker, with what is pending on each. Contracts see a list of [`Outgoing`] values, one for each
/// edge, in the order in which the edges were given.
pub struct Outlets {
    list: Vec<Outlet>,
    /// Room for the edges when they are handed out.
    spare: Vec<EdgeOut>,
}

impl Drop for Outlets {
    fn drop(self) {
        let Outlets { list: _, spare: _ } = self;
    }
}

impl Model for Outlets {
    ghost use Rattle.std.specs.Prelude.{◌≡◌, ◌≤◌, List, [], length};
    ghost use Rattle.std.specs.Vec.{vec_len, vec_capacity};
    ghost use Rattle.worker_outlets.specs.Outgoing.{Outgoing};

    ghost Value = { List Outgoing };

    ghost view = { λ o. o.list.items };

    ghost invariant = { λ o. (o.spare.items ≡ []) × (vec_len o.spare ≡ 0) × (length o.list.items ≤ vec_capacity o.spare) };
}

impl Outlets {
    /// Edges over which nothing went.
    pub fn new(alloc: Global, edges: Vec<EdgeOut>) -> Result<Outlets, OutOfMemory>
        requires { All (λ (e : OutEnd). e.sent ≡ []) edges.items }
        ensures edges { IfOk result (λ os. map outlet_edge os ≡ map end_edge edges.items) }
        ensures nothing { IfOk result (λ os. AllTotal [] os × AllStaged [] os) }
        ensures sent { IfOk result (λ os. sent_count os ≡ 0) }
    {
        let spare = Vec::with_capacity(alloc, edges.len())?;
        let list = outlets_of(alloc, edges)?;
        Ok(Outlets { list, spare })
    }

    /// Tries to put one pending message on each edge that has one. It takes no memory.
    pub fn put_each<R: Wait>(&mut self, rt: &R) -> Puts
        ensures put { PutSoFar self.old self.new result.moved (length self.old) }
        ensures none { result.pending ≡ false → NonePending self.new (length self.new) }
        ensures some { result.pending ≡ true → SomePending self.new (length self.new) }
    {
        put_each(rt, &mut self.list)
    }

    /// Whether each edge has its `End` or `Broken`.
    pub fn all_over(&self) -> bool
        ensures over { result ≡ true → AllOver self.now }
        ensures open { result ≡ false → SomeOpen self.now }
    {
        all_over(&self.list)
    }

    /// Moves messages out of their list, which keeps its room, and sets them down at each edge, one after the other: copies
    /// of each, and at the last edge the message itself. Where memory runs out some edges have some of them, and none is
    /// pending.
    pub fn stage_all(&mut self, alloc: Global, piece: &mut Vec<Message>) -> Result<(), OutOfMemory>
        ensures bare { map bare self.new ≡ map bare self.old }
        ensures totals { map total_of self.new ≡ map total_of self.old }
        ensures ok { OnOk result (AllStaged [] self.old → AllStaged piece.old.items self.new) }
    {
        stage_all(alloc, &mut self.list, piece)
    }

    /// What is set down at the edges, at each the same, is pending after what was. It takes no memory.
    pub fn commit(&mut self)
        requires { (given piece : List Sent) × AllTotal given self.old × AllStaged piece self.old × IsLegal (given ++ piece) }
        ensures bare { map bare self.new ≡ map bare self.old }
        ensures given { (given piece : List Sent) → AllTotal given self.old → AllStaged piece self.old → AllTotal (given ++ piece) self.new × AllStaged [] self.new }
    {
        commit_each(&mut self.list)
    }

    /// A last message is pending at each edge, after what was. It takes no memory.
    pub fn close(&mut self, last: Last)
        requires { (given : List Sent) × AllTotal given self.old × (is_over given ≡ false) }
        ensures bare { map bare self.new ≡ map bare self.old }
        ensures given { (given : List Sent) → AllTotal given self.old → AllTotal (given ++ last_message last ∷ []) self.new }
    {
        close_each(&mut self.list, last)
    }

    /// How many messages were sent over all edges, or the last `u64` where there are more.
    pub fn sent_count(&self) -> u64
        ensures { result ≡ as_u64 (sent_count self.now) }
    {
        count_sent(&self.list)
    }

    /// The edges, in order. What is pending or set down is dropped. It takes no memory.
    pub fn into_edges(self) -> Vec<EdgeOut>
        ensures edges { map end_edge result.items ≡ map outlet_edge self }
        ensures sent { map end_sent result.items ≡ map sent_of self }
        ensures all { AllOver self → map end_sent result.items ≡ map total_of self }
    {
        let Outlets { list, spare } = self;
        edges_of(list, spare)
    }
}
