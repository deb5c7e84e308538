ghost use Rattle.std.specs.Prelude.{◌≡◌, ◌∷◌, ◌++◌, ◌+◌, ◌<◌, ◌≤◌, [], length, map, IsPermutation, IfSome, IfNone};
ghost use Rattle.std.specs.Arc.{arc_value};
ghost use Rattle.std.specs.List.{Contains};
ghost use Rattle.std.specs.Vec.{vec_capacity};
ghost use Rattle.cedr_base.specs.Counters.{raised};
ghost use Rattle.crossbeam_queue.specs.Passes.{view as known, IsPassOf, ruled_capacity};
ghost use Rattle.pool_queue.specs.Entries.{entry_of, other_than, times};
ghost use Rattle.pool_queue.specs.Once.{all_parts};

use crate::numbered::{Numbered, Placed};
use crate::rule::{Cut, Drains, Puts, QueuePass, Takes, Tasks};
use std::alloc::Global;
use std::marker::Model;
use std::sync::{Arc, Wait};

/// A pass of a pool's queue. Contracts see the queue, the pass's parts of it, what was opened, what the pass holds, and how
/// many takes found the queue empty, a count that stays at its last value.
pub struct TaskPass<T: Placed<X> + Drop, X: Drop> {
    tasks: Arc<Tasks<T, X>, Global>,
    pass: QueuePass<T, X>,
    refused: u64,
    /// Room for all tasks, for the pass that closes the queue.
    row: Vec<Numbered<T>>,
}

impl<T: Placed<X> + Drop, X: Drop> Drop for TaskPass<T, X> {
    fn drop(self) {
        let TaskPass {
            tasks: _,
            pass: _,
            refused: _,
            row: _,
        } = self;
    }
}

impl<T: Placed<X> + Drop, X: Drop> Model for TaskPass<T, X> {
    ghost use Rattle.std.specs.Prelude.{◌≡◌, ◌≤◌, ◌<◌, [], length};
    ghost use Rattle.std.specs.Arc.{arc_value};
    ghost use Rattle.std.specs.Vec.{vec_capacity};
    ghost use Rattle.crossbeam_queue.specs.Passes.{view as known, IsPassOf, ruled_capacity};
    ghost use Rattle.pool_queue.specs.Passes.{Holding};

    ghost Value = { Holding X };

    ghost view = { λ p. record { queue = p.pass.table_id; parts = (known p.pass).parts; opened = (known p.pass).opened; held = (known p.pass).held; refused = p.refused } };

    ghost invariant = { λ p. IsPassOf (arc_value p.tasks) p.pass × (0 < (known p.pass).parts) × (ruled_capacity (arc_value p.tasks) ≡ length (known p.pass).opened) × (p.row.items ≡ []) × (length (known p.pass).opened ≤ vec_capacity p.row) };
}

impl<T: Placed<X> + Drop, X: Drop> TaskPass<T, X> {
    /// A pass that met no empty queue yet. The row is empty, and has room for all tasks.
    pub(crate) fn new(
        tasks: Arc<Tasks<T, X>, Global>,
        pass: QueuePass<T, X>,
        row: Vec<Numbered<T>>,
    ) -> TaskPass<T, X>
        requires of { IsPassOf (arc_value tasks) pass }
        requires live { 0 < (known pass).parts }
        requires size { ruled_capacity (arc_value tasks) ≡ length (known pass).opened }
        requires row { (row.items ≡ []) × (length (known pass).opened ≤ vec_capacity row) }
        ensures { result ≡ record { queue = pass.table_id; parts = (known pass).parts; opened = (known pass).opened; held = (known pass).held; refused = 0 } }
    {
        TaskPass {
            tasks,
            pass,
            refused: 0,
            row,
        }
    }

    /// Takes a task of those in the queue: the one that was put first, though no clause speaks of the order. `None` comes
    /// only where the queue was empty at a step of this call. It takes no memory and holds no lock, and may spin while
    /// another pass is between two machine steps.
    pub fn take<R: Wait>(&mut self, rt: &R) -> Option<Numbered<T>>
        ensures taken { IfSome result (λ n. self.new ≡ record self.old { held = entry_of T.place n ∷ self.old.held }) }
        ensures opened { IfSome result (λ n. Contains self.old.opened (entry_of T.place n)) }
        ensures once { IfSome result (λ n. times n.number self.old.held ≡ 0) }
        ensures room { IfSome result (λ n. length self.new.held ≤ length self.new.opened) }
        ensures none { IfNone result (self.new ≡ record self.old { refused = raised self.old.refused }) }
    {
        match self.tasks.pop_as::<Takes, R>(rt, &mut self.pass) {
            Some(task) => Some(task),
            None => {
                self.refused = self.refused.saturating_add(1);
                None
            }
        }
    }

    /// Puts a task back that the pass holds, behind those in the queue. There is room for it, since the pass holds it. It
    /// takes no memory and holds no lock, and may spin while another pass is between two machine steps.
    pub fn put<R: Wait>(&mut self, rt: &R, task: Numbered<T>)
        requires { Contains self.old.held (entry_of T.place task) }
        ensures { self.new ≡ record self.old { held = other_than task.number self.old.held } }
    {
        match self.tasks.push_as::<Puts, R>(rt, &mut self.pass, task) {
            Ok(()) => {}
            Err(_) => unreachable!(),
        }
    }

    /// Puts another pass of the queue together with this one.
    pub(crate) fn absorb(&mut self, other: TaskPass<T, X>)
        requires { other.queue ≡ self.old.queue }
        ensures { self.new ≡ record self.old { parts = self.old.parts + other.parts; held = self.old.held ++ other.held } }
    {
        let TaskPass {
            tasks: _,
            pass,
            refused: _,
            row: _,
        } = other;
        self.tasks.absorb::<Cut>(&mut self.pass, pass);
    }

    /// Takes what is left in the queue, by the pass that has all parts.
    pub(crate) fn drain<R: Wait>(self, rt: &R) -> Vec<Numbered<T>>
        requires { self.parts ≡ all_parts }
        ensures { IsPermutation (map (entry_of T.place) result.items ++ self.held) self.opened }
    {
        let TaskPass {
            tasks,
            mut pass,
            refused: _,
            mut row,
        } = self;
        for _ in rt.forever() {
            match tasks.pop_as::<Drains, R>(rt, &mut pass) {
                Some(task) => row.push_reserved(task),
                None => return row,
            }
        }
        unreachable!()
    }
}
