ghost use Rattle.std.specs.Prelude.{◌++◌, map, List, IsPermutation};
ghost use Rattle.pool_queue.specs.Entries.{entry_of};
ghost use Rattle.pool_queue.specs.Passes.{AreAllOf, held_by};

use crate::numbered::{Numbered, Placed};
use crate::pass::TaskPass;
use std::collections::VecDeque;
use std::sync::Wait;

/// Closes a queue, all whose passes these are, in whatever order, and answers what was left in it. What is answered and what
/// the passes held are together the tasks that were opened, each once. It takes no memory.
pub fn close_tasks<T: Placed<X> + Send + Drop, X: Drop, R: Wait>(
    rt: &R,
    passes: Vec<TaskPass<T, X>>,
) -> Vec<Numbered<T>>
    requires { (opened : List _) × AreAllOf opened passes.items }
    ensures { (opened : List _) → AreAllOf opened passes.items → IsPermutation (map (entry_of T.place) result.items ++ held_by passes.items) opened }
{
    let mut left = VecDeque::from_vec(passes);
    let Some(first) = left.pop_front() else {
        unreachable!()
    };
    let mut whole = first;
    while let Some(other) = left.pop_front() {
        whole.absorb(other);
    }
    whole.drain(rt)
}
