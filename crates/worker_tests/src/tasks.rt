//! The queue of a pool's tasks.
ghost use Rattle.std.specs.Prelude.{◌≡◌, ◌≤◌, ◌∷◌, [], List, length, map, IfOk};
ghost use Rattle.std.specs.Vec.{vec_capacity};
ghost use Rattle.pool_queue.specs.Entries.{AreNumberedApart, entry_of};
ghost use Rattle.pool_queue.specs.Passes.{AreAllOf};

use cedr_base::OutOfMemory;
use pool_queue::{Numbered, Placed, TaskPass, close_tasks, open_tasks};
use std::alloc::Global;
use std::collections::VecDeque;
use std::sync::Wait;
use std::test::Fail;

/// A task that is known by a word.
#[derive(Drop)]
struct Job(u8);

impl Placed<u8> for Job {
    ghost place = { λ job. job.0 };
}

/// A pass of a queue of such tasks.
type JobPass = TaskPass<Job, u8>;

/// Two tasks, numbered 0 and 1.
fn two_jobs(alloc: Global) -> Result<Vec<Numbered<Job>>, OutOfMemory>
    ensures count { IfOk result (λ jobs. length jobs.items ≡ 2) }
    ensures apart { IfOk result (λ jobs. AreNumberedApart (map (entry_of (λ job. job.0)) jobs.items)) }
{
    let mut jobs = Vec::with_capacity(alloc, 2)?;
    jobs.push_reserved(Numbered {
        number: 0,
        task: Job(7),
    });
    jobs.push_reserved(Numbered {
        number: 1,
        task: Job(9),
    });
    Ok(jobs)
}

/// The two passes of a queue.
fn two_of(passes: Vec<JobPass>) -> (JobPass, JobPass)
    requires { length passes.items ≡ 2 }
    ensures { passes.items ≡ result.0 ∷ result.1 ∷ [] }
{
    let mut left = VecDeque::from_vec(passes);
    let Some(first) = left.pop_front() else {
        unreachable!()
    };
    let Some(second) = left.pop_front() else {
        unreachable!()
    };
    (first, second)
}

/// Closes a queue that has two passes. `room` has room for them.
fn close_two<R: Wait>(
    rt: &R,
    room: Vec<JobPass>,
    first: JobPass,
    second: JobPass,
) -> Vec<Numbered<Job>>
    requires room { (room.items ≡ []) × (2 ≤ vec_capacity room) }
    requires all { (opened : List _) × AreAllOf opened (first ∷ second ∷ []) }
{
    let mut passes = room;
    passes.push_reserved(first);
    passes.push_reserved(second);
    close_tasks(rt, passes)
}

#[test]
fn a_pass_takes_what_another_put_back(rt: HostRuntime) -> Result<(), Fail> {
    let jobs = two_jobs(rt.alloc())?;
    let room = Vec::with_capacity(rt.alloc(), 2)?;
    let Ok(passes) = open_tasks(&rt, rt.alloc(), jobs, 2) else {
        return Err("there is memory for two tasks")?;
    };
    let (mut first, mut second) = two_of(passes);
    let Some(zero) = first.take(&rt) else {
        return Err("two tasks are there")?;
    };
    assert_eq!(rt; (zero.number, zero.task.0), (0, 7));
    let Some(one) = second.take(&rt) else {
        return Err("one task is there")?;
    };
    assert_eq!(rt; (one.number, one.task.0), (1, 9));
    let None = second.take(&rt) else {
        return Err("both tasks were taken")?;
    };
    first.put(&rt, zero);
    let Some(again) = second.take(&rt) else {
        return Err("one task was put back")?;
    };
    assert_eq!(rt; (again.number, again.task.0), (0, 7));
    let left = close_two(&rt, room, first, second);
    assert!(rt; left.is_empty());
    Ok(())
}
