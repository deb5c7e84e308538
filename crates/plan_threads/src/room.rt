//! What is made for the threads of a plan before anything is read.
ghost use Rattle.std.specs.Prelude.{◌≡◌, length, IfOk};
ghost use Rattle.plan_threads.specs.Rooms.{IsRoom};

use crate::post::Post;
use crate::seat::Seat;
use cedr_base::OutOfMemory;
use cedr_io::{Gate, Source};
use plan_report::ReportRoom;
use plan_workers::Worker;
use std::alloc::Global;
use std::collections::VecDeque;
use std::sync::atomic::AtomicU64;
use std::sync::{Arc, Wait};

/// The posts of the threads, and room for all that their workers become.
#[derive(Drop)]
pub(crate) struct Room<S: Source + Drop, G: Gate + Drop, R: Wait + Drop> {
    pub(crate) posts: VecDeque<Post<G>>,
    pub(crate) seats: Vec<Seat<S, R>>,
    pub(crate) joined: Vec<Worker<S, R>>,
    pub(crate) report: ReportRoom<S, R>,
    /// How many threads have ended.
    pub(crate) ended: Arc<AtomicU64, Global>,
}

/// So many posts.
fn new_posts<G: Gate + Drop>(
    alloc: Global,
    count: usize,
    ended: &Arc<AtomicU64, Global>,
    gate: &Arc<G, Global>,
) -> Result<Vec<Post<G>>, OutOfMemory>
    ensures { IfOk result (λ posts. length posts.items ≡ count) }
{
    let mut posts = Vec::new(alloc);
    for _ in 0..count {
        posts.push(Post::new(alloc, ended, gate)?)?;
    }
    Ok(posts)
}

impl<S: Source + Drop, G: Gate + Drop, R: Wait + Drop> Room<S, G, R> {
    /// Room for the workers of so many nodes.
    pub(crate) fn new(
        alloc: Global,
        count: usize,
        gate: &Arc<G, Global>,
    ) -> Result<Room<S, G, R>, OutOfMemory>
        ensures { IfOk result (λ room. IsRoom count room) }
    {
        let ended = Arc::new(alloc, AtomicU64::new(0))?;
        let posts = new_posts(alloc, count, &ended, gate)?;
        Ok(Room {
            posts: VecDeque::from_vec(posts),
            seats: Vec::with_capacity(alloc, count)?,
            joined: Vec::with_capacity(alloc, count)?,
            report: ReportRoom::new(alloc, count)?,
            ended,
        })
    }
}
