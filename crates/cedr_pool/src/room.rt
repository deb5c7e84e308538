//! What is made for a pool before anything is read.
ghost use Rattle.std.specs.Prelude.{◌≡◌, ◌<◌, length, IfOk};
ghost use Rattle.std.specs.List.{All};
ghost use Rattle.cedr_pool.specs.Rooms.{HasRoomBack, HasRoomIn};
ghost use Rattle.cedr_pool.specs.Seats.{IsRowFor};

use crate::seat::Seat;
use crate::task::{NumberedTask, Pass, Task, Works};
use cedr_base::OutOfMemory;
use pool_queue::TaskRoom;
use std::alloc::Global;

/// Room for the tasks of a plan's workers and for the seats of the threads.
#[derive(Drop)]
pub(crate) struct RoomIn<W: Works> {
    pub(crate) queue: TaskRoom<Task<W>, W>,
    pub(crate) opened: Vec<NumberedTask<W>>,
    /// A row for each thread, with room for all tasks.
    pub(crate) rows: Vec<Vec<NumberedTask<W>>>,
    pub(crate) seats: Vec<Seat<W>>,
}

/// Room for what the threads leave, and for the workers.
#[derive(Drop)]
pub(crate) struct RoomBack<W: Works> {
    pub(crate) passes: Vec<Pass<W>>,
    pub(crate) rows: Vec<Vec<NumberedTask<W>>>,
    pub(crate) tasks: Vec<NumberedTask<W>>,
    pub(crate) workers: Vec<W>,
}

/// So many rows, each with room for so many tasks.
fn new_rows<W: Works>(
    alloc: Global,
    count: usize,
    size: usize,
) -> Result<Vec<Vec<NumberedTask<W>>>, OutOfMemory>
    ensures count { IfOk result (λ rows. length rows.items ≡ count) }
    ensures rows { IfOk result (λ rows. All (IsRowFor size) rows.items) }
{
    let mut rows = Vec::new(alloc);
    for _i in 0..count {
        let row = Vec::with_capacity(alloc, size)?;
        rows.push(row)?;
    }
    Ok(rows)
}

impl<W: Works> RoomIn<W> {
    /// Room for the workers of so many nodes in so many threads.
    pub(crate) fn new(alloc: Global, count: usize, threads: usize) -> Result<RoomIn<W>, OutOfMemory>
        requires { 0 < count }
        ensures { IfOk result (λ room. HasRoomIn count threads room) }
    {
        Ok(RoomIn {
            queue: TaskRoom::new(alloc, count, threads)?,
            opened: Vec::with_capacity(alloc, count)?,
            rows: new_rows(alloc, threads, count)?,
            seats: Vec::with_capacity(alloc, threads)?,
        })
    }
}

impl<W: Works> RoomBack<W> {
    /// Room for the workers of so many nodes out of so many threads.
    pub(crate) fn new(
        alloc: Global,
        count: usize,
        threads: usize,
    ) -> Result<RoomBack<W>, OutOfMemory>
        ensures { IfOk result (λ room. HasRoomBack count threads room) }
    {
        Ok(RoomBack {
            passes: Vec::with_capacity(alloc, threads)?,
            rows: Vec::with_capacity(alloc, threads)?,
            tasks: Vec::with_capacity(alloc, count)?,
            workers: Vec::with_capacity(alloc, count)?,
        })
    }
}
