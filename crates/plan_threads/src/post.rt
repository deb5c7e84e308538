use cedr_base::OutOfMemory;
use cedr_io::Gate;
use std::alloc::Global;
use std::sync::Arc;
use std::sync::atomic::{AtomicBool, AtomicU64, Ordering};

/// What the thread of a worker has beside it, and what the one who starts it keeps of that.
#[derive(Drop)]
pub(crate) struct Post<G: Gate + Drop> {
    /// What the one who starts the thread keeps: set, the closure of the thread hands its worker back unturned.
    pub(crate) unturned: Arc<AtomicBool, Global>,
    /// What goes with the thread.
    pub(crate) order: Order<G>,
}

/// What a thread does with its worker.
#[derive(Drop)]
pub(crate) struct Order<G: Gate + Drop> {
    unturned: Arc<AtomicBool, Global>,
    ended: Arc<AtomicU64, Global>,
    pub(crate) gate: Arc<G, Global>,
}

impl<G: Gate + Drop> Post<G> {
    /// A post whose thread raises this count at its end, and whose worker passes this gate.
    pub(crate) fn new(
        alloc: Global,
        ended: &Arc<AtomicU64, Global>,
        gate: &Arc<G, Global>,
    ) -> Result<Post<G>, OutOfMemory> {
        let unturned = Arc::new(alloc, AtomicBool::new(false))?;
        let order = Order {
            unturned: Arc::try_clone(&unturned)?,
            ended: Arc::try_clone(ended)?,
            gate: Arc::try_clone(gate)?,
        };
        Ok(Post { unturned, order })
    }
}

impl<G: Gate + Drop> Order<G> {
    /// Whether the worker is to take turns here.
    pub(crate) fn turns(&self) -> bool {
        !self.unturned.load(Ordering::SeqCst)
    }

    /// Counts the worker as ended.
    pub(crate) fn tell_end(&self) {
        self.ended.fetch_add(1, Ordering::SeqCst);
    }
}
