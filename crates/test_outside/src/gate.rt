//! A gate that holds the turns of a worker.
use cedr_base::OutOfMemory;
use cedr_io::Gate;
use std::alloc::Global;
use std::sync::Arc;
use std::sync::atomic::{AtomicU64, Ordering};

/// Holds the first worker until a flag is set, or so long that it won't be.
#[derive(Drop)]
pub struct Holding {
    /// Its turns are held from this one on, the first of which is 0.
    from: u64,
    turns: AtomicU64,
    flag: Arc<AtomicU64, Global>,
    /// The turns of the second worker set the flag.
    by_second: bool,
    /// The first worker went on without the flag.
    alone: AtomicU64,
}

impl Holding {
    /// The turns of the first worker are held from this one on until the flag is 1.
    pub fn until(
        alloc: Global,
        from: u64,
        flag: &Arc<AtomicU64, Global>,
    ) -> Result<Arc<Holding, Global>, OutOfMemory> {
        let flag = Arc::try_clone(flag)?;
        Ok(Arc::new(alloc, Holding::of(from, flag, false))?)
    }

    /// All turns of the first worker are held until the second worker has turned.
    pub fn until_second(alloc: Global) -> Result<Arc<Holding, Global>, OutOfMemory> {
        let flag = Arc::new(alloc, AtomicU64::new(0))?;
        Ok(Arc::new(alloc, Holding::of(0, flag, true))?)
    }

    fn of(from: u64, flag: Arc<AtomicU64, Global>, by_second: bool) -> Holding {
        Holding {
            from,
            turns: AtomicU64::new(0),
            flag,
            by_second,
            alone: AtomicU64::new(0),
        }
    }

    /// Whether the first worker never went on without the flag.
    pub fn held(&self) -> bool {
        self.alone.load(Ordering::SeqCst) == 0
    }

    /// Spins until the flag is set, at most 100 million times. Where it went on without the flag once, it holds no turn more.
    fn await_flag(&self) {
        if !self.held() {
            return;
        }
        for _ in 0..100_000_000u64 {
            if self.flag.load(Ordering::SeqCst) == 1 {
                return;
            }
        }
        self.alone.store(1, Ordering::SeqCst);
    }
}

impl Gate for Holding {
    fn pass(&self, node: usize) {
        if node == 0 && self.turns.fetch_add(1, Ordering::SeqCst) >= self.from {
            self.await_flag();
        }
        if node == 1 && self.by_second {
            self.flag.store(1, Ordering::SeqCst);
        }
    }
}
