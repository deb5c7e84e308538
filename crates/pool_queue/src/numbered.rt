ghost use Rattle.std.specs.Prelude.{◌≡◌};

/// What has a place, which whoever holds it leaves as it is. A place is plain data: contracts know by it what a task is.
pub trait Placed<X> {
    ghost place: { Self → X };
}

/// A task and its number.
pub struct Numbered<T: Drop> {
    pub number: usize,
    pub task: T,
}

impl<T: Drop> Numbered<T> {
    /// The task without its number.
    pub fn into_task(self) -> T
        ensures { result ≡ self.task }
    {
        let Numbered { number: _, task } = self;
        task
    }
}

impl<T: Drop> Drop for Numbered<T> {
    fn drop(self) {
        let Numbered { number: _, task: _ } = self;
    }
}
