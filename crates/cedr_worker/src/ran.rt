ghost use Rattle.std.specs.Prelude.{◌≡◌};

/// How much a worker's turns did. Only a worker's `finish` makes one.
#[derive(Clone, Copy)]
pub struct Ran {
    number: usize,
    taken: u64,
    put: u64,
}

impl Ran {
    pub(crate) fn new(number: usize, taken: u64, put: u64) -> Ran
        ensures { (result.number ≡ number) × (result.taken ≡ taken) × (result.put ≡ put) }
    {
        Ran { number, taken, put }
    }

    /// The worker's number.
    pub fn number(&self) -> usize
        ensures { result ≡ self.now.number }
    {
        self.number
    }

    /// How many messages its turns took, over all its inputs, or the last `u64` where there are more.
    pub fn taken(&self) -> u64
        ensures { result ≡ self.now.taken }
    {
        self.taken
    }

    /// How many messages its turns put, over all its out edges, or the last `u64` where there are more.
    pub fn put(&self) -> u64
        ensures { result ≡ self.now.put }
    {
        self.put
    }
}
