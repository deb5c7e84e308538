ghost use Rattle.std.specs.Prelude.{◌≡◌};
ghost use Rattle.cedr_commands.specs.Codes.{code_of};

/// How a call of the program ended.
#[derive(Clone, Copy, Debug, PartialEq, Eq)]
pub enum Status {
    /// The whole answer was written.
    Done,
    /// The words match no command.
    Usage,
    /// The plan is refused.
    Plan,
    /// Some line of a file has a fault, or a file is too large.
    Events,
    /// A file wasn't found, or a read was refused.
    Read,
    /// A write was refused. A front of the answer was written.
    Write,
    /// Memory ran out. At most a front of the answer was written.
    OutOfMemory,
    /// A file isn't a checkpoint of the plan.
    Checkpoint,
}

impl Status {
    /// The exit status of the program.
    pub fn code(&self) -> u8
        ensures { result ≡ code_of self.now }
    {
        match self {
            Status::Done => 0,
            Status::Usage => 1,
            Status::Plan => 2,
            Status::Events => 3,
            Status::Read => 4,
            Status::Write => 5,
            Status::OutOfMemory => 6,
            Status::Checkpoint => 7,
        }
    }
}
