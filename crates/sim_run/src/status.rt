// How a run ended.

ghost use Rattle.std.specs.Prelude.{◌≡◌};
ghost use Rattle.sim_run.specs.Status.{status_number};

/// How a run ended.
#[derive(Clone, Copy, Debug, PartialEq, Eq)]
pub enum Status {
    /// All was read, and the answer was written.
    Done,
    /// An input breaks a rule, and the line that says so was written.
    Refused,
    /// The words are no command, and nothing was written.
    Usage,
    /// A read failed, and nothing was written.
    ReadFault,
    /// A write failed, and a beginning of the answer was written.
    WriteFault,
    /// There was not enough memory, and a beginning of the answer was written.
    OutOfMemory,
}

impl Status {
    /// The exit status of the program, from 0 to 5 in the order of the variants.
    pub fn number(self) -> u8
        ensures { result ≡ status_number self }
    {
        match self {
            Status::Done => 0,
            Status::Refused => 1,
            Status::Usage => 2,
            Status::ReadFault => 3,
            Status::WriteFault => 4,
            Status::OutOfMemory => 5,
        }
    }
}
