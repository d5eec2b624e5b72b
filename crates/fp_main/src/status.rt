ghost use Rattle.std.specs.Prelude.{◌≡◌};
ghost use Rattle.fp_main.specs.Statuses.{code_of};

/// How a call ended.
#[derive(Clone, Copy, PartialEq, Eq)]
pub enum Status {
    /// The output was written; a run was complete.
    Done,
    /// A rule is broken.
    Refused,
    /// The words have no form.
    Usage,
    /// A file could not be read.
    ReadFault,
    /// A write failed.
    WriteFault,
    /// A file isn't there.
    NoFile,
    /// A run got stuck.
    Stuck,
    /// A run came to its limit of steps.
    Spent,
    /// A run met a full queue that asserts.
    Asserted,
    /// Memory was refused.
    NoMemory,
    /// The source has no such topology.
    NoTopology,
}

impl Status {
    /// The exit status of the program.
    pub fn code(self) -> u8
        ensures { result ≡ code_of self }
    {
        match self {
            Status::Done => 0,
            Status::Refused => 1,
            Status::Usage => 2,
            Status::ReadFault => 3,
            Status::WriteFault => 4,
            Status::NoFile => 5,
            Status::Stuck => 6,
            Status::Spent => 7,
            Status::Asserted => 8,
            Status::NoMemory => 9,
            Status::NoTopology => 12,
        }
    }
}
