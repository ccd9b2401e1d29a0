//! The statuses of a run.

ghost use Rattle.std.specs.Prelude.{◌≡◌};
ghost use Rattle.nichols_top.specs.Status.{code};

/// How a run ends.
#[derive(Clone, Copy, Debug, PartialEq, Eq)]
pub enum Status {
    /// The whole report was taken, and nothing stopped it.
    Complete,
    /// The words aren't a command.
    Usage,
    /// The document is refused.
    Refused,
    /// The whole report was taken; a limit stopped the algebra or its cover.
    Stopped,
    /// The source failed.
    ReadFault,
    /// The sink failed.
    WriteFault,
    /// There was no memory.
    Memory,
}

impl Status {
    /// The exit status of the program.
    pub fn code(self) -> u8
        ensures { result ≡ code self }
    {
        match self {
            Status::Complete => 0,
            Status::Usage => 1,
            Status::Refused => 2,
            Status::Stopped => 3,
            Status::ReadFault => 4,
            Status::WriteFault => 5,
            Status::Memory => 6,
        }
    }
}
