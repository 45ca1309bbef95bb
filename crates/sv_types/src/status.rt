// How the program ends.
ghost use Rattle.std.specs.Prelude.{◌≡◌};
ghost use Rattle.sv_types.specs.Output.{status_number};

/// The status of a call of the program.
#[derive(Clone, Copy, Debug, PartialEq, Eq, Drop)]
pub enum Status {
    /// The guest shut down, or another command finished.
    Done,
    /// The guest broke a rule.
    Stopped,
    /// The words are of no command, or one is out of its range.
    Usage,
    /// A file or the boot is refused.
    Refused,
    /// A file isn't held, or reading it failed.
    ReadFault,
    /// A write or a save failed.
    WriteFault,
    /// Memory ran out.
    Memory,
    /// The events ran out while the guest was running.
    Ended,
}

impl Status {
    /// The exit status of the program's process.
    pub fn number(self) -> u8
        ensures { result ≡ status_number self }
    {
        match self {
            Status::Done => 0,
            Status::Stopped => 1,
            Status::Usage => 2,
            Status::Refused => 3,
            Status::ReadFault => 4,
            Status::WriteFault => 5,
            Status::Memory => 6,
            Status::Ended => 7,
        }
    }
}
