// Why bytes are no snapshot.

ghost use Rattle.std.specs.Prelude.{◌≡◌};
ghost use Rattle.snapshot_format.specs.Refusals.{refusal_number};

use thiserror::Error;

/// Why bytes are no snapshot: what is met first from left to right.
#[derive(Clone, Copy, Debug, Drop, Error)]
pub enum SnapRefusal {
    /// There are more than 1,300 MiB.
    #[error("the snapshot is longer than 1300 MiB")]
    TooLong,
    /// A value passes the end, or bytes stand after the last one.
    #[error("the snapshot is shorter or longer than its own counts say")]
    OtherLength,
    /// The first eight bytes aren't those of a snapshot.
    #[error("the file does not begin as a snapshot")]
    OtherBeginning,
    /// A value has no meaning, or contradicts one before it.
    #[error("a value of the snapshot is outside its range")]
    OutOfRange,
}

impl SnapRefusal {
    /// The number by which it is printed.
    pub fn number(self) -> u8
        ensures { result ≡ refusal_number self }
    {
        match self {
            SnapRefusal::TooLong => 0,
            SnapRefusal::OtherLength => 1,
            SnapRefusal::OtherBeginning => 2,
            SnapRefusal::OutOfRange => 3,
        }
    }
}
