// What arrives.

/// What arrives by a byte of a stream.
#[derive(Clone, Copy, Debug, PartialEq, Eq, Drop)]
pub enum Arrival {
    /// A packet with the right checksum.
    Packet,
    /// A packet with a wrong checksum.
    Broken,
    /// A packet of more bytes than are kept.
    TooLong,
    /// The byte that asks for a stop.
    Interrupt,
    /// The last answer was received.
    Received,
    /// The last answer is to be sent once more.
    Again,
}
