// Where a reader stands.

/// A place in a stream of packets.
#[derive(Clone, Copy, Debug, PartialEq, Eq, Drop)]
pub enum Place {
    /// Between packets.
    Outside,
    /// In the data of a packet.
    Inside,
    /// After the mark of an escaped byte.
    Escaped,
    /// After the data.
    Ended,
    /// After the first digit of a checksum.
    AtLastDigit(u8),
}
