// What a hart sees from outside.

/// The wires that a hart sees.
#[derive(Clone, Copy, Drop)]
pub struct Lines {
    pub time: u64,
    pub external: bool,
    pub timer: bool,
}
