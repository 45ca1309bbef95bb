// Which G-stage tree a hart looks through.

/// Which G-stage tree a hart looks through.
#[derive(Clone, Copy, Drop)]
pub enum View {
    Kernel,
    User,
    /// That of the entry at a place in the policy's list.
    Entry(u8),
}
