// Accesses to memory.

/// A kind of access to memory.
#[derive(Clone, Copy, Drop)]
pub enum Access {
    Fetch,
    Load,
    Store,
}
