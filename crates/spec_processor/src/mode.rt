// A hart's privilege.

/// A hart's privilege.
#[derive(Clone, Copy, PartialEq, Eq, Drop)]
pub enum Mode {
    Kernel,
    User,
}
