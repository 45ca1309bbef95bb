// A whole machine as plain data. In `specs/` stands when it is a state of the reference machine.

mod harts;
mod whole;

pub use harts::SavedHart;
pub use whole::{Saved, SavedLoad};
