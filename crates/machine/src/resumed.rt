// The parts of a machine that goes on from a snapshot. What protects pages is made anew, and nothing of it is believed.

mod device_states;
mod guard;
mod load;
mod parts;
mod slots;

pub use parts::{ResumedParts, resume_parts};
