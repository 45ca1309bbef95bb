// The machine as what is debugged: its run over a script, from its beginning as often as asked, or from a state that was kept.

mod beginning;
mod debugged;
mod debugging;
mod kept;
mod shelf;
mod stepping;
mod turns;

pub use beginning::{Beginning, Begun};
pub use debugged::DebuggedMachine;
pub use debugging::debug;
