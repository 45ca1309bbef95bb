// The system of hardware, SecVisor and journal, and what each event makes of it.

mod batch_turns;
mod passing;
mod system;

pub use system::System;
