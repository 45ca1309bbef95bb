//! The machine that runs the guest, as plain data: hardware, events, and SecVisor's answers. In `specs/` stand its
//! definitions, which contracts cite.
#![tactic(auto)]

ghost use Rattle.spec_hardware.specs.Frame.{FrameLaw};

mod exits;

pub use exits::{ExitAnswer, Load, Store};

/// No answer of SecVisor's changes guest RAM, the size of the tables, the policy, time, what was printed, or the counts of
/// printed bytes that were taken away and of attempts. Other harts stay but for their software interrupts, and the hart itself
/// keeps what an exit writes; only a hart that was stopped becomes another.
pub fn law_frame()
    ensures { FrameLaw }
{}
