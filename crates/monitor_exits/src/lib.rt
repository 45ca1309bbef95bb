//! SecVisor's answers to the exits of a hart: what each is answered, and what traps, returns, demotions and accesses to devices
//! make of the hart, of its privilege view, of devices and journal; what reaches all harts; and what a hart's call asks.
#![tactic(auto)]

mod accesses;
mod addresses;
mod answers;
mod asked;
pub mod calls;
mod device_accesses;
mod exits;
mod fetches;
mod instructions;
mod slots;
mod traps;
mod values;

pub use answers::{Trap, answer, set, start, stay, stop};
pub use asked::Asked;
pub use device_accesses::{device_load, device_store};
pub use exits::exit_answer;
pub use slots::{ALL_HARTS, HartSlot, MASK_WIDTH, forget, interrupt};
pub use traps::{guest_demotion, guest_return, guest_trap, leave_entry, stop_at_write};
