//! The machine: harts with the hypervisor extension, host memory, devices, and SecVisor above them; and its run over the events
//! of a script, with its console.
#![tactic(auto)]

mod boot;
mod drawing;
pub mod events;
mod image_start;
mod loading;
mod machine;
mod machine_start;
mod resume;
pub mod resumed;
mod running;
mod saved;
mod seen;
mod start;
mod text;

pub use boot::BootRefusal;
pub use drawing::Drawing;
pub use hw_devices::SECTOR_BYTES;
pub use machine::Machine;
pub use machine_journal::Notes;
pub use machine_start::Booted;
pub use resume::ResumeFailure;
pub use running::{Left, flush_due, run};
