// An image in memory: its segments in guest RAM, and the pages of its text approved.

mod laws;
mod owners;
mod segments;
mod text;
mod zeros;

pub use laws::law_accepted_segments;
pub use segments::fill_ram;
pub use text::approve_text;
