//! The bytes of gdb's remote serial protocol: what arrives by a stream, packets as values, and answers in their frames. It knows
//! nothing of the machine that is debugged.
#![tactic(auto)]

mod answers;
mod arguments;
mod arrival;
mod digits;
mod frame;
mod laws;
mod letters;
mod names;
mod packet;
mod place;
mod reader;
mod stop;
mod words;

pub use answers::{push_console, push_part};
pub use arrival::Arrival;
pub use digits::{number_of, push_digits};
pub use frame::push_frame;
pub use laws::{law_frames_are_read, law_long_frames, law_noise, law_plain_frames};
pub use names::packet_of;
pub use packet::{Motion, Packet, Range, Thread};
pub use reader::{MAX_PAYLOAD, PacketReader};
pub use stop::{Stop, push_stop};
