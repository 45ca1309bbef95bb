//! Numbers as text: whole ones by decimal digits, addresses and digests by hexadecimal ones.
#![tactic(auto)]

mod addresses;
mod decimals;
mod digests;
mod printed;

pub use addresses::{address_of, address_of_bytes};
pub use decimals::number_within;
pub use digests::digest_of;
pub use printed::{address_text, digest_text};
