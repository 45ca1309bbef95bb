//! Keys that a second thread reads while the machine runs, and the journal of a run, which keeps where each was made.
#![tactic(auto)]

mod beside;
mod journal;
mod keys;
mod line;
mod live_key;
mod memory_keys;
mod protocol;
mod real_keys;
mod recording;
mod text;

pub use journal::Journal;
pub use keys::{Keys, Pace, Still};
pub use line::{Fed, Feeder, KeyLine, MAX_KEYS, Taker};
pub use live_key::LiveKey;
pub use memory_keys::MemKeys;
pub use real_keys::ReaderKeys;
pub use recording::law_journal_events;
pub use text::journal_text;
