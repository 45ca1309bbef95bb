// A live run under way.

use live_keys::{Journal, Taker};
use machine::Machine;
use script::Script;

/// A machine under way: the script that its events are drawn from and how many of them are made at most, the journal of
/// all that were made, and the end of the line that its keys come from.
#[derive(Drop)]
pub struct LiveRun {
    pub machine: Machine,
    pub script: Script,
    pub events: u64,
    pub journal: Journal,
    pub taker: Taker,
}
