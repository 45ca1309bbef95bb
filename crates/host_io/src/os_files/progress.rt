// The progress of a run, to a person.

use std::fmt;
use std::fmt::{Display, Formatter};
use std::time::{Clock, Duration};

// A person is told about once a second.
const TOLD_EVERY_MILLIS: u128 = 1000;

// What a run had made at some time.
#[derive(Clone, Copy, Drop)]
struct Mark {
    time: Duration,
    turns: u64,
}

/// What a person was told last, or where the run was when it was first seen.
#[derive(Drop)]
pub(crate) struct Watch {
    last: Option<Mark>,
}

/// How many events a run has made, and how many turns a second it makes now.
#[derive(Clone, Copy, Drop)]
pub(crate) struct Rate {
    events: u64,
    turns_a_second: u64,
}

impl Display for Rate {
    fn fmt<W: fmt::Write>(&self, f: &mut Formatter<W>) -> fmt::Result {
        let events = self.events;
        let turns = self.turns_a_second;
        write!(f, "{events} events, {turns} turns a second")
    }
}

impl Watch {
    pub(crate) fn new() -> Watch {
        Watch { last: None }
    }

    /// What is to be told, where a second has passed since it was told last.
    pub(crate) fn rate<R: Clock>(&mut self, rt: &R, events: u64, turns: u64) -> Option<Rate> {
        let Ok(time) = rt.monotonic() else {
            return None;
        };
        let now = Mark { time, turns };
        let Some(last) = self.last else {
            self.last = Some(now);
            return None;
        };
        let millis = time.saturating_sub(last.time).as_millis();
        if millis < TOLD_EVERY_MILLIS {
            return None;
        }
        self.last = Some(now);
        Some(Rate {
            events,
            turns_a_second: a_second(turns.saturating_sub(last.turns), millis),
        })
    }
}

// So many in this time.
fn a_second(count: u64, millis: u128) -> u64 {
    let whole = (count as u128) * 1000 / millis.max(1);
    u64::try_from(whole).unwrap_or(u64::MAX)
}
