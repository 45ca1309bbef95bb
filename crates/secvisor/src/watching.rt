// Someone who waits at a terminal.

use cli_dispatch::Progress;
use live_keys::Pace;
use std::sync::atomic::{AtomicBool, AtomicU64, Ordering};

/// At a terminal standard error counts the runs of a sweep that have ended, in a line that what comes next is written over,
/// and says once that a live run only waits for the end of its input. A failure of that changes nothing.
#[derive(Drop)]
pub struct Watching<R: Eprint + Drop> {
    rt: R,
    at_terminal: bool,
    runs: AtomicU64,
    is_told: AtomicBool,
}

impl<R: Eprint + Drop> Watching<R> {
    /// No run has ended yet.
    pub fn new(rt: R, at_terminal: bool) -> Watching<R> {
        Watching {
            rt,
            at_terminal,
            runs: AtomicU64::new(0),
            is_told: AtomicBool::new(!at_terminal),
        }
    }

    /// Says how many there were, where any was counted.
    pub fn end(&self) {
        let runs = self.runs.load(Ordering::SeqCst);
        if self.at_terminal && runs > 0 {
            let _written = eprintln!(self.rt; "secvisor: {runs} runs");
        }
    }
}

impl<R: Eprint + Drop> Pace for Watching<R> {
    fn note_sent(&self, _count: u64) {}

    fn begin(&self, _event: u64) {}

    fn note_end(&self) {
        if !self.is_told.swap(true, Ordering::SeqCst) {
            let _written = eprintln!(self.rt;
                "secvisor: the run has ended; Control-D ends the input"
            );
        }
    }
}

impl<R: Eprint + Drop> Progress for Watching<R> {
    fn count_run(&self) {
        let runs = self.runs.fetch_add(1, Ordering::SeqCst).wrapping_add(1);
        if self.at_terminal {
            let _written = eprint!(self.rt; "{runs} runs\r");
        }
    }
}
