// Who watches a sweep. No clause speaks of it.

use live_keys::Still;

/// Watches a sweep, whose runs end in any order and in several threads.
pub trait Progress {
    /// One run more has ended.
    fn count_run(&self);
}

impl Progress for Still {
    fn count_run(&self) {}
}
