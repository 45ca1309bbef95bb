// What is kept while a list becomes smaller.
ghost use Rattle.std.specs.Prelude.{◌≡◌, ◌<◌, ◌+◌, ℕ, Bool, List, IfOk};
ghost use Rattle.std.specs.Thread.{IsSync};

use std::alloc::AllocError;
use std::thread::Threads;

/// A test that a list of items passes or not, each time alike, by one of the runs that are left.
pub trait Stops<T> {
    /// Under these items it stops as it is to.
    ghost stops: { Self → List T → Bool };

    /// How many runs are left.
    ghost left: { Self → ℕ };

    /// Whether it stops so under these items. That takes one of the runs that are left. Out of memory is the one refusal.
    fn stops_so<R: Threads + Sync>(&mut self, rt: &R, items: &[T]) -> Result<bool, AllocError>
        requires sync { IsSync R.row }
        requires left { 0 < left self.old }
        ensures answer { IfOk result (λ answer. answer ≡ stops self.old items.now) }
        ensures same { stops self.new ≡ stops self.old }
        ensures run { left self.old ≡ left self.new + 1 };

    /// How many runs are left.
    fn runs_left(&self) -> u64
        ensures { result ≡ left self.now };
}
