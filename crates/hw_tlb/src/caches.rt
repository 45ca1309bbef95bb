// What harts keep of walks, and where protections change.

ghost use Rattle.std.specs.Prelude.{◌≡◌, true, false, ℕ, List, length};
ghost use Rattle.hw_tlb.specs.Usable.{AreUsable, nothing_kept};

use crate::gstage_cache::Cache;
use crate::lines::Reach;

/// What a hart keeps of walks: where the G-stage leads, and where both lead.
#[derive(Drop)]
pub struct HartCaches {
    pub second: Cache,
    pub both: Reach,
}

impl HartCaches {
    /// Nothing is kept.
    pub fn new() -> HartCaches
        ensures { result ≡ nothing_kept }
    {
        HartCaches {
            second: Cache::new(),
            both: Reach::new(),
        }
    }

    fn clear(&mut self)
        ensures { self.new ≡ nothing_kept }
    {
        self.second.fence_all();
        self.both.clear();
    }
}

// Empties all caches.
#[tactic(auto, using(crate::proofs::Emptied::emptied_one_by_one))]
fn empty_all(caches: &mut [HartCaches])
    ensures usable { (tables : List ℕ) → AreUsable tables caches.new }
    ensures number { length caches.new ≡ length caches.old }
{
    for own in caches.iter_mut() {
        own.clear();
    }
}

/// Empties all caches where a protection changed.
pub fn fence(caches: &mut [HartCaches], changed: bool)
    ensures usable { changed ≡ true → (tables : List ℕ) → AreUsable tables caches.new }
    ensures kept { changed ≡ false → caches.new ≡ caches.old }
    ensures number { length caches.new ≡ length caches.old }
{
    if changed {
        empty_all(caches);
    }
}
