// The G-stage, as a translation goes through it.

ghost use Rattle.std.specs.Prelude.{◌≡◌, ℕ};
ghost use Rattle.spec_processor.specs.Regions.{Region};
ghost use Rattle.spec_processor.specs.GStage.{walk_guest};
ghost use Rattle.spec_processor.specs.Roots.{IsSv39x4};

use crate::g_stage::walk_from_root;
use host_mem::HostMem;
use spec_processor::Access;

/// A G-stage of translation: the tables themselves, or a cache in front of them.
pub trait GStage {
    // that it may be asked under an hgatp value
    ghost serves: { Self → Region → ℕ → Type 0 };

    // what walks under an hgatp value may make of it
    ghost walked: { Region → ℕ → Self → Self → Type 0 };

    /// The host place of a guest-physical address, none exactly where the access faults. `hgatp` has mode 8 (Sv39x4).
    fn lead(&mut self, mem: &HostMem, hgatp: u64, gpa: u64, access: Access) -> Option<u64>
        requires second { IsSv39x4 hgatp }
        requires serves { serves self.old mem.now hgatp }
        ensures value { result ≡ walk_guest mem.now hgatp gpa access }
        ensures serves { serves self.new mem.now hgatp }
        ensures walked { walked mem.now hgatp self.old self.new };

    ghost stays: { (r : Region) (hgatp : ℕ) (s : Self) → walked r hgatp s s };

    ghost walks_on: { (r : Region) (hgatp : ℕ) (a b c : Self) → walked r hgatp a b → walked r hgatp b c → walked r hgatp a c };
}

/// The tables without a cache.
#[derive(Drop)]
pub struct Uncached;

impl GStage for Uncached {
    ghost serves = { λ _ _ _. Unit {0} };

    ghost walked = { λ _ _ _ _. Unit {0} };

    ghost stays = { λ _ _ _. tt };

    ghost walks_on = { λ _ _ _ _ _ _ _. tt };

    fn lead(&mut self, mem: &HostMem, hgatp: u64, gpa: u64, access: Access) -> Option<u64> {
        walk_from_root(mem, hgatp, gpa, access)
    }
}
