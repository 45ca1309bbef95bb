// A translation that is kept.

ghost use Rattle.std.specs.Prelude.{◌≡◌};
ghost use Rattle.hw_tlb.specs.Tags.{tag_of};

use crate::entries::Entries;
use spec_processor::Access;
use sv39_walk::Regime;

/// Where accesses of one kind to a page of virtual addresses are led: by what the translation went, the page's number, the
/// host place of its first byte, and the entries that the first stage read. Its tag is the number of all by which it is
/// found alongside the roots.
#[derive(Clone, Copy, Drop)]
pub struct Line {
    pub tag: u64,
    pub regime: Regime,
    pub access: Access,
    pub page: u64,
    pub host: u64,
    pub entries: Entries,
    ghost tagged: { tag ≡ tag_of regime access page },
}
