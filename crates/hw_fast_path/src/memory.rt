// Where a quick turn's accesses lead.

ghost use Rattle.std.specs.Prelude.{◌≡◌, ◌==◌, ◌≤◌, ℕ, ◌%◌, length, IfSome, Ok};
ghost use Rattle.spec_processor.specs.Regions.{IsWidth, IsHostPlace};
ghost use Rattle.spec_processor.specs.GStage.{WalksApart};
ghost use Rattle.spec_processor.specs.Roots.{IsFirstStageRoot};
ghost use Rattle.spec_processor.specs.CachedWalks.{CacheAgrees};
ghost use Rattle.spec_processor.specs.HardwareMemory.{translation_result, aligned_translation};
ghost use Rattle.hart.specs.Cores.{core_of};
ghost use Rattle.hw_tlb.specs.Kept.{ReachAgrees};
ghost use Rattle.hw_fast_path.specs.Quick.{MayTranslate, Translated};
ghost use Rattle.hw_fast_path.specs.Reaching.{LeadsAlike};

use hart::{Core, regime};
use host_mem::HostMem;
use hw_tlb::HartCaches;
use spec_processor::{Access, BARE, HRegs, ROOT_MODE_SHIFT};
use sv39_walk::Regime;

/// An access to so many bytes at a virtual address.
#[derive(Clone, Copy, Drop)]
pub(crate) struct Reference {
    pub(crate) access: Access,
    pub(crate) address: u64,
    pub(crate) width: u8,
}

// What the translation of such an access goes by. SUM and MXR decide loads and stores alone, so that fetches are found
// without a look at them.
#[inline(always)]
fn regime_for(core: &Core, regs: &HRegs, access: Access) -> Regime
    ensures hgatp { result.hgatp ≡ regs.now.hgatp }
    ensures alike { LeadsAlike (core_of core.now regs.now) access result }
    ensures first { IsFirstStageRoot result.vsatp }
{
    let whole = regime(core, regs);
    match access {
        Access::Fetch => Regime {
            sum: false,
            mxr: false,
            ..whole
        },
        Access::Load | Access::Store => whole,
    }
}

// The host place of a virtual address by a walk, kept out of the way of addresses whose translation is held. It is handed
// numbers alone, since for a reference in memory every access would write one.
#[inline(never)]
fn walk_to(
    core: &Core,
    regs: &HRegs,
    caches: &mut HartCaches,
    mem: &HostMem,
    access: Access,
    address: u64,
) -> Option<u64>
    requires may { MayTranslate mem.now regs.now.hgatp caches.old.second caches.old.both }
    ensures value { (htinst : ℕ) → IfSome result (λ hpa. translation_result mem.now (core_of core.now regs.now) access address htinst ≡ Ok hpa) }
    ensures place { (width : ℕ) → IsWidth width → address % width ≡ 0 → IfSome result (λ hpa. IsHostPlace mem.now hpa width) }
    ensures ram { IfSome result (λ hpa. length mem.now.tables ≤ hpa) }
    ensures translated { Translated mem.now.tables regs.now.hgatp caches.old.second caches.new.second caches.new.both }
{
    let _table_bytes = mem.table_bytes();
    caches.both.walk(
        &mut caches.second,
        mem,
        &regime_for(core, regs, access),
        address,
        access,
    )
}

// The host place of a virtual address, where its translation is held: without a first stage that of the second one, else
// that of both.
#[inline(always)]
fn held_place(
    core: &Core,
    regs: &HRegs,
    caches: &HartCaches,
    mem: &HostMem,
    reference: Reference,
) -> Option<u64>
    requires apart { WalksApart mem.now regs.now.hgatp }
    requires agrees { CacheAgrees mem.now.tables caches.now.second }
    requires reach { ReachAgrees mem.now.tables caches.now.both }
    ensures value { IfSome result (λ hpa. (htinst : ℕ) →
        translation_result mem.now (core_of core.now regs.now) reference.access reference.address htinst ≡ Ok hpa) }
    ensures place { IfSome result (λ hpa. (width : ℕ) → IsWidth width → reference.address % width ≡ 0 → IsHostPlace mem.now hpa width) }
    ensures ram { IfSome result (λ hpa. length mem.now.tables ≤ hpa) }
{
    let _table_bytes = mem.table_bytes();
    if core.csrs.vsatp >> ROOT_MODE_SHIFT == BARE {
        caches
            .second
            .held_place(mem, regs.hgatp, reference.address, reference.access)
    } else {
        caches.both.held_place(
            mem,
            &regime_for(core, regs, reference.access),
            reference.address,
            reference.access,
        )
    }
}

/// How accesses are translated.
pub(crate) trait Lookup {
    /// The host place of a virtual address, none where an access there is refused, or isn't looked for further. Its width
    /// isn't looked at.
    fn place(
        core: &Core,
        regs: &HRegs,
        caches: &mut HartCaches,
        mem: &HostMem,
        reference: Reference,
    ) -> Option<u64>
        requires may { MayTranslate mem.now regs.now.hgatp caches.old.second caches.old.both }
        ensures value { (htinst : ℕ) →
            IfSome result (λ hpa. translation_result mem.now (core_of core.now regs.now) reference.access reference.address htinst ≡ Ok hpa) }
        ensures place { (width : ℕ) → IsWidth width → reference.address % width ≡ 0 → IfSome result (λ hpa. IsHostPlace mem.now hpa width) }
        ensures ram { IfSome result (λ hpa. length mem.now.tables ≤ hpa) }
        ensures translated { Translated mem.now.tables regs.now.hgatp caches.old.second caches.new.second caches.new.both };
}

/// By what is held, and where nothing is, by a walk.
pub(crate) struct Walks;

impl Lookup for Walks {
    #[tactic(auto, using(hw_tlb::specs::Fills::nothing_filled))]
    #[inline(always)]
    fn place(
        core: &Core,
        regs: &HRegs,
        caches: &mut HartCaches,
        mem: &HostMem,
        reference: Reference,
    ) -> Option<u64> {
        match held_place(core, regs, caches, mem, reference) {
            Some(hpa) => Some(hpa),
            None => walk_to(core, regs, caches, mem, reference.access, reference.address),
        }
    }
}

/// By what is held alone, so that nothing is called.
pub(crate) struct Held;

impl Lookup for Held {
    #[tactic(auto, using(hw_tlb::specs::Fills::nothing_filled))]
    #[inline(always)]
    fn place(
        core: &Core,
        regs: &HRegs,
        caches: &mut HartCaches,
        mem: &HostMem,
        reference: Reference,
    ) -> Option<u64> {
        held_place(core, regs, caches, mem, reference)
    }
}

// An address is a multiple of a width. By a number that is known here it takes no division, which one in each load would
// be felt.
#[inline(always)]
fn is_aligned(address: u64, width: u8) -> bool
    requires { IsWidth width }
    ensures { result ≡ (address % width == 0) }
{
    match width {
        1 => true,
        2 => address.is_multiple_of(2),
        4 => address.is_multiple_of(4),
        _ => address.is_multiple_of(8),
    }
}

/// The host place of an access, none where it is refused: its address is a multiple of its width, and its translation
/// permits it.
#[tactic(auto, using(hw_tlb::specs::Fills::nothing_filled), unfolding(spec_processor::specs::HardwareMemory::aligned_translation))]
#[inline(always)]
pub(crate) fn aligned_place<L: Lookup>(
    core: &Core,
    regs: &HRegs,
    caches: &mut HartCaches,
    mem: &HostMem,
    reference: Reference,
) -> Option<u64>
    requires may { MayTranslate mem.now regs.now.hgatp caches.old.second caches.old.both }
    requires width { IsWidth reference.width }
    ensures value { (htinst : ℕ) →
        IfSome result (λ hpa. aligned_translation mem.now (core_of core.now regs.now) reference.access reference.address reference.width htinst ≡ Ok hpa) }
    ensures place { IfSome result (λ hpa. IsHostPlace mem.now hpa reference.width) }
    ensures ram { IfSome result (λ hpa. length mem.now.tables ≤ hpa) }
    ensures translated { Translated mem.now.tables regs.now.hgatp caches.old.second caches.new.second caches.new.both }
{
    if is_aligned(reference.address, reference.width) {
        L::place(core, regs, caches, mem, reference)
    } else {
        None
    }
}
