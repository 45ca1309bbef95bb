// Where an access to memory goes.

ghost use Rattle.std.specs.Prelude.{◌≡◌, ◌≤◌, ℕ, ◌/◌, ◌%◌, length, IfOk, IfSome, Ok};
ghost use Rattle.spec_processor.specs.Regions.{IsWidth, IsHostPlace};
ghost use Rattle.spec_processor.specs.GStage.{WalksApart};
ghost use Rattle.spec_processor.specs.CachedWalks.{CacheAgrees};
ghost use Rattle.spec_processor.specs.HardwareMemory.{misaligned_cause, page_fault, guest_page_fault, fault_exception, settings_at};
ghost use Rattle.spec_processor.specs.HardwareMemory.{translation_result, aligned_translation, load_htinst, store_htinst, atomic_htinst};
ghost use Rattle.spec_processor.specs.Roots.{IsFirstStageRoot};
ghost use Rattle.spec_processor.specs.declared.access.Access.TheVariants as Access;
ghost use Rattle.hart.specs.Cores.{core_of};
ghost use Rattle.hw_tlb.specs.CacheWalks.{MayWalk, Walked};
ghost use Rattle.sv39_walk.specs.Regimes.{settings_of};

use crate::hart::Core;
use crate::trap::plain_exception;
use csr_file::{MXR_BIT, SUM_BIT};
use host_mem::HostMem;
use hw_tlb::gstage_cache::Cache;
use spec_processor::{
    Access, BARE, Cause, Exception, Fault, HRegs, HTVAL_UNIT, ROOT_MODE_SHIFT, has_bit,
};
use sv39_walk::{Regime, translate_through};

/// `htinst` of a guest-page fault at an entry of the first stage: a read of 64 bits for its translation.
pub const IMPLICIT_READ: u32 = 0x3000;

fn misaligned_cause(access: Access) -> Cause
    ensures { result ≡ misaligned_cause access }
{
    match access {
        Access::Fetch => Cause::InstrMisaligned,
        Access::Load => Cause::LoadMisaligned,
        Access::Store => Cause::StoreMisaligned,
    }
}

fn page_fault(access: Access) -> Cause
    ensures { result ≡ page_fault access }
{
    match access {
        Access::Fetch => Cause::InstrPage,
        Access::Load => Cause::LoadPage,
        Access::Store => Cause::StorePage,
    }
}

fn guest_page_fault(access: Access) -> Cause
    ensures { result ≡ guest_page_fault access }
{
    match access {
        Access::Fetch => Cause::GuestFetch,
        Access::Load => Cause::GuestLoad,
        Access::Store => Cause::GuestStore,
    }
}

/// An access to a virtual address, and `htinst` of a guest-page fault of the access itself.
#[derive(Clone, Copy, Drop)]
pub(crate) struct Request {
    pub(crate) access: Access,
    pub(crate) address: u64,
    pub(crate) htinst: u32,
}

// The fields of an instruction's word.
const OPCODE_FIELD: u32 = 0x0000_007F;

const RD_FIELD: u32 = 0x0000_0F80;

const FUNCT3_FIELD: u32 = 0x0000_7000;

const RS2_FIELD: u32 = 0x01F0_0000;

const FUNCT7_FIELD: u32 = 0xFE00_0000;

// Those that htinst has of a load, a store and an atomic instruction.
const LOAD_FIELDS: u32 = FUNCT3_FIELD + RD_FIELD + OPCODE_FIELD;

const STORE_FIELDS: u32 = RS2_FIELD + FUNCT3_FIELD + OPCODE_FIELD;

const ATOMIC_FIELDS: u32 = FUNCT7_FIELD + RS2_FIELD + FUNCT3_FIELD + RD_FIELD + OPCODE_FIELD;

impl Request {
    pub(crate) fn fetch(pc: u64) -> Request
        ensures { result ≡ record { access = Access.Fetch; address = pc; htinst = 0 } }
    {
        Request {
            access: Access::Fetch,
            address: pc,
            htinst: 0,
        }
    }

    /// That of a load, by its word.
    pub(crate) fn load(address: u64, word: u32) -> Request
        ensures { result ≡ record { access = Access.Load; address = address; htinst = load_htinst word } }
    {
        Request {
            access: Access::Load,
            address,
            htinst: word & LOAD_FIELDS,
        }
    }

    /// That of a store, by its word.
    pub(crate) fn store(address: u64, word: u32) -> Request
        ensures { result ≡ record { access = Access.Store; address = address; htinst = store_htinst word } }
    {
        Request {
            access: Access::Store,
            address,
            htinst: word & STORE_FIELDS,
        }
    }

    /// That of an atomic instruction, by its word.
    pub(crate) fn atomic(access: Access, address: u64, word: u32) -> Request
        ensures { result ≡ record { access = access; address = address; htinst = atomic_htinst word } }
    {
        Request {
            access,
            address,
            htinst: word & ATOMIC_FIELDS,
        }
    }
}

// The exception of an access that translation refuses.
fn fault_exception(request: Request, fault: Fault) -> Exception
    ensures { result ≡ fault_exception request.access request.address request.htinst fault }
{
    match fault {
        Fault::Page => plain_exception(page_fault(request.access), request.address),
        Fault::Guest { gpa, implicit } => Exception {
            cause: guest_page_fault(request.access),
            tval: request.address,
            htval: gpa / HTVAL_UNIT,
            htinst: if implicit {
                IMPLICIT_READ
            } else {
                request.htinst
            },
        },
    }
}

/// What the hart's translation goes by.
pub fn regime(core: &Core, regs: &HRegs) -> Regime
    ensures hgatp { result.hgatp ≡ regs.now.hgatp }
    ensures mode { result.mode ≡ regs.now.mode }
    ensures settings { settings_of result ≡ settings_at (core_of core.now regs.now) }
    ensures first { IsFirstStageRoot result.vsatp }
{
    let status = core.csrs.vsstatus;
    Regime {
        hgatp: regs.hgatp,
        vsatp: core.csrs.vsatp,
        mode: regs.mode,
        sum: has_bit(status, SUM_BIT),
        mxr: has_bit(status, MXR_BIT),
    }
}

// `translation_result` by a walk, kept out of the way of addresses whose translation is held.
#[tactic(auto, unfolding(spec_processor::specs::HardwareMemory::translation_result))]
#[inline(never)]
fn walked_translation(
    core: &Core,
    regs: &HRegs,
    cache: &mut Cache,
    mem: &HostMem,
    request: Request,
) -> Result<u64, Exception>
    requires ready { MayWalk mem.now regs.now.hgatp cache.old }
    ensures value { result ≡ translation_result mem.now (core_of core.now regs.now) request.access request.address request.htinst }
    ensures place { (width : ℕ) → IsWidth width → request.address % width ≡ 0 → IfOk result (λ hpa. IsHostPlace mem.now hpa width) }
    ensures ram { IfOk result (λ hpa. length mem.now.tables ≤ hpa) }
    ensures walked { Walked mem.now.tables regs.now.hgatp cache.old cache.new }
{
    let _table_bytes = mem.table_bytes();
    match translate_through(
        cache,
        mem,
        &regime(core, regs),
        request.address,
        request.access,
    ) {
        Ok(place) => Ok(place.hpa),
        Err(fault) => Err(fault_exception(request, fault)),
    }
}

// The host place of a virtual address that is a guest-physical one, where its translation is held.
#[inline(always)]
fn held_place(
    core: &Core,
    regs: &HRegs,
    cache: &Cache,
    mem: &HostMem,
    request: Request,
) -> Option<u64>
    requires apart { WalksApart mem.now regs.now.hgatp }
    requires agrees { CacheAgrees mem.now.tables cache.now }
    ensures value { IfSome result (λ hpa. translation_result mem.now (core_of core.now regs.now) request.access request.address request.htinst ≡ Ok hpa) }
    ensures place { IfSome result (λ hpa. (width : ℕ) → IsWidth width → request.address % width ≡ 0 → IsHostPlace mem.now hpa width) }
    ensures ram { IfSome result (λ hpa. length mem.now.tables ≤ hpa) }
{
    let _table_bytes = mem.table_bytes();
    if core.csrs.vsatp >> ROOT_MODE_SHIFT == BARE {
        cache.held_place(mem, regs.hgatp, request.address, request.access)
    } else {
        None
    }
}

/// The host place of a virtual address, or the exception of an access there.
#[tactic(auto, unfolding(spec_processor::specs::HardwareMemory::translation_result))]
#[inline(always)]
pub(crate) fn translation_result(
    core: &Core,
    regs: &HRegs,
    cache: &mut Cache,
    mem: &HostMem,
    request: Request,
) -> Result<u64, Exception>
    requires ready { MayWalk mem.now regs.now.hgatp cache.old }
    ensures value { result ≡ translation_result mem.now (core_of core.now regs.now) request.access request.address request.htinst }
    ensures place { (width : ℕ) → IsWidth width → request.address % width ≡ 0 → IfOk result (λ hpa. IsHostPlace mem.now hpa width) }
    ensures ram { IfOk result (λ hpa. length mem.now.tables ≤ hpa) }
    ensures walked { Walked mem.now.tables regs.now.hgatp cache.old cache.new }
{
    match held_place(core, regs, cache, mem, request) {
        Some(hpa) => Ok(hpa),
        None => walked_translation(core, regs, cache, mem, request),
    }
}

/// The host place of `width` bytes at an address, or the exception of an access there: first that it is no multiple of
/// the width, then those of its translation.
#[tactic(auto, unfolding(spec_processor::specs::HardwareMemory::aligned_translation))]
#[inline(always)]
pub(crate) fn aligned_place(
    core: &Core,
    regs: &HRegs,
    cache: &mut Cache,
    mem: &HostMem,
    request: Request,
    width: u8,
) -> Result<u64, Exception>
    requires ready { MayWalk mem.now regs.now.hgatp cache.old }
    requires width { IsWidth width }
    ensures value { result ≡ aligned_translation mem.now (core_of core.now regs.now) request.access request.address width request.htinst }
    ensures place { IfOk result (λ hpa. IsHostPlace mem.now hpa width) }
    ensures ram { IfOk result (λ hpa. length mem.now.tables ≤ hpa) }
    ensures walked { Walked mem.now.tables regs.now.hgatp cache.old cache.new }
{
    if request.address.is_multiple_of(u64::from(width)) {
        translation_result(core, regs, cache, mem, request)
    } else {
        Err(plain_exception(misaligned_cause(request.access), request.address))
    }
}
