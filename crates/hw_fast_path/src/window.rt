// The page that instructions are fetched from.

ghost use Rattle.std.specs.Prelude.{◌≡◌, ◌/◌, ◌%◌, ◌+◌, IfSome};
ghost use Rattle.spec_processor.specs.Bytes.{page_size, instruction_size};
ghost use Rattle.spec_processor.specs.Regions.{host_word};
ghost use Rattle.spec_processor.specs.Roots.{IsBare};
ghost use Rattle.hart.specs.Cores.{core_of};
ghost use Rattle.hw_fast_path.specs.Quick.{Fetches, Leads, MayTranslate, Translated, no_page};

use crate::memory::{Held, Lookup, Reference, Walks};
use hart::Core;
use host_mem::HostMem;
use hw_tlb::HartCaches;
use spec_processor::{Access, BARE, HRegs, INSTRUCTION_BYTES, PAGE_BYTES, ROOT_MODE_SHIFT};

/// What no page of an address has for its number.
const NO_PAGE: u64 = u64::MAX;

/// A page of virtual addresses, and the host place of its first byte, from where its instructions are fetched.
#[derive(Clone, Copy, Drop)]
pub(crate) struct Window {
    pub(crate) page: u64,
    pub(crate) host: u64,
}

impl Window {
    /// That of no page: no address has a page of this number.
    pub(crate) fn none() -> Window
        ensures { result ≡ record { page = no_page; host = 0 } }
    {
        Window {
            page: NO_PAGE,
            host: 0,
        }
    }

    /// What a store leaves of a window: with a first stage, whose tables lie in RAM, that of no page.
    #[inline(always)]
    pub(crate) fn behind_store(self, core: &Core) -> Window
        ensures bare { IsBare core.now.csrs.vsatp → result ≡ self }
        ensures paged { (IsBare core.now.csrs.vsatp → ⊥) → result.page ≡ no_page }
    {
        if core.csrs.vsatp >> ROOT_MODE_SHIFT == BARE {
            self
        } else {
            Window {
                page: NO_PAGE,
                host: self.host,
            }
        }
    }

    /// The word of the instruction at the pc, which lies in the window's page.
    #[inline(always)]
    pub(crate) fn word(self, core: &Core, regs: &HRegs, mem: &HostMem) -> u32
        requires page { core.now.pc / page_size ≡ self.page }
        requires aligned { core.now.pc % instruction_size ≡ 0 }
        requires leads { Leads mem.now (core_of core.now regs.now) self.page self.host }
        ensures { result ≡ host_word mem.now (self.host + core.now.pc % page_size) 4 }
    {
        let _table_bytes = mem.table_bytes();
        mem.read(
            (self.host + core.pc % PAGE_BYTES) as usize,
            INSTRUCTION_BYTES as u8,
        ) as u32
    }
}

/// The window of the pc's page: the one that stands there, or the one that translation gives. None where the fetch is
/// refused.
#[inline(always)]
pub(crate) fn at_pc(
    core: &Core,
    regs: &HRegs,
    caches: &mut HartCaches,
    mem: &HostMem,
    window: Window,
) -> Option<Window>
    requires may { MayTranslate mem.now regs.now.hgatp caches.old.second caches.old.both }
    requires leads { Leads mem.now (core_of core.now regs.now) window.page window.host }
    ensures page { IfSome result (λ at. core.now.pc / page_size ≡ at.page) }
    ensures leads { IfSome result (λ at. Leads mem.now (core_of core.now regs.now) at.page at.host) }
    ensures translated { Translated mem.now.tables regs.now.hgatp caches.old.second caches.new.second caches.new.both }
{
    if core.pc / PAGE_BYTES == window.page {
        Some(window)
    } else {
        find_window(core, regs, caches, mem)
    }
}

/// The word of the instruction at the pc, where its translation is held.
#[inline(always)]
pub(crate) fn word_at_pc(
    core: &Core,
    regs: &HRegs,
    caches: &mut HartCaches,
    mem: &HostMem,
) -> Option<u32>
    requires may { MayTranslate mem.now regs.now.hgatp caches.old.second caches.old.both }
    requires aligned { core.now.pc % instruction_size ≡ 0 }
    ensures fetched { IfSome result (Fetches mem.now (core_of core.now regs.now)) }
    ensures translated { Translated mem.now.tables regs.now.hgatp caches.old.second caches.new.second caches.new.both }
{
    let _table_bytes = mem.table_bytes();
    let fetch = Reference {
        access: Access::Fetch,
        address: core.pc,
        width: INSTRUCTION_BYTES as u8,
    };
    match Held::place(core, regs, caches, mem, fetch) {
        Some(hpa) => Some(mem.read(hpa as usize, INSTRUCTION_BYTES as u8) as u32),
        None => None,
    }
}

// The window of the pc's page by translation.
fn find_window(core: &Core, regs: &HRegs, caches: &mut HartCaches, mem: &HostMem) -> Option<Window>
    requires may { MayTranslate mem.now regs.now.hgatp caches.old.second caches.old.both }
    ensures page { IfSome result (λ at. core.now.pc / page_size ≡ at.page) }
    ensures leads { IfSome result (λ at. Leads mem.now (core_of core.now regs.now) at.page at.host) }
    ensures translated { Translated mem.now.tables regs.now.hgatp caches.old.second caches.new.second caches.new.both }
{
    let _table_bytes = mem.table_bytes();
    let fetch = Reference {
        access: Access::Fetch,
        address: core.pc,
        width: INSTRUCTION_BYTES as u8,
    };
    match Walks::place(core, regs, caches, mem, fetch) {
        Some(hpa) => Some(Window {
            page: core.pc / PAGE_BYTES,
            host: hpa - hpa % PAGE_BYTES,
        }),
        None => None,
    }
}
