// Where a module may be loaded.

ghost use Rattle.std.specs.Prelude.{◌≡◌};
ghost use Rattle.std.specs.List.{list_any};
ghost use Rattle.sv_types.specs.ApprovedPages.{numbers_from};
ghost use Rattle.page_guard.specs.Guarded.{TablesMatchGuard};
ghost use Rattle.module_gate.specs.Gates.{is_place, is_good_place};
ghost use Rattle.spec_reference.specs.Protections.{is_taken};

use crate::rules::pages_at;
use host_mem::HostMem;
use page_guard::Guard;
use spec_processor::PAGE_BYTES;
use sv_types::{ModulePlacement, Protection, Span};

// Whether both addresses are multiples of a page's bytes, and so many pages from the first on are in RAM.
fn is_place(mem: &HostMem, gpa: u64, va: u64, count: u32) -> bool
    ensures { result ≡ is_place mem.now.ram gpa va count }
{
    gpa % PAGE_BYTES == 0
        && va % PAGE_BYTES == 0
        && mem.place_in_ram(gpa, PAGE_BYTES * count as u64).is_some()
}

// Whether a page is approved or held.
fn is_taken(guard: &Guard, page: usize) -> bool
    ensures { result ≡ is_taken guard.now.pages page }
{
    match guard.protections().get(page).copied() {
        None | Some(Protection::Free) => false,
        Some(Protection::Held | Protection::Approved) => true,
    }
}

// Whether a page of a span is approved or held.
fn any_taken(guard: &Guard, span: Span) -> bool
    ensures { result ≡ list_any (is_taken guard.now.pages) (numbers_from span.first span.count) }
{
    'tested: for i in 0..span.count {
        if is_taken(guard, span.first as usize + i as usize) {
            return true;
        }
    }
    false
}

/// Whether so many pages of a module may be loaded at its addresses: these are multiples of a page's bytes, and the pages are
/// in RAM and free.
#[tactic(auto, unfolding(crate::specs::Gates::is_good_place))]
pub fn is_good_place(guard: &Guard, mem: &HostMem, about: &ModulePlacement, pages: u32) -> bool
    requires { TablesMatchGuard mem.now guard.now }
    ensures { result ≡ is_good_place mem.now.ram guard.now.pages about.now pages }
{
    is_place(mem, about.gpa, about.va, pages) && !any_taken(guard, pages_at(about.gpa, pages))
}
