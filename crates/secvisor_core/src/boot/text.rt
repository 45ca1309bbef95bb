// The pages of an image's text.

ghost use Rattle.std.specs.Prelude.{◌≡◌, ◌<◌, length, replicate, slice_get, slice_set, Some, OnOk, OnErr, if◌then◌else◌};
ghost use Rattle.sv_types.specs.Kernel.{text_pages};
ghost use Rattle.sv_types.specs.declared.protection.Protection.TheVariants.{Free, Approved};
ghost use Rattle.spec_reference.specs.Protections.{with_each};
ghost use Rattle.page_guard.specs.Guarded.{TablesMatchGuard, TablesStayMatched};
ghost use Rattle.elf64_load.specs.Images.{segments_of};
ghost use Rattle.secvisor_core.specs.Placed.{ArePlaced};

use elf64_load::KernelImage;
use host_mem::HostMem;
use page_guard::Guard;
use std::alloc::{AllocError, Global};
use sv_types::Span;

/// Approves the pages of an image's text, where all pages are free. Fails where memory runs out, and then changes
/// nothing.
pub fn approve_text(
    alloc: Global,
    guard: &mut Guard,
    mem: &mut HostMem,
    image: &KernelImage,
) -> Result<(), AllocError>
    requires free { guard.old.pages ≡ replicate (length guard.old.pages) Free }
    requires tables_match { TablesMatchGuard mem.old guard.old }
    requires placed { ArePlaced (length guard.old.pages) (segments_of image.now) }
    ensures guard { OnOk result (guard.new.pages ≡ with_each guard.old.pages (text_pages (segments_of image.now)) Approved) }
    ensures kept { OnErr result ((guard.new ≡ guard.old) × (mem.new ≡ mem.old)) }
    ensures tables_match { TablesStayMatched mem.old mem.new guard.old guard.new }
{
    let owners = image.page_owners(alloc)?;
    let segments = image.segments.as_slice();
    let pages = mem.ram_pages();
    'pages: for page in 0..pages {
        let is_text = owners[page] < segments.len();
        approve_if(is_text, guard, mem, page as u32);
    }
    Ok(())
}

// Approves a free page if it is text.
fn approve_if(is_text: bool, guard: &mut Guard, mem: &mut HostMem, page: u32)
    requires free { slice_get guard.old.pages page ≡ Some Free }
    requires tables_match { TablesMatchGuard mem.old guard.old }
    ensures guard { guard.new.pages ≡ (if is_text then slice_set guard.old.pages page Approved else guard.old.pages) }
    ensures tables_match { TablesStayMatched mem.old mem.new guard.old guard.new }
{
    if is_text {
        approve_page(guard, mem, page);
    }
}

// Holds a free page and approves it.
#[tactic(auto, using(crate::proofs::FreePages::one_set, crate::proofs::FreePages::none_taken))]
fn approve_page(guard: &mut Guard, mem: &mut HostMem, page: u32)
    requires free { slice_get guard.old.pages page ≡ Some Free }
    requires tables_match { TablesMatchGuard mem.old guard.old }
    ensures guard { guard.new.pages ≡ slice_set guard.old.pages page Approved }
    ensures tables_match { TablesStayMatched mem.old mem.new guard.old guard.new }
{
    let span = Span {
        first: page,
        count: 1,
    };
    let Ok(hold) = guard.hold(mem, span) else {
        unreachable!();
    };
    guard.approve(mem, hold);
}
