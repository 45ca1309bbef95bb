// The kernel's pages among those of the init span.

ghost use Rattle.std.specs.Prelude.{◌≡◌, ◌<◌, ◌-◌, ◌&&◌, length, nat_le, nat_lt};
ghost use Rattle.sv_types.specs.Policies.{rules_of};
ghost use Rattle.sv_types.specs.declared.protection.Protection.TheVariants.{Free};
ghost use Rattle.spec_reference.specs.Protections.{protection_at, freed_one, with_each};
ghost use Rattle.spec_reference.specs.States.{has_number, module_pages};
ghost use Rattle.page_guard.specs.Guarded.{TablesMatchGuard, TablesStayMatched, IsInRam};
ghost use Rattle.module_gate.specs.Retiring.{is_modules, is_kernels, kernel_pages};

use host_mem::HostMem;
use page_guard::Guard;
use spec_processor::page_of;
use spec_reference::pages_of;
use sv_types::{ModulePlacement, Policy, Span};

// Whether a page is one of so many from the first one on.
fn is_between(first: u64, count: u32, page: u32) -> bool
    ensures { result ≡ (nat_le first page && nat_lt (page - first) count) }
{
    first <= page as u64 && page as u64 - first < count as u64
}

// Whether a page is one of a loaded module.
fn is_page_of(policy: &Policy, about: &ModulePlacement, page: u32) -> bool
    ensures { result ≡ has_number (module_pages (rules_of policy.now) about.now) page }
{
    is_between(page_of(about.gpa), pages_of(policy, about.id), page)
}

// Whether a page is one of the loaded modules'.
fn is_modules(policy: &Policy, loaded: &[ModulePlacement], page: u32) -> bool
    ensures { result ≡ is_modules (rules_of policy.now) loaded.now page }
{
    loaded.iter().any(|about| is_page_of(policy, about, page))
}

// Whether a page is approved and no module's.
fn is_kernels(guard: &Guard, policy: &Policy, loaded: &[ModulePlacement], page: u32) -> bool
    requires { page < length guard.now.pages }
    ensures { result ≡ is_kernels (rules_of policy.now) loaded.now page (protection_at guard.now.pages page) }
{
    guard.protection(page).is_approved() && !is_modules(policy, loaded, page)
}

// Frees a page if it is approved and no module's.
fn free_page(
    guard: &mut Guard,
    mem: &mut HostMem,
    policy: &Policy,
    loaded: &[ModulePlacement],
    page: u32,
)
    requires inside { page < length guard.old.pages }
    requires tables_match { TablesMatchGuard mem.old guard.old }
    ensures guard { guard.new.pages ≡ freed_one (is_kernels (rules_of policy.now) loaded.now) guard.old.pages page }
    ensures tables_match { TablesStayMatched mem.old mem.new guard.old guard.new }
{
    if is_kernels(guard, policy, loaded, page) {
        guard.unapprove(
            mem,
            Span {
                first: page,
                count: 1,
            },
        );
    }
}

/// Frees the pages of a span that are approved and no module's.
pub fn free_pages(
    guard: &mut Guard,
    mem: &mut HostMem,
    policy: &Policy,
    loaded: &[ModulePlacement],
    span: Span,
)
    requires inside { IsInRam guard.old.pages span }
    requires tables_match { TablesMatchGuard mem.old guard.old }
    ensures guard { guard.new.pages ≡ with_each guard.old.pages (kernel_pages (rules_of policy.now) loaded.now guard.old.pages span) Free }
    ensures tables_match { TablesStayMatched mem.old mem.new guard.old guard.new }
{
    'pages: for i in 0..span.count {
        free_page(guard, mem, policy, loaded, span.first + i);
    }
}
