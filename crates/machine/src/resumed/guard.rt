// The guard of a machine that goes on: all pages are free at first, and each party's are then approved.

ghost use Rattle.std.specs.Prelude.{◌≡◌, ◌*◌, ◌<◌, ◌≤◌, [], ◌∷◌, IfOk, length, replicate, true};
ghost use Rattle.std.specs.List.{list_all};
ghost use Rattle.spec_processor.specs.Bytes.{page_size};
ghost use Rattle.sv_types.specs.ApprovedPages.{numbers_from};
ghost use Rattle.sv_types.specs.Policies.{rules_of};
ghost use Rattle.sv_types.specs.declared.protection.Protection.TheVariants.{Free};
ghost use Rattle.gstage_tables.specs.Layout.{max_bound, table_size};
ghost use Rattle.spec_reference.specs.States.{module_pages};
ghost use Rattle.page_guard.specs.Guarded.{IsInRam, TablesMatchGuard, TablesStayMatched, Guards};
ghost use Rattle.snapshot_format.specs.Snapshots.{contents};
ghost use Rattle.snapshot_format.specs.Judgements.{approved_of, fits, is_guarded_right, loaded_pages};
ghost use Rattle.snapshot_format.specs.Taking.{left_of};
ghost use Rattle.machine.specs.Approving.{Approves, CanApprove};

use host_mem::HostMem;
use page_guard::Guard;
use snapshot_format::resume::is_retired;
use snapshot_format::{Snapshot, TextPage};
use spec_processor::page_of;
use spec_reference::pages_of;
use std::alloc::{AllocError, Global};
use sv_types::{ModulePlacement, Policy, Span};

/// The guard before a load under way: the text that isn't retired and the loaded modules are approved, and all other pages are
/// free. The snapshot is one of the policy's, in which no page is two parties', and RAM has as many pages as the policy says.
/// `bound` has the page that each entry is bound to. Out of memory is the one refusal.
pub fn approved_guard(
    alloc: Global,
    mem: &mut HostMem,
    policy: &Policy,
    snapshot: &Snapshot,
    bound: &[u32],
) -> Result<Guard, AllocError>
    requires few { length bound.now ≤ max_bound }
    requires tables { length mem.old.tables ≡ table_size policy.now.ram_pages (length bound.now) }
    requires ram { length mem.old.ram ≡ page_size * policy.now.ram_pages }
    requires modules { list_all (fits (rules_of policy.now)) (contents snapshot.now).modules ≡ true }
    requires right { is_guarded_right (rules_of policy.now) (contents snapshot.now) ≡ true }
    ensures guard { IfOk result (λ g. Approves (replicate policy.now.ram_pages Free) g.pages (approved_of (rules_of policy.now) (contents snapshot.now))) }
    ensures guards { IfOk result (λ g. Guards mem.new bound.now g) }
    ensures ram { mem.new.ram ≡ mem.old.ram }
{
    let mut guard = Guard::new(alloc, mem, bound)?;
    let machine = &snapshot.machine;
    approve_text(&mut guard, mem, policy, machine.retired, &snapshot.text);
    approve_modules(&mut guard, mem, policy, &machine.modules);
    Ok(guard)
}

// Approves the pages of the text but for the retired ones.
fn approve_text(
    guard: &mut Guard,
    mem: &mut HostMem,
    policy: &Policy,
    retired: bool,
    text: &[TextPage],
)
    requires free { CanApprove guard.old.pages (left_of (rules_of policy.now) retired text.now) }
    requires tables_match { TablesMatchGuard mem.old guard.old }
    ensures guard { Approves guard.old.pages guard.new.pages (left_of (rules_of policy.now) retired text.now) }
    ensures tables_match { TablesStayMatched mem.old mem.new guard.old guard.new }
{
    'pages: for page in text {
        approve_unretired(guard, mem, policy, retired, page);
    }
}

// Approves a page of the text unless it is retired.
fn approve_unretired(
    guard: &mut Guard,
    mem: &mut HostMem,
    policy: &Policy,
    retired: bool,
    page: &TextPage,
)
    requires free { CanApprove guard.old.pages (left_of (rules_of policy.now) retired (page.now ∷ [])) }
    requires tables_match { TablesMatchGuard mem.old guard.old }
    ensures guard { Approves guard.old.pages guard.new.pages (left_of (rules_of policy.now) retired (page.now ∷ [])) }
    ensures tables_match { TablesStayMatched mem.old mem.new guard.old guard.new }
{
    if !is_retired(policy, retired, page.page) {
        approve_page(guard, mem, page.page);
    }
}

// Approves a page that is free. One past the end has no protection to set.
fn approve_page(guard: &mut Guard, mem: &mut HostMem, page: u32)
    requires free { CanApprove guard.old.pages (page ∷ []) }
    requires tables_match { TablesMatchGuard mem.old guard.old }
    ensures guard { Approves guard.old.pages guard.new.pages (page ∷ []) }
    ensures tables_match { TablesStayMatched mem.old mem.new guard.old guard.new }
{
    if (page as usize) < guard.protections().len() {
        let span = Span {
            first: page,
            count: 1,
        };
        approve_span(guard, mem, span);
    }
}

// Approves the pages of each loaded module.
fn approve_modules(
    guard: &mut Guard,
    mem: &mut HostMem,
    policy: &Policy,
    modules: &[ModulePlacement],
)
    requires fitting { list_all (fits (rules_of policy.now)) modules.now ≡ true }
    requires pages { length guard.old.pages ≡ policy.now.ram_pages }
    requires free { CanApprove guard.old.pages (loaded_pages (rules_of policy.now) modules.now) }
    requires tables_match { TablesMatchGuard mem.old guard.old }
    ensures guard { Approves guard.old.pages guard.new.pages (loaded_pages (rules_of policy.now) modules.now) }
    ensures tables_match { TablesStayMatched mem.old mem.new guard.old guard.new }
{
    'modules: for about in modules {
        approve_module(guard, mem, policy, about);
    }
}

fn approve_module(guard: &mut Guard, mem: &mut HostMem, policy: &Policy, about: &ModulePlacement)
    requires fitting { fits (rules_of policy.now) about.now ≡ true }
    requires pages { length guard.old.pages ≡ policy.now.ram_pages }
    requires free { CanApprove guard.old.pages (module_pages (rules_of policy.now) about.now) }
    requires tables_match { TablesMatchGuard mem.old guard.old }
    ensures guard { Approves guard.old.pages guard.new.pages (module_pages (rules_of policy.now) about.now) }
    ensures tables_match { TablesStayMatched mem.old mem.new guard.old guard.new }
{
    let span = Span {
        first: page_of(about.gpa) as u32,
        count: pages_of(policy, about.id),
    };
    approve_span(guard, mem, span);
}

// Holds the pages of a span, which are all free, and approves them.
fn approve_span(guard: &mut Guard, mem: &mut HostMem, span: Span)
    requires inside { IsInRam guard.old.pages span }
    requires free { CanApprove guard.old.pages (numbers_from span.first span.count) }
    requires tables_match { TablesMatchGuard mem.old guard.old }
    ensures guard { Approves guard.old.pages guard.new.pages (numbers_from span.first span.count) }
    ensures tables_match { TablesStayMatched mem.old mem.new guard.old guard.new }
{
    let Ok(hold) = guard.hold(mem, span) else {
        unreachable!();
    };
    guard.approve(mem, hold);
}
