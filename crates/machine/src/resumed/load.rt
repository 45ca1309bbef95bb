// The load under way of a machine that goes on. Nothing that was kept of its pages is believed: they are counted again.

ghost use Rattle.std.specs.Prelude.{◌≡◌, ◌+◌, ◌<◌, ◌≤◌, IfSome, IsTrue, Some, length, option_map};
ghost use Rattle.sv_types.specs.Policies.{rules_of, rules_within};
ghost use Rattle.sv_types.specs.declared.protection.Protection.TheVariants.{Held};
ghost use Rattle.spec_reference.specs.States.{module_pages};
ghost use Rattle.page_guard.specs.Guarded.{TablesMatchGuard, TablesStayMatched};
ghost use Rattle.module_gate.specs.Conditions.{IsTallied, TakesItsPages};
ghost use Rattle.module_gate.specs.Gates.{with_digests};
ghost use Rattle.module_gate.specs.Parts.{load_of};
ghost use Rattle.snapshot_format.specs.Judgements.{load_pages, take_pages};
ghost use Rattle.laws_resume.specs.Resuming.{load_resumed};
ghost use Rattle.machine.specs.Approving.{CanTake};
ghost use Rattle.machine.specs.Counting.{IsCounted, IsWithin};

use host_mem::HostMem;
use module_gate::{Gate, Load, PendingLoad, next_page};
use page_guard::Guard;
use spec_reference::pages_of;
use spec_reference::saved_machine::SavedLoad;
use sv_types::Policy;

/// The load under way, where the snapshot has one. None is under way yet in this gate.
pub fn resume_loading(
    gate: &mut Gate,
    guard: &mut Guard,
    mem: &mut HostMem,
    policy: &Policy,
    loading: &Option<SavedLoad>,
) -> Option<PendingLoad>
    requires within { IsTrue (rules_within (rules_of policy.now)) }
    requires pages { length guard.old.pages ≡ policy.now.ram_pages }
    requires place { IfSome loading.now (IsWithin (rules_of policy.now)) }
    requires free { CanTake Held guard.old.pages (load_pages (rules_of policy.now) loading.now) }
    requires tables_match { TablesMatchGuard mem.old guard.old }
    ensures load { option_map (load_of gate.new) result ≡ option_map (load_resumed (rules_of policy.now) mem.old.ram) loading.now }
    ensures digests { IfSome result (IsTallied gate.new) }
    ensures pages { IfSome result (TakesItsPages (rules_of policy.now)) }
    ensures gate { gate.new ≡ record gate.old { digests = gate.new.digests } }
    ensures guard { take_pages Held guard.old.pages (load_pages (rules_of policy.now) loading.now) ≡ Some guard.new.pages }
    ensures tables_match { TablesStayMatched mem.old mem.new guard.old guard.new }
{
    match loading {
        Some(saved) => Some(resume_load(gate, guard, mem, policy, saved)),
        None => None,
    }
}

// A load under way: its pages are held, and as many of them counted as were counted before, as RAM has them now.
fn resume_load(
    gate: &mut Gate,
    guard: &mut Guard,
    mem: &mut HostMem,
    policy: &Policy,
    saved: &SavedLoad,
) -> PendingLoad
    requires within { IsTrue (rules_within (rules_of policy.now)) }
    requires pages { length guard.old.pages ≡ policy.now.ram_pages }
    requires place { IsWithin (rules_of policy.now) saved.now }
    requires free { CanTake Held guard.old.pages (module_pages (rules_of policy.now) saved.now.«module») }
    requires tables_match { TablesMatchGuard mem.old guard.old }
    ensures load { load_of gate.new result ≡ load_resumed (rules_of policy.now) mem.old.ram saved.now }
    ensures digests { IsTallied gate.new result }
    ensures pages { TakesItsPages (rules_of policy.now) result }
    ensures gate { gate.new ≡ record gate.old { digests = gate.new.digests } }
    ensures guard { take_pages Held guard.old.pages (module_pages (rules_of policy.now) saved.now.«module») ≡ Some guard.new.pages }
    ensures tables_match { TablesStayMatched mem.old mem.new guard.old guard.new }
{
    let mut load = gate.begin(guard, mem, policy, saved.module);
    let counted = pages_of(policy, saved.module.id) - saved.left;
    count_pages(&mut load, gate, mem, policy, counted);
    PendingLoad {
        hart: saved.hart,
        load,
    }
}

// Counts so many more pages of the module.
fn count_pages(load: &mut Load, gate: &mut Gate, mem: &HostMem, policy: &Policy, count: u32)
    requires within { IsTrue (rules_within (rules_of policy.now)) }
    requires counted { IsCounted (rules_of policy.now) mem.now.ram (with_digests gate.old.digests load.old) }
    requires some { count ≤ load.old.left }
    ensures counted { IsCounted (rules_of policy.now) mem.now.ram (with_digests gate.new.digests load.new) }
    ensures gate { gate.new ≡ record gate.old { digests = gate.new.digests } }
    ensures left { load.new.left + count ≡ load.old.left }
    ensures about { load.new.about ≡ load.old.about }
    ensures pages { load.new.pages ≡ load.old.pages }
{
    'counted: for _ in 0..count {
        count_next(load, gate, mem, policy);
    }
}

// Counts the next page.
fn count_next(load: &mut Load, gate: &mut Gate, mem: &HostMem, policy: &Policy)
    requires within { IsTrue (rules_within (rules_of policy.now)) }
    requires counted { IsCounted (rules_of policy.now) mem.now.ram (with_digests gate.old.digests load.old) }
    requires left { 0 < load.old.left }
    ensures counted { IsCounted (rules_of policy.now) mem.now.ram (with_digests gate.new.digests load.new) }
    ensures gate { gate.new ≡ record gate.old { digests = gate.new.digests } }
    ensures left { load.new.left + 1 ≡ load.old.left }
    ensures about { load.new.about ≡ load.old.about }
    ensures pages { load.new.pages ≡ load.old.pages }
{
    load.page(gate, policy, next_page(load, mem, policy));
}
