// The turns of a load under way.

ghost use Rattle.std.specs.Prelude.{◌≡◌, ◌+◌, ◌-◌, ◌*◌, ◌<◌, ◌≤◌, ℕ, suc, Some, None, List, length, IfSome, OnSome, IsTrue, slice_get};
ghost use Rattle.spec_processor.specs.Bytes.{page_size, page_of, page_bytes};
ghost use Rattle.sv_types.specs.Policies.{rules_of, rules_within};
ghost use Rattle.sv_types.specs.declared.protection.Protection.{Protection};
ghost use Rattle.spec_reference.specs.ModuleCalls.{load_decision};
ghost use Rattle.spec_reference.specs.States.{pages_in_rule};
ghost use Rattle.spec_hardware.specs.GivenAnswers.{IsOfLoad};
ghost use Rattle.spec_hardware.specs.HwCalls.{hw_given};
ghost use Rattle.spec_hardware.specs.HwExits.{load_counted, served_load_turn};
ghost use Rattle.spec_hardware.specs.Machine.{Machine};
ghost use Rattle.module_gate.specs.Gates.{hw_load, with_digests};
ghost use Rattle.module_gate.specs.Conditions.{AreJoined, IsReadable};
ghost use Rattle.module_gate.specs.Parts.{with_modules, loading_of};

use crate::decisions::load_decision;
use crate::gate::Gate;
use crate::load::Load;
use crate::modules::Modules;
use host_mem::HostMem;
use spec_processor::page_of;
use spec_reference::{Answer, pages_of};
use sv_types::Policy;

/// The bytes of the next page of a load's module, as RAM has them now.
pub fn next_page<'a>(load: &Load, mem: &'a HostMem, policy: &Policy) -> &'a [u8]
    requires policy { pages_in_rule (slice_get (rules_of policy.now).modules load.now.about.id) ≡ load.now.pages }
    requires left { 0 < load.now.left }
    requires few { load.now.left ≤ load.now.pages }
    requires inside { page_size * (page_of load.now.about.gpa + load.now.pages) ≤ length mem.now.ram }
    ensures bytes { result.now ≡ page_bytes mem.now.ram (page_of load.now.about.gpa + (load.now.pages - load.now.left)) }
    ensures size { length result.now ≡ page_size }
{
    let about = load.about();
    let first = page_of(about.gpa);
    let ram_pages = mem.ram_pages() as u64;
    prove!(first < ram_pages);
    let counted = pages_of(policy, about.id) - load.left();
    mem.page(first as u32 + counted)
}

// Counts the next page of the module.
fn count_page(load: &mut Load, gate: &mut Gate, mem: &HostMem, policy: &Policy)
    requires within { IsTrue (rules_within (rules_of policy.now)) }
    requires policy { pages_in_rule (slice_get (rules_of policy.now).modules load.old.about.id) ≡ load.old.pages }
    requires left { 0 < load.old.left }
    requires tallied { length gate.old.digests + load.old.left ≡ load.old.pages }
    requires inside { page_size * (page_of load.old.about.gpa + load.old.pages) ≤ length mem.now.ram }
    ensures counted { (hart left : ℕ) → load.old.left ≡ suc left → hw_load hart (with_digests gate.new.digests load.new) ≡
        load_counted (rules_of policy.now) mem.now.ram
        (hw_load hart (with_digests gate.old.digests load.old)) left (slice_get (rules_of policy.now).modules load.old.about.id) }
    ensures pages { load.new.pages ≡ load.old.pages }
    ensures tallied { length gate.new.digests + load.new.left ≡ load.new.pages }
    ensures gate { gate.new ≡ record gate.old { digests = gate.new.digests } }
{
    load.page(gate, policy, next_page(load, mem, policy));
}

/// A turn of a load under way: the next page is counted, or, where none is left, the load's decision is the answer. None also
/// where no load is under way.
pub fn load_turn(mem: &HostMem, policy: &Policy, modules: &mut Modules) -> Option<Answer>
    requires within { IsTrue (rules_within (rules_of policy.now)) }
    requires joined { AreJoined (rules_of policy.now) modules.old }
    requires readable { IsReadable (rules_of policy.now) mem.now modules.old }
    ensures counted { result ≡ None → (m : Machine) (h : ℕ) (guard : List Protection) →
        with_modules m (rules_of policy.now) mem.now guard modules.new ≡ served_load_turn (with_modules m (rules_of policy.now) mem.now guard modules.old) h }
    ensures decided { IfSome result (λ answer. (m : Machine) (h : ℕ) (guard : List Protection) →
        served_load_turn (with_modules m (rules_of policy.now) mem.now guard modules.old) h ≡
        hw_given (with_modules m (rules_of policy.now) mem.now guard modules.old) h answer) }
    ensures given { IfSome result (λ answer. IsOfLoad (rules_of policy.now) (loading_of modules.old) answer.side_effect) }
    ensures kept { OnSome result (modules.new ≡ modules.old) }
    ensures joined { AreJoined (rules_of policy.now) modules.new }
{
    match &mut modules.loading {
        None => None,
        Some(pending) if pending.load.left() == 0 => {
            let good = pending.load.is_good(&modules.gate, policy);
            Some(load_decision(good, pending.load.about()))
        }
        Some(pending) => {
            count_page(&mut pending.load, &mut modules.gate, mem, policy);
            None
        }
    }
}
