// What an answer does to pages and modules.

ghost use Rattle.std.specs.Prelude.{◌≡◌, [], false, true, Some, None, IsTrue, IsSome, IfSome, slice_get};
ghost use Rattle.sv_types.specs.Policies.{rules_of, rules_within};
ghost use Rattle.sv_types.specs.declared.protection.Protection.TheVariants.{Free, Held, Approved};
ghost use Rattle.spec_reference.specs.States.{with_module, pages_in_rule};
ghost use Rattle.spec_hardware.specs.HwCalls.{hw_pages_side_effect};
ghost use Rattle.spec_hardware.specs.GivenAnswers.{IsGiven};
ghost use Rattle.spec_hardware.specs.HwExits.{with_tables};
ghost use Rattle.spec_hardware.specs.Machine.{Machine};
ghost use Rattle.page_guard.specs.Guarded.{with_span, TablesMatchGuard, TablesStayMatched};
ghost use Rattle.module_gate.specs.Gates.{new_load, is_good_place, load_span};
ghost use Rattle.module_gate.specs.Changes.{sets_protections};
ghost use Rattle.module_gate.specs.Conditions.{AreJoined, AreGuarded, MayEnd};
ghost use Rattle.module_gate.specs.Parts.{with_modules, loading_of, facts_in};

use crate::modules::{Modules, PendingLoad, put_load};
use host_mem::HostMem;
use page_guard::Guard;
use spec_reference::SideEffect;
use sv_types::{ModulePlacement, Policy};

// A load begins.
fn begin_load(
    hart: u8,
    guard: &mut Guard,
    mem: &mut HostMem,
    policy: &Policy,
    modules: &mut Modules,
    about: ModulePlacement,
)
    requires within { IsTrue (rules_within (rules_of policy.now)) }
    requires tables_match { TablesMatchGuard mem.old guard.old }
    requires known { IsSome (slice_get (rules_of policy.now).modules about.id) }
    requires none { modules.old.loading ≡ None }
    requires place { is_good_place mem.old.ram guard.old.pages about (pages_in_rule (slice_get (rules_of policy.now).modules about.id)) ≡ true }
    ensures modules { modules.new ≡
        record {
          gate = record modules.old.gate { digests = [] };
          loading = Some (record { hart = hart; load = new_load about (pages_in_rule (slice_get (rules_of policy.now).modules about.id)) });
        } }
    ensures guard { guard.new.pages ≡
        with_span guard.old.pages (load_span (new_load about (pages_in_rule (slice_get (rules_of policy.now).modules about.id)))) Held }
    ensures tables_match { TablesStayMatched mem.old mem.new guard.old guard.new }
{
    let load = modules.gate.begin(guard, mem, policy, about);
    put_load(modules, hart, load);
}

// The load under way ends, and its pages are approved.
fn approve_load(guard: &mut Guard, mem: &mut HostMem, modules: &mut Modules)
    requires tables_match { TablesMatchGuard mem.old guard.old }
    requires may { IfSome modules.old.loading (MayEnd guard.old.pages modules.old.gate.loaded) }
    requires there { IsSome modules.old.loading }
    requires counted { IfSome modules.old.loading (λ u. u.load.left ≡ 0) }
    ensures modules { IfSome modules.old.loading (λ u. modules.new ≡
        record { gate = record modules.old.gate { loaded = with_module modules.old.gate.loaded u.load.about }; loading = None }) }
    ensures guard { IfSome modules.old.loading (λ u. guard.new.pages ≡ with_span guard.old.pages (load_span u.load) Approved) }
    ensures tables_match { TablesStayMatched mem.old mem.new guard.old guard.new }
{
    let Some(PendingLoad { hart: _, load }) = modules.loading.take() else {
        unreachable!();
    };
    load.approve(&mut modules.gate, guard, mem);
}

// The load under way ends, and its pages are free again.
fn release_load(guard: &mut Guard, mem: &mut HostMem, modules: &mut Modules)
    requires tables_match { TablesMatchGuard mem.old guard.old }
    requires may { IfSome modules.old.loading (MayEnd guard.old.pages modules.old.gate.loaded) }
    requires there { IsSome modules.old.loading }
    ensures modules { modules.new ≡ record modules.old { loading = None } }
    ensures guard { IfSome modules.old.loading (λ u. guard.new.pages ≡ with_span guard.old.pages (load_span u.load) Free) }
    ensures tables_match { TablesStayMatched mem.old mem.new guard.old guard.new }
{
    let Some(PendingLoad { hart: _, load }) = modules.loading.take() else {
        unreachable!();
    };
    load.release(guard, mem);
}

/// Does to pages and modules what happens besides a reply. It is what a call, or the end of the load under way, is answered.
/// Says whether it set protections.
#[tactic(auto, unfolding(spec_hardware::specs::HwCalls::hw_pages_side_effect, crate::specs::Changes::sets_protections))]
pub fn give_pages(
    hart: u8,
    guard: &mut Guard,
    mem: &mut HostMem,
    policy: &Policy,
    modules: &mut Modules,
    side_effect: &SideEffect,
) -> bool
    requires within { IsTrue (rules_within (rules_of policy.now)) }
    requires tables_match { TablesMatchGuard mem.old guard.old }
    requires joined { AreJoined (rules_of policy.now) modules.old }
    requires guarded { AreGuarded (rules_of policy.now) guard.old.pages modules.old.gate.loaded (loading_of modules.old) }
    requires given { IsGiven (facts_in [] [] (rules_of policy.now) mem.old.ram guard.old.pages modules.old) (loading_of modules.old) side_effect.now }
    ensures machine { (m : Machine) → with_modules m (rules_of policy.now) mem.new guard.new.pages modules.new ≡
        with_tables (hw_pages_side_effect side_effect.now hart (with_modules m (rules_of policy.now) mem.old guard.old.pages modules.old)) mem.new.tables }
    ensures changed { result ≡ sets_protections side_effect.now }
    ensures kept { result ≡ false → (guard.new ≡ guard.old) × (mem.new ≡ mem.old) }
    ensures joined { AreJoined (rules_of policy.now) modules.new }
    ensures tables_match { TablesStayMatched mem.old mem.new guard.old guard.new }
{
    match *side_effect {
        SideEffect::BeginsLoad { about, pages: _ } => {
            begin_load(hart, guard, mem, policy, modules, about);
        }
        SideEffect::ApprovesModule { about: _ } => approve_load(guard, mem, modules),
        SideEffect::ReleasesModule { about: _ } => release_load(guard, mem, modules),
        SideEffect::UnloadsModule { about } => modules.gate.unload(guard, mem, policy, &about),
        SideEffect::RetiresInit { span } => modules.gate.retire(guard, mem, policy, span),
        _ => return false,
    }
    true
}
