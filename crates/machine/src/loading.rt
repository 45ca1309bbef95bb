// What is seen of a load under way.

ghost use Rattle.std.specs.Prelude.{◌≡◌, Some, is_some, option_map, slice_get};
ghost use Rattle.sv_types.specs.Policies.{ModuleRule, rules_of};
ghost use Rattle.spec_reference.specs.Loads.{is_as_measured, module_text};
ghost use Rattle.spec_reference.specs.SavedStates.{saved_load};
ghost use Rattle.spec_reference.specs.States.{State, Loading};
ghost use Rattle.spec_hardware.specs.StandsFor.{StandsFor};
ghost use Rattle.module_gate.specs.Parts.{loading_of};
ghost use Rattle.machine.specs.Keeping.{kept_load};
ghost use Rattle.machine.specs.Measured.{hw_is_measured, measures};

use crate::events::System;
use crate::machine::Machine;
use crate::saved::saved_loading;
use module_gate::Modules;
use page_measure::join_digests;
use spec_reference::saved_machine::SavedLoad;
use sv_types::{Digest, Policy};

impl Machine {
    /// Whether a load is under way.
    #[inline(always)]
    pub fn is_loading(&self) -> bool
        ensures { result ≡ is_some self.now.loading }
    {
        self.system.visor.modules.is_loading()
    }

    /// The load under way, as plain data.
    pub fn load_under_way(&self) -> Option<SavedLoad>
        ensures { (r : State) → StandsFor self.now r → result ≡ option_map saved_load r.loading }
    {
        load_of(&self.system)
    }

    /// Whether the text of the load under way, of which all pages are counted, measures as the policy says.
    pub fn is_measured(&self) -> bool
        ensures { (r : State) (load : Loading) (rule : ModuleRule) → StandsFor self.now r → r.loading ≡ Some load → load.left ≡ 0 →
            slice_get r.rules.modules load.about.id ≡ Some rule → result ≡ is_as_measured rule (module_text r.ram load.about rule.pages) }
    {
        is_measured_in(&self.system)
    }

    /// The policy.
    pub fn policy(&self) -> &Policy
        ensures { rules_of result.now ≡ self.now.rules }
    {
        policy_of(&self.system)
    }
}

fn load_of(system: &System) -> Option<SavedLoad>
    ensures { result ≡ option_map kept_load system.now.loading }
{
    saved_loading(&system.visor.modules)
}

fn is_measured_in(system: &System) -> bool
    ensures { result ≡ hw_is_measured system.now.rules system.now.loading }
{
    is_measured_by(&system.visor.modules, &system.visor.policy)
}

fn policy_of(system: &System) -> &Policy
    ensures { rules_of result.now ≡ system.now.rules }
{
    &system.visor.policy
}

#[tactic(auto, unfolding(crate::specs::Measured::hw_is_measured))]
fn is_measured_by(modules: &Modules, policy: &Policy) -> bool
    ensures { result ≡ hw_is_measured (rules_of policy.now) (loading_of modules.now) }
{
    let Some(pending) = &modules.loading else {
        return false;
    };
    measures(modules.gate.digests(), policy, pending.load.about().id)
}

// Whether these are the digests of the pages of a module of the policy.
#[tactic(auto, unfolding(crate::specs::Measured::measures))]
fn measures(digests: &[Digest], policy: &Policy, id: u64) -> bool
    ensures { result ≡ measures digests.now (slice_get (rules_of policy.now).modules id) }
{
    match policy.modules.get(id as usize) {
        None => false,
        Some(rule) => join_digests(digests) == rule.measure,
    }
}
