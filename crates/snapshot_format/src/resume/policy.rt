// Whether a snapshot is of a machine under a policy: its harts and pages, the entries that harts are in, and its modules.

ghost use Rattle.std.specs.Prelude.{◌≡◌, ◌*◌, is_some};
ghost use Rattle.std.specs.List.{list_all};
ghost use Rattle.spec_processor.specs.Bytes.{page_size, is_in_ram};
ghost use Rattle.sv_types.specs.Policies.{rules_of};
ghost use Rattle.spec_reference.specs.States.{binding_at};
ghost use Rattle.snapshot_format.specs.Snapshots.{contents};
ghost use Rattle.snapshot_format.specs.Judgements.{fits, is_bound, is_loaded, is_of_policy, load_fits};

use crate::Snapshot;
use spec_processor::{PAGE_BYTES, is_in_ram};
use spec_reference::pages_of;
use spec_reference::saved_machine::{SavedHart, SavedLoad};
use sv_types::{ModulePlacement, Policy};

/// Whether harts, pages, entries and modules of a snapshot are those of a policy's machine, with each module's pages in RAM.
#[tactic(auto, unfolding(crate::specs::Judgements::is_of_policy))]
pub fn is_of_policy(snapshot: &Snapshot, policy: &Policy) -> bool
    ensures { result ≡ is_of_policy (rules_of policy.now) (contents snapshot.now) }
{
    let machine = &snapshot.machine;
    machine.harts.len() as u64 == u64::from(policy.harts)
        && machine.protection.len() as u64 == u64::from(policy.ram_pages)
        && are_bound(policy, &machine.harts)
        && all_fit(policy, &machine.modules)
        && load_fits(policy, &machine.modules, &machine.loading)
}

// ---- harts

fn are_bound(policy: &Policy, harts: &[SavedHart]) -> bool
    ensures { result ≡ list_all (λ h. is_bound (rules_of policy.now) h.entry) harts.now }
{
    harts.iter().all(|hart| is_bound(policy, hart.entry))
}

// The entry that a hart is in is bound.
fn is_bound(policy: &Policy, entry: Option<u8>) -> bool
    ensures { result ≡ is_bound (rules_of policy.now) entry }
{
    match entry {
        None => true,
        Some(place) => has_binding(policy, usize::from(place)),
    }
}

#[tactic(auto, unfolding(spec_reference::specs::States::binding_at))]
fn has_binding(policy: &Policy, place: usize) -> bool
    ensures { result ≡ is_some (binding_at (rules_of policy.now) place) }
{
    let Some(_) = policy.entries.get(place) else {
        return false;
    };
    policy.bound.get(place).is_some()
}

// ---- modules

fn all_fit(policy: &Policy, modules: &[ModulePlacement]) -> bool
    ensures { result ≡ list_all (fits (rules_of policy.now)) modules.now }
{
    modules.iter().all(|about| fits(policy, about))
}

// So many pages from an address on lie in RAM.
fn are_in_ram(gpa: u64, pages: u32, ram_pages: u32) -> bool
    ensures { result ≡ is_in_ram gpa (page_size * pages) (page_size * ram_pages) }
{
    is_in_ram(
        gpa,
        PAGE_BYTES * u64::from(pages),
        PAGE_BYTES * u64::from(ram_pages),
    )
}

// A module of the policy, whose pages lie in RAM.
fn fits(policy: &Policy, about: &ModulePlacement) -> bool
    ensures { result ≡ fits (rules_of policy.now) about.now }
{
    about.id < policy.modules.len() as u64
        && are_in_ram(about.gpa, pages_of(policy, about.id), policy.ram_pages)
}

fn is_loaded(modules: &[ModulePlacement], id: u64) -> bool
    ensures { result ≡ is_loaded modules.now id }
{
    modules.iter().any(|about| about.id == id)
}

// The module of the load under way isn't loaded, and no more pages are left than it has.
fn load_fits(policy: &Policy, modules: &[ModulePlacement], loading: &Option<SavedLoad>) -> bool
    ensures { result ≡ load_fits (rules_of policy.now) modules.now loading.now }
{
    match loading {
        None => true,
        Some(load) => {
            fits(policy, &load.module)
                && !is_loaded(modules, load.module.id)
                && load.left <= pages_of(policy, load.module.id)
        }
    }
}
