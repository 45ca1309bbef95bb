// The policy of a kernel and its modules.

ghost use Rattle.std.specs.Prelude.{◌≡◌, true, Ok, map, IfOk, IfErr};
ghost use Rattle.sv_types.specs.Policies.{module_rule, rules_of, rules_within};
ghost use Rattle.policy_making.specs.Making as spec;
ghost use Rattle.policy_making.specs.Ranges.{terms_within};
ghost use Rattle.policy_making.specs.Refusals.{Refuses};
ghost use Rattle.policy_making.specs.WordRanges.{are_module_names};

use crate::exports::wanted_exports;
use crate::modules::made_modules;
use crate::object_file::ObjectFile;
use crate::refusal::{MakingFault, MakingRefusal};
use policy_limits::MAX_SITES;
use std::alloc::Global;
use std::thread::Threads;
use sv_types::{Digest, ModulePolicy, Name, PLAIN_FORMAT, Policy, Span};

/// A kernel's file, with the digest of its text.
#[derive(Drop)]
pub struct MeasuredKernel {
    pub file: Vec<u8>,
    pub digest: Digest,
}

/// What a policy says besides its files.
#[derive(Drop)]
pub struct Settings {
    pub harts: u8,
    pub ram_pages: u32,
    pub entries: Vec<u64>,
    pub init: Option<Span>,
}

// The modules' sites together are few enough.
fn few_sites(modules: &[ModulePolicy]) -> bool
    ensures { result ≡ spec.few_sites (map module_rule modules.now) }
{
    let mut room = MAX_SITES;
    'modules: for module in modules {
        if module.sites.len() > room {
            return false;
        }
        room -= module.sites.len();
    }
    true
}

fn if_few_sites(policy: Policy) -> Result<Policy, MakingRefusal>
    ensures policy { IfOk result (λ made. spec.if_few_sites (rules_of policy) ≡ Ok (rules_of made)) }
    ensures refused { IfErr result (Refuses (spec.if_few_sites (rules_of policy))) }
{
    if few_sites(&policy.modules) {
        Ok(policy)
    } else {
        Err(MakingRefusal::Fault(MakingFault::TooManySites))
    }
}

/// The policy of a kernel whose digest is known, and of modules, of which these names are wanted. Refuses the exports, the
/// objects and more than 131,072 sites of all modules, and when out of memory. Where the settings are in their ranges and
/// the objects have names of modules, the policy is within its limits.
#[tactic(auto, unfolding(crate::specs::Making::policy_after), using(crate::proofs::Refused::refused_on))]
pub fn policy_after<R: Threads + Sync>(
    rt: &R,
    alloc: Global,
    settings: Settings,
    kernel: &MeasuredKernel,
    names: &[Name],
    objects: &[ObjectFile],
) -> Result<Policy, MakingRefusal>
    ensures policy { IfOk result (λ policy.
        spec.policy_after (spec.terms_of settings) kernel.now.file.items kernel.now.digest names.now (map spec.file_of objects.now) ≡ Ok (rules_of policy)) }
    ensures within { terms_within (spec.terms_of settings) ≡ true → are_module_names (spec.file_names (map spec.file_of objects.now)) ≡ true →
        IfOk result (λ policy. rules_within (rules_of policy) ≡ true) }
    ensures refused { IfErr result
        (Refuses (spec.policy_after (spec.terms_of settings) kernel.now.file.items kernel.now.digest names.now (map spec.file_of objects.now))) }
{
    let exports = wanted_exports(alloc, &kernel.file, names)?;
    let modules = made_modules(rt, alloc, &exports, objects)?;
    let Settings {
        harts,
        ram_pages,
        entries,
        init,
    } = settings;
    if_few_sites(Policy {
        format: PLAIN_FORMAT,
        harts,
        ram_pages,
        entries,
        bound: Vec::new(alloc),
        exports,
        kernel: kernel.digest,
        init,
        modules,
    })
}
