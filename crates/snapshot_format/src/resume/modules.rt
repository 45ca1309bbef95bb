// Whether the loaded modules of a snapshot are as they were measured.

ghost use Rattle.std.specs.Prelude.{◌≡◌, ◌+◌, ◌*◌, ◌≤◌, ◌%◌, IfOk, IsTrue, Some, length, slice_get, true};
ghost use Rattle.std.specs.List.{list_all};
ghost use Rattle.spec_processor.specs.Bytes.{page_size, ram_base, ram_offset};
ghost use Rattle.sv_types.specs.Policies.{module_rule, rules_of, rules_within};
ghost use Rattle.spec_reference.specs.Loads.{is_as_measured, is_good_load, module_bases, module_text};
ghost use Rattle.spec_reference.specs.Relocations as relocated;
ghost use Rattle.snapshot_format.specs.Snapshots.{contents};
ghost use Rattle.snapshot_format.specs.Judgements.{fits, has_modules, is_of_policy};
ghost use Rattle.snapshot_format.specs.ModuleSites.{LieIn};

use crate::Snapshot;
use page_measure::fields::{fields_right, mask};
use page_measure::{Silent, measure};
use spec_processor::{PAGE_SIZE, ram_offset};
use std::alloc::{AllocError, Global};
use std::thread::Threads;
use sv_types::{Bases, ModulePlacement, ModulePolicy, Policy, Site};

/// Whether each loaded module of a snapshot is as it was measured, with its fields right for its addresses. The snapshot is of
/// a machine under this policy, whose values are within their limits. Out of memory is the one refusal.
#[tactic(auto, unfolding(crate::specs::Judgements::has_modules))]
pub fn has_modules<R: Threads + Sync>(
    rt: &R,
    alloc: Global,
    snapshot: &Snapshot,
    policy: &Policy,
) -> Result<bool, AllocError>
    requires within { IsTrue (rules_within (rules_of policy.now)) }
    requires policy { is_of_policy (rules_of policy.now) (contents snapshot.now) ≡ true }
    requires ram { length (contents snapshot.now).ram ≡ page_size * length (contents snapshot.now).protection }
    ensures { IfOk result (λ good. good ≡ has_modules (rules_of policy.now) (contents snapshot.now)) }
{
    let machine = &snapshot.machine;
    are_good(rt, alloc, policy, &machine.ram, &machine.modules)
}

fn are_good<R: Threads + Sync>(
    rt: &R,
    alloc: Global,
    policy: &Policy,
    ram: &[u8],
    modules: &[ModulePlacement],
) -> Result<bool, AllocError>
    requires within { IsTrue (rules_within (rules_of policy.now)) }
    requires fitting { list_all (fits (rules_of policy.now)) modules.now ≡ true }
    requires ram { length ram.now ≡ page_size * policy.now.ram_pages }
    ensures { IfOk result (λ good. good ≡
        list_all (λ m. is_good_load (rules_of policy.now) ram.now m (slice_get (rules_of policy.now).modules m.id)) modules.now) }
{
    'modules: for about in modules {
        if !is_good_load(rt, alloc, policy, ram, about)? {
            return Ok(false);
        }
    }
    Ok(true)
}

// A module is one of the policy, as it was measured and with its fields right for its addresses.
fn is_good_load<R: Threads + Sync>(
    rt: &R,
    alloc: Global,
    policy: &Policy,
    ram: &[u8],
    about: &ModulePlacement,
) -> Result<bool, AllocError>
    requires within { IsTrue (rules_within (rules_of policy.now)) }
    requires fitting { fits (rules_of policy.now) about.now ≡ true }
    requires ram { length ram.now ≡ page_size * policy.now.ram_pages }
    ensures { IfOk result (λ good. good ≡ is_good_load (rules_of policy.now) ram.now about.now (slice_get (rules_of policy.now).modules about.now.id)) }
{
    let Some(rule) = policy.modules.get(about.id as usize) else {
        return Ok(false);
    };
    is_as_ruled(rt, alloc, policy, ram, about, rule)
}

// A module of this rule is as it was measured, with its fields right for its addresses.
#[tactic(auto, unfolding(spec_reference::specs::Loads::is_good_load))]
fn is_as_ruled<R: Threads + Sync>(
    rt: &R,
    alloc: Global,
    policy: &Policy,
    ram: &[u8],
    about: &ModulePlacement,
    rule: &ModulePolicy,
) -> Result<bool, AllocError>
    requires above { ram_base ≤ about.now.gpa }
    requires below { ram_offset about.now.gpa + page_size * rule.now.pages ≤ length ram.now }
    requires sites { LieIn (page_size * rule.now.pages) (module_rule rule.now).sites }
    ensures { IfOk result (λ good. good ≡ is_good_load (rules_of policy.now) ram.now about.now (Some (module_rule rule.now))) }
{
    let text = module_text(ram, about, rule.pages);
    let measured = is_as_measured(rt, alloc, rule, text)?;
    Ok(measured && has_fields(policy, about, rule, text))
}

// The text of a module whose pages lie in RAM.
fn module_text<'a>(ram: &'a [u8], about: &ModulePlacement, pages: u32) -> &'a [u8]
    requires above { ram_base ≤ about.now.gpa }
    requires below { ram_offset about.now.gpa + page_size * pages ≤ length ram.now }
    ensures text { result.now ≡ module_text ram.now about.now pages }
    ensures size { length result.now ≡ page_size * pages }
{
    let start = ram_offset(about.gpa) as usize;
    &ram[start..start + PAGE_SIZE * pages as usize]
}

// The text with its fields cleared measures to the policy's digest.
#[tactic(auto, unfolding(spec_reference::specs::Loads::is_as_measured))]
fn is_as_measured<R: Threads + Sync>(
    rt: &R,
    alloc: Global,
    rule: &ModulePolicy,
    text: &[u8],
) -> Result<bool, AllocError>
    requires pages { length text.now % page_size ≡ 0 }
    requires sites { LieIn (length text.now) (module_rule rule.now).sites }
    ensures { IfOk result (λ measured. measured ≡ is_as_measured (module_rule rule.now) text.now) }
{
    let mut masked = text.to_vec(alloc)?;
    clear_fields(&mut masked, &rule.sites);
    let found = measure(rt, alloc, &masked, &Silent)?;
    Ok(found == rule.measure)
}

#[tactic(auto, using(crate::proofs::ModuleSites::whole_piece))]
fn clear_fields(text: &mut [u8], sites: &[Site])
    requires pages { length text.old % page_size ≡ 0 }
    requires sites { LieIn (length text.old) sites.now }
    ensures { text.new ≡ relocated.masked_text text.old sites.now }
{
    mask(text, 0, sites);
}

// Each field of the text has the value that the module's addresses ask for.
#[tactic(auto, using(crate::proofs::ModuleSites::whole_piece))]
fn has_fields(policy: &Policy, about: &ModulePlacement, rule: &ModulePolicy, text: &[u8]) -> bool
    requires pages { length text.now % page_size ≡ 0 }
    requires sites { LieIn (length text.now) (module_rule rule.now).sites }
    ensures { result ≡ relocated.fields_right (rules_of policy.now).exports (module_bases about.now) (module_rule rule.now).sites text.now }
{
    let bases = Bases {
        va: about.va,
        data_va: about.data_va,
    };
    fields_right(text, 0, &rule.sites, &bases, &policy.exports)
}
