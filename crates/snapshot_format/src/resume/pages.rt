// Whether no page of a snapshot is two parties', and each has the protection that follows.

ghost use Rattle.std.specs.Prelude.{◌≡◌, ◌≤◌, [], ◌∷◌, IfOk, length, slice_set};
ghost use Rattle.spec_processor.specs.Translation.{address_pages};
ghost use Rattle.sv_types.specs.ApprovedPages.{numbers_from};
ghost use Rattle.sv_types.specs.Policies.{rules_of};
ghost use Rattle.sv_types.specs.declared.protection.Protection.TheVariants as protected;
ghost use Rattle.sv_types.specs.Protections.{is_free};
ghost use Rattle.spec_reference.specs.Protections.{protection_at};
ghost use Rattle.spec_reference.specs.States.{module_pages};
ghost use Rattle.snapshot_format.specs.Snapshots.{contents};
ghost use Rattle.snapshot_format.specs.Judgements.{are_same, is_guarded_right, load_pages, loaded_pages};
ghost use Rattle.snapshot_format.specs.Taking.{IsTaken, Takes, left_of, taken_from};

use crate::resume::text::is_retired;
use crate::{Snapshot, TextPage};
use spec_processor::page_of;
use spec_reference::pages_of;
use spec_reference::saved_machine::SavedLoad;
use std::alloc::{AllocError, Global};
use sv_types::{ModulePlacement, Policy, Protection};

/// Whether no two of a snapshot's unretired text, loaded modules and load share a page, and each page has the protection that
/// these give. Out of memory is the one refusal.
#[tactic(auto, unfolding(crate::specs::Judgements::is_guarded_right, crate::specs::Judgements::guard_due))]
pub fn is_guarded_right(
    alloc: Global,
    snapshot: &Snapshot,
    policy: &Policy,
) -> Result<bool, AllocError>
    ensures { IfOk result (λ right. right ≡ is_guarded_right (rules_of policy.now) (contents snapshot.now)) }
{
    let mut guard = vec![in alloc; Protection::Free; policy.ram_pages as usize]?;
    if !take_all(&mut guard, snapshot, policy) {
        return Ok(false);
    }
    Ok(are_same(&guard, &snapshot.machine.protection))
}

// Takes the pages of the text and of loaded modules, and then the load's.
fn take_all(guard: &mut [Protection], snapshot: &Snapshot, policy: &Policy) -> bool
    ensures { IsTaken (taken_from guard.old (rules_of policy.now) (contents snapshot.now)) guard.new result }
{
    let machine = &snapshot.machine;
    if !take_text(guard, policy, machine.retired, &snapshot.text) {
        return false;
    }
    if !take_modules(guard, policy, &machine.modules) {
        return false;
    }
    take_load(guard, policy, &machine.loading)
}

// ---- one page

// A page past the end counts as free.
fn is_free_at(guard: &[Protection], page: u64) -> bool
    ensures { result ≡ is_free (protection_at guard.now page) }
{
    match guard.get(page as usize) {
        Some(protection) => protection.is_free(),
        None => true,
    }
}

// A page past the end has no protection to set.
#[tactic(auto, using(crate::proofs::TakenSpans::set_past))]
fn set_page(guard: &mut [Protection], page: u64, protection: Protection)
    ensures { guard.new ≡ slice_set guard.old page protection }
{
    let place = page as usize;
    if place < guard.len() {
        guard[place] = protection;
    }
}

// Takes a page that is free; says whether it was.
fn take_page(guard: &mut [Protection], protection: Protection, page: u64) -> bool
    ensures { Takes protection guard.old guard.new (page ∷ []) result }
{
    if !is_free_at(guard, page) {
        return false;
    }
    set_page(guard, page, protection);
    true
}

// ---- the parties' pages, one after the other

fn take_span(guard: &mut [Protection], protection: Protection, first: u64, count: u32) -> bool
    requires { first ≤ address_pages }
    ensures { Takes protection guard.old guard.new (numbers_from first count) result }
{
    'pages: for i in 0..count {
        if !take_page(guard, protection, first + u64::from(i)) {
            return false;
        }
    }
    true
}

// The pages of the text but for the retired ones.
fn take_text(guard: &mut [Protection], policy: &Policy, retired: bool, text: &[TextPage]) -> bool
    ensures { Takes protected.Approved guard.old guard.new (left_of (rules_of policy.now) retired text.now) result }
{
    'pages: for page in text {
        if !take_unretired(guard, policy, retired, page) {
            return false;
        }
    }
    true
}

// Takes a page of the text unless it is retired.
fn take_unretired(guard: &mut [Protection], policy: &Policy, retired: bool, page: &TextPage) -> bool
    ensures { Takes protected.Approved guard.old guard.new (left_of (rules_of policy.now) retired (page.now ∷ [])) result }
{
    if is_retired(policy, retired, page.page) {
        return true;
    }
    take_page(guard, Protection::Approved, u64::from(page.page))
}

fn take_modules(guard: &mut [Protection], policy: &Policy, modules: &[ModulePlacement]) -> bool
    ensures { Takes protected.Approved guard.old guard.new (loaded_pages (rules_of policy.now) modules.now) result }
{
    'modules: for about in modules {
        if !take_module(guard, policy, Protection::Approved, about) {
            return false;
        }
    }
    true
}

fn take_module(
    guard: &mut [Protection],
    policy: &Policy,
    protection: Protection,
    about: &ModulePlacement,
) -> bool
    ensures { Takes protection guard.old guard.new (module_pages (rules_of policy.now) about.now) result }
{
    take_span(
        guard,
        protection,
        page_of(about.gpa),
        pages_of(policy, about.id),
    )
}

fn take_load(guard: &mut [Protection], policy: &Policy, loading: &Option<SavedLoad>) -> bool
    ensures { Takes protected.Held guard.old guard.new (load_pages (rules_of policy.now) loading.now) result }
{
    match loading {
        Some(load) => take_module(guard, policy, Protection::Held, &load.module),
        None => true,
    }
}

// ---- the protections of the snapshot

#[tactic(auto, using(crate::proofs::SameProtections::by_pairs))]
fn are_same(ones: &[Protection], others: &[Protection]) -> bool
    ensures { result ≡ are_same ones.now others.now }
{
    ones.len() == others.len() && are_pairs_same(ones, others)
}

fn are_pairs_same(ones: &[Protection], others: &[Protection]) -> bool
    requires { length ones.now ≡ length others.now }
    ensures { result ≡ are_same ones.now others.now }
{
    'pages: for page in 0..ones.len() {
        if !ones[page].is_same(others[page]) {
            return false;
        }
    }
    true
}
