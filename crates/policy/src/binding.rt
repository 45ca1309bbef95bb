// Entries of format 2, each with the guest-physical address that it is bound to.

ghost use Rattle.std.specs.Prelude.{◌≡◌, [], IfOk, IfErr};
ghost use Rattle.toml.specs.View.{view, items_view};
ghost use Rattle.policy.specs.Refusals.{Refuses};
ghost use Rattle.policy.specs.Values.{if_within_limit};
ghost use Rattle.sv_types.specs.Policies as limits;
ghost use Rattle.policy.specs.Bindings as spec;

use crate::refusal::PolicyRefusal;
use crate::values::{address, entry, items};
use policy_limits::{PolicyFault, bound_fits};
use std::alloc::{AllocError, Global};
use toml::Value;

/// A permitted entry, and the guest-physical address that it is bound to.
#[derive(Clone, Copy, Drop)]
pub struct Binding {
    pub va: u64,
    pub gpa: u64,
}

fn is_bound(va: u64, before: &[Binding]) -> bool
    ensures { result ≡ spec.is_bound va before.now }
{
    before.iter().any(|binding| binding.va == va)
}

fn fitting_binding(ram_pages: u32, va: u64, gpa: u64) -> Result<Binding, PolicyFault>
    ensures { result ≡ if_within_limit (limits.bound_fits ram_pages va gpa) (spec.binding va gpa) }
{
    if !bound_fits(ram_pages, va, gpa) {
        return Err(PolicyFault::BeyondLimit);
    }
    Ok(Binding { va, gpa })
}

fn unrepeated_entry(before: &[Binding], binding: Binding) -> Result<Binding, PolicyFault>
    ensures { result ≡ spec.unrepeated_entry before.now binding }
{
    if is_bound(binding.va, before) {
        return Err(PolicyFault::RepeatedEntry);
    }
    Ok(binding)
}

// An entry and its address, where the entry isn't among those before it.
#[tactic(auto, unfolding(crate::specs::Bindings::binding_of_two))]
fn binding_of_two(
    ram_pages: u32,
    before: &[Binding],
    va_value: &Value,
    gpa_value: &Value,
) -> Result<Binding, PolicyFault>
    ensures { result ≡ spec.binding_of_two ram_pages before.now (view va_value.now) (view gpa_value.now) }
{
    let va = entry(va_value)?;
    let gpa = address(gpa_value)?;
    let binding = fitting_binding(ram_pages, va, gpa)?;
    unrepeated_entry(before, binding)
}

fn binding_of_items(
    ram_pages: u32,
    before: &[Binding],
    items: &[Value],
) -> Result<Binding, PolicyFault>
    ensures { result ≡ spec.binding_of_items ram_pages before.now (items_view items.now) }
{
    match items {
        [va, gpa] => binding_of_two(ram_pages, before, va, gpa),
        _ => Err(PolicyFault::WrongKind),
    }
}

fn binding_of(ram_pages: u32, before: &[Binding], value: &Value) -> Result<Binding, PolicyFault>
    ensures { result ≡ spec.binding_of ram_pages before.now (view value.now) }
{
    let items = items(value)?;
    binding_of_items(ram_pages, before, items)
}

pub fn each_binding(
    alloc: Global,
    ram_pages: u32,
    items: &[Value],
) -> Result<Vec<Binding>, PolicyRefusal>
    ensures ok { IfOk result (λ bindings. spec.each_binding ram_pages [] (items_view items.now) ≡ Ok bindings.items) }
    ensures refused { IfErr result (Refuses (spec.each_binding ram_pages [] (items_view items.now))) }
{
    let mut bindings = Vec::new(alloc);
    for item in items {
        let binding = binding_of(ram_pages, bindings.as_slice(), item)?;
        bindings.push(binding)?;
    }
    Ok(bindings)
}

/// The entries of a list of bindings.
pub fn entries_in(alloc: Global, bindings: &[Binding]) -> Result<Vec<u64>, AllocError>
    ensures { IfOk result (λ entries. entries.items ≡ spec.entries_in bindings.now) }
{
    let mut entries = Vec::new(alloc);
    for binding in bindings {
        entries.push(binding.va)?;
    }
    Ok(entries)
}

/// The addresses that the entries of a list of bindings are bound to.
pub fn bound_in(alloc: Global, bindings: &[Binding]) -> Result<Vec<u64>, AllocError>
    ensures { IfOk result (λ bound. bound.items ≡ spec.bound_in bindings.now) }
{
    let mut bound = Vec::new(alloc);
    for binding in bindings {
        bound.push(binding.gpa)?;
    }
    Ok(bound)
}
