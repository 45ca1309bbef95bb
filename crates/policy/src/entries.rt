// Permitted entries and exports.

ghost use Rattle.std.specs.Prelude.{◌≡◌, ◌≤◌, List, length, [], IfOk, IfErr, option_map};
ghost use Rattle.sv_types.specs.Limits.{max_exports};
ghost use Rattle.toml.specs.View.{view, items_view};
ghost use Rattle.policy.specs.Refusals.{Refuses};
ghost use Rattle.policy.specs.ExportNames.{HasNames};
ghost use Rattle.sv_types.specs.declared.policy.Export.{Export as ExportData};
ghost use Rattle.policy.specs.Text as spec;

use crate::binding::{bound_in, each_binding, entries_in};
use crate::refusal::PolicyRefusal;
use crate::values::{address, entry, items, name};
use policy_limits::{MAX_ENTRIES, MAX_EXPORTS, PLAIN_FORMAT, PolicyFault};
use std::alloc::Global;
use std::collections::BTreeSet;
use sv_types::Export;
use toml::Value;

/// Permitted entries, and in format 2 the guest-physical address that each of them is bound to.
#[derive(Drop)]
pub struct PermittedEntries {
    pub list: Vec<u64>,
    pub bound: Vec<u64>,
}

pub(crate) fn each_entry(alloc: Global, items: &[Value]) -> Result<Vec<u64>, PolicyRefusal>
    ensures ok { IfOk result (λ entries. spec.each_entry [] (items_view items.now) ≡ Ok entries.items) }
    ensures refused { IfErr result (Refuses (spec.each_entry [] (items_view items.now))) }
{
    let mut entries = Vec::new(alloc);
    for item in items {
        let entry = entry(item)?;
        entries.push(entry)?;
    }
    Ok(entries)
}

fn plain_entries(alloc: Global, items: &[Value]) -> Result<PermittedEntries, PolicyRefusal>
    ensures ok { IfOk result (λ entries. spec.plain_entries (items_view items.now) ≡ Ok (entries.list.items, entries.bound.items)) }
    ensures refused { IfErr result (Refuses (spec.plain_entries (items_view items.now))) }
{
    let list = each_entry(alloc, items)?;
    let bound = Vec::new(alloc);
    Ok(PermittedEntries { list, bound })
}

fn bound_entries(
    alloc: Global,
    ram_pages: u32,
    items: &[Value],
) -> Result<PermittedEntries, PolicyRefusal>
    ensures ok { IfOk result (λ entries. spec.bound_entries ram_pages (items_view items.now) ≡ Ok (entries.list.items, entries.bound.items)) }
    ensures refused { IfErr result (Refuses (spec.bound_entries ram_pages (items_view items.now))) }
{
    let bindings = each_binding(alloc, ram_pages, items)?;
    let list = entries_in(alloc, bindings.as_slice())?;
    let bound = bound_in(alloc, bindings.as_slice())?;
    Ok(PermittedEntries { list, bound })
}

/// The entries of a list of this format.
pub(crate) fn entries_by(
    alloc: Global,
    format: u8,
    ram_pages: u32,
    items: &[Value],
) -> Result<PermittedEntries, PolicyRefusal>
    ensures ok { IfOk result (λ entries. spec.entries_by format ram_pages (items_view items.now) ≡ Ok (entries.list.items, entries.bound.items)) }
    ensures refused { IfErr result (Refuses (spec.entries_by format ram_pages (items_view items.now))) }
{
    if format == PLAIN_FORMAT {
        plain_entries(alloc, items)
    } else {
        bound_entries(alloc, ram_pages, items)
    }
}

#[tactic(auto, using(crate::proofs::Lists::items_length_view))]
pub fn entries(
    alloc: Global,
    format: u8,
    ram_pages: u32,
    value: &Value,
) -> Result<PermittedEntries, PolicyRefusal>
    ensures ok { IfOk result (λ entries. spec.entries_of format ram_pages (view value.now) ≡ Ok (entries.list.items, entries.bound.items)) }
    ensures refused { IfErr result (Refuses (spec.entries_of format ram_pages (view value.now))) }
{
    let items = items(value)?;
    if items.len() < 1 || items.len() > MAX_ENTRIES {
        return Err(PolicyRefusal::Fault(PolicyFault::BeyondLimit));
    }
    entries_by(alloc, format, ram_pages, items)
}

// An export whose name isn't among those of the exports before it.
#[tactic(auto, unfolding(crate::specs::Text::export_of_two))]
fn export_of_two(
    names: &BTreeSet<String>,
    name_value: &Value,
    addr_value: &Value,
) -> Result<Export, PolicyFault>
    ensures { (before : List ExportData) → HasNames names.now before → result ≡ spec.export_of_two before (view name_value.now) (view addr_value.now) }
{
    let name = name(name_value)?;
    let addr = address(addr_value)?;
    if names.contains(name.text()) {
        return Err(PolicyFault::RepeatedName);
    }
    Ok(Export { name, addr })
}

fn export_of_items(names: &BTreeSet<String>, items: &[Value]) -> Result<Export, PolicyFault>
    ensures { (before : List ExportData) → HasNames names.now before → result ≡ spec.export_of_items before (items_view items.now) }
{
    match items {
        [name, addr] => export_of_two(names, name, addr),
        _ => Err(PolicyFault::WrongKind),
    }
}

fn export(names: &BTreeSet<String>, value: &Value) -> Result<Export, PolicyFault>
    ensures { (before : List ExportData) → HasNames names.now before → result ≡ spec.export_of before (view value.now) }
{
    let items = items(value)?;
    export_of_items(names, items)
}

pub(crate) fn each_export(alloc: Global, items: &[Value]) -> Result<Vec<Export>, PolicyRefusal>
    ensures ok { IfOk result (λ exports. spec.each_export [] (items_view items.now) ≡ Ok exports.items) }
    ensures count { IfOk result (λ exports. length exports.items ≡ length items.now) }
    ensures refused { IfErr result (Refuses (spec.each_export [] (items_view items.now))) }
{
    let mut exports = Vec::new(alloc);
    let mut names = BTreeSet::new(alloc);
    for item in items {
        let export = export(&names, item)?;
        names.insert(String::from_str(alloc, export.name.text())?)?;
        exports.push(export)?;
    }
    Ok(exports)
}

#[tactic(auto, using(crate::proofs::Lists::items_length_view))]
fn some_exports(alloc: Global, value: &Value) -> Result<Vec<Export>, PolicyRefusal>
    ensures ok { IfOk result (λ exports. spec.some_exports_of (view value.now) ≡ Ok exports.items) }
    ensures few { IfOk result (λ exports. length exports.items ≤ max_exports) }
    ensures refused { IfErr result (Refuses (spec.some_exports_of (view value.now))) }
{
    let items = items(value)?;
    if items.len() > MAX_EXPORTS {
        return Err(PolicyRefusal::Fault(PolicyFault::BeyondLimit));
    }
    each_export(alloc, items)
}

/// The exports. None are listed where the key is missing.
pub fn exports(alloc: Global, value: Option<&Value>) -> Result<Vec<Export>, PolicyRefusal>
    ensures ok { IfOk result (λ exports. spec.exports_of (option_map (λ v. view v.now) value.entry) ≡ Ok exports.items) }
    ensures few { IfOk result (λ exports. length exports.items ≤ max_exports) }
    ensures refused { IfErr result (Refuses (spec.exports_of (option_map (λ v. view v.now) value.entry))) }
{
    match value {
        None => Ok(Vec::new(alloc)),
        Some(value) => some_exports(alloc, value),
    }
}
