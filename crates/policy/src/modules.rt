// The modules that may be loaded.

ghost use Rattle.std.specs.Prelude.{◌≡◌, ◌+◌, ◌≤◌, [], IfOk, IfErr, option_map, map, length};
ghost use Rattle.sv_types.specs.Limits.{max_exports, max_module_pages, max_sites};
ghost use Rattle.sv_types.specs.Policies as limits;
ghost use Rattle.toml.specs.View.{view, table_view, items_view};
ghost use Rattle.policy.specs.Refusals.{Refuses, judged_map};
ghost use Rattle.policy.specs.Text as spec;

use crate::refusal::PolicyRefusal;
use crate::sites::{Bounds, sites};
use crate::values::{items, measure, members, name, natural, required_member, with_known};
use policy_limits::{MAX_MODULE_PAGES, MAX_MODULES, PolicyFault, is_module};
use std::alloc::Global;
use sv_types::{Digest, ModulePolicy, Name};
use toml::{Table, Value};

/// The keys of a table `module`.
pub(crate) const MODULE_KEYS: [&str; 4] = ["name", "pages", "measure", "sites"];

fn module_pages(value: &Value) -> Result<u32, PolicyFault>
    ensures value { result ≡ spec.module_pages_of (view value.now) }
    ensures within { IfOk result (λ pages. pages ≤ max_module_pages) }
{
    let pages = natural(value)?;
    if pages < 1 || pages > u64::from(MAX_MODULE_PAGES) {
        return Err(PolicyFault::BeyondLimit);
    }
    Ok(pages as u32)
}

pub(crate) fn key_name(table: &Table) -> Result<Name, PolicyFault>
    ensures { result ≡ spec.key_name (table_view table.now) }
{
    let value = required_member(table, "name")?;
    name(value)
}

pub(crate) fn key_pages(table: &Table) -> Result<u32, PolicyFault>
    ensures value { result ≡ spec.key_pages (table_view table.now) }
    ensures within { IfOk result (λ pages. pages ≤ max_module_pages) }
{
    let value = required_member(table, "pages")?;
    module_pages(value)
}

pub fn key_measure(table: &Table) -> Result<Digest, PolicyFault>
    ensures { result ≡ spec.key_measure (table_view table.now) }
{
    let value = required_member(table, "measure")?;
    measure(value)
}

fn unrepeated_module(
    before: &[ModulePolicy],
    candidate: ModulePolicy,
) -> Result<ModulePolicy, PolicyFault>
    ensures { judged_map limits.module_rule result ≡ spec.unrepeated_module (map limits.module_rule before.now) (limits.module_rule candidate) }
{
    if is_module(&candidate.name, before) {
        return Err(PolicyFault::RepeatedName);
    }
    Ok(candidate)
}

fn module_of_members(
    alloc: Global,
    exports: usize,
    before: &[ModulePolicy],
    sites_before: usize,
    table: &Table,
) -> Result<ModulePolicy, PolicyRefusal>
    requires few_exports { exports ≤ max_exports }
    requires sites_of { sites_before ≡ limits.sites_of (map limits.module_rule before.now) }
    requires few_sites { sites_before ≤ max_sites }
    ensures ok { IfOk result (λ m.
        spec.module_of_members exports (map limits.module_rule before.now) (table_view table.now)
        ≡ Ok (limits.module_rule m)) }
    ensures refused { IfErr result (Refuses (spec.module_of_members exports (map limits.module_rule before.now) (table_view table.now))) }
    ensures few { IfOk result (λ m. sites_before + length m.sites.items ≤ max_sites) }
{
    let name = key_name(table)?;
    let pages = key_pages(table)?;
    let measure = key_measure(table)?;
    let list = required_member(table, "sites")?;
    let sites = sites(alloc, Bounds { pages, exports }, sites_before, list)?;
    let module = ModulePolicy {
        name,
        pages,
        measure,
        sites,
    };
    Ok(unrepeated_module(before, module)?)
}

fn module(
    alloc: Global,
    exports: usize,
    before: &[ModulePolicy],
    sites_before: usize,
    value: &Value,
) -> Result<ModulePolicy, PolicyRefusal>
    requires few_exports { exports ≤ max_exports }
    requires sites_of { sites_before ≡ limits.sites_of (map limits.module_rule before.now) }
    requires few_sites { sites_before ≤ max_sites }
    ensures ok { IfOk result (λ m.
        spec.module_of exports (map limits.module_rule before.now) (view value.now) ≡ Ok (limits.module_rule m)) }
    ensures refused { IfErr result (Refuses (spec.module_of exports (map limits.module_rule before.now) (view value.now))) }
    ensures few { IfOk result (λ m. sites_before + length m.sites.items ≤ max_sites) }
{
    let table = members(value)?;
    let table = with_known(MODULE_KEYS.as_slice(), table)?;
    module_of_members(alloc, exports, before, sites_before, table)
}

pub(crate) fn each_module(
    alloc: Global,
    exports: usize,
    items: &[Value],
) -> Result<Vec<ModulePolicy>, PolicyRefusal>
    requires { exports ≤ max_exports }
    ensures ok { IfOk result (λ modules.
        spec.each_module exports [] (items_view items.now) ≡ Ok (map limits.module_rule modules.items)) }
    ensures refused { IfErr result (Refuses (spec.each_module exports [] (items_view items.now))) }
{
    let mut modules = Vec::new(alloc);
    let mut sites = 0;
    for item in items {
        let module = module(alloc, exports, modules.as_slice(), sites, item)?;
        sites += module.sites.len();
        modules.push(module)?;
    }
    Ok(modules)
}

#[tactic(auto, using(crate::proofs::Lists::items_length_view))]
fn some_modules(
    alloc: Global,
    exports: usize,
    value: &Value,
) -> Result<Vec<ModulePolicy>, PolicyRefusal>
    requires { exports ≤ max_exports }
    ensures ok { IfOk result (λ modules. spec.some_modules_of exports (view value.now) ≡ Ok (map limits.module_rule modules.items)) }
    ensures refused { IfErr result (Refuses (spec.some_modules_of exports (view value.now))) }
{
    let items = items(value)?;
    if items.len() > MAX_MODULES {
        return Err(PolicyRefusal::Fault(PolicyFault::BeyondLimit));
    }
    each_module(alloc, exports, items)
}

/// The modules. None are listed where the key is missing.
pub fn modules(
    alloc: Global,
    exports: usize,
    value: Option<&Value>,
) -> Result<Vec<ModulePolicy>, PolicyRefusal>
    requires { exports ≤ max_exports }
    ensures ok { IfOk result (λ modules.
        spec.modules_of exports (option_map (λ v. view v.now) value.entry) ≡ Ok (map limits.module_rule modules.items)) }
    ensures refused { IfErr result (Refuses (spec.modules_of exports (option_map (λ v. view v.now) value.entry))) }
{
    match value {
        None => Ok(Vec::new(alloc)),
        Some(value) => some_modules(alloc, exports, value),
    }
}
