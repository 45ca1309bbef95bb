// Where a policy's text is refused in a module, for a person.

ghost use Rattle.std.specs.Prelude.{◌≤◌};
ghost use Rattle.sv_types.specs.Limits.{max_exports};

use crate::first::{first_refused, refuses};
use crate::modules::{MODULE_KEYS, each_module, key_measure, key_name, key_pages};
use crate::place::list_key;
use crate::refusal::PolicyRefusal;
use crate::sites::{Bounds, each_site};
use crate::values::{first_unknown, items, members, optional};
use policy_limits::{MAX_MODULE_SITES, MAX_MODULES, MAX_SITES};
use std::alloc::{AllocError, Global};
use sv_types::ModulePolicy;
use toml::{Table, Value};

/// Where the modules are refused, alongside so many exports. None where they aren't.
pub(crate) fn modules_place(
    alloc: Global,
    exports: usize,
    value: Option<&Value>,
) -> Result<Option<String>, AllocError>
    requires { exports ≤ max_exports }
{
    let Some(value) = value else {
        return Ok(None);
    };
    let Ok(items) = items(value) else {
        return Ok(Some(String::from_str(alloc, "key module")?));
    };
    if items.len() > MAX_MODULES {
        return Ok(Some(String::from_str(alloc, "key module")?));
    }
    let refused = first_refused(items, |part| refuses(&each_module(alloc, exports, part)));
    match refused {
        Some(i) => module_place(alloc, exports, items, i),
        None => Ok(None),
    }
}

fn module_place(
    alloc: Global,
    exports: usize,
    items: &[Value],
    i: usize,
) -> Result<Option<String>, AllocError>
    requires { exports ≤ max_exports }
{
    let i = i.min(items.len());
    let Some(before) = sites_before(alloc, exports, &items[..i])? else {
        return Ok(None);
    };
    match items.get(i) {
        Some(value) => item_place(alloc, exports, before, i, value),
        None => Ok(None),
    }
}

// The sites of the modules of a list. None where it is refused.
fn sites_before(alloc: Global, exports: usize, items: &[Value]) -> Result<Option<usize>, AllocError>
    requires { exports ≤ max_exports }
{
    match each_module(alloc, exports, items) {
        Ok(before) => Ok(Some(sites_of(&before))),
        Err(PolicyRefusal::Fault(_)) => Ok(None),
        Err(PolicyRefusal::Memory) => Err(AllocError),
    }
}

fn item_place(
    alloc: Global,
    exports: usize,
    sites_before: usize,
    i: usize,
    value: &Value,
) -> Result<Option<String>, AllocError>
    requires { exports ≤ max_exports }
{
    match members(value) {
        Ok(table) => {
            let key = key_place(alloc, exports, sites_before, table)?;
            Ok(Some(format!(in alloc; "key module[{i}].{key}")?))
        }
        Err(_) => list_key(alloc, "module", Some(i)),
    }
}

fn sites_of(modules: &[ModulePolicy]) -> usize {
    let mut sites = 0usize;
    for module in modules {
        sites = sites.saturating_add(module.sites.len());
    }
    sites
}

// The key of a module that is refused: its name where no other is, since that was met before.
fn key_place(
    alloc: Global,
    exports: usize,
    sites_before: usize,
    table: &Table,
) -> Result<String, AllocError>
    requires { exports ≤ max_exports }
{
    if let Some(unknown) = first_unknown(&MODULE_KEYS, table) {
        return String::from_str(alloc, unknown);
    }
    if key_name(table).is_err() {
        return String::from_str(alloc, "name");
    }
    let Ok(pages) = key_pages(table) else {
        return String::from_str(alloc, "pages");
    };
    if key_measure(table).is_err() {
        return String::from_str(alloc, "measure");
    }
    let bounds = Bounds { pages, exports };
    sites_place(alloc, bounds, sites_before, optional(table, "sites"))
}

fn sites_place(
    alloc: Global,
    bounds: Bounds,
    before: usize,
    value: Option<&Value>,
) -> Result<String, AllocError> {
    let Some(value) = value else {
        return String::from_str(alloc, "sites");
    };
    let Ok(items) = items(value) else {
        return String::from_str(alloc, "sites");
    };
    if items.len() > MAX_MODULE_SITES || before.saturating_add(items.len()) > MAX_SITES {
        return String::from_str(alloc, "sites");
    }
    match first_refused(items, |part| refuses(&each_site(alloc, bounds, part))) {
        Some(i) => format!(in alloc; "sites[{i}]"),
        None => String::from_str(alloc, "name"),
    }
}
