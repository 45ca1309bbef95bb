// The printing of a policy's text.

ghost use Rattle.std.specs.Prelude.{◌≡◌, IfOk, OnOk, Some, true, map, length, string_bytes};
ghost use Rattle.toml.specs.Data.{string, array};
ghost use Rattle.toml.specs.Parse.{parse_document};
ghost use Rattle.toml.specs.View.{view, items_of, table_view};
ghost use Rattle.sv_types.specs.Policies as limits;
ghost use Rattle.std.specs.List.{All};
ghost use Rattle.policy.specs.Ranges.{IsAddress, IsDigest, IsExport, IsModule, IsPolicy};
ghost use Rattle.policy.specs.Bindings.{binding, bindings_of};
ghost use Rattle.policy.specs.Text.{table_of_text, rules_of_text};
ghost use Rattle.policy.specs.Printed as spec;

use policy_limits::PLAIN_FORMAT;
use spec_processor::{PAGE_BYTES, RAM_BASE};
use std::alloc::{AllocError, Global};
use sv_types::{Digest, Export, ModulePolicy, Policy, Site, Span};
use text_numbers::address_text;
use toml::{Table, Value};

#[tactic(auto, using(crate::proofs::Puts::members_view_insert))]
fn put(alloc: Global, table: &mut Table, key: &str, value: Value) -> Result<(), AllocError>
    ensures { OnOk result (table_view table.new ≡ spec.with_member key.now (view value) (table_view table.old)) }
{
    let key = String::from_str(alloc, key)?;
    table.insert(key, value)?;
    Ok(())
}

fn number(number: u32) -> Value
    ensures { view result ≡ spec.number_data number }
{
    Value::from(number)
}

#[tactic(auto, unfolding(crate::specs::Printed::address_data))]
fn address(alloc: Global, address: u64) -> Result<Value, AllocError>
    ensures { IfOk result (λ v. view v ≡ spec.address_data address) }
{
    let text = address_text(alloc, address)?;
    Ok(Value::from(text))
}

fn measure(alloc: Global, digest: &Digest) -> Result<Value, AllocError>
    ensures printed { IfOk result (λ v. view v ≡ spec.measure_data digest.now) }
    ensures typed { OnOk result (IsDigest digest.now) }
{
    let text = hex::encode(alloc, digest.as_slice())?;
    Ok(Value::from(text))
}

fn plain_entries(alloc: Global, entries: &[u64]) -> Result<Value, AllocError>
    ensures printed { IfOk result (λ v. view v ≡ array (items_of (map spec.address_data entries.now))) }
    ensures typed { OnOk result (All IsAddress entries.now) }
{
    let mut values = Vec::new(alloc);
    for entry in entries {
        let value = address(alloc, *entry)?;
        values.push(value)?;
    }
    Ok(Value::Array(values))
}

#[tactic(auto, unfolding(crate::specs::Printed::binding_data))]
fn binding(alloc: Global, entry: u64, gpa: u64) -> Result<Value, AllocError>
    ensures { IfOk result (λ v. view v ≡ spec.binding_data (binding entry gpa)) }
{
    let entry = address(alloc, entry)?;
    let gpa = address(alloc, gpa)?;
    let values = vec![in alloc; entry, gpa]?;
    Ok(Value::Array(values))
}

fn bound_entries(alloc: Global, entries: &[u64], bound: &[u64]) -> Result<Value, AllocError>
    requires { length bound.now ≡ length entries.now }
    ensures printed { IfOk result (λ v. view v ≡ array (items_of (map spec.binding_data (bindings_of entries.now bound.now)))) }
    ensures typed { OnOk result (All IsAddress entries.now) }
{
    let mut values = Vec::new(alloc);
    for (i, entry) in entries.iter().enumerate() {
        let value = binding(alloc, *entry, bound[i])?;
        values.push(value)?;
    }
    Ok(Value::Array(values))
}

fn entries(alloc: Global, policy: &Policy) -> Result<Value, AllocError>
    requires { limits.bound_within (limits.rules_of policy.now) ≡ true }
    ensures printed { IfOk result (λ v. view v ≡ spec.entries_data policy.now.format policy.now.entries.items policy.now.bound.items) }
    ensures typed { OnOk result (All IsAddress policy.now.entries.items) }
{
    if policy.format == PLAIN_FORMAT {
        plain_entries(alloc, policy.entries.as_slice())
    } else {
        bound_entries(alloc, policy.entries.as_slice(), policy.bound.as_slice())
    }
}

#[tactic(auto, unfolding(crate::specs::Printed::export_data))]
fn export(alloc: Global, export: &Export) -> Result<Value, AllocError>
    ensures printed { IfOk result (λ v. view v ≡ spec.export_data export.now) }
    ensures typed { OnOk result (IsExport export.now) }
{
    let name = Value::string(alloc, export.name.text())?;
    let addr = address(alloc, export.addr)?;
    let values = vec![in alloc; name, addr]?;
    Ok(Value::Array(values))
}

fn exports(alloc: Global, exports: &[Export]) -> Result<Value, AllocError>
    ensures printed { IfOk result (λ v. view v ≡ spec.exports_data exports.now) }
    ensures typed { OnOk result (All IsExport exports.now) }
{
    let mut values = Vec::new(alloc);
    for item in exports {
        let value = export(alloc, item)?;
        values.push(value)?;
    }
    Ok(Value::Array(values))
}

#[tactic(auto, unfolding(crate::specs::Printed::site_data))]
fn site(alloc: Global, site: &Site) -> Result<Value, AllocError>
    ensures { IfOk result (λ v. view v ≡ spec.site_data site.now) }
{
    let offset = number(site.offset);
    let kind = number(u32::from(site.kind.number()));
    let base = number(u32::from(site.base));
    let addend = Value::from(site.addend);
    let anchor = number(site.anchor);
    let values = vec![in alloc; offset, kind, base, addend, anchor]?;
    Ok(Value::Array(values))
}

fn sites(alloc: Global, sites: &[Site]) -> Result<Value, AllocError>
    ensures { IfOk result (λ v. view v ≡ spec.sites_data sites.now) }
{
    let mut values = Vec::new(alloc);
    for item in sites {
        let value = site(alloc, item)?;
        values.push(value)?;
    }
    Ok(Value::Array(values))
}

#[tactic(auto, unfolding(crate::specs::Printed::module_data))]
fn module_table(alloc: Global, m: &ModulePolicy) -> Result<Value, AllocError>
    ensures printed { IfOk result (λ v. view v ≡ spec.module_data (limits.module_rule m.now)) }
    ensures typed { OnOk result (IsModule (limits.module_rule m.now)) }
{
    let mut table = Table::new(alloc);
    put(
        alloc,
        &mut table,
        "name",
        Value::string(alloc, m.name.text())?,
    )?;
    put(alloc, &mut table, "pages", number(m.pages))?;
    put(alloc, &mut table, "measure", measure(alloc, &m.measure)?)?;
    put(
        alloc,
        &mut table,
        "sites",
        sites(alloc, m.sites.as_slice())?,
    )?;
    Ok(Value::Table(table))
}

fn modules(alloc: Global, modules: &[ModulePolicy]) -> Result<Value, AllocError>
    ensures printed { IfOk result (λ v. view v ≡ spec.modules_data (map limits.module_rule modules.now)) }
    ensures typed { OnOk result (All IsModule (map limits.module_rule modules.now)) }
{
    let mut values = Vec::new(alloc);
    for item in modules {
        let value = module_table(alloc, item)?;
        values.push(value)?;
    }
    Ok(Value::Array(values))
}

#[tactic(auto, unfolding(crate::specs::Printed::span_data))]
fn span(alloc: Global, span: Span) -> Result<Value, AllocError>
    ensures { IfOk result (λ v. view v ≡ spec.span_data span) }
{
    let first = address(alloc, RAM_BASE + PAGE_BYTES * u64::from(span.first))?;
    let values = vec![in alloc; first, number(span.count)]?;
    Ok(Value::Array(values))
}

fn put_init(alloc: Global, table: &mut Table, init: Option<Span>) -> Result<(), AllocError>
    ensures { OnOk result (table_view table.new ≡ spec.with_init init (table_view table.old)) }
{
    match init {
        None => Ok(()),
        Some(init) => {
            let value = span(alloc, init)?;
            put(alloc, table, "init", value)
        }
    }
}

#[tactic(auto, unfolding(crate::specs::Printed::kernel_data))]
fn kernel(alloc: Global, policy: &Policy) -> Result<Value, AllocError>
    ensures printed { IfOk result (λ v. view v ≡ spec.kernel_data policy.now.kernel policy.now.init) }
    ensures typed { OnOk result (IsDigest policy.now.kernel) }
{
    let mut table = Table::new(alloc);
    put(
        alloc,
        &mut table,
        "measure",
        measure(alloc, &policy.kernel)?,
    )?;
    put_init(alloc, &mut table, policy.init)?;
    Ok(Value::Table(table))
}

// No exports have no key.
#[tactic(auto, using(crate::proofs::Puts::no_exports, crate::proofs::Puts::some_exports))]
fn put_exports(alloc: Global, table: &mut Table, items: &[Export]) -> Result<(), AllocError>
    ensures printed { OnOk result (table_view table.new ≡ spec.with_exports items.now (table_view table.old)) }
    ensures typed { OnOk result (All IsExport items.now) }
{
    if items.is_empty() {
        return Ok(());
    }
    let value = exports(alloc, items)?;
    put(alloc, table, "exports", value)
}

// No modules have no key.
#[tactic(auto, using(crate::proofs::Puts::no_modules, crate::proofs::Puts::some_modules))]
fn put_modules(alloc: Global, table: &mut Table, items: &[ModulePolicy]) -> Result<(), AllocError>
    ensures printed { OnOk result (table_view table.new ≡ spec.with_modules (map limits.module_rule items.now) (table_view table.old)) }
    ensures typed { OnOk result (All IsModule (map limits.module_rule items.now)) }
{
    if items.is_empty() {
        return Ok(());
    }
    let value = modules(alloc, items)?;
    put(alloc, table, "module", value)
}

#[tactic(auto, unfolding(crate::specs::Printed::rules_members))]
fn policy_table(alloc: Global, policy: &Policy) -> Result<Table, AllocError>
    requires { limits.bound_within (limits.rules_of policy.now) ≡ true }
    ensures printed { IfOk result (λ t. table_view t ≡ spec.rules_members (limits.rules_of policy.now)) }
    ensures typed { OnOk result (IsPolicy (limits.rules_of policy.now)) }
{
    let mut table = Table::new(alloc);
    put(
        alloc,
        &mut table,
        "format",
        number(u32::from(policy.format)),
    )?;
    put(alloc, &mut table, "harts", number(u32::from(policy.harts)))?;
    put(alloc, &mut table, "ram_pages", number(policy.ram_pages))?;
    put(alloc, &mut table, "entries", entries(alloc, policy)?)?;
    put_exports(alloc, &mut table, policy.exports.as_slice())?;
    put(alloc, &mut table, "kernel", kernel(alloc, policy)?)?;
    put_modules(alloc, &mut table, policy.modules.as_slice())?;
    Ok(table)
}

// The text that is read back as the policy's table.
fn text(alloc: Global, policy: &Policy) -> Result<String, AllocError>
    requires { limits.bound_within (limits.rules_of policy.now) ≡ true }
    ensures printed { IfOk result (λ text.
        parse_document (string_bytes text) ≡ Some (spec.rules_members (limits.rules_of policy.now))) }
    ensures typed { OnOk result (IsPolicy (limits.rules_of policy.now)) }
{
    let table = policy_table(alloc, policy)?;
    match toml::table_to_string(alloc, &table) {
        Ok(text) => Ok(text),
        Err(_) => Err(AllocError),
    }
}

/// Prints a policy as a text, whose table has the policy's values under their keys, and which is read as that policy.
/// Fails when out of memory alone.
#[tactic(auto, using(crate::proofs::BindingsBack::binds_of_rules))]
pub fn write(alloc: Global, policy: &Policy) -> Result<Vec<u8>, AllocError>
    requires { limits.rules_within (limits.rules_of policy.now) ≡ true }
    ensures table { IfOk result (λ bytes. table_of_text bytes.items ≡ Ok (spec.rules_members (limits.rules_of policy.now))) }
    ensures reads_back { IfOk result (λ bytes. rules_of_text bytes.items ≡ Ok (limits.rules_of policy.now)) }
{
    let text = text(alloc, policy)?;
    Ok(text.into_bytes())
}
