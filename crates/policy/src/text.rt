// The reading of a policy's text.

ghost use Rattle.std.specs.Prelude.{◌≡◌, IfOk, OnOk, IfErr, IsErrOf, IsUtf8, true};
ghost use Rattle.sv_types.specs.Policies.{rules_of, rules_within};
ghost use Rattle.toml.specs.View.{table_view};
ghost use Rattle.policy.specs.Refusals.{Refuses, judged_map};
ghost use Rattle.policy.specs.Text as spec;

use crate::entries::{PermittedEntries, entries, exports};
use crate::kernel::{init, kernel};
use crate::modules::{key_measure, modules};
use crate::refusal::PolicyRefusal;
use crate::values::{integer, natural, optional, required_member, with_known};
use policy_limits::{
    BOUND_FORMAT, MAX_HARTS, MAX_RAM_PAGES, MIN_RAM_PAGES, PLAIN_FORMAT, PolicyFault,
};
use std::alloc::Global;
use std::str;
use sv_types::{Digest, Policy, Span};
use toml::Table;

/// The keys of the outermost table.
pub(crate) const POLICY_KEYS: [&str; 7] = [
    "format",
    "harts",
    "ram_pages",
    "entries",
    "exports",
    "kernel",
    "module",
];

pub(crate) fn format(table: &Table) -> Result<u8, PolicyFault>
    ensures { result ≡ spec.format_of (table_view table.now) }
{
    let value = required_member(table, "format")?;
    let number = integer(value)?;
    if number < i64::from(PLAIN_FORMAT) || number > i64::from(BOUND_FORMAT) {
        return Err(PolicyFault::OtherFormat);
    }
    Ok(number as u8)
}

pub(crate) fn harts(table: &Table) -> Result<u8, PolicyFault>
    ensures { result ≡ spec.key_harts (table_view table.now) }
{
    let value = required_member(table, "harts")?;
    let harts = natural(value)?;
    if harts < 1 || harts > u64::from(MAX_HARTS) {
        return Err(PolicyFault::BeyondLimit);
    }
    Ok(harts as u8)
}

pub(crate) fn ram_pages(table: &Table) -> Result<u32, PolicyFault>
    ensures { result ≡ spec.key_ram_pages (table_view table.now) }
{
    let value = required_member(table, "ram_pages")?;
    let pages = natural(value)?;
    if pages < u64::from(MIN_RAM_PAGES) || pages > u64::from(MAX_RAM_PAGES) {
        return Err(PolicyFault::BeyondLimit);
    }
    Ok(pages as u32)
}

pub(crate) fn key_entries(
    alloc: Global,
    format: u8,
    ram_pages: u32,
    table: &Table,
) -> Result<PermittedEntries, PolicyRefusal>
    ensures ok { IfOk result (λ entries. spec.key_entries format ram_pages (table_view table.now) ≡ Ok (entries.list.items, entries.bound.items)) }
    ensures refused { IfErr result (Refuses (spec.key_entries format ram_pages (table_view table.now))) }
{
    let value = required_member(table, "entries")?;
    entries(alloc, format, ram_pages, value)
}

fn known_keys(table: &Table) -> Result<&Table, PolicyFault>
    ensures { judged_map (λ m. table_view m.now) result ≡ spec.known_keys (table_view table.now) }
{
    with_known(POLICY_KEYS.as_slice(), table)
}

// The kernel's digest and its init pages.
fn kernel_rule(ram_pages: u32, table: &Table) -> Result<(Digest, Option<Span>), PolicyFault>
    ensures { result ≡ spec.kernel_rule ram_pages (table_view table.now) }
{
    let kernel = kernel(table)?;
    let measure = key_measure(kernel)?;
    let init = init(ram_pages, optional(kernel, "init"))?;
    Ok((measure, init))
}

// A policy, of what stands after its entries.
#[tactic(auto, unfolding(crate::specs::Text::rules_after), using(crate::proofs::Judging::refused_on))]
fn read_after(
    alloc: Global,
    format: u8,
    harts: u8,
    ram_pages: u32,
    entries: PermittedEntries,
    table: &Table,
) -> Result<Policy, PolicyRefusal>
    ensures ok { IfOk result (λ policy.
        spec.rules_after format harts ram_pages (entries.list.items, entries.bound.items) (table_view table.now) ≡ Ok (rules_of policy)) }
    ensures refused { IfErr result (Refuses (spec.rules_after format harts ram_pages (entries.list.items, entries.bound.items) (table_view table.now))) }
{
    let exports = exports(alloc, optional(table, "exports"))?;
    let (kernel, init) = kernel_rule(ram_pages, table)?;
    let modules = modules(alloc, exports.len(), optional(table, "module"))?;
    Ok(Policy {
        format,
        harts,
        ram_pages,
        entries: entries.list,
        bound: entries.bound,
        exports,
        kernel,
        init,
        modules,
    })
}

fn read_table(alloc: Global, table: &Table) -> Result<Policy, PolicyRefusal>
    ensures ok { IfOk result (λ policy. spec.rules_of_members (table_view table.now) ≡ Ok (rules_of policy)) }
    ensures refused { IfErr result (Refuses (spec.rules_of_members (table_view table.now))) }
{
    let format = format(table)?;
    let table = known_keys(table)?;
    let harts = harts(table)?;
    let ram_pages = ram_pages(table)?;
    let entries = key_entries(alloc, format, ram_pages, table)?;
    read_after(alloc, format, harts, ram_pages, entries, table)
}

fn table(alloc: Global, bytes: &[u8]) -> Result<Table, PolicyRefusal>
    ensures ok { IfOk result (λ table. spec.table_of_text bytes.now ≡ Ok (table_view table)) }
    ensures refused { IfErr result (Refuses (spec.table_of_text bytes.now)) }
    ensures text { OnOk result (IsUtf8 bytes.now) }
    ensures memory { IsErrOf result PolicyRefusal.Memory → IsUtf8 bytes.now }
{
    let text = match str::from_utf8(bytes) {
        Ok(text) => text,
        Err(_) => return Err(PolicyRefusal::Fault(PolicyFault::NotToml)),
    };
    match toml::table_from_str(alloc, text) {
        Ok(table) => Ok(table),
        Err(e) => {
            if e.is_memory() {
                Err(PolicyRefusal::Memory)
            } else {
                Err(PolicyRefusal::Fault(PolicyFault::NotToml))
            }
        }
    }
}

/// Reads a policy's text. `Ok` exactly for the texts within the format, and else the first refusal in its order, but
/// when out of memory, which comes only where the bytes are UTF-8. A policy that is read is within the limits.
#[tactic(auto, using(crate::proofs::Judging::refused_on))]
pub fn read(alloc: Global, bytes: &[u8]) -> Result<Policy, PolicyRefusal>
    ensures ok { IfOk result (λ policy. spec.rules_of_text bytes.now ≡ Ok (rules_of policy)) }
    ensures within { IfOk result (λ policy. rules_within (rules_of policy) ≡ true) }
    ensures refused { IfErr result (Refuses (spec.rules_of_text bytes.now)) }
    ensures memory { IsErrOf result PolicyRefusal.Memory → IsUtf8 bytes.now }
{
    let table = table(alloc, bytes)?;
    read_table(alloc, &table)
}
