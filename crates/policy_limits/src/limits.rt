// The limits of a policy's values.

ghost use Rattle.std.specs.Prelude.{◌≡◌, ◌==◌, ◌+◌, ◌≤◌, IsTrue, [], map, length};
ghost use Rattle.std.specs.List.{list_any};
ghost use Rattle.sv_types.specs.Limits.{max_exports, max_sites};
ghost use Rattle.sv_types.specs.Policies as limits;

use crate::names::{is_exported, is_module};
use crate::places::{bound_fits, is_after, is_aligned, is_anchor, is_place};
use spec_processor::INSTRUCTION_BYTES;
use sv_types::{
    BOUND_FORMAT, Export, FIRST_EXPORT_BASE, MAX_ENTRIES, MAX_HARTS, ModulePolicy, PLAIN_FORMAT,
    Policy, Site, Span,
};

/// The fewest pages of RAM.
pub const MIN_RAM_PAGES: u32 = 16;

/// The most pages of RAM.
pub const MAX_RAM_PAGES: u32 = 262_144;

/// The most exports.
pub const MAX_EXPORTS: usize = 4096;

/// The most pages of a module.
pub const MAX_MODULE_PAGES: u32 = 1024;

/// The most sites of a module.
pub const MAX_MODULE_SITES: usize = 65_536;

/// The most sites of all modules together.
pub const MAX_SITES: usize = 131_072;

/// The most modules.
pub const MAX_MODULES: usize = 64;

fn entries_within(entries: &[u64]) -> bool
    ensures { result ≡ limits.entries_within entries.now }
{
    for entry in entries {
        if *entry % INSTRUCTION_BYTES != 0 {
            return false;
        }
    }
    true
}

fn exports_within(exports: &[Export]) -> bool
    ensures { result ≡ limits.exports_within exports.now }
{
    for (i, export) in exports.iter().enumerate() {
        if is_exported(&export.name, &exports[..i]) {
            return false;
        }
    }
    true
}

fn span_within(ram_pages: u32, span: Span) -> bool
    ensures { result ≡ limits.span_within ram_pages span }
{
    1 <= span.count && u64::from(span.first) + u64::from(span.count) <= u64::from(ram_pages)
}

fn init_within(ram_pages: u32, init: Option<Span>) -> bool
    ensures { result ≡ limits.init_within ram_pages init }
{
    match init {
        None => true,
        Some(span) => span_within(ram_pages, span),
    }
}

fn base_within(exports: usize, base: u16) -> bool
    requires { exports ≤ max_exports }
    ensures { result ≡ limits.base_within exports base }
{
    usize::from(base) < usize::from(FIRST_EXPORT_BASE) + exports
}

fn site_within(pages: u32, exports: usize, site: Site) -> bool
    requires { exports ≤ max_exports }
    ensures { result ≡ limits.site_within pages exports site }
{
    is_place(pages, u64::from(site.offset))
        && is_aligned(site.kind, site.offset)
        && base_within(exports, site.base)
        && is_anchor(pages, site.kind, site.offset, u64::from(site.anchor))
}

fn sites_within(pages: u32, exports: usize, sites: &[Site]) -> bool
    requires { exports ≤ max_exports }
    ensures { result ≡ limits.sites_within pages exports sites.now }
{
    for (i, site) in sites.iter().enumerate() {
        if !site_within(pages, exports, *site) || !is_after(&sites[..i], site) {
            return false;
        }
    }
    true
}

fn sites_count_within(before: usize, count: usize) -> bool
    requires { before ≤ max_sites }
    ensures value { result ≡ limits.sites_count_within before count }
    ensures few { IsTrue result → before + count ≤ max_sites }
{
    count <= MAX_MODULE_SITES && before + count <= MAX_SITES
}

fn module_within(
    exports: usize,
    before: &[ModulePolicy],
    sites_before: usize,
    m: &ModulePolicy,
) -> bool
    requires few_exports { exports ≤ max_exports }
    requires sites_of { sites_before ≡ limits.sites_of (map limits.module_rule before.now) }
    requires few_sites { sites_before ≤ max_sites }
    ensures value { result ≡ limits.module_within exports (map limits.module_rule before.now) (limits.module_rule m.now) }
    ensures few { IsTrue result → sites_before + length m.now.sites.items ≤ max_sites }
{
    1 <= m.pages
        && m.pages <= MAX_MODULE_PAGES
        && sites_count_within(sites_before, m.sites.len())
        && sites_within(m.pages, exports, m.sites.as_slice())
        && !is_module(&m.name, before)
}

fn modules_within(exports: usize, modules: &[ModulePolicy]) -> bool
    requires { exports ≤ max_exports }
    ensures { result ≡ limits.modules_within exports (map limits.module_rule modules.now) }
{
    let mut sites = 0;
    for (i, m) in modules.iter().enumerate() {
        if !module_within(exports, &modules[..i], sites, m) {
            return false;
        }
        sites += m.sites.len();
    }
    true
}

fn numbers_within(policy: &Policy) -> bool
    ensures { result ≡ limits.numbers_within (limits.rules_of policy.now) }
{
    PLAIN_FORMAT <= policy.format
        && policy.format <= BOUND_FORMAT
        && 1 <= policy.harts
        && policy.harts <= MAX_HARTS
        && MIN_RAM_PAGES <= policy.ram_pages
        && policy.ram_pages <= MAX_RAM_PAGES
}

fn has_met(before: &[u64], entry: u64) -> bool
    ensures { result ≡ list_any (λ e. e == entry) before.now }
{
    before.iter().any(|e| *e == entry)
}

#[tactic(auto, using(crate::proofs::Bound::unequal))]
fn all_bound(ram_pages: u32, entries: &[u64], bound: &[u64]) -> bool
    ensures { result ≡ limits.all_bound ram_pages [] entries.now bound.now }
{
    if entries.len() != bound.len() {
        return false;
    }
    for (i, entry) in entries.iter().enumerate() {
        if !bound_fits(ram_pages, *entry, bound[i]) || has_met(&entries[..i], *entry) {
            return false;
        }
    }
    true
}

fn bound_within(policy: &Policy) -> bool
    ensures { result ≡ limits.bound_within (limits.rules_of policy.now) }
{
    if policy.format == PLAIN_FORMAT {
        policy.bound.is_empty()
    } else {
        all_bound(
            policy.ram_pages,
            policy.entries.as_slice(),
            policy.bound.as_slice(),
        )
    }
}

fn lists_within(policy: &Policy) -> bool
    ensures value { result ≡ limits.lists_within (limits.rules_of policy.now) }
    ensures few_exports { IsTrue result → length policy.now.exports.items ≤ max_exports }
{
    1 <= policy.entries.len()
        && policy.entries.len() <= MAX_ENTRIES
        && entries_within(policy.entries.as_slice())
        && policy.exports.len() <= MAX_EXPORTS
        && exports_within(policy.exports.as_slice())
        && bound_within(policy)
}

/// Each value of the policy is within its limit. True exactly where the text of these values is accepted.
pub fn within(policy: &Policy) -> bool
    ensures { result ≡ limits.rules_within (limits.rules_of policy.now) }
{
    numbers_within(policy)
        && lists_within(policy)
        && init_within(policy.ram_pages, policy.init)
        && policy.modules.len() <= MAX_MODULES
        && modules_within(policy.exports.len(), policy.modules.as_slice())
}
