// The relocated fields of a module.

ghost use Rattle.std.specs.Prelude.{◌≡◌, ◌≤◌, [], ◌+◌, length, IfOk, IfErr};
ghost use Rattle.sv_types.specs.Limits.{max_exports, max_module_pages, max_sites};
ghost use Rattle.toml.specs.View.{view, items_view};
ghost use Rattle.policy.specs.Refusals.{Refuses};
ghost use Rattle.policy.specs.Text as spec;

use crate::refusal::PolicyRefusal;
use crate::values::{integer, items, natural};
use policy_limits::{
    MAX_MODULE_SITES, MAX_SITES, PolicyFault, is_after, is_aligned, is_anchor, is_place,
};
use std::alloc::Global;
use sv_types::{FIRST_EXPORT_BASE, RelocationKind, Site};
use toml::Value;

/// What the sites of a module are judged by: its pages, and the number of exports.
#[derive(Clone, Copy, Drop)]
pub struct Bounds {
    pub pages: u32,
    pub exports: usize,
    ghost few_pages: { pages ≤ max_module_pages },
    ghost few_exports: { exports ≤ max_exports },
}

fn offset(pages: u32, value: &Value) -> Result<u32, PolicyFault>
    requires { pages ≤ max_module_pages }
    ensures { result ≡ spec.offset_of pages (view value.now) }
{
    let offset = natural(value)?;
    if !is_place(pages, offset) {
        return Err(PolicyFault::BeyondLimit);
    }
    Ok(offset as u32)
}

fn kind(value: &Value) -> Result<RelocationKind, PolicyFault>
    ensures { result ≡ spec.kind_of (view value.now) }
{
    let number = natural(value)?;
    RelocationKind::of(number).ok_or(PolicyFault::BeyondLimit)
}

fn fitting_kind(kind: RelocationKind, offset: u32) -> Result<RelocationKind, PolicyFault>
    ensures { result ≡ spec.fitting_kind kind offset }
{
    if !is_aligned(kind, offset) {
        return Err(PolicyFault::BeyondLimit);
    }
    Ok(kind)
}

fn base(exports: usize, value: &Value) -> Result<u16, PolicyFault>
    requires { exports ≤ max_exports }
    ensures { result ≡ spec.base_of exports (view value.now) }
{
    let base = natural(value)?;
    if base >= u64::from(FIRST_EXPORT_BASE) + exports as u64 {
        return Err(PolicyFault::BeyondLimit);
    }
    Ok(base as u16)
}

fn anchor(pages: u32, kind: RelocationKind, offset: u32, value: &Value) -> Result<u32, PolicyFault>
    requires { pages ≤ max_module_pages }
    ensures { result ≡ spec.anchor_of pages kind offset (view value.now) }
{
    let anchor = natural(value)?;
    if !is_anchor(pages, kind, offset, anchor) {
        return Err(PolicyFault::BeyondLimit);
    }
    Ok(anchor as u32)
}

fn in_order(before: &[Site], site: Site) -> Result<Site, PolicyFault>
    ensures { result ≡ spec.in_order before.now site }
{
    if is_after(before, &site) {
        Ok(site)
    } else {
        Err(PolicyFault::NotAscending)
    }
}

/// The five values of a field, in the order of the text.
#[derive(Clone, Copy, Drop)]
struct SiteValues<'a> {
    offset: &'a Value,
    kind: &'a Value,
    base: &'a Value,
    addend: &'a Value,
    anchor: &'a Value,
}

// A field of its five values, each of which is judged by itself.
#[tactic(auto, unfolding(crate::specs::Text::site_of_five))]
fn site_of_five(
    bounds: Bounds,
    before: &[Site],
    values: &SiteValues<'_>,
) -> Result<Site, PolicyFault>
    ensures { result
        ≡ spec.site_of_five bounds.pages bounds.exports before.now (view values.now.offset.now) (view values.now.kind.now)
        (view values.now.base.now) (view values.now.addend.now) (view values.now.anchor.now) }
{
    let offset = offset(bounds.pages, values.offset)?;
    let kind = kind(values.kind)?;
    let kind = fitting_kind(kind, offset)?;
    let base = base(bounds.exports, values.base)?;
    let addend = integer(values.addend)?;
    let anchor = anchor(bounds.pages, kind, offset, values.anchor)?;
    let site = Site {
        offset,
        kind,
        base,
        addend,
        anchor,
    };
    in_order(before, site)
}

fn site_of_items(bounds: Bounds, before: &[Site], items: &[Value]) -> Result<Site, PolicyFault>
    ensures { result ≡ spec.site_of_items bounds.pages bounds.exports before.now (items_view items.now) }
{
    match items {
        [offset, kind, base, addend, anchor] => site_of_five(
            bounds,
            before,
            &SiteValues {
                offset,
                kind,
                base,
                addend,
                anchor,
            },
        ),
        _ => Err(PolicyFault::WrongKind),
    }
}

fn site(bounds: Bounds, before: &[Site], value: &Value) -> Result<Site, PolicyFault>
    ensures { result ≡ spec.site_of bounds.pages bounds.exports before.now (view value.now) }
{
    let items = items(value)?;
    site_of_items(bounds, before, items)
}

pub(crate) fn each_site(
    alloc: Global,
    bounds: Bounds,
    items: &[Value],
) -> Result<Vec<Site>, PolicyRefusal>
    ensures ok { IfOk result (λ sites. spec.each_site bounds.pages bounds.exports [] (items_view items.now) ≡ Ok sites.items) }
    ensures count { IfOk result (λ sites. length sites.items ≡ length items.now) }
    ensures refused { IfErr result (Refuses (spec.each_site bounds.pages bounds.exports [] (items_view items.now))) }
{
    let mut sites = Vec::new(alloc);
    for item in items {
        let site = site(bounds, sites.as_slice(), item)?;
        sites.push(site)?;
    }
    Ok(sites)
}

/// The sites of a module. `before` is the number of sites of the modules before it.
#[tactic(auto, using(crate::proofs::Lists::items_length_view))]
pub fn sites(
    alloc: Global,
    bounds: Bounds,
    before: usize,
    value: &Value,
) -> Result<Vec<Site>, PolicyRefusal>
    requires { before ≤ max_sites }
    ensures ok { IfOk result (λ sites. spec.sites_in bounds.pages bounds.exports before (view value.now) ≡ Ok sites.items) }
    ensures few { IfOk result (λ sites. before + length sites.items ≤ max_sites) }
    ensures refused { IfErr result (Refuses (spec.sites_in bounds.pages bounds.exports before (view value.now))) }
{
    let items = items(value)?;
    if items.len() > MAX_MODULE_SITES || before + items.len() > MAX_SITES {
        return Err(PolicyRefusal::Fault(PolicyFault::BeyondLimit));
    }
    each_site(alloc, bounds, items)
}
