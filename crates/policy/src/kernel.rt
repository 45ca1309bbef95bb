// The kernel's digest and its init pages.

ghost use Rattle.std.specs.Prelude.{◌≡◌, ◌≤◌, option_map};
ghost use Rattle.toml.specs.View.{view, table_view, items_view};
ghost use Rattle.policy.specs.Refusals.{judged_map};
ghost use Rattle.policy.specs.Text as spec;

use crate::values::{address, items, members, natural, required_member, with_known};
use policy_limits::PolicyFault;
use spec_processor::{PAGE_BYTES, RAM_BASE, page_of};
use sv_types::Span;
use toml::{Table, Value};

/// The keys of the table `kernel`.
pub(crate) const KERNEL_KEYS: [&str; 2] = ["measure", "init"];

fn page_address(value: &Value) -> Result<u64, PolicyFault>
    ensures { result ≡ spec.page_address_of (view value.now) }
{
    let address = address(value)?;
    if address % PAGE_BYTES != 0 {
        return Err(PolicyFault::BeyondLimit);
    }
    Ok(address)
}

fn page_count(value: &Value) -> Result<u64, PolicyFault>
    ensures { result ≡ spec.page_count_of (view value.now) }
{
    let count = natural(value)?;
    if count < 1 {
        return Err(PolicyFault::BeyondLimit);
    }
    Ok(count)
}

fn span(ram_pages: u32, address: u64, count: u64) -> Result<Span, PolicyFault>
    requires some { 1 ≤ count }
    ensures { result ≡ spec.span_at ram_pages address count }
{
    if address < RAM_BASE || count > u64::from(ram_pages) {
        return Err(PolicyFault::BeyondLimit);
    }
    let first = page_of(address);
    if first + count > u64::from(ram_pages) {
        return Err(PolicyFault::BeyondLimit);
    }
    Ok(Span {
        first: first as u32,
        count: count as u32,
    })
}

#[tactic(auto, unfolding(crate::specs::Text::init_of_two))]
fn init_of_two(ram_pages: u32, address: &Value, count: &Value) -> Result<Span, PolicyFault>
    ensures { result ≡ spec.init_of_two ram_pages (view address.now) (view count.now) }
{
    let address = page_address(address)?;
    let count = page_count(count)?;
    span(ram_pages, address, count)
}

fn init_of_items(ram_pages: u32, items: &[Value]) -> Result<Span, PolicyFault>
    ensures { result ≡ spec.init_of_items ram_pages (items_view items.now) }
{
    match items {
        [address, count] => init_of_two(ram_pages, address, count),
        _ => Err(PolicyFault::WrongKind),
    }
}

#[tactic(auto, unfolding(crate::specs::Text::init_of))]
pub fn init(ram_pages: u32, value: Option<&Value>) -> Result<Option<Span>, PolicyFault>
    ensures { result ≡ spec.init_of ram_pages (option_map (λ v. view v.now) value.entry) }
{
    match value {
        None => Ok(None),
        Some(value) => {
            let items = items(value)?;
            let span = init_of_items(ram_pages, items)?;
            Ok(Some(span))
        }
    }
}

pub fn kernel(table: &Table) -> Result<&Table, PolicyFault>
    ensures { judged_map (λ m. table_view m.now) result ≡ spec.kernel_of (table_view table.now) }
{
    let kernel = required_member(table, "kernel")?;
    let kernel = members(kernel)?;
    with_known(KERNEL_KEYS.as_slice(), kernel)
}
