// The init pages: an address, a colon and a number of pages.

ghost use Rattle.std.specs.Prelude.{◌≡◌, ◌≤◌};
ghost use Rattle.policy_making.specs.WordRanges as spec;

use spec_processor::{PAGE_BYTES, is_in_ram, page_of};
use sv_types::Span;
use text_numbers::{address_of, number_within};

fn span_at(ram_pages: u32, address: u64, count: u64) -> Option<Span>
    requires some { 1 ≤ count }
    requires few { count ≤ ram_pages }
    ensures { result ≡ spec.span_at ram_pages address count }
{
    let ram_bytes = PAGE_BYTES * u64::from(ram_pages);
    if address % PAGE_BYTES != 0 || !is_in_ram(address, PAGE_BYTES * count, ram_bytes) {
        return None;
    }
    Some(Span {
        first: page_of(address) as u32,
        count: count as u32,
    })
}

#[tactic(auto, unfolding(crate::specs::WordRanges::span_of_two))]
fn span_of_two(ram_pages: u32, address: &str, count: &str) -> Option<Span>
    ensures { result ≡ spec.span_of_two ram_pages address.now count.now }
{
    let address = address_of(address)?;
    let count = number_within(count.as_bytes(), 1, u64::from(ram_pages))?;
    span_at(ram_pages, address, count)
}

/// The pages that a word names for so many pages of RAM: their address, a multiple of 4,096, a colon, and their number, at
/// least one, all of them in RAM. None where it is another word.
pub fn span_of(ram_pages: u32, word: &str) -> Option<Span>
    ensures { result ≡ spec.span_of ram_pages word.now }
{
    match word.split_once(':') {
        Some((address, count)) => span_of_two(ram_pages, address, count),
        None => None,
    }
}
