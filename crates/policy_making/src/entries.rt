// Permitted entries: addresses with commas between them.

ghost use Rattle.std.specs.Prelude.{◌≡◌, length, IfOk};
ghost use Rattle.std.specs.List.{list_all};
ghost use Rattle.policy_making.specs.WordRanges as spec;

use policy_limits::MAX_ENTRIES;
use spec_processor::INSTRUCTION_BYTES;
use std::alloc::{AllocError, Global};
use text_numbers::address_of;

const SEPARATOR: char = ',';

fn is_entry(part: &str) -> bool
    ensures { result ≡ spec.is_entry part.now }
{
    match address_of(part) {
        Some(address) => address % INSTRUCTION_BYTES == 0,
        None => false,
    }
}

fn parts_count(word: &str) -> usize
    ensures { result ≡ length (spec.parts word.now) }
{
    word.split(SEPARATOR).count()
}

fn all_entries(word: &str) -> bool
    ensures { result ≡ list_all spec.is_entry (spec.parts word.now) }
{
    word.split(SEPARATOR).all(is_entry)
}

/// The word names 1 to 64 addresses with commas between them, each a multiple of 4.
pub fn are_entries(word: &str) -> bool
    ensures { result ≡ spec.are_entries word.now }
{
    1 <= parts_count(word) && parts_count(word) <= MAX_ENTRIES && all_entries(word)
}

fn address_or_zero(part: &str) -> u64
    ensures { result ≡ spec.address_or_zero part.now }
{
    address_of(part).unwrap_or(0)
}

/// The addresses of a word, 0 for a part that is none. Fails where memory runs out.
pub fn entries_of(alloc: Global, word: &str) -> Result<Vec<u64>, AllocError>
    ensures { IfOk result (λ entries. entries.items ≡ spec.entries_of word.now) }
{
    word.split(SEPARATOR).map(address_or_zero).collect(alloc)
}
