// Entries of the tables, and where the tables lie.

ghost use Rattle.std.specs.Prelude.{◌≡◌, ◌+◌, ◌*◌, ◌/◌, ◌<◌, ◌≤◌, ◌^◌};
ghost use Rattle.spec_processor.specs.Regions.{max_ram_pages};
ghost use Rattle.gstage_tables.specs.Blocks.{table_words, block_pages};
ghost use Rattle.gstage_tables.specs.Layout.{leaf_tables, leaf_table, pointer, flags, readable_flags, written_flags, root_word};
ghost use Rattle.gstage_tables.specs.Layout.{last_in_block, max_trees, max_table_pages, max_block_pages, page_number_unit};
ghost use Rattle.spec_processor.specs.Roots.{root_page_bits};

use bitflags::Flags;
use spec_processor::{INDEX_BITS, PAGE_BITS, PAGE_NUMBER_SHIFT, PteBits, RAM_BASE, TABLE_ENTRIES};

/// The words of a table.
pub(crate) const TABLE_WORDS: u64 = TABLE_ENTRIES;

/// The pages of a block of 2 MiB, which one level-0 table maps, or one leaf of level 1.
pub(crate) const BLOCK_PAGES: u64 = TABLE_WORDS;

/// The pages of a tree's root, and its words.
pub(crate) const ROOT_PAGES: u64 = 4;

pub(crate) const ROOT_WORDS: u64 = ROOT_PAGES * TABLE_WORDS;

/// The pages of a tree above its level-0 tables.
const UPPER_PAGES: u64 = ROOT_PAGES + 1;

/// What the number of a page counts in an entry.
const PAGE_NUMBER_UNIT: u64 = 1 << PAGE_NUMBER_SHIFT;

/// The place of a gigabyte's number in an address, and the gigabyte in which RAM lies.
const GIGABYTE_SHIFT: u32 = PAGE_BITS + 2 * INDEX_BITS;

const RAM_GIGABYTE: u64 = RAM_BASE >> GIGABYTE_SHIFT;

/// The level-0 tables of one tree.
pub(crate) fn leaf_tables(ram_pages: u64) -> u64
    requires { ram_pages ≤ max_ram_pages }
    ensures value { result ≡ leaf_tables ram_pages }
    ensures few { result ≤ table_words }
    ensures covers { ram_pages ≤ block_pages * result }
{
    ram_pages.div_ceil(BLOCK_PAGES)
}

/// The first level-0 table of a tree, or where the last tree's end, in pages of the table part.
pub(crate) fn leaf_table(trees: u64, tables: u64, tree: u64) -> u64
    requires trees { trees ≤ max_trees }
    requires tables { tables ≤ table_words }
    requires tree { tree ≤ trees }
    ensures value { result ≡ leaf_table trees tables tree }
    ensures few { result ≤ max_table_pages }
{
    UPPER_PAGES * trees + tree * tables
}

/// So many pages and those after them up to a whole number of blocks.
pub(crate) fn up_to_blocks(pages: u64) -> u64
    requires { pages ≤ max_table_pages }
    ensures value { result ≡ block_pages * ((pages + last_in_block) / block_pages) }
    ensures few { result ≤ max_block_pages }
{
    BLOCK_PAGES * pages.div_ceil(BLOCK_PAGES)
}

// The flags of a page that may be read.
fn readable() -> PteBits
    ensures { result.0 ≡ readable_flags }
{
    PteBits::VALID
        .union(PteBits::READ)
        .union(PteBits::USER)
        .union(PteBits::ACCESSED)
}

// The flags of a page that may be read and written.
fn writable() -> PteBits
    ensures { result.0 ≡ readable_flags + written_flags }
{
    readable().union(PteBits::WRITE).union(PteBits::DIRTY)
}

// The flags of a page that may be read, and stored to or fetched from where that is permitted.
fn flags(store: bool, fetch: bool) -> PteBits
    ensures value { result.0 ≡ flags store fetch }
    ensures small { result.0 < page_number_unit }
{
    match (store, fetch) {
        (false, false) => readable(),
        (false, true) => readable().union(PteBits::EXECUTE),
        (true, false) => writable(),
        (true, true) => writable().union(PteBits::EXECUTE),
    }
}

/// The entry that maps a host page.
pub(crate) fn mapping(host: u64, store: bool, fetch: bool) -> u64
    requires { host < 2 ^ root_page_bits }
    ensures { result ≡ page_number_unit * host + flags store fetch }
{
    PAGE_NUMBER_UNIT * host + flags(store, fetch).bits()
}

/// The entry that names the next table.
pub(crate) fn pointer(page: u64) -> u64
    requires { page < 2 ^ root_page_bits }
    ensures { result ≡ pointer page }
{
    PAGE_NUMBER_UNIT * page + PteBits::VALID.bits()
}

/// Entry `i` of a tree's root.
#[tactic(auto, unfolding(crate::specs::Layout::root_word))]
pub(crate) fn root_word(trees: u64, tree: u64, i: u64) -> u64
    requires trees { trees ≤ max_trees }
    requires tree { tree < trees }
    ensures { result ≡ root_word trees tree i }
{
    if i == RAM_GIGABYTE {
        pointer(ROOT_PAGES * trees + tree)
    } else {
        0
    }
}
