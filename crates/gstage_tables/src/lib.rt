//! Trees of G-stage tables: what the guest may reach in kernel mode, in user mode, and in each entry that is bound to a
//! page.
#![tactic(auto)]

ghost use Rattle.std.specs.Prelude.{◌≡◌, ℕ, ◌+◌, ◌*◌, ◌/◌, ◌%◌, ◌<◌, ◌≤◌, ◌^◌, ◌≢◌, ◌==◌, ◌&&◌, length, replicate, true};
ghost use Rattle.spec_processor.specs.Bytes.{page_size, word};
ghost use Rattle.spec_processor.specs.Regions.{max_ram_pages};
ghost use Rattle.sv_types.specs.Views.{AreViews, view_hgatp, view_permits, all_free};
ghost use Rattle.spec_processor.specs.declared.access.Access.TheVariants.{Fetch};
ghost use Rattle.sv_types.specs.declared.protection.Protection.{Protection as Kind};
ghost use Rattle.sv_types.specs.Protections.{is_free};
ghost use Rattle.gstage_tables.specs.Blocks.{lies_in_ram, is_whole_by, count_after, table_words, block_pages};
ghost use Rattle.gstage_tables.specs.Layout.{max_bound, tree_count, sight_in, leaf_tables, middle_table, leaf_table, table_pages};
ghost use Rattle.gstage_tables.specs.Layout.{table_size, leaf, middle_word, leaf_word, HoldsTrees, AreDrawn, MapsBlocks, root_words};
ghost use Rattle.gstage_tables.specs.Layout.{max_trees, max_table_pages, max_block_pages, upper_words};
ghost use Rattle.gstage_tables.specs.Written.{Wrote};
ghost use Rattle.gstage_tables.specs.Protecting.{MayProtect, Protects};
ghost use Rattle.spec_processor.specs.Translation.{entry_size};

mod bound;
mod fill;
mod words;

use crate::bound::BoundPages;
use crate::fill::{entry_at, fill_roots, put, put_counted};
use crate::words::{
    BLOCK_PAGES, ROOT_PAGES, ROOT_WORDS, TABLE_WORDS, leaf_table, leaf_tables, mapping, pointer,
    up_to_blocks,
};
use host_mem::{HostMem, Steps};
use spec_processor::{PAGE_SIZE, ROOT_MODE_SHIFT, ROOT_PAGE_BITS, SV39X4};
use std::marker::{Brand, Model};
use std::sync::ledger::{Blank, Ledger};
use sv_types::{Protection, View};

/// The blocks of a gigabyte: one for each word of a level-1 table.
const MAX_BLOCKS: usize = TABLE_WORDS as usize;

/// The trees of the two modes, and the first of those of entries.
const KERNEL_TREE: u64 = 0;

const USER_TREE: u64 = 1;

const FIRST_ENTRY_TREE: u64 = 2;

/// The mode of `hgatp`, whose VMID begins after the number of the root's page.
const GUEST_MODE: u64 = SV39X4 << ROOT_MODE_SHIFT;

const NEXT_VMID: u64 = 1 << ROOT_PAGE_BITS;

/// How the value of `hgatp` grows from one tree to the next: by a VMID and the pages of a root.
const NEXT_TREE: u64 = NEXT_VMID + ROOT_PAGES;

/// The values of `hgatp` of the kernel view, of the user view, and of the first entry's. VMIDs begin with 1.
const KERNEL_HGATP: u64 = GUEST_MODE + NEXT_VMID;

const USER_HGATP: u64 = KERNEL_HGATP + NEXT_TREE;

const FIRST_ENTRY_HGATP: u64 = USER_HGATP + NEXT_TREE;

/// The `hgatp` value of a view's root. Its VMID is 1 for the kernel view, 2 for the user view, and 3 + i for that of entry i.
/// `Trees` draws such a root for each entry that is bound.
pub fn view_hgatp(view: View) -> u64
    ensures { result ≡ view_hgatp view }
{
    match view {
        View::Kernel => KERNEL_HGATP,
        View::User => USER_HGATP,
        View::Entry(i) => FIRST_ENTRY_HGATP + NEXT_TREE * i as u64,
    }
}

/// The trees in the table part of a region, and how many pages of each block aren't free. Contracts see the `Shape`.
#[derive(Drop)]
pub struct Trees {
    ram_pages: u64,
    bound: BoundPages,
    counts: [u16; MAX_BLOCKS],
}

impl Model for Trees {
    ghost use Rattle.gstage_tables.specs.Layout.{Shape};

    ghost Value = { Shape };

    ghost use Rattle.std.specs.Prelude.{◌≡◌, ◌≤◌, length};
    ghost use Rattle.spec_processor.specs.Regions.{max_ram_pages};
    ghost use Rattle.gstage_tables.specs.Blocks.{table_words};
    ghost use Rattle.gstage_tables.specs.Layout.{max_bound};

    ghost view = { λ t. record { ram_pages = t.ram_pages; bound = t.bound; counts = t.counts } };

    ghost invariant = { λ t. (t.ram_pages ≤ max_ram_pages) × ((length t.bound ≤ max_bound) × (length t.counts ≡ table_words)) };
}

impl Trees {
    /// The bytes of the table part for so many pages of RAM and so many entries.
    pub fn table_bytes(ram_pages: usize, bound: usize) -> usize
        requires pages { ram_pages ≤ max_ram_pages }
        requires bound { bound ≤ max_bound }
        ensures { result ≡ table_size ram_pages bound }
    {
        let trees = FIRST_ENTRY_TREE + bound as u64;
        let tables = leaf_table(trees, leaf_tables(ram_pages as u64), trees);
        PAGE_SIZE * up_to_blocks(tables) as usize
    }

    /// Trees in which all pages are free, one for each entry alongside those of the two modes: `bound` has the pages that the
    /// entries are bound to. The table part has the size that `table_bytes` gives for the pages of RAM and the entries.
    pub fn new(mem: &mut HostMem, bound: &[u32]) -> Trees
        requires few { length bound.now ≤ max_bound }
        requires size { length mem.old.tables ≡ table_size (length mem.old.ram / page_size) (length bound.now) }
        ensures pages { page_size * result.ram_pages ≡ length mem.new.ram }
        ensures bound { result.bound ≡ bound.now }
        ensures ram { mem.new.ram ≡ mem.old.ram }
        ensures drawn { AreDrawn mem.new.tables result all_free }
        ensures views { AreViews mem.new.tables result.ram_pages result.bound all_free }
        ensures blocks { MapsBlocks mem.new.tables result.ram_pages result.bound all_free }
    {
        let trees = Trees::of_pages(mem.ram_pages() as u64, bound);
        let count = trees.count();
        fill_roots(mem, count);
        trees.fill_middles(mem);
        trees.fill_leaves(mem);
        trees
    }

    fn of_pages(ram_pages: u64, bound: &[u32]) -> Trees
        requires most { ram_pages ≤ max_ram_pages }
        requires few { length bound.now ≤ max_bound }
        ensures pages { result.ram_pages ≡ ram_pages }
        ensures bound { result.bound ≡ bound.now }
        ensures counts { result.counts ≡ replicate table_words 0 }
    {
        Trees {
            ram_pages,
            bound: BoundPages::new(bound),
            counts: none_taken(),
        }
    }

    /// Protects a page of RAM in every tree, where pages are counted from 0. All others keep their protection.
    pub fn set(&mut self, mem: &mut HostMem, page: u32, protection: Protection)
        requires may { MayProtect mem.old.tables self.old page }
        ensures protects { Protects mem.old mem.new self.old self.new page protection }
    {
        self.set_on::<Brand>(mem, page, protection, Blank::new(1));
    }

    // `set` with a count of its own.
    fn set_on<L: Ledger>(
        &mut self,
        mem: &mut HostMem,
        page: u32,
        protection: Protection,
        blank: Blank,
    )
        requires name { blank.name ≡ L.name }
        requires parts { blank.parts ≡ L.parts }
        requires some { 0 < blank.parts }
        requires may { MayProtect mem.old.tables self.old page }
        ensures protects { Protects mem.old mem.new self.old self.new page protection }
    {
        let mut steps = Steps::<L>::new(blank);
        self.set_counted(mem, page, protection, &mut steps);
    }

    /// `set`, which counts the table words that it writes: at most two in each tree.
    pub fn set_counted<L: Ledger>(
        &mut self,
        mem: &mut HostMem,
        page: u32,
        protection: Protection,
        steps: &mut Steps<L>,
    )
        requires may { MayProtect mem.old.tables self.old page }
        ensures protects { Protects mem.old mem.new self.old self.new page protection }
        ensures cost { steps.new ≤ steps.old + 2 * tree_count (length self.old.bound) }
    {
        let block = self.block_of(page);
        let was_free = self.is_free(mem, page);
        let count = count_after(self.counts[block as usize], was_free, protection.is_free());
        let before = self.is_whole(block);
        let after = self.is_whole_with(block, count);
        self.set_leaves(mem, page, protection, steps);
        self.set_block(mem, block, before, after, steps);
        self.counts[block as usize] = count;
    }

    // How many trees there are.
    fn count(&self) -> u64
        ensures value { result ≡ tree_count (length self.now.bound) }
        ensures few { result ≤ max_trees }
    {
        FIRST_ENTRY_TREE + self.bound.as_slice().len() as u64
    }

    // The level-0 tables of one tree.
    fn leaf_tables(&self) -> u64
        ensures value { result ≡ leaf_tables self.now.ram_pages }
        ensures few { result ≤ table_words }
    {
        leaf_tables(self.ram_pages)
    }

    // The first level-0 table of a tree, or where the last tree's end, in pages of the table part.
    fn leaf_table(&self, tree: u64) -> u64
        requires { tree ≤ tree_count (length self.now.bound) }
        ensures value { result ≡ leaf_table (tree_count (length self.now.bound)) (leaf_tables self.now.ram_pages) tree }
        ensures few { result ≤ max_table_pages }
    {
        leaf_table(self.count(), self.leaf_tables(), tree)
    }

    // The pages of the table part.
    fn table_pages(&self) -> u64
        ensures value { result ≡ table_pages self.now.ram_pages (length self.now.bound) }
        ensures few { result ≤ max_block_pages }
    {
        up_to_blocks(self.leaf_table(self.count()))
    }

    // Whether a block lies in RAM with all its pages.
    fn lies_in_ram(&self, block: u64) -> bool
        requires { block < table_words }
        ensures { result ≡ lies_in_ram self.now.ram_pages block }
    {
        BLOCK_PAGES * block + BLOCK_PAGES <= self.ram_pages
    }

    // Whether one leaf maps a block, by the counts.
    fn is_whole(&self, block: u64) -> bool
        requires { block < table_words }
        ensures { result ≡ is_whole_by self.now.counts self.now.ram_pages block }
    {
        self.is_whole_with(block, self.counts[block as usize])
    }

    // The same with another count.
    fn is_whole_with(&self, block: u64, count: u16) -> bool
        requires { block < table_words }
        ensures { result ≡ (lies_in_ram self.now.ram_pages block && count == 0) }
    {
        self.lies_in_ram(block) && count == 0
    }

    // The block of a page of RAM.
    fn block_of(&self, page: u32) -> u64
        requires { page < self.now.ram_pages }
        ensures value { result ≡ page / block_pages }
        ensures few { result < table_words }
        ensures counted { result < length self.now.counts }
    {
        // The trees' invariant bounds the pages, and is known once a field was read.
        let _pages = self.ram_pages;
        page as u64 / BLOCK_PAGES
    }

    // Whether a page is free, by its entry in kernel mode's tree.
    fn is_free(&self, mem: &HostMem, page: u32) -> bool
        requires page { page < self.now.ram_pages }
        requires size { length mem.now.tables ≡ table_size self.now.ram_pages (length self.now.bound) }
        ensures { (old : ℕ → Kind) → HoldsTrees mem.now.tables self.now.ram_pages self.now.bound old → result ≡ is_free (old page) }
    {
        let page = page as u64;
        let entry = entry_at(mem, TABLE_WORDS * self.leaf_table(0) + page);
        entry == self.leaf(0, page, Protection::Free)
    }

    // Whether a page may be fetched from by what a tree shows.
    fn may_fetch(&self, tree: u64, page: u64, protection: Protection) -> bool
        requires { tree < tree_count (length self.now.bound) }
        ensures { result ≡ view_permits (sight_in self.now.bound tree) page protection Fetch }
    {
        let approved = protection.is_approved();
        if tree == KERNEL_TREE {
            approved
        } else if tree == USER_TREE {
            !approved
        } else {
            approved && page == self.bound.as_slice()[(tree - FIRST_ENTRY_TREE) as usize] as u64
        }
    }

    // The entry that maps a page of RAM in a tree.
    fn leaf(&self, tree: u64, page: u64, protection: Protection) -> u64
        requires tree { tree < tree_count (length self.now.bound) }
        requires page { page < 2 ^ 32 }
        ensures { result ≡ leaf (sight_in self.now.bound tree) page protection (table_pages self.now.ram_pages (length self.now.bound) + page) }
    {
        let fetch = self.may_fetch(tree, page, protection);
        mapping(self.table_pages() + page, protection.is_free(), fetch)
    }

    // The entry for page `p` of RAM in a tree, where all pages are free.
    #[tactic(auto, unfolding(crate::specs::Layout::leaf_word))]
    fn free_word(&self, tree: u64, p: u64) -> u64
        requires tree { tree < tree_count (length self.now.bound) }
        requires page { p < 2 ^ 32 }
        ensures { result ≡ leaf_word self.now.ram_pages (table_pages self.now.ram_pages (length self.now.bound)) (sight_in self.now.bound tree) all_free p }
    {
        if p < self.ram_pages {
            self.leaf(tree, p, Protection::Free)
        } else {
            0
        }
    }

    // Entry `i` of a tree's level-1 table: the leaf of a whole block, or the level-0 table of another.
    #[tactic(auto, unfolding(crate::specs::Layout::middle_word))]
    fn middle(&self, tree: u64, i: u64, whole: bool) -> u64
        requires tree { tree < tree_count (length self.now.bound) }
        requires entry { i < table_words }
        ensures { result ≡
            middle_word (tree_count (length self.now.bound)) (leaf_tables self.now.ram_pages)
            (table_pages self.now.ram_pages (length self.now.bound)) (sight_in self.now.bound tree) tree i whole }
    {
        if i < self.leaf_tables() {
            if whole {
                self.leaf(tree, BLOCK_PAGES * i, Protection::Free)
            } else {
                pointer(self.leaf_table(tree) + i)
            }
        } else {
            0
        }
    }

    // Writes the level-1 tables, where all pages are free.
    fn fill_middles(&self, mem: &mut HostMem)
        requires size { length mem.old.tables ≡ table_size self.now.ram_pages (length self.now.bound) }
        ensures ram { mem.new.ram ≡ mem.old.ram }
        ensures words { Wrote mem.old.tables mem.new.tables (table_words * tree_count (length self.now.bound))
            (λ k. root_words * tree_count (length self.now.bound) + k)
            (λ k. middle_word (tree_count (length self.now.bound)) (leaf_tables self.now.ram_pages) (table_pages self.now.ram_pages (length self.now.bound))
            (sight_in self.now.bound (k / table_words)) (k / table_words) (k % table_words) (lies_in_ram self.now.ram_pages (k % table_words))) }
    {
        let first = ROOT_WORDS * self.count();
        for k in 0..TABLE_WORDS * self.count() {
            let block = k % TABLE_WORDS;
            put(
                mem,
                first + k,
                self.middle(k / TABLE_WORDS, block, self.lies_in_ram(block)),
            );
        }
    }

    // Writes the level-0 tables of a tree.
    fn fill_tree(&self, mem: &mut HostMem, tree: u64)
        requires tree { tree < tree_count (length self.now.bound) }
        requires size { length mem.old.tables ≡ table_size self.now.ram_pages (length self.now.bound) }
        ensures ram { mem.new.ram ≡ mem.old.ram }
        ensures words { Wrote mem.old.tables mem.new.tables (block_pages * leaf_tables self.now.ram_pages)
            (λ p. table_words * leaf_table (tree_count (length self.now.bound)) (leaf_tables self.now.ram_pages) tree + p)
            (λ p. leaf_word self.now.ram_pages (table_pages self.now.ram_pages (length self.now.bound)) (sight_in self.now.bound tree) all_free p) }
    {
        let first = TABLE_WORDS * self.leaf_table(tree);
        for p in 0..BLOCK_PAGES * self.leaf_tables() {
            put(mem, first + p, self.free_word(tree, p));
        }
    }

    // Writes all level-0 tables.
    fn fill_leaves(&self, mem: &mut HostMem)
        requires size { length mem.old.tables ≡ table_size self.now.ram_pages (length self.now.bound) }
        ensures ram { mem.new.ram ≡ mem.old.ram }
        ensures size { length mem.new.tables ≡ length mem.old.tables }
        ensures below { (k : ℕ) → k < upper_words * tree_count (length self.now.bound) → word mem.new.tables (entry_size * k) entry_size ≡
            word mem.old.tables (entry_size * k) entry_size }
        ensures leaves { (tree p : ℕ) → tree < tree_count (length self.now.bound) → p < block_pages * leaf_tables self.now.ram_pages
            → word mem.new.tables
            (entry_size * (table_words * leaf_table (tree_count (length self.now.bound)) (leaf_tables self.now.ram_pages) tree + p)) entry_size
            ≡ leaf_word self.now.ram_pages (table_pages self.now.ram_pages (length self.now.bound)) (sight_in self.now.bound tree) all_free p }
    {
        for tree in 0..self.count() {
            self.fill_tree(mem, tree);
        }
    }

    // Writes a page's entry in each tree, one step each.
    fn set_leaves<L: Ledger>(
        &self,
        mem: &mut HostMem,
        page: u32,
        protection: Protection,
        steps: &mut Steps<L>,
    )
        requires page { page < self.now.ram_pages }
        requires size { length mem.old.tables ≡ table_size self.now.ram_pages (length self.now.bound) }
        ensures ram { mem.new.ram ≡ mem.old.ram }
        ensures words { Wrote mem.old.tables mem.new.tables (tree_count (length self.now.bound))
            (λ tree. table_words * leaf_table (tree_count (length self.now.bound)) (leaf_tables self.now.ram_pages) tree + page)
            (λ tree. leaf (sight_in self.now.bound tree) page protection (table_pages self.now.ram_pages (length self.now.bound) + page)) }
        ensures cost { steps.new ≡ steps.old + tree_count (length self.now.bound) }
    {
        for tree in 0..self.count() {
            let at = TABLE_WORDS * self.leaf_table(tree) + page as u64;
            put_counted(mem, at, self.leaf(tree, page as u64, protection), steps);
        }
    }

    // Writes a block's entry of level 1 in each tree, one step each.
    fn set_middles<L: Ledger>(
        &self,
        mem: &mut HostMem,
        block: u64,
        whole: bool,
        steps: &mut Steps<L>,
    )
        requires block { block < table_words }
        requires size { length mem.old.tables ≡ table_size self.now.ram_pages (length self.now.bound) }
        ensures ram { mem.new.ram ≡ mem.old.ram }
        ensures words { Wrote mem.old.tables mem.new.tables (tree_count (length self.now.bound))
            (λ tree. table_words * middle_table (tree_count (length self.now.bound)) tree + block)
            (λ tree. middle_word (tree_count (length self.now.bound)) (leaf_tables self.now.ram_pages) (table_pages self.now.ram_pages (length self.now.bound))
            (sight_in self.now.bound tree) tree block whole) }
        ensures cost { steps.new ≡ steps.old + tree_count (length self.now.bound) }
    {
        let first = ROOT_WORDS * self.count() + block;
        for tree in 0..self.count() {
            put_counted(
                mem,
                first + TABLE_WORDS * tree,
                self.middle(tree, block, whole),
                steps,
            );
        }
    }

    // `set_middles`, where the block is mapped otherwise than before.
    fn set_block<L: Ledger>(
        &self,
        mem: &mut HostMem,
        block: u64,
        before: bool,
        after: bool,
        steps: &mut Steps<L>,
    )
        requires block { block < table_words }
        requires size { length mem.old.tables ≡ table_size self.now.ram_pages (length self.now.bound) }
        ensures ram { mem.new.ram ≡ mem.old.ram }
        ensures same { before ≡ after → mem.new ≡ mem.old }
        ensures words { before ≢ after → Wrote mem.old.tables mem.new.tables (tree_count (length self.now.bound))
            (λ tree. table_words * middle_table (tree_count (length self.now.bound)) tree + block)
            (λ tree. middle_word (tree_count (length self.now.bound)) (leaf_tables self.now.ram_pages) (table_pages self.now.ram_pages (length self.now.bound))
            (sight_in self.now.bound tree) tree block after) }
        ensures cost { steps.new ≤ steps.old + tree_count (length self.now.bound) }
    {
        if before != after {
            self.set_middles(mem, block, after, steps);
        }
    }
}

// The count of a block's taken pages, where one was free before or not, and now is or isn't.
fn count_after(count: u16, before: bool, after: bool) -> u16
    ensures { result ≡ count_after count before after }
{
    match (before, after) {
        (true, false) => count.saturating_add(1),
        (false, true) => count.saturating_sub(1),
        _ => count,
    }
}

fn none_taken() -> [u16; MAX_BLOCKS]
    ensures { result ≡ replicate table_words 0 }
{
    [0; MAX_BLOCKS]
}
