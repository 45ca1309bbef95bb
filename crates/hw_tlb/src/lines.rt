// All translations that are kept: 256 for fetches, 64 for loads and 64 for stores, by the number of the page.

ghost use Rattle.std.specs.Prelude.{◌≡◌, ◌+◌, ◌/◌, ◌%◌, ◌<◌, IfSome, Some, length};
ghost use Rattle.spec_processor.specs.Translation.{address_pages};
ghost use Rattle.spec_processor.specs.Bytes.{page_size};
ghost use Rattle.spec_processor.specs.GStage.{WalksApart};
ghost use Rattle.spec_processor.specs.Roots.{IsBare, IsFirstStageRoot};
ghost use Rattle.hw_tlb.specs.CacheWalks.{MayWalk, Walked};
ghost use Rattle.hw_tlb.specs.declared.line.Line.{Line as Kept};
ghost use Rattle.hw_tlb.specs.Kept.{lines_of_reach, no_lines, line_at, line_place, leads_under, IsFor, IsKept, AreThere, LineAgrees, ReachAgrees};

use crate::gstage_cache::Cache;
use crate::line::Line;
use crate::tag::{is_for, tag};
use crate::walk::read_entries;
use host_mem::HostMem;
use spec_processor::{Access, BARE, PAGE_BYTES, ROOT_MODE_SHIFT};
use std::marker::Model;
use sv39_walk::{GStage, Regime, leaf_gpa, root_table};

/// The lines for each kind of access. Kernels have wide texts.
const FETCH_LINES: u64 = 256;

const LOAD_LINES: u64 = 64;

const STORE_LINES: u64 = 64;

/// All lines.
const LINES: usize = (FETCH_LINES + LOAD_LINES + STORE_LINES) as usize;

/// Translations through both stages under Sv39 that were made. Contracts see the lines, each held or empty.
#[derive(Drop)]
pub struct Reach {
    lines: [Option<Line>; LINES],
}

impl Model for Reach {
    ghost use Rattle.std.specs.Prelude.{List, Option};
    ghost use Rattle.hw_tlb.specs.declared.line.Line.{Line as Kept};

    ghost Value = { List (Option Kept) };

    ghost use Rattle.std.specs.Prelude.{◌≡◌, length};
    ghost use Rattle.hw_tlb.specs.Kept.{lines_of_reach};

    ghost view = { λ r. r.lines };

    ghost invariant = { λ r. length r.lines ≡ lines_of_reach };
}

// Where the line of an access to a page is kept: those for loads stand after those for fetches, and those for stores
// after these.
#[inline(always)]
fn line_place(access: Access, page: u64) -> usize
    ensures value { result ≡ line_place access page }
    ensures inside { result < lines_of_reach }
{
    let place = match access {
        Access::Fetch => page % FETCH_LINES,
        Access::Load => FETCH_LINES + page % LOAD_LINES,
        Access::Store => FETCH_LINES + LOAD_LINES + page % STORE_LINES,
    };
    place as usize
}

// Where a line of the address's page leads, if the words that it read still stand.
#[inline(always)]
fn place_by(mem: &HostMem, line: &Line, va: u64) -> Option<u64>
    requires page { line.now.page ≡ va / page_size }
    requires apart { WalksApart mem.now line.now.regime.hgatp }
    requires agrees { LineAgrees mem.now.tables line.now }
    ensures leads { IfSome result (λ hpa. leads_under mem.now line.now.regime line.now.access va ≡ Some hpa) }
    ensures kept { AreThere mem.now line.now.entries → result ≡ Some (line.now.host + va % page_size) }
{
    if line.entries.are_there(mem, line.regime.hgatp) {
        Some(line.host + va % PAGE_BYTES)
    } else {
        None
    }
}

impl Reach {
    /// No translation is held.
    pub fn new() -> Reach
        ensures { result ≡ no_lines }
    {
        Reach { lines: no_lines() }
    }

    /// Empties all lines.
    pub fn clear(&mut self)
        ensures { self.new ≡ no_lines }
    {
        self.lines = no_lines();
    }

    // The line of such accesses to a page, if it is held.
    #[inline(always)]
    fn line(&self, regime: &Regime, access: Access, page: u64) -> Option<Line>
        requires { page < address_pages }
        ensures held { IfSome result (λ line. line_at self.now (line_place access page) ≡ Some line) }
        ensures tags { IfSome result (λ line. IsFor regime.now access page line) }
        ensures kept { (line : Kept) → line_at self.now (line_place access page) ≡ Some line → IsFor regime.now access page line → result ≡ Some line }
    {
        let held = self.lines[line_place(access, page)];
        match held {
            Some(line) => {
                if is_for(&line, regime, access, page) {
                    Some(line)
                } else {
                    None
                }
            }
            None => None,
        }
    }

    /// The host place of a virtual address, where its translation is held and the words that it read still stand. It is
    /// where both stages lead the access.
    ///
    /// Every line agrees with the tables, and walks under the regime's `hgatp` read these alone.
    #[inline(always)]
    pub fn held_place(&self, mem: &HostMem, regime: &Regime, va: u64, access: Access) -> Option<u64>
        requires apart { WalksApart mem.now regime.now.hgatp }
        requires agrees { ReachAgrees mem.now.tables self.now }
        ensures leads { IfSome result (λ hpa. leads_under mem.now regime.now access va ≡ Some hpa) }
        ensures kept { (line : Kept) → line_at self.now (line_place access (va / page_size)) ≡ Some line →
            IsFor regime.now access (va / page_size) line → AreThere mem.now line.entries → result ≡ Some (line.host + va % page_size) }
    {
        match self.line(regime, access, va / PAGE_BYTES) {
            Some(line) => place_by(mem, &line, va),
            None => None,
        }
    }

    /// The host place of a virtual address by a walk of both stages, none exactly where one of them refuses the access.
    /// What the walk read is kept, where there is a first stage.
    ///
    /// The regime has mode 8 (Sv39x4) in `hgatp`, and mode 0 (bare) or 8 (Sv39) in `vsatp`. Walks under `hgatp` read the
    /// tables alone, and all lines agree with these.
    #[inline(never)]
    pub fn walk(
        &mut self,
        cache: &mut Cache,
        mem: &HostMem,
        regime: &Regime,
        va: u64,
        access: Access,
    ) -> Option<u64>
        requires may { MayWalk mem.now regime.now.hgatp cache.old }
        requires first { IsFirstStageRoot regime.now.vsatp }
        requires agrees { ReachAgrees mem.now.tables self.old }
        ensures value { result ≡ leads_under mem.now regime.now access va }
        ensures agrees { ReachAgrees mem.now.tables self.new }
        ensures walked { Walked mem.now.tables regime.now.hgatp cache.old cache.new }
    {
        if regime.vsatp >> ROOT_MODE_SHIFT == BARE {
            return cache.lead(mem, regime.hgatp, va, access);
        }
        self.walk_tables(cache, mem, regime, va, access)
    }

    // `walk`, where there is a first stage: its entries are read once, for the place and for the line.
    fn walk_tables(
        &mut self,
        cache: &mut Cache,
        mem: &HostMem,
        regime: &Regime,
        va: u64,
        access: Access,
    ) -> Option<u64>
        requires may { MayWalk mem.now regime.now.hgatp cache.old }
        requires paged { IsBare regime.now.vsatp → ⊥ }
        requires agrees { ReachAgrees mem.now.tables self.old }
        ensures value { result ≡ leads_under mem.now regime.now access va }
        ensures agrees { ReachAgrees mem.now.tables self.new }
        ensures walked { Walked mem.now.tables regime.now.hgatp cache.old cache.new }
    {
        let root = root_table(regime.vsatp);
        let read = read_entries(cache, mem, regime.hgatp, root, va)?;
        let gpa = leaf_gpa(read.last, read.below, regime, va, access)?;
        let hpa = cache.lead(mem, regime.hgatp, gpa, access)?;
        let page = va / PAGE_BYTES;
        self.keep(Line {
            tag: tag(regime, access, page),
            regime: *regime,
            access,
            page,
            host: hpa - hpa % PAGE_BYTES,
            entries: read.entries,
        });
        Some(hpa)
    }

    // Keeps a line at its place.
    fn keep(&mut self, line: Line)
        ensures { IsKept self.old self.new line }
    {
        self.lines[line_place(line.access, line.page)] = Some(line);
    }
}

fn no_lines() -> [Option<Line>; LINES]
    ensures { result ≡ no_lines }
{
    [None; LINES]
}
