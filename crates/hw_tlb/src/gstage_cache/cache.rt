// The cache: 256 lines, one for each number of a page modulo 256.

ghost use Rattle.std.specs.Prelude.{◌≡◌, ◌+◌, ◌/◌, ◌%◌, ◌<◌, ◌≤◌, Some, None, IfSome, true};
ghost use Rattle.std.specs.Option.{ok_or};
ghost use Rattle.spec_processor.specs.GStage.{walk_guest, WalksApart};
ghost use Rattle.spec_processor.specs.CachedWalks.{line_permits, no_lines, LineAgrees, CacheAgrees, FilledUnder};
ghost use Rattle.spec_processor.specs.Bytes.{page_size};
ghost use Rattle.spec_processor.specs.Translation.{table_levels};
ghost use Rattle.hw_tlb.specs.Lookup.{line_for, is_held, place_by, place_held, line_of_mapping, IsKept};
ghost use Rattle.hw_tlb.specs.Fills.{nothing_filled, filled_further};
ghost use Rattle.hw_tlb.specs.CacheWalks.{MayWalk, Led};

use host_mem::{HostMem, Steps};
use spec_processor::{Access, CacheLine, GuestFault, PAGE_BYTES};
use std::marker::{Brand, Model};
use std::sync::ledger::{Blank, Ledger};
use sv39_walk::{GStage, Mapping, find_mapping};

/// The lines of a cache.
const LINES: usize = 256;

/// A cache of G-stage translations. Contracts see its lines, each held or empty.
#[derive(Drop)]
pub struct Cache {
    lines: [Option<CacheLine>; LINES],
}

impl Model for Cache {
    ghost use Rattle.std.specs.Prelude.{List, Option};
    ghost use Rattle.spec_processor.specs.declared.cached.CacheLine.{CacheLine as Line};

    ghost Value = { List (Option Line) };

    ghost use Rattle.hw_tlb.specs.Lookup.{IsPlaced};

    ghost view = { λ c. c.lines };

    ghost invariant = { λ c. IsPlaced c.lines };
}

impl Cache {
    /// A cache whose lines are empty.
    pub fn new() -> Cache
        ensures { result ≡ no_lines }
    {
        Cache {
            lines: [None; LINES],
        }
    }

    /// Whether the translation of an address under an `hgatp` value is held.
    pub fn holds(&self, hgatp: u64, gpa: u64) -> bool
        ensures { result ≡ is_held (line_for self.now hgatp (gpa / page_size)) }
    {
        self.line(hgatp, gpa / PAGE_BYTES).is_some()
    }

    // The line of a page under an `hgatp` value, if it is held.
    #[tactic(auto, unfolding(crate::specs::Lookup::line_for))]
    #[inline(always)]
    fn line(&self, hgatp: u64, page: u64) -> Option<CacheLine>
        ensures { result ≡ line_for self.now hgatp page }
    {
        let held = self.lines[(page % LINES as u64) as usize];
        match held {
            Some(line) => {
                if line.hgatp == hgatp && line.page == page {
                    Some(line)
                } else {
                    None
                }
            }
            None => None,
        }
    }

    /// The host place of a guest-physical address, exactly where a translation that permits the access is held. It is where
    /// the walk leads.
    ///
    /// Every line agrees with the tables.
    #[inline(always)]
    pub fn held_place(&self, mem: &HostMem, hgatp: u64, gpa: u64, access: Access) -> Option<u64>
        requires agrees { CacheAgrees mem.now.tables self.now }
        ensures held { result ≡ place_held (line_for self.now hgatp (gpa / page_size)) gpa access }
        ensures walk { IfSome result (λ hpa. walk_guest mem.now hgatp gpa access ≡ Some hpa) }
    {
        match self.line(hgatp, gpa / PAGE_BYTES) {
            Some(line) => place_by(mem, &line, gpa, access),
            None => None,
        }
    }

    /// The host place of a guest-physical address under the G-stage root that `hgatp` names, as `walk_g` gives it. A
    /// `GuestFault` with the address comes exactly where that faults.
    ///
    /// `hgatp` has mode 8 (Sv39x4), walks under it read the tables alone, and every line agrees with the tables.
    pub fn walk(
        &mut self,
        mem: &HostMem,
        hgatp: u64,
        gpa: u64,
        access: Access,
    ) -> Result<u64, GuestFault>
        requires may { MayWalk mem.now hgatp self.old }
        ensures led { Led mem.now hgatp gpa access self.old self.new result }
    {
        self.walk_on::<Brand>(mem, hgatp, gpa, access, Blank::new(1))
    }

    // `walk` with a count of its own.
    fn walk_on<L: Ledger>(
        &mut self,
        mem: &HostMem,
        hgatp: u64,
        gpa: u64,
        access: Access,
        blank: Blank,
    ) -> Result<u64, GuestFault>
        requires name { blank.name ≡ L.name }
        requires parts { blank.parts ≡ L.parts }
        requires some { 0 < blank.parts }
        requires may { MayWalk mem.now hgatp self.old }
        ensures led { Led mem.now hgatp gpa access self.old self.new result }
    {
        let mut steps = Steps::<L>::new(blank);
        self.walk_counted(mem, hgatp, gpa, access, &mut steps)
    }

    /// `walk`, which counts the table words that it reads: none where the translation is held, and at most three.
    pub fn walk_counted<L: Ledger>(
        &mut self,
        mem: &HostMem,
        hgatp: u64,
        gpa: u64,
        access: Access,
        steps: &mut Steps<L>,
    ) -> Result<u64, GuestFault>
        requires may { MayWalk mem.now hgatp self.old }
        ensures led { Led mem.now hgatp gpa access self.old self.new result }
        ensures none { is_held (line_for self.old hgatp (gpa / page_size)) ≡ true → steps.new ≡ steps.old }
        ensures steps { steps.new ≤ steps.old + table_levels }
    {
        match self.line(hgatp, gpa / PAGE_BYTES) {
            Some(line) => hit(mem, &line, gpa, access),
            None => self.fill(mem, hgatp, gpa, access, steps),
        }
    }

    // The walk of an address whose translation isn't held, kept out of the way of those that are.
    #[inline(never)]
    fn fill<L: Ledger>(
        &mut self,
        mem: &HostMem,
        hgatp: u64,
        gpa: u64,
        access: Access,
        steps: &mut Steps<L>,
    ) -> Result<u64, GuestFault>
        requires apart { WalksApart mem.now hgatp }
        requires agrees { CacheAgrees mem.now.tables self.old }
        ensures led { Led mem.now hgatp gpa access self.old self.new result }
        ensures steps { steps.new ≤ steps.old + table_levels }
    {
        let Some(mapping) = find_mapping(mem, hgatp, gpa, steps) else {
            return Err(GuestFault { gpa });
        };
        if mapping.permits(access) {
            self.keep(line_of_mapping(hgatp, gpa, &mapping));
            Ok(mapping.hpa)
        } else {
            Err(GuestFault { gpa })
        }
    }

    // Keeps a line at its page's place.
    fn keep(&mut self, line: CacheLine)
        ensures { IsKept self.old self.new line }
    {
        self.lines[(line.page % LINES as u64) as usize] = Some(line);
    }

    /// Empties all lines.
    pub fn fence_all(&mut self)
        ensures { self.new ≡ no_lines }
    {
        self.lines = empty();
    }
}

fn empty() -> [Option<CacheLine>; LINES]
    ensures { result ≡ no_lines }
{
    [None; LINES]
}

// The line that keeps where the walk of an address led.
fn line_of_mapping(hgatp: u64, gpa: u64, mapping: &Mapping) -> CacheLine
    ensures { result ≡ line_of_mapping hgatp gpa mapping.now }
{
    CacheLine {
        hgatp,
        page: gpa / PAGE_BYTES,
        host: mapping.hpa - mapping.hpa % PAGE_BYTES,
        fetch: mapping.permits(Access::Fetch),
        load: mapping.permits(Access::Load),
        store: mapping.permits(Access::Store),
    }
}

fn permits(line: &CacheLine, access: Access) -> bool
    ensures { result ≡ line_permits line.now access }
{
    match access {
        Access::Fetch => line.fetch,
        Access::Load => line.load,
        Access::Store => line.store,
    }
}

// Where a line of the address's page leads an access, if it permits it.
fn place_by(mem: &HostMem, line: &CacheLine, gpa: u64, access: Access) -> Option<u64>
    requires page { line.now.page ≡ gpa / page_size }
    requires agrees { LineAgrees mem.now.tables line.now }
    ensures held { result ≡ place_by line.now gpa access }
    ensures walk { result ≡ walk_guest mem.now line.now.hgatp gpa access }
{
    if permits(line, access) {
        Some(line.host + gpa % PAGE_BYTES)
    } else {
        None
    }
}

// What a line of the address's page answers.
fn hit(mem: &HostMem, line: &CacheLine, gpa: u64, access: Access) -> Result<u64, GuestFault>
    requires page { line.now.page ≡ gpa / page_size }
    requires agrees { LineAgrees mem.now.tables line.now }
    ensures { result ≡ ok_or (walk_guest mem.now line.now.hgatp gpa access) (record { gpa = gpa }) }
{
    match place_by(mem, line, gpa, access) {
        Some(hpa) => Ok(hpa),
        None => Err(GuestFault { gpa }),
    }
}

impl GStage for Cache {
    ghost serves = { λ lines r hgatp. CacheAgrees r.tables lines × WalksApart r hgatp };

    ghost walked = { λ r hgatp before after. FilledUnder r.tables hgatp before after };

    ghost stays = { λ r hgatp lines. nothing_filled r.tables hgatp lines };

    ghost walks_on = { λ r hgatp a b c first second. filled_further r.tables hgatp a b c first second };

    fn lead(&mut self, mem: &HostMem, hgatp: u64, gpa: u64, access: Access) -> Option<u64> {
        self.walk(mem, hgatp, gpa, access).ok()
    }
}
