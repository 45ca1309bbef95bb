// The entries that a walk of the first stage reads.

ghost use Rattle.std.specs.Prelude.{◌≡◌, ◌%◌, IfSome, Some, None};
ghost use Rattle.spec_processor.specs.Regions.{Region};
ghost use Rattle.spec_processor.specs.GStage.{walk_guest};
ghost use Rattle.spec_processor.specs.declared.access.Access.TheVariants as Access;
ghost use Rattle.sv39_walk.specs.Levels.{IsTable};
ghost use Rattle.hw_tlb.specs.CacheWalks.{MayWalk, Walked};
ghost use Rattle.hw_tlb.specs.Kept.{IsThere, AreThere, ArePlaces, EndsAt, LeadsNowhere};
ghost use Rattle.spec_processor.specs.Translation.{entry_size};

use crate::entries::{Entries, Entry};
use crate::gstage_cache::Cache;
use host_mem::HostMem;
use spec_processor::{Access, ENTRY_BYTES, ENTRY_WIDTH, PteBits, TABLE_LEVELS};
use sv39_walk::{GStage, entry_page, index, is_pointer};

// The entry at a guest-physical address, read where the G-stage leads as a load.
fn read_entry(cache: &mut Cache, mem: &HostMem, hgatp: u64, gpa: u64) -> Option<Entry>
    requires may { MayWalk mem.now hgatp cache.old }
    requires aligned { gpa % entry_size ≡ 0 }
    ensures there { IfSome result (λ seen. IsThere mem.now seen) }
    ensures leads { IfSome result (λ seen. (r : Region) → r.tables ≡ mem.now.tables → walk_guest r hgatp gpa Access.Load ≡ Some seen.at) }
    ensures missing { result ≡ None → walk_guest mem.now hgatp gpa Access.Load ≡ None }
    ensures walked { Walked mem.now.tables hgatp cache.old cache.new }
{
    let Some(at) = cache.lead(mem, hgatp, gpa, Access::Load) else {
        return None;
    };
    let _table_bytes = mem.table_bytes();
    Some(Entry {
        at,
        word: mem.read(at as usize, ENTRY_WIDTH),
    })
}

/// What a walk of the first stage read: its entries, and of the last one its word and how many levels stand below it.
#[derive(Drop)]
pub(crate) struct FirstWalk {
    pub(crate) entries: Entries,
    pub(crate) last: PteBits,
    pub(crate) below: u32,
}

/// The entries that the walk of an address from a table with three levels, its own counted, reads. None where one of them
/// can't be read, or the last one names a table; then the walk leads nowhere.
pub(crate) fn read_entries(
    cache: &mut Cache,
    mem: &HostMem,
    hgatp: u64,
    root: u64,
    va: u64,
) -> Option<FirstWalk>
    requires may { MayWalk mem.now hgatp cache.old }
    requires table { IsTable root }
    ensures ends { IfSome result (λ read. EndsAt mem.now.tables hgatp root va read.entries read.below read.last.0) }
    ensures there { IfSome result (λ read. AreThere mem.now read.entries) }
    ensures places { IfSome result (λ read. ArePlaces mem.now.tables hgatp read.entries) }
    ensures nowhere { result ≡ None → LeadsNowhere mem.now hgatp root va }
    ensures walked { Walked mem.now.tables hgatp cache.old cache.new }
{
    let mut table = root;
    let mut entries = Entries::none();
    'levels: for below in (0..TABLE_LEVELS).rev() {
        let Some(seen) = read_entry(cache, mem, hgatp, table + ENTRY_BYTES * index(va, below))
        else {
            return None;
        };
        entries = entries.with_entry(below, seen);
        let pte = PteBits(seen.word);
        if !is_pointer(pte) {
            return Some(FirstWalk {
                entries,
                last: pte,
                below,
            });
        }
        table = entry_page(pte);
    }
    None
}
