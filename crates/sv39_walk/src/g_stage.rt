// The G-stage: Sv39x4.

ghost use Rattle.std.specs.Prelude.{◌≡◌, ◌+◌, ◌*◌, ◌/◌, ◌%◌, ◌^◌, ◌<◌, ◌≤◌, Some, None};
ghost use Rattle.std.specs.Option.{ok_or};
ghost use Rattle.spec_processor.specs.Translation.{walk, root_of, entry_size, table_levels};
ghost use Rattle.spec_processor.specs.GStage.{host_entry, entry_in_region, permits_guest, address_at, walk_guest, guest_address_bits};
ghost use Rattle.spec_processor.specs.declared.access.Access.{Access as Kind};
ghost use Rattle.sv39_walk.specs.Levels.{indices_of, root_choice_shift, IsTable};
ghost use Rattle.sv39_walk.specs.Mappings.{mapping_answer, found_mapping};
ghost use Rattle.spec_processor.specs.Bytes.{page_size};
ghost use Rattle.spec_processor.specs.Roots.{IsSv39x4};

use crate::entry::{
    PAGE_NUMBER, entry_page, index, is_leaf, is_pointer, leaf_address, permits_guest,
};
use host_mem::{HostMem, Steps};
use spec_processor::{
    Access, ENTRY_BYTES, ENTRY_WIDTH, GUEST_ADDRESS_BITS, GuestFault, INDEX_BITS, PAGE_BITS,
    PAGE_BYTES, PAGE_SIZE, PteBits, TABLE_LEVELS,
};
use std::marker::Brand;
use std::sync::ledger::{Blank, Ledger};

/// The leaf at which a G-stage walk ends, and the host place to which it maps the address.
#[derive(Clone, Copy, Drop)]
pub struct Mapping {
    pub leaf: PteBits,
    pub hpa: u64,
}

impl Mapping {
    /// Whether the leaf permits an access.
    pub fn permits(&self, access: Access) -> bool
        ensures { result ≡ permits_guest access self.now.leaf.0 }
    {
        permits_guest(self.leaf, access)
    }
}

/// The host place of a guest-physical address under the G-stage root that `hgatp` names.
///
/// A `GuestFault` with the address comes exactly where the address has more than 41 bits, or an entry of the walk or the
/// leaf refuses the access. `hgatp` has mode 8 (Sv39x4).
pub fn walk_g(mem: &HostMem, hgatp: u64, gpa: u64, access: Access) -> Result<u64, GuestFault>
    requires { IsSv39x4 hgatp }
    ensures { result ≡ ok_or (walk_guest mem.now hgatp gpa access) (record { gpa = gpa }) }
{
    walk_from_root(mem, hgatp, gpa, access).ok_or(GuestFault { gpa })
}

/// `walk_g`, which counts the table words that it reads: at most three.
pub fn walk_g_counted<L: Ledger>(
    mem: &HostMem,
    hgatp: u64,
    gpa: u64,
    access: Access,
    steps: &mut Steps<L>,
) -> Result<u64, GuestFault>
    requires { IsSv39x4 hgatp }
    ensures value { result ≡ ok_or (walk_guest mem.now hgatp gpa access) (record { gpa = gpa }) }
    ensures steps { steps.new ≤ steps.old + table_levels }
{
    walk_counted(mem, hgatp, gpa, access, steps).ok_or(GuestFault { gpa })
}

/// `walk_g` without the fault's address.
pub(crate) fn walk_from_root(mem: &HostMem, hgatp: u64, gpa: u64, access: Access) -> Option<u64>
    ensures { result ≡ walk_guest mem.now hgatp gpa access }
{
    walk_on::<Brand>(mem, hgatp, gpa, access, Blank::new(1))
}

// `walk_from_root` with a count of its own.
fn walk_on<L: Ledger>(
    mem: &HostMem,
    hgatp: u64,
    gpa: u64,
    access: Access,
    blank: Blank,
) -> Option<u64>
    requires name { blank.name ≡ L.name }
    requires parts { blank.parts ≡ L.parts }
    requires some { 0 < blank.parts }
    ensures { result ≡ walk_guest mem.now hgatp gpa access }
{
    let mut steps = Steps::<L>::new(blank);
    walk_counted(mem, hgatp, gpa, access, &mut steps)
}

// `walk_from_root`, counted.
fn walk_counted<L: Ledger>(
    mem: &HostMem,
    hgatp: u64,
    gpa: u64,
    access: Access,
    steps: &mut Steps<L>,
) -> Option<u64>
    ensures value { result ≡ walk_guest mem.now hgatp gpa access }
    ensures steps { steps.new ≤ steps.old + table_levels }
{
    match find_mapping(mem, hgatp, gpa, steps) {
        Some(mapping) => {
            if mapping.permits(access) {
                Some(mapping.hpa)
            } else {
                None
            }
        }
        None => None,
    }
}

/// The leaf that the G-stage walk of an address finds, whichever the access, and where it maps the address. Reads at
/// most three table words, and counts them.
pub fn find_mapping<L: Ledger>(
    mem: &HostMem,
    hgatp: u64,
    gpa: u64,
    steps: &mut Steps<L>,
) -> Option<Mapping>
    ensures value { (access : Kind) → walk_guest mem.now hgatp gpa access ≡ mapping_answer result access }
    ensures steps { steps.new ≤ steps.old + table_levels }
{
    if gpa >> GUEST_ADDRESS_BITS == 0 {
        walk_levels(mem, root_table(hgatp, gpa), gpa, steps)
    } else {
        None
    }
}

// Where the bits of an address stand that choose among the four tables of a root.
const ROOT_CHOICE_SHIFT: u32 = PAGE_BITS + INDEX_BITS * TABLE_LEVELS;

// The root is four tables in one; the highest two bits of the address choose among them.
fn root_table(hgatp: u64, gpa: u64) -> u64
    requires { gpa < 2 ^ guest_address_bits }
    ensures value { result ≡ root_of hgatp + page_size * (gpa / 2 ^ root_choice_shift) }
    ensures table { IsTable result }
{
    PAGE_BYTES * ((hgatp & PAGE_NUMBER) + (gpa >> ROOT_CHOICE_SHIFT))
}

// The walk of an address from a table with three levels, its own counted.
fn walk_levels<L: Ledger>(
    mem: &HostMem,
    root: u64,
    gpa: u64,
    steps: &mut Steps<L>,
) -> Option<Mapping>
    requires { IsTable root }
    ensures value { (access : Kind) → address_at (walk (entry_in_region mem.now) (permits_guest access) (indices_of table_levels gpa) root gpa) ≡
        mapping_answer result access }
    ensures steps { steps.new ≤ steps.old + table_levels }
{
    let mut table = root;
    'levels: for below in (0..TABLE_LEVELS).rev() {
        let entry = host_entry(mem, table + ENTRY_BYTES * index(gpa, below), steps);
        if !is_pointer(entry) {
            return at_leaf(entry, below, gpa);
        }
        table = entry_page(entry);
    }
    None
}

// What an entry that is no pointer gives, with so many levels below it.
fn at_leaf(entry: PteBits, below: u32, gpa: u64) -> Option<Mapping>
    requires { below < table_levels }
    ensures { result ≡ found_mapping below entry gpa }
{
    if is_leaf(entry, below) {
        Some(Mapping {
            leaf: entry,
            hpa: leaf_address(entry, below, gpa),
        })
    } else {
        None
    }
}

// The entry at a host place, counted where it is read. One that isn't whole in the region counts as one with V clear.
#[tactic(auto, unfolding(spec_processor::specs::GStage::host_entry))]
fn host_entry<L: Ledger>(mem: &HostMem, at: u64, steps: &mut Steps<L>) -> PteBits
    requires aligned { at % entry_size ≡ 0 }
    requires small { at < 2 ^ 60 }
    ensures value { result.0 ≡ host_entry mem.now at }
    ensures steps { steps.new ≤ steps.old + 1 }
{
    let size = mem.table_bytes() + PAGE_SIZE * mem.ram_pages();
    let at = at as usize;
    if at + usize::from(ENTRY_WIDTH) <= size {
        PteBits(mem.word(at, steps))
    } else {
        PteBits(0)
    }
}
