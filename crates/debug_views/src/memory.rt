// Guest memory by virtual addresses.
ghost use Rattle.std.specs.Prelude.{◌≡◌, ◌+◌, ◌<◌, ◌^◌, ◌++◌, OnOk, true};
ghost use Rattle.spec_processor.specs.Translation.{entry_in_ram, is_canonical, permits_access, walk};
ghost use Rattle.spec_processor.specs.declared.access.Access.{Access};
ghost use Rattle.spec_processor.specs.declared.mode.Mode.{Mode};
ghost use Rattle.sv39_walk.specs.Levels.{indices_of};
ghost use Rattle.sv39_walk.specs.Regimes.{settings_of};
ghost use Rattle.debug_views.specs.Memory as spec;

use host_mem::word_at;
use spec_processor::{
    Access, BARE, ENTRY_BYTES, ENTRY_WIDTH, Mode, PteBits, ROOT_MODE_SHIFT, SIGN_BIT, is_in_ram,
    ram_offset,
};
use std::alloc::AllocError;
use sv39_walk::{Regime, entry_page, index, is_pointer, leaf_gpa, root_table};

/// The bits above the sign's place, all set.
const ALL_SIGNS: u64 = (1 << (64 - SIGN_BIT)) - 1;

// Kernel mode's loads, where SUM and MXR count as set. No second stage is asked.
fn view_regime(satp: u64) -> Regime
    ensures { result ≡ record { hgatp = 0; vsatp = satp; mode = Mode.Kernel; sum = true; mxr = true } }
{
    Regime {
        hgatp: 0,
        vsatp: satp,
        mode: Mode::Kernel,
        sum: true,
        mxr: true,
    }
}

/// The table entry at a guest-physical address. None outside RAM.
#[tactic(auto, unfolding(spec_processor::specs::Translation::entry_in_ram))]
pub(crate) fn entry_at(ram: &[u8], gpa: u64) -> Option<u64>
    ensures { result ≡ entry_in_ram ram.now gpa }
{
    if is_in_ram(gpa, ENTRY_BYTES, ram.len() as u64) {
        Some(word_at(ram, ram_offset(gpa) as usize, ENTRY_WIDTH))
    } else {
        None
    }
}

// What a leaf with so many levels below it gives.
#[tactic(auto, unfolding(spec_processor::specs::Translation::walk))]
fn last_level(ram: &[u8], regime: &Regime, table: u64, va: u64) -> Option<u64>
    requires table { table < 2 ^ 57 }
    requires canonical { is_canonical va ≡ true }
    ensures { result ≡ spec.address_in (walk (entry_in_ram ram.now) (permits_access (settings_of regime.now) regime.now.mode Access.Load) (indices_of 1 va)
        table va) }
{
    let entry = PteBits(entry_at(ram, table + ENTRY_BYTES * index(va, 0))?);
    if is_pointer(entry) {
        return None;
    }
    leaf_gpa(entry, 0, regime, va, Access::Load)
}

#[tactic(auto, unfolding(spec_processor::specs::Translation::walk))]
fn middle_level(ram: &[u8], regime: &Regime, table: u64, va: u64) -> Option<u64>
    requires table { table < 2 ^ 57 }
    requires canonical { is_canonical va ≡ true }
    ensures { result ≡ spec.address_in (walk (entry_in_ram ram.now) (permits_access (settings_of regime.now) regime.now.mode Access.Load) (indices_of 2 va)
        table va) }
{
    let entry = PteBits(entry_at(ram, table + ENTRY_BYTES * index(va, 1))?);
    if is_pointer(entry) {
        return last_level(ram, regime, entry_page(entry), va);
    }
    leaf_gpa(entry, 1, regime, va, Access::Load)
}

#[tactic(auto, unfolding(spec_processor::specs::Translation::walk))]
fn first_level(ram: &[u8], regime: &Regime, table: u64, va: u64) -> Option<u64>
    requires table { table < 2 ^ 57 }
    requires canonical { is_canonical va ≡ true }
    ensures { result ≡ spec.address_in (walk (entry_in_ram ram.now) (permits_access (settings_of regime.now) regime.now.mode Access.Load) (indices_of 3 va)
        table va) }
{
    let entry = PteBits(entry_at(ram, table + ENTRY_BYTES * index(va, 2))?);
    if is_pointer(entry) {
        return middle_level(ram, regime, entry_page(entry), va);
    }
    leaf_gpa(entry, 2, regime, va, Access::Load)
}

/// Whether bits 63 to 39 are as bit 38.
pub(crate) fn is_canonical(va: u64) -> bool
    ensures { result ≡ is_canonical va }
{
    let high = va >> SIGN_BIT;
    (high == 0) | (high == ALL_SIGNS)
}

/// The guest-physical address of a virtual one, by the loads of kernel mode under a root. None where they fault.
#[tactic(auto, unfolding(crate::specs::Memory::seen_address, spec_processor::specs::Translation::place, spec_processor::specs::Translation::first_stage))]
pub fn seen_address(ram: &[u8], satp: u64, va: u64) -> Option<u64>
    ensures { result ≡ spec.seen_address ram.now satp va }
{
    if satp >> ROOT_MODE_SHIFT == BARE {
        return Some(va);
    }
    if !is_canonical(va) {
        return None;
    }
    first_level(ram, &view_regime(satp), root_table(satp), va)
}

#[tactic(auto, unfolding(crate::specs::Memory::seen_byte))]
fn seen_byte(ram: &[u8], satp: u64, va: u64) -> Option<u8>
    ensures { result ≡ spec.seen_byte ram.now satp va }
{
    let gpa = seen_address(ram, satp, va)?;
    if is_in_ram(gpa, 1, ram.len() as u64) {
        Some(ram[ram_offset(gpa) as usize])
    } else {
        None
    }
}

/// So many bytes from a virtual address on are put at the end: those before the first that isn't seen, or before the end of
/// addresses.
pub fn push_seen_bytes(
    out: &mut Vec<u8>,
    ram: &[u8],
    satp: u64,
    va: u64,
    count: u64,
) -> Result<(), AllocError>
    ensures { OnOk result (out.new.items ≡ out.old.items ++ spec.seen_bytes ram.now satp va count) }
{
    'bytes: for i in 0..count {
        let Some(at) = va.checked_add(i) else {
            return Ok(());
        };
        let Some(byte) = seen_byte(ram, satp, at) else {
            return Ok(());
        };
        if out.push(byte).is_err() {
            return Err(AllocError);
        }
    }
    Ok(())
}
