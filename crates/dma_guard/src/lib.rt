//! What a device may do to memory: a guard with one bit for each page of RAM, and what a block device is to the machine.
#![tactic(auto)]

ghost use Rattle.std.specs.Prelude.{◌≡◌, ◌+◌, ◌<◌, ◌≤◌, ◌%◌, length, replicate, slice_set, IfOk, true};
ghost use Rattle.spec_processor.specs.Bytes.{low_bytes, page_size};
ghost use Rattle.sv_types.specs.Schedule.{poke_size};
ghost use Rattle.spec_reference.specs.Attacker.{poke_move};
ghost use Rattle.spec_reference.specs.Disk.{is_writable};
ghost use Rattle.dma_guard.specs.Transfers.{write_answer, after_write, read_answer, after_read, beat_of, after_move};

mod port;

use host_mem::HostMem;
pub use port::{DiskPort, DmaStep};
use spec_processor::PAGE_SIZE;
use std::alloc::{AllocError, Global};
use std::marker::Model;

/// The bytes that one write of an attacker's device moves.
const POKE_BYTES: u64 = 8;

/// Why a device's access to memory is refused.
#[derive(Clone, Copy, Debug, Drop)]
pub enum DmaRefused {
    /// The page, counted from 0, may not be written.
    Protected { page: u32 },
    /// The bytes are not all in RAM.
    OutOfRam,
}

/// Which pages of RAM a device may write. Contracts see one bit for each page, counted from 0.
#[derive(Drop)]
pub struct DmaGuard {
    writable: Vec<bool>,
}

impl Model for DmaGuard {
    ghost use Rattle.std.specs.Prelude.{List, Bool};

    ghost Value = { List Bool };

    ghost view = { λ g. g.writable.items };
}

impl DmaGuard {
    /// A guard under which all pages of RAM are writable.
    pub fn new(alloc: Global, ram_pages: usize) -> Result<DmaGuard, AllocError>
        ensures { IfOk result (λ g. g ≡ replicate ram_pages true) }
    {
        let writable = vec![in alloc; true; ram_pages]?;
        Ok(DmaGuard { writable })
    }

    /// Whether a device may write a page.
    pub fn may_write(&self, page: u32) -> bool
        ensures { result ≡ is_writable self.now page }
    {
        self.writable.get(page as usize).copied().unwrap_or(false)
    }

    /// Says of one page whether a device may write it.
    pub fn set(&mut self, page: u32, writable: bool)
        requires { page < length self.old }
        ensures { self.new ≡ slice_set self.old page writable }
    {
        self.writable[page as usize] = writable;
    }

    /// Writes bytes at a guest-physical address. They lie in one page's span. Where they are refused nothing changes.
    #[tactic(auto, unfolding(crate::specs::Transfers::write_answer, crate::specs::Transfers::after_write))]
    pub fn write(&self, mem: &mut HostMem, gpa: u64, bytes: &[u8]) -> Result<(), DmaRefused>
        requires one_page { gpa % page_size + length bytes.now ≤ page_size }
        ensures answer { result ≡ write_answer mem.old.ram self.now gpa (length bytes.now) }
        ensures memory { mem.new ≡ after_write mem.old self.now gpa bytes.now }
    {
        let Some(place) = mem.place_in_ram(gpa, bytes.len() as u64) else {
            return Err(DmaRefused::OutOfRam);
        };
        let page = (place / PAGE_SIZE) as u32;
        if !self.may_write(page) {
            return Err(DmaRefused::Protected { page });
        }
        mem.copy_in(mem.table_bytes() + place, bytes);
        Ok(())
    }

    /// A write of an attacker's device: eight bytes, little-endian. Nothing moves where the address is no multiple of 8.
    #[tactic(auto, unfolding(spec_reference::specs::Attacker::poke_move, crate::specs::Transfers::write_answer, crate::specs::Transfers::after_write))]
    pub fn poke(&self, mem: &mut HostMem, gpa: u64, value: u64) -> DmaStep
        ensures told { result ≡ beat_of (poke_move mem.old.ram (is_writable self.now) gpa value) }
        ensures memory { mem.new ≡ after_move mem.old (poke_move mem.old.ram (is_writable self.now) gpa value) }
    {
        if gpa % POKE_BYTES != 0 {
            return DmaStep::Range;
        }
        match self.write(mem, gpa, &low_8(value)) {
            Ok(()) => DmaStep::Wrote {
                gpa,
                len: POKE_BYTES as u32,
            },
            Err(DmaRefused::Protected { page: _ }) => DmaStep::Denied { gpa },
            Err(DmaRefused::OutOfRam) => DmaStep::Range,
        }
    }

    /// Reads bytes from a guest-physical address on, as many as there is room for. Every page of RAM may be read.
    #[tactic(auto, unfolding(crate::specs::Transfers::read_answer, crate::specs::Transfers::after_read))]
    pub fn read(&self, mem: &HostMem, gpa: u64, into: &mut [u8]) -> Result<(), DmaRefused>
        ensures answer { result ≡ read_answer mem.now.ram gpa (length into.old) }
        ensures read { into.new ≡ after_read mem.now.ram gpa into.old }
    {
        let Some(place) = mem.place_in_ram(gpa, into.len() as u64) else {
            return Err(DmaRefused::OutOfRam);
        };
        into.copy_from_slice(&mem.ram()[place..place + into.len()]);
        Ok(())
    }
}

// The eight bytes of a number, the lowest first.
fn low_8(value: u64) -> [u8; 8]
    ensures { result ≡ low_bytes poke_size value }
{
    value.to_le_bytes()
}
