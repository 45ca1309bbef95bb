//! Host memory: one region of bytes, the table part and after it guest RAM.
#![tactic(auto)]

ghost use Rattle.std.specs.Prelude.{◌≡◌, ◌+◌, ◌-◌, ◌*◌, ◌<◌, ◌≤◌, ◌%◌, ◌^◌, length, Some, None, IfOk, IfSome, if◌then◌else◌, replicate};
ghost use Rattle.spec_processor.specs.Bytes.{page_size, page_bytes, overwrite, in_ram, ram_base, ram_offset};
ghost use Rattle.spec_processor.specs.Regions.{Region, IsRegion, IsHostPlace, max_ram_pages, host_bytes, host_word, write_host};
ghost use Rattle.spec_processor.specs.Translation.{entry_size};

pub mod raw_bytes;
mod steps;
mod words;

use crate::raw_bytes::RawBytes;
pub use crate::steps::Steps;
pub use crate::words::{put_word, word_at};
use spec_processor::{ENTRY_WIDTH, PAGE_BYTES, PAGE_SIZE, is_in_ram, ram_offset};
use std::alloc::{AllocError, Global};
use std::marker::Model;
use std::sync::ledger::Ledger;

/// A region of host memory. Contracts see its table part and its guest RAM, each as a list of bytes.
#[derive(Drop)]
pub struct HostMem {
    bytes: RawBytes,
    table_bytes: usize,
    ram_pages: usize,
}

impl Model for HostMem {
    ghost use Rattle.spec_processor.specs.Regions.{Region, region_code};

    ghost Value = { Region };

    ghost coded = { region_code };

    ghost use Rattle.std.specs.Prelude.{◌≡◌, ◌+◌, ◌*◌, ◌<◌, ◌≤◌, ◌%◌, ◌^◌, length};
    ghost use Rattle.spec_processor.specs.Bytes.{page_size};
    ghost use Rattle.spec_processor.specs.Regions.{region_of, max_ram_pages};

    ghost view = { λ m. region_of m.table_bytes m.bytes };

    ghost invariant = { λ m. (length m.bytes ≡ m.table_bytes + page_size * m.ram_pages) ×
        ((m.table_bytes % page_size ≡ 0) × ((m.ram_pages ≤ max_ram_pages) × (length m.bytes < 2 ^ 63))) };
}

impl HostMem {
    /// A region whose table part has `table_bytes` bytes, in whole pages, and whose guest RAM has `ram_pages` pages, all
    /// of them zeros. Fails where memory runs out.
    pub fn new(alloc: Global, table_bytes: usize, ram_pages: usize) -> Result<HostMem, AllocError>
        requires whole { table_bytes % page_size ≡ 0 }
        requires few { ram_pages ≤ max_ram_pages }
        ensures { IfOk result (λ m. m ≡ record { tables = replicate table_bytes 0; ram = replicate (page_size * ram_pages) 0 }) }
    {
        let Some(size) = table_bytes.checked_add(PAGE_SIZE * ram_pages) else {
            return Err(AllocError);
        };
        let bytes = RawBytes::zeroed(alloc, size)?;
        Ok(HostMem {
            bytes,
            table_bytes,
            ram_pages,
        })
    }

    /// The bytes of the table part, where guest RAM begins.
    pub fn table_bytes(&self) -> usize
        ensures value { result ≡ length self.now.tables }
        ensures region { IsRegion self.now }
    {
        self.table_bytes
    }

    /// The pages of guest RAM.
    pub fn ram_pages(&self) -> usize
        ensures value { page_size * result ≡ length self.now.ram }
        ensures region { IsRegion self.now }
    {
        self.ram_pages
    }

    /// The place in RAM of `len` bytes at a guest-physical address, where they all lie in RAM.
    pub fn place_in_ram(&self, gpa: u64, len: u64) -> Option<usize>
        ensures value { result ≡ (if in_ram self.now.ram gpa len then Some (ram_offset gpa) else None) }
        ensures begins { IfSome result (λ place. ram_base ≤ gpa) }
        ensures ends { IfSome result (λ place. place + len ≤ length self.now.ram) }
        ensures region { IsRegion self.now }
    {
        let ram_bytes = PAGE_BYTES * self.ram_pages() as u64;
        if is_in_ram(gpa, len, ram_bytes) {
            Some(ram_offset(gpa) as usize)
        } else {
            None
        }
    }

    /// The word of `width` bytes at a host place, the lowest byte first. The width is 1, 2, 4 or 8, and the place a
    /// multiple of it.
    pub fn read(&self, at: usize, width: u8) -> u64
        requires { IsHostPlace self.now at width }
        ensures value { result ≡ host_word self.now at width }
        ensures small { result < 256 ^ width }
    {
        word_at(self.bytes.as_slice(), at, width)
    }

    /// The entry of a table at a host place, a multiple of its 8 bytes. Counts one step.
    pub fn word<L: Ledger>(&self, at: usize, steps: &mut Steps<L>) -> u64
        requires { IsHostPlace self.now at entry_size }
        ensures value { result ≡ host_word self.now at entry_size }
        ensures step { steps.new ≡ steps.old + 1 }
    {
        steps.tick();
        self.read(at, ENTRY_WIDTH)
    }

    /// Writes the `width` lowest bytes of `value` at a host place, the lowest first. The width is 1, 2, 4 or 8, and the
    /// place a multiple of it.
    pub fn write(&mut self, at: usize, width: u8, value: u64)
        requires { IsHostPlace self.old at width }
        ensures { self.new ≡ write_host self.old at width value }
    {
        put_word(self.bytes.as_mut_slice(), at, width, value);
    }

    /// Writes an entry of a table at a host place, a multiple of its 8 bytes. Counts one step.
    pub fn set_word<L: Ledger>(&mut self, at: usize, value: u64, steps: &mut Steps<L>)
        requires { IsHostPlace self.old at entry_size }
        ensures memory { self.new ≡ write_host self.old at entry_size value }
        ensures step { steps.new ≡ steps.old + 1 }
    {
        steps.tick();
        self.write(at, ENTRY_WIDTH, value);
    }

    /// The 4,096 bytes of page `n` of guest RAM, where pages are counted from 0.
    pub fn page(&self, n: u32) -> &[u8]
        requires { page_size * (n + 1) ≤ length self.now.ram }
        ensures bytes { result.now ≡ page_bytes self.now.ram n }
        ensures size { length result.now ≡ page_size }
    {
        let start = self.table_bytes + PAGE_SIZE * n as usize;
        &self.bytes.as_slice()[start..start + PAGE_SIZE]
    }

    /// Guest RAM, all of it.
    pub fn ram(&self) -> &[u8]
        ensures { result.now ≡ self.now.ram }
    {
        &self.bytes.as_slice()[self.table_bytes..]
    }

    /// Copies `bytes` to the host places from `at` on, which all lie in the region.
    pub fn copy_in(&mut self, at: usize, bytes: &[u8])
        requires { at + length bytes.now ≤ length (host_bytes self.old) }
        ensures bytes { host_bytes self.new ≡ overwrite (host_bytes self.old) at bytes.now }
        ensures tables { length self.new.tables ≡ length self.old.tables }
        ensures ram { length self.old.tables ≤ at → self.new ≡ record self.old { ram = overwrite self.old.ram (at - length self.old.tables) bytes.now } }
    {
        self.bytes.as_mut_slice()[at..at + bytes.len()].copy_from_slice(bytes);
    }
}
