// What a chain asks for, and whether that can be done.

ghost use Rattle.std.specs.Prelude.{◌≡◌, ◌+◌, ◌*◌, ◌≤◌, IsTrue, length};
ghost use Rattle.std.specs.List.{list_all};
ghost use Rattle.spec_processor.specs.Bytes.{in_ram, ram_base, ram_offset};
ghost use Rattle.spec_reference.specs.VirtioChain.{header_size, is_header, is_good_chain, max_parts};
ghost use Rattle.virtio_blk.specs.Held.{HasHeader};
ghost use Rattle.spec_reference.specs.VirtioRequests.{bytes_in, lies_in, fits_type, are_sectors, can_move, result_by};

use spec_processor::is_in_ram;
use sv_types::{SECTOR_BYTES, VirtioPart, VirtioResult};

/// A header and a result.
const LEAST_PARTS: usize = 2;

/// The bytes of a request's header, and of its result.
const HEADER_BYTES: u32 = 16;

const RESULT_BYTES: u32 = 1;

/// The types of requests: the disk is read, and written.
const READ_DISK: u64 = 0;

const WRITE_DISK: u64 = 1;

/// Whether so many bytes all lie in RAM, which is given whole.
pub fn lies_in_ram(ram: &[u8], gpa: u64, len: u64) -> bool
    ensures value { result ≡ in_ram ram.now gpa len }
    ensures begins { IsTrue result → ram_base ≤ gpa }
    ensures ends { IsTrue result → ram_offset gpa + len ≤ length ram.now }
{
    is_in_ram(gpa, len, ram.len() as u64)
}

// Whether a part's bytes lie in RAM, where it has any.
fn lies_in(ram: &[u8], part: &VirtioPart) -> bool
    ensures { result ≡ lies_in ram.now part.now }
{
    part.len == 0 || lies_in_ram(ram, part.gpa, part.len as u64)
}

// Whether the device may do to data what a type asks for.
fn fits_type(kind: u64, part: &VirtioPart) -> bool
    ensures { result ≡ fits_type kind part.now }
{
    if kind == READ_DISK {
        part.write
    } else {
        !part.write
    }
}

/// The bytes of parts.
pub fn bytes_in(parts: &[VirtioPart]) -> u64
    requires { length parts.now ≤ max_parts }
    ensures { result ≡ bytes_in parts.now }
{
    parts.iter().map(|part| part.len as u64).sum()
}

// There are sectors, and all of them lie on the disk. No test wraps.
fn are_sectors(disk_size: usize, sector: u64, size: u64) -> bool
    ensures { result ≡ are_sectors disk_size sector size }
{
    let end = SECTOR_BYTES as u128 * sector as u128 + size as u128;
    size != 0 && size % SECTOR_BYTES == 0 && end <= disk_size as u128
}

// Whether all data lies in RAM.
fn all_lie_in(ram: &[u8], parts: &[VirtioPart]) -> bool
    ensures { result ≡ list_all (lies_in ram.now) parts.now }
{
    parts.iter().all(|part| lies_in(ram, part))
}

// Whether the device may do to all data what a type asks for.
fn all_fit_type(kind: u64, parts: &[VirtioPart]) -> bool
    ensures { result ≡ list_all (fits_type kind) parts.now }
{
    parts.iter().all(|part| fits_type(kind, part))
}

// Whether the data's moves can be made.
#[tactic(auto, unfolding(spec_reference::specs::VirtioRequests::can_move))]
fn can_move(ram: &[u8], disk_size: usize, kind: u64, sector: u64, parts: &[VirtioPart]) -> bool
    requires { length parts.now ≤ max_parts }
    ensures { result ≡ can_move ram.now disk_size kind sector parts.now }
{
    are_sectors(disk_size, sector, bytes_in(parts))
        && all_lie_in(ram, parts)
        && all_fit_type(kind, parts)
}

/// The result that a request has as it is accepted.
#[tactic(auto, unfolding(spec_reference::specs::VirtioRequests::result_by))]
pub fn result_by(
    ram: &[u8],
    disk_size: usize,
    kind: u64,
    sector: u64,
    parts: &[VirtioPart],
) -> VirtioResult
    requires { length parts.now ≤ max_parts }
    ensures { result ≡ result_by ram.now disk_size kind sector parts.now }
{
    if kind != READ_DISK && kind != WRITE_DISK {
        VirtioResult::Unsupported
    } else if can_move(ram, disk_size, kind, sector, parts) {
        VirtioResult::Done
    } else {
        VirtioResult::Failed
    }
}

// A header of a request.
fn is_header(ram: &[u8], part: &VirtioPart) -> bool
    ensures value { result ≡ is_header ram.now part.now }
    ensures begins { IsTrue result → ram_base ≤ part.now.gpa }
    ensures ends { IsTrue result → ram_offset part.now.gpa + header_size ≤ length ram.now }
{
    part.len == HEADER_BYTES && !part.write && lies_in_ram(ram, part.gpa, HEADER_BYTES as u64)
}

/// Whether a chain is one of a request: a header, data, and a byte for the result.
#[tactic(auto, unfolding(spec_reference::specs::VirtioChain::is_good_chain))]
pub fn is_good_chain(ram: &[u8], parts: &[VirtioPart]) -> bool
    ensures value { result ≡ is_good_chain ram.now parts.now }
    ensures header { IsTrue result → HasHeader ram.now parts.now }
{
    if parts.len() < LEAST_PARTS {
        return false;
    }
    let last = parts[parts.len() - 1];
    is_header(ram, &parts[0]) && last.len == RESULT_BYTES && last.write
}
