// The segments of an image in guest RAM. Each page is written from the last segment that covers it whole, and after it
// from the later ones that begin or end in it, so that segments over one another aren't each written.

ghost use Rattle.std.specs.List.{All};
ghost use Rattle.std.specs.Prelude.{◌≡◌, ℕ, ◌+◌, ◌-◌, ◌*◌, ◌/◌, ◌<◌, ◌≤◌, ◌==◌, ◌&&◌, false, nat_le, nat_lt, map, length, replicate};
ghost use Rattle.std.specs.Prelude.{slice_index, slice_index_or, if◌then◌else◌, OnErr, OnOk};
ghost use Rattle.spec_processor.specs.Bytes.{page_size, overwrite, with_padding, part, ram_offset};
ghost use Rattle.sv_types.specs.Kernel.{segments_ram};
ghost use Rattle.spec_processor.specs.Regions.{max_ram_pages};
ghost use Rattle.elf64_load.specs.Images.{segment_of, segments_of, IsPlaced};
ghost use Rattle.secvisor_core.specs.Placed.{ArePlaced, KeepsShape};
ghost use Rattle.secvisor_core.specs.Whole.{byte_of, covers, has_byte, loaded_byte, segment_at, IsLastWhole};

use crate::boot::owners::last_owners;
use crate::boot::zeros::Zeros;
use elf64_load::{KernelImage, Segment};
use host_mem::HostMem;
use spec_processor::{PAGE_BYTES, PAGE_SIZE, ram_offset};
use std::alloc::{AllocError, Global};

/// Puts an image's segments into guest RAM, which holds zeros. Fails where memory runs out.
#[tactic(auto, unfolding(sv_types::specs::Kernel::segments_ram))]
pub fn fill_ram(
    alloc: Global,
    mem: &mut HostMem,
    image: &KernelImage,
    ram_pages: u32,
) -> Result<(), AllocError>
    requires zeros { mem.old.ram ≡ replicate (page_size * ram_pages) 0 }
    requires placed { ArePlaced ram_pages (segments_of image.now) }
    ensures ram { OnOk result (mem.new ≡ record mem.old { ram = segments_ram (segments_of image.now) ram_pages }) }
    ensures kept { OnErr result (mem.new ≡ mem.old) }
    ensures shape { KeepsShape mem.old mem.new }
{
    let zeros = Zeros::new(alloc)?;
    let segments = image.segments.as_slice();
    let owners = last_owners(alloc, segments, mem.ram_pages())?;
    put_owned(mem, segments, &owners, &zeros);
    put_edges(mem, segments, &owners, &zeros);
    Ok(())
}

// Puts into a page the bytes that a segment has there, and zeros after them.
fn put_piece(mem: &mut HostMem, segment: &Segment, page: usize, zeros: &Zeros)
    requires placed { IsPlaced (length mem.old.ram) (segment_of segment.now) }
    requires page { page_size * page + page_size ≤ length mem.old.ram }
    requires few { length mem.old.ram ≤ page_size * max_ram_pages }
    ensures bytes { (at : ℕ) → slice_index_or mem.new.ram at 0 ≡
        (if at / page_size == page && has_byte (segment_of segment.now) at then byte_of (segment_of segment.now) at else slice_index_or mem.old.ram at 0) }
    ensures shape { KeepsShape mem.old mem.new }
{
    let place = ram_offset(segment.gpa) as usize;
    let page_start = PAGE_BYTES as usize * page;
    let start = place.max(page_start);
    let end = (place + segment.memory as usize).min(page_start + PAGE_BYTES as usize);
    if start < end {
        put_part(mem, start, segment.bytes, start - place, end - start, zeros);
    }
}

// Puts `count` bytes at a place in RAM: those from `from` on, with zeros after them.
fn put_part(mem: &mut HostMem, place: usize, bytes: &[u8], from: usize, count: usize, zeros: &Zeros)
    requires inside { place + count ≤ length mem.old.ram }
    requires from { from ≤ length mem.old.ram }
    ensures { mem.new ≡ record mem.old { ram = overwrite mem.old.ram place (with_padding (part bytes.now from count) count) } }
{
    let base = mem.table_bytes();
    let start = from.min(bytes.len());
    let end = (from + count).min(bytes.len());
    let filled = end - start;
    mem.copy_in(base + place, &bytes[start..end]);
    put_zeros(mem, place + filled, count - filled, zeros);
}

// Puts so many zeros at a place in RAM.
fn put_zeros(mem: &mut HostMem, place: usize, count: usize, zeros: &Zeros)
    requires inside { place + count ≤ length mem.old.ram }
    ensures { mem.new ≡ record mem.old { ram = overwrite mem.old.ram place (replicate count 0) } }
{
    let start = mem.table_bytes() + place;
    let mut done = 0;
    'zeros: while done < count {
        let next = (count - done).min(PAGE_SIZE);
        mem.copy_in(start + done, zeros.first(next));
        done += next;
    }
}

// Puts a page of the segment before `owner`, where there is one.
fn put_owner(mem: &mut HostMem, segments: &[Segment], owner: usize, page: usize, zeros: &Zeros)
    requires placed { All (IsPlaced (length mem.old.ram)) (map segment_of segments.now) }
    requires owner { owner ≤ length segments.now }
    requires page { page_size * page + page_size ≤ length mem.old.ram }
    requires few { length mem.old.ram ≤ page_size * max_ram_pages }
    ensures bytes { (at : ℕ) → slice_index_or mem.new.ram at 0 ≡
        (if nat_lt 0 owner && (at / page_size == page && has_byte (segment_at (map segment_of segments.now) (owner - 1)) at) then
        byte_of (segment_at (map segment_of segments.now) (owner - 1)) at else slice_index_or mem.old.ram at 0) }
    ensures shape { KeepsShape mem.old mem.new }
{
    if owner > 0 {
        put_piece(mem, &segments[owner - 1], page, zeros);
    }
}

// Puts each page of the last segment that covers it whole.
fn put_owned(mem: &mut HostMem, segments: &[Segment], owners: &[usize], zeros: &Zeros)
    requires ram { length mem.old.ram ≡ page_size * length owners.now }
    requires placed { All (IsPlaced (length mem.old.ram)) (map segment_of segments.now) }
    requires few { length owners.now ≤ max_ram_pages }
    requires blank { (at : ℕ) → slice_index_or mem.old.ram at 0 ≡ 0 }
    requires owners { (page : ℕ) → page < length owners.now →
        IsLastWhole (map segment_of segments.now) (length segments.now) page (slice_index owners.now page) }
    ensures bytes { (at : ℕ) → at < length mem.old.ram → slice_index_or mem.new.ram at 0 ≡
        loaded_byte (length mem.old.ram) (map segment_of segments.now) (slice_index owners.now (at / page_size)) at }
    ensures shape { KeepsShape mem.old mem.new }
{
    'pages: for page in 0..owners.len() {
        put_owner(mem, segments, owners[page], page, zeros);
    }
}

// Puts a segment's bytes into a page where it is due.
fn put_due(is_due: bool, mem: &mut HostMem, segment: &Segment, page: usize, zeros: &Zeros)
    requires placed { IsPlaced (length mem.old.ram) (segment_of segment.now) }
    requires page { page_size * page + page_size ≤ length mem.old.ram }
    requires few { length mem.old.ram ≤ page_size * max_ram_pages }
    ensures bytes { (at : ℕ) → slice_index_or mem.new.ram at 0 ≡
        (if is_due && (at / page_size == page && has_byte (segment_of segment.now) at) then byte_of (segment_of segment.now) at else
        slice_index_or mem.old.ram at 0) }
    ensures shape { KeepsShape mem.old mem.new }
{
    if is_due {
        put_piece(mem, segment, page, zeros);
    }
}

// Puts a segment into the pages in which it begins and ends, where these have no later owner.
fn put_edge(mem: &mut HostMem, segment: &Segment, number: usize, owners: &[usize], zeros: &Zeros)
    requires ram { length mem.old.ram ≡ page_size * length owners.now }
    requires placed { IsPlaced (length mem.old.ram) (segment_of segment.now) }
    requires few { length owners.now ≤ max_ram_pages }
    requires whole { (page : ℕ) → page < length owners.now → slice_index owners.now page ≤ number → covers page (segment_of segment.now) ≡ false }
    ensures bytes { (at : ℕ) → slice_index_or mem.new.ram at 0 ≡
        (if nat_le (slice_index owners.now (at / page_size)) number && has_byte (segment_of segment.now) at then
        byte_of (segment_of segment.now) at else slice_index_or mem.old.ram at 0) }
    ensures shape { KeepsShape mem.old mem.new }
{
    if segment.memory == 0 {
        return;
    }
    let place = ram_offset(segment.gpa) as usize;
    let first = place / PAGE_BYTES as usize;
    let last = (place + segment.memory as usize - 1) / PAGE_BYTES as usize;
    put_due(owners[first] <= number, mem, segment, first, zeros);
    put_due(owners[last] <= number, mem, segment, last, zeros);
}

// Puts each segment, in order, into the pages in which it begins and ends.
fn put_edges(mem: &mut HostMem, segments: &[Segment], owners: &[usize], zeros: &Zeros)
    requires ram { length mem.old.ram ≡ page_size * length owners.now }
    requires placed { All (IsPlaced (length mem.old.ram)) (map segment_of segments.now) }
    requires few { length owners.now ≤ max_ram_pages }
    requires owners { (page : ℕ) → page < length owners.now →
        IsLastWhole (map segment_of segments.now) (length segments.now) page (slice_index owners.now page) }
    requires bytes { (at : ℕ) → at < length mem.old.ram → slice_index_or mem.old.ram at 0 ≡
        loaded_byte (length mem.old.ram) (map segment_of segments.now) (slice_index owners.now (at / page_size)) at }
    ensures bytes { (at : ℕ) → at < length mem.old.ram → slice_index_or mem.new.ram at 0 ≡
        loaded_byte (length mem.old.ram) (map segment_of segments.now) (length segments.now) at }
    ensures shape { KeepsShape mem.old mem.new }
{
    'segments: for i in 0..segments.len() {
        put_edge(mem, &segments[i], i, owners, zeros);
    }
}
