// The checks of an image, of which the first that finds a fault refuses it.

ghost use Rattle.std.specs.Prelude.{◌≡◌, ◌+◌, ◌*◌, ◌≤◌, ◌<◌, length, flat_map, All, IfNone, IfOk};
ghost use Rattle.std.specs.List.{list_any};
ghost use Rattle.elf64_load.specs.Headers.{HasMemory};
ghost use Rattle.sv_types.specs.Elf.{file_header_size, program_header_size};
ghost use Rattle.sv_types.specs.Kernel.{first_refusal, header_checks, table_checks, segment_checks, image_checks, is_executable};
ghost use Rattle.sv_types.specs.Kernel.{is_writable, memory_in_ram, table_place, table_count, table_in_file};

use crate::sections::elf::{
    E_PHENTSIZE, E_PHNUM, E_PHOFF, ET_EXEC, PF_W_BIT, PF_X_BIT, PROGRAM_HEADER_BYTES,
};
use crate::sections::{double, file_refusal, half};
use crate::shared_text::text_is_shared;
use spec_processor::{PAGE_BYTES, has_bit, is_in_ram};
use std::alloc::{AllocError, Global};
use sv_types::{ImageFault, ProgramHeader};

/// The end of a range, as a whole number.
pub(crate) fn end_of(start: u64, size: u64) -> u128
    ensures { result ≡ start + size }
{
    start as u128 + size as u128
}

fn table_in_file(file: &[u8]) -> bool
    requires { file_header_size ≤ length file.now }
    ensures { result ≡ table_in_file file.now }
{
    let size = PROGRAM_HEADER_BYTES as u64 * half(file, E_PHNUM) as u64;
    half(file, E_PHENTSIZE) as usize == PROGRAM_HEADER_BYTES
        && end_of(double(file, E_PHOFF), size) <= file.len() as u128
}

fn table_refusal(file: &[u8]) -> Option<ImageFault>
    requires { file_header_size ≤ length file.now }
    ensures first { result ≡ first_refusal (table_checks file.now) }
    ensures table { IfNone result (0 < table_count file.now → table_place file.now + program_header_size * table_count file.now ≤ length file.now) }
{
    if half(file, E_PHNUM) > 0 && !table_in_file(file) {
        return Some(ImageFault::ProgramHeaders);
    }
    None
}

/// The first fault of the header.
pub(crate) fn header_refusal(file: &[u8]) -> Option<ImageFault>
    ensures first { result ≡ first_refusal (header_checks file.now) }
    ensures long { IfNone result (file_header_size ≤ length file.now) }
    ensures table { IfNone result (0 < table_count file.now → table_place file.now + program_header_size * table_count file.now ≤ length file.now) }
{
    if let Some(fault) = file_refusal(file, ET_EXEC) {
        return Some(ImageFault::Header(fault));
    }
    table_refusal(file)
}

pub(crate) fn is_executable(header: &ProgramHeader) -> bool
    ensures { result ≡ is_executable header.now }
{
    has_bit(header.flags as u64, PF_X_BIT)
}

fn is_writable(header: &ProgramHeader) -> bool
    ensures { result ≡ is_writable header.now }
{
    has_bit(header.flags as u64, PF_W_BIT)
}

fn memory_in_ram(ram_pages: u32, header: &ProgramHeader) -> bool
    ensures { result ≡ memory_in_ram ram_pages header.now }
{
    is_in_ram(
        header.gpa,
        header.memory_size,
        PAGE_BYTES * ram_pages as u64,
    )
}

/// The first fault of a segment.
#[tactic(auto, unfolding(sv_types::specs::Kernel::segment_checks))]
fn segment_refusal(file_size: usize, ram_pages: u32, header: &ProgramHeader) -> Option<ImageFault>
    ensures { result ≡ first_refusal (segment_checks file_size ram_pages header.now) }
{
    if end_of(header.offset, header.file_size) > file_size as u128 {
        return Some(ImageFault::OutsideFile);
    }
    if !memory_in_ram(ram_pages, header) {
        return Some(ImageFault::OutsideRam);
    }
    if header.file_size > header.memory_size {
        return Some(ImageFault::ShortMemory);
    }
    if is_executable(header) && is_writable(header) {
        return Some(ImageFault::WritableText);
    }
    if is_executable(header) && header.gpa % PAGE_BYTES != 0 {
        return Some(ImageFault::TextInsidePage);
    }
    None
}

/// The first fault of the segments, in their order.
pub(crate) fn segments_refusal(
    file_size: usize,
    ram_pages: u32,
    headers: &[ProgramHeader],
) -> Option<ImageFault>
    ensures { result ≡ first_refusal (flat_map (segment_checks file_size ram_pages) headers.now) }
{
    'headers: for header in headers {
        if let Some(fault) = segment_refusal(file_size, ram_pages, header) {
            return Some(fault);
        }
    }
    None
}

fn some_are_executable(headers: &[ProgramHeader]) -> bool
    ensures { result ≡ list_any is_executable headers.now }
{
    headers.iter().any(|header| is_executable(header))
}

/// The first fault of all segments together. Fails where memory runs out.
#[tactic(auto, unfolding(sv_types::specs::Kernel::image_checks))]
pub(crate) fn image_refusal(
    alloc: Global,
    headers: &[ProgramHeader],
) -> Result<Option<ImageFault>, AllocError>
    requires { All HasMemory headers.now }
    ensures { IfOk result (λ fault. fault ≡ first_refusal (image_checks headers.now)) }
{
    if text_is_shared(alloc, headers)? {
        return Ok(Some(ImageFault::SharedText));
    }
    if !some_are_executable(headers) {
        return Ok(Some(ImageFault::NoText));
    }
    Ok(None)
}
