// The reading of a kernel.

ghost use Rattle.std.specs.Prelude.{◌≡◌, ◌+◌, ◌≤◌, None, length, flat_map, map, IfOk, OnOk, IfErr};
ghost use Rattle.sv_types.specs.Elf.{file_header_size};
ghost use Rattle.sv_types.specs.Kernel.{first_refusal, header_checks, segment_checks, loaded_headers, loaded_segment, header_entry};
ghost use Rattle.sv_types.specs.Kernel.{kernel_refusal, kernel_segments};
ghost use Rattle.elf64_load.specs.Images.{segment_of, segments_of};
ghost use Rattle.elf64_load.specs.Refusals.{IsRefusalOf};
ghost use Rattle.elf64_load.specs.declared.read.ElfRefusal.TheVariants.{Fault, Memory};

use crate::checks::{header_refusal, image_refusal, is_executable, segments_refusal};
use crate::headers::loaded_headers;
use crate::image::{KernelImage, Segment};
use crate::sections::double;
use crate::sections::elf::E_ENTRY;
use std::alloc::{AllocError, AllocFailed, Global};
use sv_types::{ImageFault, ProgramHeader};
use thiserror::Error;

/// Why a file is refused.
#[derive(Clone, Copy, Debug, Drop, Error)]
pub enum ElfRefusal {
    /// The first fault of the image.
    #[error("a fault of the image")]
    Fault(ImageFault),
    #[error("out of memory")]
    Memory,
}

impl From<ImageFault> for ElfRefusal {
    ghost from_gives = { λ fault e. e ≡ Fault fault };

    fn from(fault: ImageFault) -> ElfRefusal {
        ElfRefusal::Fault(fault)
    }
}

impl From<AllocError> for ElfRefusal {
    ghost from_gives = { λ _ e. e ≡ Memory };

    fn from(_e: AllocError) -> ElfRefusal {
        ElfRefusal::Memory
    }
}

impl<T: Drop> From<AllocFailed<T>> for ElfRefusal {
    ghost from_gives = { λ _ e. e ≡ Memory };

    fn from(_e: AllocFailed<T>) -> ElfRefusal {
        ElfRefusal::Memory
    }
}

// The headers of the segments of a good file.
fn judged_headers(
    alloc: Global,
    file: &[u8],
    ram_pages: u32,
) -> Result<Vec<ProgramHeader>, ElfRefusal>
    ensures headers { IfOk result (λ headers. headers.items ≡ loaded_headers file.now) }
    ensures inside { IfOk result (λ headers. first_refusal (flat_map (segment_checks (length file.now) ram_pages) headers.items) ≡ None) }
    ensures header { OnOk result (file_header_size ≤ length file.now) }
    ensures no_header_fault { OnOk result (first_refusal (header_checks file.now) ≡ None) }
    ensures accepted { OnOk result (kernel_refusal file.now ram_pages ≡ None) }
    ensures refused { IfErr result (IsRefusalOf file.now ram_pages) }
{
    if let Some(fault) = header_refusal(file) {
        return Err(ElfRefusal::Fault(fault));
    }
    let Ok(headers) = loaded_headers(alloc, file) else {
        return Err(ElfRefusal::Memory);
    };
    if let Some(fault) = segments_refusal(file.len(), ram_pages, &headers) {
        return Err(ElfRefusal::Fault(fault));
    }
    let Ok(whole) = image_refusal(alloc, &headers) else {
        return Err(ElfRefusal::Memory);
    };
    if let Some(fault) = whole {
        return Err(ElfRefusal::Fault(fault));
    }
    Ok(headers)
}

fn loaded_segment<'a>(file: &'a [u8], header: &ProgramHeader) -> Segment<'a>
    requires { header.now.offset + header.now.file_size ≤ length file.now }
    ensures { segment_of result ≡ loaded_segment file.now header.now }
{
    let start = header.offset as usize;
    Segment {
        va: header.va,
        gpa: header.gpa,
        bytes: &file[start..start + header.file_size as usize],
        memory: header.memory_size,
        executable: is_executable(header),
    }
}

fn loaded_segments<'a>(
    alloc: Global,
    file: &'a [u8],
    ram_pages: u32,
    headers: &[ProgramHeader],
) -> Result<Vec<Segment<'a>>, AllocError>
    requires { first_refusal (flat_map (segment_checks (length file.now) ram_pages) headers.now) ≡ None }
    ensures { IfOk result (λ segments. map segment_of segments.items ≡ map (loaded_segment file.now) headers.now) }
{
    let mut segments = Vec::new(alloc);
    'headers: for header in headers {
        segments.push(loaded_segment(file, header))?;
    }
    Ok(segments)
}

/// Reads a kernel's file for a machine of `ram_pages` pages of RAM. A file with faults is refused for the first of them,
/// and when out of memory where no check of the header refuses it. The image's bytes stay in the file.
pub fn read_kernel(
    alloc: Global,
    bytes: &[u8],
    ram_pages: u32,
) -> Result<KernelImage<'_>, ElfRefusal>
    ensures accepted { OnOk result (kernel_refusal bytes.now ram_pages ≡ None) }
    ensures entry { IfOk result (λ image. image.entry ≡ header_entry bytes.now) }
    ensures segments { IfOk result (λ image. segments_of image ≡ kernel_segments bytes.now) }
    ensures refused { IfErr result (IsRefusalOf bytes.now ram_pages) }
{
    let headers = judged_headers(alloc, bytes, ram_pages)?;
    let Ok(segments) = loaded_segments(alloc, bytes, ram_pages, &headers) else {
        return Err(ElfRefusal::Memory);
    };
    Ok(KernelImage {
        entry: double(bytes, E_ENTRY),
        segments,
    })
}
