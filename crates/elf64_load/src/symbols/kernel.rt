// The names of a kernel's addresses, virtual and physical.

ghost use Rattle.std.specs.Prelude.{◌≡◌, IfOk, map, option_map};
ghost use Rattle.std.specs.List.{list_any};
ghost use Rattle.elf64_load.specs.Images.{segment_of, segments_of};
ghost use Rattle.elf64_load.specs.Views.{tables_view};
ghost use Rattle.elf64_load.specs.Names as spec;
ghost use Rattle.elf64_load.specs.KernelViews.{names_view};
ghost use Rattle.elf64_load.specs.SymbolsViews.{location_view};

use crate::sections::elf::FILE_HEADER_BYTES;
use crate::sections::{SymbolTables, section_headers, sections_in_file, symbol_tables};
use crate::symbols::symbols::{Location, location_of};
use crate::{KernelImage, Segment};
use std::alloc::{AllocError, Global};

/// The symbols of a kernel's file, where it has them, and its segments. They stay in the file.
#[derive(Clone, Copy, Drop)]
pub struct KernelNames<'a> {
    pub tables: Option<SymbolTables<'a>>,
    pub segments: &'a [Segment<'a>],
}

/// The names of a kernel, by the bytes of its file and the image that was read of them. A file without a symbol table, or with
/// one that lies outside the file or has a wrong size of entries or link, gives no address a name. Fails where memory runs out.
pub fn kernel_names<'a>(
    alloc: Global,
    file: &'a [u8],
    image: &'a KernelImage<'a>,
) -> Result<KernelNames<'a>, AllocError>
    ensures { IfOk result (λ names. names_view names ≡ spec.names_in file.now (segments_of image.now)) }
{
    let tables = symbols_in(alloc, file)?;
    Ok(KernelNames {
        tables,
        segments: &image.segments,
    })
}

fn symbols_in(alloc: Global, file: &[u8]) -> Result<Option<SymbolTables<'_>>, AllocError>
    ensures { IfOk result (λ tables. option_map tables_view tables ≡ spec.symbols_in file.now) }
{
    if file.len() < FILE_HEADER_BYTES || !sections_in_file(file) {
        return Ok(None);
    }
    let sections = section_headers(alloc, file)?;
    Ok(symbol_tables(file, &sections))
}

fn has_va(segment: &Segment, va: u64) -> bool
    ensures { result ≡ spec.has_va va (segment_of segment.now) }
{
    segment.va <= va && va - segment.va < segment.memory
}

fn has_gpa(segment: &Segment, gpa: u64) -> bool
    ensures { result ≡ spec.has_gpa gpa (segment_of segment.now) }
{
    segment.gpa <= gpa && gpa - segment.gpa < segment.memory
}

fn some_have_va(segments: &[Segment], va: u64) -> bool
    ensures { result ≡ list_any (λ s. spec.has_va va (segment_of s)) segments.now }
{
    segments.iter().any(|segment| has_va(segment, va))
}

fn va_in(segment: &Segment, gpa: u64) -> Option<u64>
    ensures { result ≡ spec.va_if gpa (segment_of segment.now) }
{
    if has_gpa(segment, gpa) {
        Some(segment.va.wrapping_add(gpa - segment.gpa))
    } else {
        None
    }
}

// The virtual address of a physical one, by the first segment that has it.
fn va_of(segments: &[Segment], gpa: u64) -> Option<u64>
    ensures { result ≡ spec.va_of (map segment_of segments.now) gpa }
{
    'segments: for segment in segments {
        if let Some(va) = va_in(segment, gpa) {
            return Some(va);
        }
    }
    None
}

impl<'a> KernelNames<'a> {
    /// The name of a virtual address. None where it lies in no segment, or no function or label is near it.
    #[tactic(auto, using(crate::proofs::Windows::list_any_map), unfolding(crate::specs::Names::name_of_va))]
    pub fn name_of_va(&self, va: u64) -> Option<Location<'a>>
        ensures { option_map location_view result ≡ spec.name_of_va (names_view self.now) va }
    {
        if !some_have_va(self.segments, va) {
            return None;
        }
        match self.tables {
            Some(tables) => location_of(&tables, va),
            None => None,
        }
    }

    /// The name of a physical address, which is that of the virtual one at which its segment has it.
    #[tactic(auto, unfolding(crate::specs::Names::name_of_gpa))]
    pub fn name_of_gpa(&self, gpa: u64) -> Option<Location<'a>>
        ensures { option_map location_view result ≡ spec.name_of_gpa (names_view self.now) gpa }
    {
        match va_of(self.segments, gpa) {
            Some(va) => self.name_of_va(va),
            None => None,
        }
    }

    /// The name of a program counter: of the virtual address, or else of the physical one, which it is until the kernel turns
    /// translation on.
    #[tactic(auto, unfolding(crate::specs::Names::name_of_pc))]
    pub fn name_of_pc(&self, pc: u64) -> Option<Location<'a>>
        ensures { option_map location_view result ≡ spec.name_of_pc (names_view self.now) pc }
    {
        match self.name_of_va(pc) {
            Some(location) => Some(location),
            None => self.name_of_gpa(pc),
        }
    }
}
