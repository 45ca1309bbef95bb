// Where the sections of an object lie.

ghost use Rattle.std.specs.Prelude.{◌≡◌, IfOk};
ghost use Rattle.std.specs.List.{list_all};
ghost use Rattle.elf64_reloc.specs.Layouts as spec;

use elf64_load::sections::SectionHeader;
use elf64_load::sections::elf::{SHF_ALLOC_BIT, SHF_EXECINSTR_BIT, SHT_PROGBITS};
use spec_processor::{PAGE_BYTES, has_bit};
use std::alloc::{AllocError, Global};

/// The largest alignment.
const MAX_ALIGNMENT: u64 = PAGE_BYTES;

/// What a section belongs to.
#[derive(Clone, Copy, PartialEq, Eq, Drop)]
pub enum Space {
    Text,
    Data,
    Elsewhere,
}

/// A section with its place in its space, and its bytes.
#[derive(Clone, Copy, Drop)]
pub struct PlacedSection {
    pub space: Space,
    pub place: u64,
    pub size: u64,
}

/// The bytes after the text and the data so far.
#[derive(Clone, Copy, Drop)]
pub struct Ends {
    pub text: u64,
    pub data_end: u64,
}

/// All sections with their places, and the bytes of the text.
#[derive(Drop)]
pub(crate) struct Layout {
    pub(crate) sections: Vec<PlacedSection>,
    pub(crate) text_size: u64,
}

pub(crate) fn is_good_alignment(section: &SectionHeader) -> bool
    ensures { result ≡ spec.is_good_alignment section.now }
{
    section.alignment == 0
        || (section.alignment <= MAX_ALIGNMENT && MAX_ALIGNMENT % section.alignment == 0)
}

/// Whether each section's alignment is a power of two up to the size of a page.
pub(crate) fn are_good_alignments(sections: &[SectionHeader]) -> bool
    ensures { result ≡ list_all spec.is_good_alignment sections.now }
{
    sections.iter().all(|section| is_good_alignment(section))
}

/// Which space a section belongs to.
pub(crate) fn space_of(section: &SectionHeader) -> Space
    ensures { result ≡ spec.space_of section.now }
{
    if !has_bit(section.flags, SHF_ALLOC_BIT) {
        return Space::Elsewhere;
    }
    if section.kind == SHT_PROGBITS && has_bit(section.flags, SHF_EXECINSTR_BIT) {
        Space::Text
    } else {
        Space::Data
    }
}

/// The bytes up to the next multiple of an alignment.
pub(crate) fn padding(end: u64, alignment: u64) -> u64
    ensures { result ≡ spec.padding end alignment }
{
    if alignment == 0 {
        return 0;
    }
    (alignment - end % alignment) % alignment
}

fn align_up(end: u64, alignment: u64) -> u64
    ensures { result ≡ spec.align_up end alignment }
{
    end.wrapping_add(padding(end, alignment))
}

fn place_after(ends: Ends, space: Space, section: &SectionHeader) -> u64
    ensures { result ≡ spec.place_after ends space section.now }
{
    match space {
        Space::Text => align_up(ends.text, section.alignment),
        Space::Data => align_up(ends.data_end, section.alignment),
        Space::Elsewhere => 0,
    }
}

fn ends_with(ends: Ends, space: Space, end: u64) -> Ends
    ensures { result ≡ spec.ends_with ends space end }
{
    match space {
        Space::Text => Ends { text: end, ..ends },
        Space::Data => Ends {
            data_end: end,
            ..ends
        },
        Space::Elsewhere => ends,
    }
}

#[tactic(auto, unfolding(crate::specs::Layouts::placed_after))]
fn placed_after(ends: Ends, section: &SectionHeader) -> PlacedSection
    ensures { result ≡ spec.placed_after ends section.now }
{
    let space = space_of(section);
    PlacedSection {
        space,
        place: place_after(ends, space, section),
        size: section.size,
    }
}

#[tactic(auto, unfolding(crate::specs::Layouts::ends_after))]
fn ends_after(ends: Ends, section: &SectionHeader) -> Ends
    ensures { result ≡ spec.ends_after ends section.now }
{
    let space = space_of(section);
    let end = place_after(ends, space, section).wrapping_add(section.size);
    ends_with(ends, space, end)
}

/// The layout of the sections. Fails where memory runs out.
pub(crate) fn lay_out(alloc: Global, sections: &[SectionHeader]) -> Result<Layout, AllocError>
    ensures sections { IfOk result (λ layout. layout.sections.items ≡ spec.placed_sections sections.now) }
    ensures size { IfOk result (λ layout. layout.text_size ≡ spec.text_size sections.now) }
{
    let mut ends = Ends {
        text: 0,
        data_end: 0,
    };
    let mut placed = Vec::new(alloc);
    'sections: for section in sections {
        placed.push(placed_after(ends, section))?;
        ends = ends_after(ends, section);
    }
    Ok(Layout {
        sections: placed,
        text_size: ends.text,
    })
}
