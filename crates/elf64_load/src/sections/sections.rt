// The headers of sections.

ghost use Rattle.std.specs.Prelude.{◌≡◌, ◌+◌, ◌*◌, ◌≤◌, ◌++◌, length, replicate, IfOk, OnOk};
ghost use Rattle.elf64_load.specs.Sections as spec;
ghost use Rattle.spec_processor.specs.Bytes.{page_size, part};
ghost use Rattle.sv_types.specs.Elf.{file_header_size, section_header_size};

use crate::sections::elf::{
    E_SHENTSIZE, E_SHNUM, E_SHOFF, SECTION_HEADER_BYTES, SH_ADDRALIGN, SH_ENTSIZE, SH_FLAGS,
    SH_INFO, SH_LINK, SH_OFFSET, SH_SIZE, SH_TYPE,
};
use crate::sections::fields::{double, half, word};
use std::alloc::{AllocError, Global};

/// What the header of a section says: its kind, its flags, its bytes in the file, the number of a section that it is tied
/// to, another number by its kind, and which multiples its address has to be.
#[derive(Clone, Copy, Drop)]
pub struct SectionHeader {
    pub kind: u32,
    pub flags: u64,
    pub offset: u64,
    pub size: u64,
    pub link: u32,
    pub info: u32,
    pub alignment: u64,
    pub entry_size: u64,
}

/// Whether the table of section headers has entries of their size and lies in the file.
pub fn sections_in_file(file: &[u8]) -> bool
    requires { file_header_size ≤ length file.now }
    ensures { result ≡ spec.sections_in_file file.now }
{
    let end = double(file, E_SHOFF) as u128
        + SECTION_HEADER_BYTES as u128 * half(file, E_SHNUM) as u128;
    half(file, E_SHENTSIZE) as usize == SECTION_HEADER_BYTES && end <= file.len() as u128
}

#[tactic(auto, unfolding(crate::specs::Sections::section_at))]
fn section_at(file: &[u8], at: usize) -> SectionHeader
    requires { at + section_header_size ≤ length file.now }
    ensures { result ≡ spec.section_at file.now at }
{
    SectionHeader {
        kind: word(file, at + SH_TYPE),
        flags: double(file, at + SH_FLAGS),
        offset: double(file, at + SH_OFFSET),
        size: double(file, at + SH_SIZE),
        link: word(file, at + SH_LINK),
        info: word(file, at + SH_INFO),
        alignment: double(file, at + SH_ADDRALIGN),
        entry_size: double(file, at + SH_ENTSIZE),
    }
}

/// The headers of all sections, in their order. Fails where memory runs out.
pub fn section_headers(alloc: Global, file: &[u8]) -> Result<Vec<SectionHeader>, AllocError>
    requires header { file_header_size ≤ length file.now }
    requires table { spec.sections_place file.now + section_header_size * spec.sections_count file.now ≤ length file.now }
    ensures { IfOk result (λ sections. sections.items ≡ spec.sections_of file.now) }
{
    let table = double(file, E_SHOFF) as usize;
    let count = half(file, E_SHNUM);
    let mut sections = Vec::new(alloc);
    'sections: for i in 0..count as usize {
        sections.push(section_at(file, table + SECTION_HEADER_BYTES * i))?;
    }
    Ok(sections)
}

/// Whether the bytes of a section lie in the file.
pub fn part_in_file(file: &[u8], section: &SectionHeader) -> bool
    ensures { result ≡ spec.part_in_file file.now section.now }
{
    section.offset as u128 + section.size as u128 <= file.len() as u128
}

/// The bytes of a section.
pub fn part<'a>(file: &'a [u8], section: &SectionHeader) -> &'a [u8]
    requires { section.now.offset + section.now.size ≤ length file.now }
    ensures { result.now ≡ part file.now section.now.offset section.now.size }
{
    let start = section.offset as usize;
    &file[start..start + section.size as usize]
}

/// Puts zeros after the bytes. Fails where memory runs out.
pub fn push_zeros(bytes: &mut Vec<u8>, count: usize) -> Result<(), AllocError>
    requires { count ≤ page_size }
    ensures { OnOk result (bytes.new.items ≡ bytes.old.items ++ replicate count 0) }
{
    bytes.resize(bytes.len() + count, 0)
}
