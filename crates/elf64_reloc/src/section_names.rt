// The names of sections, for a person.

ghost use Rattle.std.specs.Prelude.{◌≤◌, length};
ghost use Rattle.sv_types.specs.Elf.{file_header_size};

use elf64_load::sections::elf::{
    E_SHOFF, E_SHSTRNDX, FILE_HEADER_BYTES, SECTION_HEADER_BYTES, SH_NAME, SH_TYPE,
};
use elf64_load::sections::{SectionHeader, double, half, name_at, part, part_in_file, word};

// Where a section's name begins among the names of sections.
fn name_place(file: &[u8], section: usize) -> Option<u32>
    requires { file_header_size ≤ length file.now }
{
    let table = double(file, E_SHOFF) as usize;
    let at = table.saturating_add(section.saturating_mul(SECTION_HEADER_BYTES));
    // the place of the name, which ends where the type begins
    if at.saturating_add(SH_TYPE) > file.len() {
        return None;
    }
    Some(word(file, at + SH_NAME))
}

// The header of the section with the names of sections.
fn names_section(file: &[u8], sections: &[SectionHeader]) -> Option<SectionHeader>
    requires { file_header_size ≤ length file.now }
{
    sections.get(half(file, E_SHSTRNDX) as usize).copied()
}

/// The name of a section. None where there is no name of 1 to 64 bytes of UTF-8 text.
pub(crate) fn section_name<'a>(
    file: &'a [u8],
    sections: &[SectionHeader],
    section: usize,
) -> Option<&'a str> {
    if file.len() < FILE_HEADER_BYTES {
        return None;
    }
    let Some(names) = names_section(file, sections) else {
        return None;
    };
    let Some(place) = name_place(file, section) else {
        return None;
    };
    if !part_in_file(file, &names) {
        return None;
    }
    name_at(part(file, &names), place)
}
