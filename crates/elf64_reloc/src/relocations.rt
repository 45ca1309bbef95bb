// The relocations of an object's text.

ghost use Rattle.std.specs.Prelude.{◌≡◌, ◌+◌, ◌*◌, ◌≤◌, ◌++◌, IsTrue, length, option_map, IfOk, OnOk};
ghost use Rattle.std.specs.List.{list_all};
ghost use Rattle.sv_types.specs.Elf.{relocation_size};
ghost use Rattle.elf64_reloc.specs.Relocations as spec;
ghost use Rattle.elf64_reloc.specs.Objects.{is_good_part};

use crate::layout::{PlacedSection, Space};
use elf64_load::sections::elf::{
    R_ADDEND, R_OFFSET, R_RISCV_RELAX, R_SYM, R_TYPE, RELOCATION_BYTES, SHT_RELA,
};
use elf64_load::sections::{SectionHeader, double, part, word};
use std::alloc::{AllocError, Global};

/// A relocation of a section of text: the field's offset in its section, which has so many bytes; its place in the text;
/// its kind, its symbol's number, and the addend.
#[derive(Clone, Copy, Drop)]
pub struct Relocation {
    pub offset: u64,
    pub size: u64,
    pub place: u64,
    pub kind: u32,
    pub symbol: u32,
    pub addend: u64,
}

#[tactic(auto, unfolding(crate::specs::Relocations::relocation_at))]
fn relocation_at(home: &PlacedSection, bytes: &[u8], i: usize) -> Relocation
    requires { relocation_size * i + relocation_size ≤ length bytes.now }
    ensures { result ≡ spec.relocation_at home.now bytes.now i }
{
    let at = RELOCATION_BYTES * i;
    let offset = double(bytes, at + R_OFFSET);
    Relocation {
        offset,
        size: home.size,
        place: home.place.wrapping_add(offset),
        kind: word(bytes, at + R_TYPE),
        symbol: word(bytes, at + R_SYM),
        addend: double(bytes, at + R_ADDEND),
    }
}

fn push_kept(relocations: &mut Vec<Relocation>, relocation: Relocation) -> Result<(), AllocError>
    ensures { OnOk result (relocations.new.items ≡ relocations.old.items ++ spec.unless_relax relocation) }
{
    if relocation.kind == R_RISCV_RELAX {
        return Ok(());
    }
    relocations.push(relocation)?;
    Ok(())
}

fn push_relocations(
    relocations: &mut Vec<Relocation>,
    home: &PlacedSection,
    bytes: &[u8],
) -> Result<(), AllocError>
    ensures { OnOk result (relocations.new.items ≡ relocations.old.items ++ spec.relocations_in home.now bytes.now) }
{
    'relocations: for i in 0..bytes.len() / RELOCATION_BYTES {
        push_kept(relocations, relocation_at(home, bytes, i))?;
    }
    Ok(())
}

fn push_relocations_of_home(
    relocations: &mut Vec<Relocation>,
    home: Option<&PlacedSection>,
    bytes: &[u8],
) -> Result<(), AllocError>
    ensures { OnOk result (relocations.new.items ≡ relocations.old.items ++ spec.relocations_of_home bytes.now (option_map (λ h. h.now) home.entry)) }
{
    match home {
        Some(home) => match home.space {
            Space::Text => push_relocations(relocations, home, bytes),
            Space::Data => Ok(()),
            Space::Elsewhere => Ok(()),
        },
        None => Ok(()),
    }
}

#[tactic(auto, unfolding(crate::specs::Relocations::relocations_of))]
fn push_relocations_of(
    relocations: &mut Vec<Relocation>,
    file: &[u8],
    placed: &[PlacedSection],
    section: &SectionHeader,
) -> Result<(), AllocError>
    requires { IsTrue (is_good_part file.now section.now) }
    ensures { OnOk result (relocations.new.items ≡ relocations.old.items ++ spec.relocations_of file.now placed.now section.now) }
{
    if section.kind != SHT_RELA {
        return Ok(());
    }
    push_relocations_of_home(
        relocations,
        placed.get(section.info as usize),
        part(file, section),
    )
}

/// All relocations of sections of text, in the order of the file. Fails where memory runs out.
pub(crate) fn all_relocations(
    alloc: Global,
    file: &[u8],
    placed: &[PlacedSection],
    sections: &[SectionHeader],
) -> Result<Vec<Relocation>, AllocError>
    requires { IsTrue (list_all (is_good_part file.now) sections.now) }
    ensures { IfOk result (λ relocations. relocations.items ≡ spec.all_relocations file.now placed.now sections.now) }
{
    let mut relocations = Vec::new(alloc);
    'sections: for section in sections {
        push_relocations_of(&mut relocations, file, placed, section)?;
    }
    Ok(relocations)
}
