// The sections and symbols of an object.

ghost use Rattle.std.specs.Prelude.{◌≡◌, Ok, IsTrue, IfOk, IfErr};
ghost use Rattle.std.specs.List.{list_all};
ghost use Rattle.elf64_reloc.specs.Objects as spec;
ghost use Rattle.elf64_reloc.specs.Refusals.{Refuses};
ghost use Rattle.elf64_reloc.specs.Views.{object_view};

use crate::fault::ObjectFault;
use crate::refusal::RelocRefusal;
use elf64_load::sections::elf::{ET_REL, SHT_NOBITS, SHT_NULL};
use elf64_load::sections::{
    SectionHeader, SymbolTables, file_refusal, part_in_file, section_headers, sections_in_file,
    symbol_tables,
};
use std::alloc::Global;

/// An object's file, the headers of its sections, and its symbols.
#[derive(Drop)]
pub(crate) struct Object<'a> {
    pub(crate) file: &'a [u8],
    pub(crate) sections: Vec<SectionHeader>,
    pub(crate) tables: SymbolTables<'a>,
}

fn is_good_part(file: &[u8], section: &SectionHeader) -> bool
    ensures { result ≡ spec.is_good_part file.now section.now }
{
    section.kind == SHT_NULL || section.kind == SHT_NOBITS || part_in_file(file, section)
}

fn are_good_parts(file: &[u8], sections: &[SectionHeader]) -> bool
    ensures { result ≡ list_all (spec.is_good_part file.now) sections.now }
{
    sections.iter().all(|section| is_good_part(file, section))
}

fn object_of<'a>(file: &'a [u8], sections: Vec<SectionHeader>) -> Result<Object<'a>, RelocRefusal>
    ensures ok { IfOk result (λ object. spec.object_of file.now sections.items ≡ Ok (object_view object)) }
    ensures parts { IfOk result (λ object. IsTrue (list_all (spec.is_good_part object.file.now) object.sections.items)) }
    ensures refused { IfErr result (Refuses (spec.object_of file.now sections.items)) }
{
    if !are_good_parts(file, &sections) {
        return Err(RelocRefusal::Fault(ObjectFault::OutsideFile));
    }
    match symbol_tables(file, &sections) {
        Some(tables) => Ok(Object {
            file,
            sections,
            tables,
        }),
        None => Err(RelocRefusal::Fault(ObjectFault::NoSymbols)),
    }
}

/// The object in a file, or the first fault of its header, its sections or its symbols.
#[tactic(auto, unfolding(crate::specs::Objects::object_judged))]
pub(crate) fn read_object(alloc: Global, file: &[u8]) -> Result<Object<'_>, RelocRefusal>
    ensures ok { IfOk result (λ object. spec.object_judged file.now ≡ Ok (object_view object)) }
    ensures parts { IfOk result (λ object. IsTrue (list_all (spec.is_good_part object.file.now) object.sections.items)) }
    ensures refused { IfErr result (Refuses (spec.object_judged file.now)) }
{
    if let Some(fault) = file_refusal(file, ET_REL) {
        return Err(RelocRefusal::Fault(ObjectFault::Header(fault)));
    }
    if !sections_in_file(file) {
        return Err(RelocRefusal::Fault(ObjectFault::SectionHeaders));
    }
    object_of(file, section_headers(alloc, file)?)
}
