// Where an object is refused, for a person. The judgements are the reader's own, in its order.

ghost use Rattle.std.specs.Prelude.{◌≤◌, length, IsTrue};
ghost use Rattle.std.specs.List.{list_all};
ghost use Rattle.sv_types.specs.Limits.{max_exports};
ghost use Rattle.elf64_reloc.specs.Objects.{is_good_part};

use crate::gathered::gather;
use crate::kind_names::kind_name;
use crate::layout::{PlacedSection, Space, is_good_alignment, lay_out};
use crate::object::{Object, read_object};
use crate::refusal::RelocRefusal;
use crate::relocations::Relocation;
use crate::section_names::section_name;
use crate::sites::{Judging, fields_judged};
use crate::symbols::Names;
use elf64_load::sections::{name_at, symbol_at, symbol_count};
use std::alloc::{AllocError, Global};
use sv_types::Export;

/// Where an object is refused by `read_module`, for a person: its section, and of a relocation the offset in it, the kind's
/// name and number, and the symbol's name. None where it isn't refused, or for something else. Fails where it is out
/// of memory.
pub fn refused_place(
    alloc: Global,
    bytes: &[u8],
    exports: &[Export],
) -> Result<Option<String>, AllocError>
    requires { length exports.now ≤ max_exports }
{
    match read_object(alloc, bytes) {
        Ok(object) => object_place(alloc, &object, exports),
        Err(RelocRefusal::Fault(_)) => Ok(None),
        Err(RelocRefusal::Memory) => Err(AllocError),
    }
}

fn object_place(
    alloc: Global,
    object: &Object,
    exports: &[Export],
) -> Result<Option<String>, AllocError>
    requires few { length exports.now ≤ max_exports }
    requires parts { IsTrue (list_all (is_good_part object.now.file.now) object.now.sections.items) }
{
    let unaligned = object
        .sections
        .iter()
        .position(|section| !is_good_alignment(section));
    if let Some(section) = unaligned {
        return Ok(Some(section_text(alloc, object, section)?));
    }
    let layout = lay_out(alloc, &object.sections)?;
    relocation_place(alloc, object, &layout.sections, exports)
}

fn relocation_place(
    alloc: Global,
    object: &Object,
    placed: &[PlacedSection],
    exports: &[Export],
) -> Result<Option<String>, AllocError>
    requires few { length exports.now ≤ max_exports }
    requires parts { IsTrue (list_all (is_good_part object.now.file.now) object.now.sections.items) }
{
    match refused_relocation(alloc, object, placed, exports)? {
        Some(relocation) => Ok(Some(relocation_text(alloc, object, placed, &relocation)?)),
        None => Ok(None),
    }
}

// The first relocation that is refused.
fn refused_relocation(
    alloc: Global,
    object: &Object,
    placed: &[PlacedSection],
    exports: &[Export],
) -> Result<Option<Relocation>, AllocError>
    requires few { length exports.now ≤ max_exports }
    requires parts { IsTrue (list_all (is_good_part object.now.file.now) object.now.sections.items) }
{
    let gathered = gather(alloc, object, placed, exports)?;
    let judging = Judging {
        names: Names {
            tables: object.tables,
            placed,
            bases: &gathered.bases,
        },
        highs: &gathered.highs,
    };
    Ok(first_refused(&judging, &gathered.relocations))
}

fn first_refused(judging: &Judging, relocations: &[Relocation]) -> Option<Relocation> {
    for relocation in relocations {
        if fields_judged(judging, relocation).is_err() {
            return Some(*relocation);
        }
    }
    None
}

// Whether the section holds the relocated field.
fn is_home(section: &PlacedSection, relocation: &Relocation) -> bool {
    section.space == Space::Text
        && section.place.wrapping_add(relocation.offset) == relocation.place
        && section.size == relocation.size
}

// The section that holds the relocated field, or else the first one.
fn home_of(placed: &[PlacedSection], relocation: &Relocation) -> usize {
    placed
        .iter()
        .position(|section| is_home(section, relocation))
        .unwrap_or(0)
}

fn relocation_text(
    alloc: Global,
    object: &Object,
    placed: &[PlacedSection],
    relocation: &Relocation,
) -> Result<String, AllocError> {
    let section = section_text(alloc, object, home_of(placed, relocation))?;
    text_behind(alloc, object, &section, relocation)
}

// A relocation after its section's name.
fn text_behind(
    alloc: Global,
    object: &Object,
    section: &str,
    relocation: &Relocation,
) -> Result<String, AllocError> {
    let kind = kind_text(alloc, relocation.kind)?;
    let offset = relocation.offset;
    let (word, symbol) = symbol_words(object, relocation.symbol);
    format!(in alloc; "{section}, offset 0x{offset:x}, {kind}{word}{symbol}")
}

// A kind by its name and its number.
fn kind_text(alloc: Global, kind: u32) -> Result<String, AllocError> {
    match kind_name(kind) {
        Some(name) => format!(in alloc; "R_RISCV_{name} ({kind})"),
        None => format!(in alloc; "relocation {kind}"),
    }
}

// A section by its name, or else by its number.
fn section_text(alloc: Global, object: &Object, section: usize) -> Result<String, AllocError> {
    match section_name(object.file, &object.sections, section) {
        Some(name) => format!(in alloc; "section {name}"),
        None => format!(in alloc; "section {section}"),
    }
}

// The word for a symbol, and its name. Both are empty where it has none.
fn symbol_words<'a>(object: &Object<'a>, symbol: u32) -> (&'static str, &'a str) {
    let tables = object.tables;
    let symbol = symbol as usize;
    if symbol >= symbol_count(tables.symbols) {
        return ("", "");
    }
    match name_at(tables.strings, symbol_at(tables.symbols, symbol).name) {
        Some(name) => (", symbol ", name),
        None => ("", ""),
    }
}
