// The symbol table, and the table of its names.

ghost use Rattle.std.specs.Prelude.{◌≡◌, ◌*◌, ◌+◌, ◌≤◌, ◌/◌, ◌==◌, find, length, option_map, slice_get};
ghost use Rattle.sv_types.specs.Elf.{sht_symtab, st_bind, symbol_size};
ghost use Rattle.elf64_load.specs.Sections as spec;
ghost use Rattle.elf64_load.specs.Views.{tables_view};

use crate::sections::elf::{
    SHT_STRTAB, SHT_SYMTAB, ST_INFO, ST_NAME, ST_SHNDX, ST_VALUE, SYMBOL_BYTES,
};
use crate::sections::fields::{byte, double, half, word};
use crate::sections::sections::{SectionHeader, part, part_in_file};

/// The bytes of a symbol table, and of the table in which its names stand. They stay in the file.
#[derive(Clone, Copy, Drop)]
pub struct SymbolTables<'a> {
    pub symbols: &'a [u8],
    pub strings: &'a [u8],
}

/// A symbol: where its name begins, its binding and type, the section that defines it (0: none), and its value.
#[derive(Clone, Copy, Drop)]
pub struct Symbol {
    pub name: u32,
    pub info: u8,
    pub section: u16,
    pub value: u64,
}

impl Symbol {
    /// The symbol's binding, which stands above the four bits of its type.
    pub fn binding(&self) -> u8
        ensures { result ≡ st_bind self.now.info }
    {
        self.info / 16
    }
}

fn are_good_tables(file: &[u8], symbols: &SectionHeader, strings: &SectionHeader) -> bool
    ensures { result ≡ spec.are_good_tables file.now symbols.now strings.now }
{
    symbols.entry_size as u128 == SYMBOL_BYTES as u128
        && part_in_file(file, symbols)
        && strings.kind == SHT_STRTAB
        && part_in_file(file, strings)
}

fn tables_between<'a>(
    file: &'a [u8],
    symbols: &SectionHeader,
    strings: &SectionHeader,
) -> Option<SymbolTables<'a>>
    ensures { option_map tables_view result ≡ spec.tables_between file.now symbols.now strings.now }
{
    if !are_good_tables(file, symbols, strings) {
        return None;
    }
    Some(SymbolTables {
        symbols: part(file, symbols),
        strings: part(file, strings),
    })
}

fn tables_with<'a>(
    file: &'a [u8],
    symbols: &SectionHeader,
    sections: &[SectionHeader],
) -> Option<SymbolTables<'a>>
    ensures { option_map tables_view result ≡ spec.tables_with file.now symbols.now (slice_get sections.now symbols.now.link) }
{
    match sections.get(symbols.link as usize) {
        Some(strings) => tables_between(file, symbols, strings),
        None => None,
    }
}

fn symbol_section(sections: &[SectionHeader]) -> Option<SectionHeader>
    ensures { result ≡ find (λ s. s.kind == sht_symtab) sections.now }
{
    sections
        .iter()
        .copied()
        .find(|section| section.kind == SHT_SYMTAB)
}

/// The first symbol table of the sections with the table of its names. None where one is absent, outside the file, or of
/// a wrong size of entries or kind.
pub fn symbol_tables<'a>(file: &'a [u8], sections: &[SectionHeader]) -> Option<SymbolTables<'a>>
    ensures { option_map tables_view result ≡ spec.tables_of file.now sections.now }
{
    match symbol_section(sections) {
        Some(symbols) => tables_with(file, &symbols, sections),
        None => None,
    }
}

/// The number of symbols of a table.
pub fn symbol_count(symbols: &[u8]) -> usize
    ensures { result ≡ length symbols.now / symbol_size }
{
    symbols.len() / SYMBOL_BYTES
}

/// The symbol at a place of a table.
#[tactic(auto, unfolding(crate::specs::Sections::symbol_at))]
pub fn symbol_at(symbols: &[u8], i: usize) -> Symbol
    requires { symbol_size * i + symbol_size ≤ length symbols.now }
    ensures { result ≡ spec.symbol_at symbols.now i }
{
    let at = SYMBOL_BYTES * i;
    Symbol {
        name: word(symbols, at + ST_NAME),
        info: byte(symbols, at + ST_INFO),
        section: half(symbols, at + ST_SHNDX),
        value: double(symbols, at + ST_VALUE),
    }
}
