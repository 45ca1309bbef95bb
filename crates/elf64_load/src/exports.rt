// The addresses of the kernel's functions that modules call.

ghost use Rattle.std.specs.Prelude.{◌≡◌, ◌≤◌, ◌*◌, ℕ, List, [], length, if◌then◌else◌, Some, Ok, IfOk, IfErr, OnOk, option_map};
ghost use Rattle.sv_types.specs.Elf.{file_header_size};
ghost use Rattle.elf64_load.specs.NameTables.{number_by_name};
ghost use Rattle.elf64_load.specs.Exports as spec;
ghost use Rattle.elf64_load.specs.Refusals.{Refuses};
ghost use Rattle.elf64_load.specs.Judged.{each};
ghost use Rattle.elf64_load.specs.Sections.{sections_in_file};
ghost use Rattle.elf64_load.specs.Views.{tables_view};

use crate::read::ElfRefusal;
use crate::sections::elf::{ET_EXEC, SHN_UNDEF, STB_GLOBAL};
use crate::sections::{
    Symbol, SymbolTables, file_refusal, name_at, section_headers, sections_in_file, symbol_at,
    symbol_count, symbol_tables,
};
use policy_limits::MAX_EXPORTS;
use std::alloc::{AllocError, Global};
use std::collections::BTreeMap;
use sv_types::{Export, ImageFault, Name};

fn is_defined_global(symbol: &Symbol) -> bool
    ensures { result ≡ spec.is_defined_global symbol.now }
{
    symbol.binding() == STB_GLOBAL && symbol.section != SHN_UNDEF
}

// Writes a symbol's value at its name, if it is a defined global one.
fn define<'a>(
    addresses: &mut BTreeMap<&'a str, u64>,
    strings: &'a [u8],
    symbol: &Symbol,
) -> Result<(), AllocError>
    ensures { OnOk result ((name : List ℕ) → number_by_name addresses.new name ≡
        (if spec.defines strings.now name symbol.now then Some symbol.now.value else number_by_name addresses.old name)) }
{
    if !is_defined_global(symbol) {
        return Ok(());
    }
    if let Some(name) = name_at(strings, symbol.name) {
        addresses.insert(name, symbol.value)?;
    }
    Ok(())
}

// The value of the first defined global symbol of each name.
fn addresses<'a>(
    alloc: Global,
    tables: &SymbolTables<'a>,
) -> Result<BTreeMap<&'a str, u64>, AllocError>
    ensures { IfOk result (λ addresses. (name : List ℕ) → number_by_name addresses name ≡ spec.address_of (tables_view tables.now) name) }
{
    let mut addresses = BTreeMap::new(alloc);
    'symbols: for i in (0..symbol_count(tables.symbols)).rev() {
        define(
            &mut addresses,
            tables.strings,
            &symbol_at(tables.symbols, i),
        )?;
    }
    Ok(addresses)
}

fn export_at(addresses: &BTreeMap<&str, u64>, name: &Name) -> Result<Export, ImageFault>
    ensures { result ≡ spec.export_at name.now (number_by_name addresses.now name.now) }
{
    match addresses.get(name.text()) {
        Some(addr) => Ok(Export {
            name: *name,
            addr: *addr,
        }),
        None => Err(ImageFault::UndefinedName),
    }
}

fn exports_in(
    alloc: Global,
    tables: &SymbolTables,
    names: &[Name],
) -> Result<Vec<Export>, ElfRefusal>
    ensures ok { IfOk result (λ exports. each (spec.export_of (tables_view tables.now)) [] names.now ≡ Ok exports.items) }
    ensures refused { IfErr result (Refuses (each (spec.export_of (tables_view tables.now)) [] names.now)) }
{
    let addresses = addresses(alloc, tables)?;
    let mut exports = Vec::new(alloc);
    'names: for name in names {
        let export = export_at(&addresses, name)?;
        exports.push(export)?;
    }
    Ok(exports)
}

#[tactic(auto, using(crate::proofs::RefusedOn::refused_on))]
fn few_exports(
    alloc: Global,
    tables: &SymbolTables,
    names: &[Name],
) -> Result<Vec<Export>, ElfRefusal>
    ensures ok { IfOk result (λ exports. spec.exports_in (Some (tables_view tables.now)) names.now ≡ Ok exports.items) }
    ensures refused { IfErr result (Refuses (spec.exports_in (Some (tables_view tables.now)) names.now)) }
{
    let exports = exports_in(alloc, tables, names)?;
    if exports.len() > MAX_EXPORTS {
        return Err(ElfRefusal::Fault(ImageFault::TooManyNames));
    }
    Ok(exports)
}

// The symbol table of a kernel's file with that of its names, if they are good.
fn kernel_tables(alloc: Global, file: &[u8]) -> Result<Option<SymbolTables<'_>>, AllocError>
    requires { file_header_size ≤ length file.now }
    ensures { IfOk result (λ tables. option_map tables_view tables ≡ spec.kernel_tables file.now) }
{
    if !sections_in_file(file) {
        return Ok(None);
    }
    let sections = section_headers(alloc, file)?;
    Ok(symbol_tables(file, &sections))
}

/// The exports of these names, in their order: the values of the first global symbols of the kernel's file that define
/// them. Refuses a file for its header as `read_kernel` does; where its section headers, its symbol table or the table of
/// its names is absent, outside the file, or of a wrong size of entries or link; where a name is no defined global symbol;
/// where there are more than 4,096 names; and when out of memory. The time is linear in the file, but for looking names up.
#[tactic(auto, unfolding(crate::specs::Exports::exports_judged))]
pub fn read_exports(alloc: Global, bytes: &[u8], names: &[Name]) -> Result<Vec<Export>, ElfRefusal>
    ensures exports { IfOk result (λ exports. spec.exports_judged bytes.now names.now ≡ Ok exports.items) }
    ensures refused { IfErr result (Refuses (spec.exports_judged bytes.now names.now)) }
{
    if let Some(fault) = file_refusal(bytes, ET_EXEC) {
        return Err(ElfRefusal::Fault(ImageFault::Header(fault)));
    }
    match kernel_tables(alloc, bytes)? {
        Some(tables) => few_exports(alloc, &tables, names),
        None => Err(ElfRefusal::Fault(ImageFault::NoSymbols)),
    }
}
