// Functions and labels among the symbols of a file.

ghost use Rattle.std.specs.Prelude.{◌≡◌, ◌+◌, ◌*◌, ◌≤◌, ◌==◌, length, position, option_map, IfSome};
ghost use Rattle.sv_types.specs.Elf.{symbol_size};
ghost use Rattle.elf64_load.specs.Views.{tables_view};
ghost use Rattle.elf64_load.specs.Symbols as spec;
ghost use Rattle.elf64_load.specs.SymbolsViews.{code_symbol_view, location_view};

use crate::sections::elf::{SHN_LORESERVE, SHN_UNDEF, SYMBOL_BYTES};
use crate::sections::{Symbol, SymbolTables, double, symbol_at, symbol_count};

/// Where a symbol's size stands. ELF-64 Object File Format, "Symbol Table".
const ST_SIZE: usize = 16;

/// The type of a label, which is unspecified.
const STT_NOTYPE: u8 = 0;

/// The type of a function.
const STT_FUNC: u8 = 2;

/// The most bytes of a name with the zero byte after it, as in Linux's own table (KSYM_NAME_LEN).
const MAX_SYMBOL_BYTES: usize = 512;

/// A function or label of a kernel: its virtual address, its size (0 where the file says none), and its name, which stays in
/// the file.
#[derive(Clone, Copy, Drop)]
pub struct CodeSymbol<'a> {
    pub address: u64,
    pub size: u64,
    pub is_function: bool,
    pub name: &'a [u8],
}

/// Where an address lies: the name of a function or label, and how far the address is from it in bytes.
#[derive(Clone, Copy, Drop)]
pub struct Location<'a> {
    pub name: &'a [u8],
    pub offset: u64,
}

fn symbol_type(symbol: &Symbol) -> u8
    ensures { result ≡ spec.st_type symbol.now.info }
{
    symbol.info % 16
}

fn is_function(symbol: &Symbol) -> bool
    ensures { result ≡ spec.is_function symbol.now }
{
    symbol_type(symbol) == STT_FUNC
}

fn is_of_code(symbol: &Symbol) -> bool
    ensures { result ≡ spec.is_of_code symbol.now }
{
    let kind = symbol_type(symbol);
    (kind == STT_FUNC || kind == STT_NOTYPE)
        && symbol.section != SHN_UNDEF
        && symbol.section < SHN_LORESERVE
}

// Mapping symbols begin with a dollar sign, and a compiler's own labels with a dot.
fn is_name(bytes: &[u8]) -> bool
    ensures { result ≡ spec.is_name bytes.now }
{
    match bytes {
        [first, ..] => *first != b'$' && *first != b'.',
        [] => false,
    }
}

fn zero_byte(bytes: &[u8]) -> Option<usize>
    ensures { result ≡ position (λ b. b == 0) bytes.now }
{
    bytes.iter().position(|byte| *byte == 0)
}

fn if_name(bytes: &[u8]) -> Option<&[u8]>
    ensures { option_map (λ name. name.now) result ≡ spec.if_name bytes.now }
{
    if is_name(bytes) { Some(bytes) } else { None }
}

fn name_in(bytes: &[u8]) -> Option<&[u8]>
    ensures { option_map (λ name. name.now) result ≡ spec.name_in bytes.now }
{
    match zero_byte(bytes) {
        Some(end) => if_name(&bytes[..end]),
        None => None,
    }
}

// The name that begins at a place of the table of strings.
#[tactic(auto, unfolding(crate::specs::Symbols::name_at))]
fn name_at(strings: &[u8], at: u32) -> Option<&[u8]>
    ensures { option_map (λ name. name.now) result ≡ spec.name_at strings.now at }
{
    let rest = &strings[strings.len().min(at as usize)..];
    name_in(&rest[..rest.len().min(MAX_SYMBOL_BYTES)])
}

fn is_nearer(later: &CodeSymbol, symbol: &Symbol) -> bool
    ensures { result ≡ spec.is_nearer (code_symbol_view later.now) symbol.now }
{
    symbol.value < later.address
        || later.address == symbol.value && later.is_function && !is_function(symbol)
}

fn is_farther(symbol: &Symbol, later: Option<CodeSymbol>) -> bool
    ensures { result ≡ spec.is_farther symbol.now (option_map code_symbol_view later.entry) }
{
    match later {
        Some(later) => is_nearer(&later, symbol),
        None => false,
    }
}

fn may_be_nearest(address: u64, symbol: &Symbol, later: Option<CodeSymbol>) -> bool
    ensures { result ≡ spec.may_be_nearest address symbol.now (option_map code_symbol_view later.entry) }
{
    is_of_code(symbol) && symbol.value <= address && !is_farther(symbol, later)
}

// The nearest of the symbol at a place and of those after it.
#[tactic(auto, unfolding(crate::specs::Symbols::nearest_with))]
fn nearest_with<'a>(
    tables: &SymbolTables<'a>,
    address: u64,
    i: usize,
    later: Option<CodeSymbol<'a>>,
) -> Option<CodeSymbol<'a>>
    requires inside { symbol_size * i + symbol_size ≤ length tables.now.symbols.now }
    requires below { IfSome later (λ s. s.address ≤ address) }
    ensures nearest { option_map code_symbol_view result ≡ spec.nearest_with (tables_view tables.now) address i (option_map code_symbol_view later.entry) }
    ensures below { IfSome result (λ s. s.address ≤ address) }
{
    let symbol = symbol_at(tables.symbols, i);
    if !may_be_nearest(address, &symbol, later) {
        return later;
    }
    match name_at(tables.strings, symbol.name) {
        Some(name) => Some(CodeSymbol {
            address: symbol.value,
            size: double(tables.symbols, SYMBOL_BYTES * i + ST_SIZE),
            is_function: is_function(&symbol),
            name,
        }),
        None => later,
    }
}

// The nearest function or label that isn't above an address.
fn nearest<'a>(tables: &SymbolTables<'a>, address: u64) -> Option<CodeSymbol<'a>>
    ensures nearest { option_map code_symbol_view result ≡ spec.nearest (tables_view tables.now) address }
    ensures below { IfSome result (λ s. s.address ≤ address) }
{
    let mut found = None;
    'symbols: for i in (0..symbol_count(tables.symbols)).rev() {
        found = nearest_with(tables, address, i, found);
    }
    found
}

/// The name of a virtual address: the nearest function or label that isn't above it, within its size where it has one, and how
/// far the address is from it. Of several at one address a function comes before labels, and then the first of the file. A name
/// has 1 to 511 bytes, and begins with neither a dollar sign nor a dot. None where there is none.
#[tactic(auto, unfolding(crate::specs::Symbols::location_of))]
pub fn location_of<'a>(tables: &SymbolTables<'a>, address: u64) -> Option<Location<'a>>
    ensures { option_map location_view result ≡ spec.location_of (tables_view tables.now) address }
{
    match nearest(tables, address) {
        Some(found) => {
            let offset = address - found.address;
            if found.size == 0 || offset < found.size {
                Some(Location {
                    name: found.name,
                    offset,
                })
            } else {
                None
            }
        }
        None => None,
    }
}
