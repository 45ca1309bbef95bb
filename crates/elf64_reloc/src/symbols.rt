// What symbols stand for.

ghost use Rattle.std.specs.Prelude.{◌≡◌, ◌≤◌, ◌<◌, ℕ, List, length, Some, IfOk, option_map};
ghost use Rattle.sv_types.specs.Limits.{max_exports};
ghost use Rattle.elf64_reloc.specs.Symbols as spec;
ghost use Rattle.elf64_load.specs.NameTables.{number_by_name};
ghost use Rattle.elf64_reloc.specs.Views.{names_view};

use crate::layout::{PlacedSection, Space};
use elf64_load::sections::elf::{SHN_ABS, SHN_LORESERVE, SHN_UNDEF};
use elf64_load::sections::{Symbol, SymbolTables, name_at, symbol_at, symbol_count};
use std::alloc::{AllocError, Global};
use std::collections::BTreeMap;
use sv_types::{DATA_BASE, Export, FIRST_EXPORT_BASE, NO_BASE, TEXT_BASE};

/// What a symbol stands for: the number of a base and the value on top.
#[derive(Clone, Copy, Drop)]
pub struct Target {
    pub base: u16,
    pub value: u64,
}

/// What symbols are looked up in.
#[derive(Clone, Copy, Drop)]
pub(crate) struct Names<'a, 'n> {
    pub(crate) tables: SymbolTables<'a>,
    pub(crate) placed: &'a [PlacedSection],
    pub(crate) bases: &'a BTreeMap<&'n str, u16>,
}

/// The base of each export by its name: the first one's where two have one name. Fails where memory runs out.
pub(crate) fn export_bases<'a>(
    alloc: Global,
    exports: &'a [Export],
) -> Result<BTreeMap<&'a str, u16>, AllocError>
    requires { length exports.now ≤ max_exports }
    ensures { IfOk result (λ bases. (name : List ℕ) → number_by_name bases name ≡ spec.export_base exports.now name) }
{
    let mut bases = BTreeMap::new(alloc);
    'exports: for i in (0..exports.len()).rev() {
        bases.insert(
            exports[i].name.text(),
            (usize::from(FIRST_EXPORT_BASE) + i) as u16,
        )?;
    }
    Ok(bases)
}

fn wanted_target(bases: &BTreeMap<&str, u16>, name: Option<&str>) -> Option<Target>
    ensures { result ≡ spec.wanted_target (number_by_name bases.now) (option_map (λ n. n.now) name.entry) }
{
    match name {
        Some(name) => match bases.get(name) {
            Some(base) => Some(Target {
                base: *base,
                value: 0,
            }),
            None => None,
        },
        None => None,
    }
}

fn section_target(placed: Option<&PlacedSection>, value: u64) -> Option<Target>
    ensures { result ≡ spec.section_target (option_map (λ p. p.now) placed.entry) value }
{
    match placed {
        Some(section) => match section.space {
            Space::Text => Some(Target {
                base: TEXT_BASE,
                value: value.wrapping_add(section.place),
            }),
            Space::Data => Some(Target {
                base: DATA_BASE,
                value: value.wrapping_add(section.place),
            }),
            Space::Elsewhere => None,
        },
        None => None,
    }
}

#[tactic(auto, unfolding(crate::specs::Symbols::target_of))]
fn target_of(names: &Names, symbol: &Symbol) -> Option<Target>
    ensures { result ≡ spec.target_of (names_view names.now) symbol.now }
{
    if symbol.section == SHN_UNDEF {
        return wanted_target(names.bases, name_at(names.tables.strings, symbol.name));
    }
    if symbol.section == SHN_ABS {
        return Some(Target {
            base: NO_BASE,
            value: symbol.value,
        });
    }
    if symbol.section >= SHN_LORESERVE {
        return None;
    }
    section_target(names.placed.get(symbol.section as usize), symbol.value)
}

/// What the symbol of a number stands for. None where there is no such symbol, or it stands for nothing that a relocation
/// may use.
#[tactic(auto, unfolding(crate::specs::Symbols::symbol_target))]
pub(crate) fn symbol_target(names: &Names, symbol: u32) -> Option<Target>
    ensures { result ≡ spec.symbol_target (names_view names.now) symbol }
{
    if symbol as usize >= symbol_count(names.tables.symbols) {
        return None;
    }
    target_of(names, &symbol_at(names.tables.symbols, symbol as usize))
}
