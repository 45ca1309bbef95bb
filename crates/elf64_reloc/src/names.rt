// The names that an object wants of the kernel.

ghost use Rattle.std.specs.Prelude.{◌≡◌, [], Ok, IsTrue, IfOk, IfErr, OnOk};
ghost use Rattle.std.specs.List.{list_all};
ghost use Rattle.elf64_reloc.specs.Objects.{is_good_part};
ghost use Rattle.elf64_load.specs.Views.{tables_view};
ghost use Rattle.elf64_reloc.specs.Modules as spec;
ghost use Rattle.elf64_reloc.specs.NameKeys.{names_of, AreNamed};
ghost use Rattle.elf64_reloc.specs.Refusals.{Refuses};
ghost use Rattle.elf64_reloc.specs.Views.{object_view};

use crate::fault::ObjectFault;
use crate::layout::lay_out;
use crate::object::{Object, read_object};
use crate::refusal::RelocRefusal;
use crate::relocations::{Relocation, all_relocations};
use elf64_load::sections::{Symbol, SymbolTables, name_at, symbol_at, symbol_count};
use std::alloc::{AllocError, Global};
use std::collections::BTreeMap;
use sv_types::Name;

// Joins the name of a symbol that no section of the object defines.
#[tactic(auto, unfolding(crate::specs::Modules::symbol_joined))]
fn join_symbol<'a>(
    names: &mut BTreeMap<&'a str, Name>,
    strings: &'a [u8],
    symbol: &Symbol,
) -> Result<(), RelocRefusal>
    requires { AreNamed names.old }
    ensures named { OnOk result (AreNamed names.new) }
    ensures ok { OnOk result (spec.symbol_joined strings.now (names_of names.old) symbol.now ≡ Ok (names_of names.new)) }
    ensures refused { IfErr result (Refuses (spec.symbol_joined strings.now (names_of names.old) symbol.now)) }
{
    if symbol.section != 0 {
        return Ok(());
    }
    let Some(text) = name_at(strings, symbol.name) else {
        return Err(RelocRefusal::Fault(ObjectFault::Name));
    };
    let Some(name) = Name::new(text) else {
        return Err(RelocRefusal::Fault(ObjectFault::Name));
    };
    match names.insert(text, name) {
        Ok(_) => Ok(()),
        Err(_) => Err(RelocRefusal::Memory),
    }
}

#[tactic(auto, unfolding(crate::specs::Modules::joined_by))]
fn join_by<'a>(
    names: &mut BTreeMap<&'a str, Name>,
    tables: &SymbolTables<'a>,
    relocation: &Relocation,
) -> Result<(), RelocRefusal>
    requires { AreNamed names.old }
    ensures named { OnOk result (AreNamed names.new) }
    ensures ok { OnOk result (spec.joined_by (tables_view tables.now) (names_of names.old) relocation.now ≡ Ok (names_of names.new)) }
    ensures refused { IfErr result (Refuses (spec.joined_by (tables_view tables.now) (names_of names.old) relocation.now)) }
{
    let symbol = relocation.symbol as usize;
    if symbol >= symbol_count(tables.symbols) {
        return Ok(());
    }
    join_symbol(names, tables.strings, &symbol_at(tables.symbols, symbol))
}

/// The names of a map, in the order of their bytes. Fails where memory runs out.
pub fn names_in_order(alloc: Global, names: &BTreeMap<&str, Name>) -> Result<Vec<Name>, AllocError>
    ensures { IfOk result (λ list. list.items ≡ names_of names.now) }
{
    names.values().copied().collect(alloc)
}

fn each_joined(
    alloc: Global,
    tables: &SymbolTables,
    relocations: &[Relocation],
) -> Result<Vec<Name>, RelocRefusal>
    ensures ok { IfOk result (λ names. spec.each_joined (tables_view tables.now) [] relocations.now ≡ Ok names.items) }
    ensures refused { IfErr result (Refuses (spec.each_joined (tables_view tables.now) [] relocations.now)) }
{
    let mut names = BTreeMap::new(alloc);
    'relocations: for relocation in relocations {
        join_by(&mut names, tables, relocation)?;
    }
    Ok(names_in_order(alloc, &names)?)
}

fn names_of_object(alloc: Global, object: &Object) -> Result<Vec<Name>, RelocRefusal>
    requires { IsTrue (list_all (is_good_part object.now.file.now) object.now.sections.items) }
    ensures ok { IfOk result (λ names. spec.names_of_object (object_view object.now) ≡ Ok names.items) }
    ensures refused { IfErr result (Refuses (spec.names_of_object (object_view object.now))) }
{
    let placed = lay_out(alloc, &object.sections)?.sections;
    let relocations = all_relocations(alloc, object.file, &placed, &object.sections)?;
    each_joined(alloc, &object.tables, &relocations)
}

/// The names that the object's text wants of the kernel, each once, in the order of their bytes: those of symbols that no
/// section defines and to which a relocation refers. Refuses an object for a fault of its header, its sections or its
/// symbols, where such a name is empty, longer than 64 bytes, no UTF-8 text or without an end, and when out of memory.
#[tactic(auto, unfolding(crate::specs::Modules::names_judged), using(crate::proofs::RefusedOn::refused_on))]
pub fn undefined_names(alloc: Global, bytes: &[u8]) -> Result<Vec<Name>, RelocRefusal>
    ensures names { IfOk result (λ names. spec.names_judged bytes.now ≡ Ok names.items) }
    ensures refused { IfErr result (Refuses (spec.names_judged bytes.now)) }
{
    let object = read_object(alloc, bytes)?;
    names_of_object(alloc, &object)
}
