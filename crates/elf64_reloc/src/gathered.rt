// What is gathered of an object before its relocations are judged.

ghost use Rattle.std.specs.Prelude.{◌≡◌, ◌≤◌, ℕ, List, length, find, IsTrue, IfOk};
ghost use Rattle.std.specs.BTreeMap.{get};
ghost use Rattle.std.specs.List.{list_all};
ghost use Rattle.std.specs.Ordering.{nat_cmp};
ghost use Rattle.sv_types.specs.Limits.{max_exports};
ghost use Rattle.elf64_load.specs.NameTables.{number_by_name};
ghost use Rattle.elf64_reloc.specs.Modules.{is_high_at};
ghost use Rattle.elf64_reloc.specs.Objects.{is_good_part};
ghost use Rattle.elf64_reloc.specs.Relocations as spec;
ghost use Rattle.elf64_reloc.specs.Symbols.{export_base};

use crate::layout::PlacedSection;
use crate::object::Object;
use crate::relocations::{Relocation, all_relocations};
use crate::sites::high_parts;
use crate::symbols::export_bases;
use std::alloc::{AllocError, Global};
use std::collections::BTreeMap;
use sv_types::Export;

/// The relocations of an object, the first high part of an address at each place, and the base of each export by its name.
#[derive(Drop)]
pub(crate) struct Gathered<'n> {
    pub(crate) relocations: Vec<Relocation>,
    pub(crate) highs: BTreeMap<u64, Relocation>,
    pub(crate) bases: BTreeMap<&'n str, u16>,
}

/// What is gathered of an object. Fails where memory runs out.
pub(crate) fn gather<'n>(
    alloc: Global,
    object: &Object,
    placed: &[PlacedSection],
    exports: &'n [Export],
) -> Result<Gathered<'n>, AllocError>
    requires few { length exports.now ≤ max_exports }
    requires parts { IsTrue (list_all (is_good_part object.now.file.now) object.now.sections.items) }
    ensures relocations { IfOk result (λ gathered. gathered.relocations.items ≡ spec.all_relocations object.now.file.now placed.now object.now.sections.items) }
    ensures highs { IfOk result (λ gathered. (place : ℕ) → get nat_cmp gathered.highs place ≡ find (is_high_at place) gathered.relocations.items) }
    ensures bases { IfOk result (λ gathered. (name : List ℕ) → number_by_name gathered.bases name ≡ export_base exports.now name) }
{
    let relocations = all_relocations(alloc, object.file, placed, &object.sections)?;
    let highs = high_parts(alloc, &relocations)?;
    let bases = export_bases(alloc, exports)?;
    Ok(Gathered {
        relocations,
        highs,
        bases,
    })
}
