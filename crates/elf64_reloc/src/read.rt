// The reading of a module's object.

ghost use Rattle.std.specs.Prelude.{◌≡◌, ◌≤◌, ◌^◌, [], Ok, IsTrue, true, length, IfOk, IfErr};
ghost use Rattle.std.specs.BTreeMap.{get};
ghost use Rattle.std.specs.Ordering.{nat_cmp};
ghost use Rattle.std.specs.List.{list_all};
ghost use Rattle.sv_types.specs.Limits.{max_exports};
ghost use Rattle.elf64_reloc.specs.Layouts.{is_good_alignment, placed_sections, text_size};
ghost use Rattle.elf64_reloc.specs.Modules as spec;
ghost use Rattle.elf64_reloc.specs.ModuleViews.{module_view};
ghost use Rattle.elf64_reloc.specs.Objects.{is_good_part};
ghost use Rattle.elf64_reloc.specs.Refusals.{Refuses};
ghost use Rattle.elf64_reloc.specs.Views.{names_view, object_view};

use crate::fault::ObjectFault;
use crate::gathered::gather;
use crate::layout::{PlacedSection, are_good_alignments, lay_out};
use crate::object::{Object, read_object};
use crate::order::{fields_overlap, ordered_sites};
use crate::refusal::RelocRefusal;
use crate::relocations::Relocation;
use crate::sites::{Judging, all_fields};
use crate::symbols::Names;
use crate::text::text_of;
use policy_limits::{MAX_MODULE_PAGES, MAX_MODULE_SITES};
use spec_processor::PAGE_BYTES;
use std::alloc::Global;
use std::collections::BTreeMap;
use sv_types::{Export, Site};

/// A module: its text in whole pages, and the fields of it that relocations change, in the order of their places.
#[derive(Drop)]
pub struct ModuleImage {
    pub text: Vec<u8>,
    pub sites: Vec<Site>,
}

fn fields_by<'a, 'n>(
    alloc: Global,
    names: &Names<'a, 'n>,
    highs: &'a BTreeMap<u64, Relocation>,
    relocations: &[Relocation],
) -> Result<Vec<Site>, RelocRefusal>
    ensures ok { IfOk result (λ sites. spec.each_judged (record { names = names_view names.now; high_at = get nat_cmp highs.now }) []
        relocations.now ≡ Ok sites.items) }
    ensures refused { IfErr result (Refuses (spec.each_judged (record { names = names_view names.now; high_at = get nat_cmp highs.now }) [] relocations.now)) }
{
    let judging = Judging {
        names: *names,
        highs,
    };
    all_fields(alloc, &judging, relocations)
}

// The fields of all relocations, or the first fault of one.
fn sites_of(
    alloc: Global,
    object: &Object,
    placed: &[PlacedSection],
    exports: &[Export],
) -> Result<Vec<Site>, RelocRefusal>
    requires few { length exports.now ≤ max_exports }
    requires parts { IsTrue (list_all (is_good_part object.now.file.now) object.now.sections.items) }
    requires placed { placed.now ≡ placed_sections object.now.sections.items }
    ensures ok { IfOk result (λ sites. spec.sites_of exports.now (object_view object.now) ≡ Ok sites.items) }
    ensures refused { IfErr result (Refuses (spec.sites_of exports.now (object_view object.now))) }
{
    let gathered = gather(alloc, object, placed, exports)?;
    let names = Names {
        tables: object.tables,
        placed,
        bases: &gathered.bases,
    };
    fields_by(alloc, &names, &gathered.highs, &gathered.relocations)
}

// The module of good fields, or the first fault of the whole.
fn module_with(
    alloc: Global,
    object: &Object,
    size: u64,
    sites: &[Site],
) -> Result<ModuleImage, RelocRefusal>
    requires parts { IsTrue (list_all (is_good_part object.now.file.now) object.now.sections.items) }
    requires alignments { IsTrue (list_all is_good_alignment object.now.sections.items) }
    requires size { size ≡ text_size object.now.sections.items }
    ensures ok { IfOk result (λ image. spec.module_with (object_view object.now) sites.now ≡ Ok (module_view image)) }
    ensures refused { IfErr result (Refuses (spec.module_with (object_view object.now) sites.now)) }
{
    if sites.len() > MAX_MODULE_SITES || size > PAGE_BYTES * u64::from(MAX_MODULE_PAGES) {
        return Err(RelocRefusal::Fault(ObjectFault::TooLarge));
    }
    let ordered = ordered_sites(alloc, sites)?;
    if fields_overlap(sites, &ordered) {
        return Err(RelocRefusal::Fault(ObjectFault::Overlap));
    }
    if size == 0 {
        return Err(RelocRefusal::Fault(ObjectFault::NoText));
    }
    let text = text_of(alloc, object)?;
    Ok(ModuleImage {
        text,
        sites: ordered,
    })
}

#[tactic(auto, using(crate::proofs::RefusedOn::refused_on))]
fn module_of(
    alloc: Global,
    object: &Object,
    exports: &[Export],
) -> Result<ModuleImage, RelocRefusal>
    requires few { length exports.now ≤ max_exports }
    requires parts { IsTrue (list_all (is_good_part object.now.file.now) object.now.sections.items) }
    ensures ok { IfOk result (λ image. spec.module_of exports.now (object_view object.now) ≡ Ok (module_view image)) }
    ensures refused { IfErr result (Refuses (spec.module_of exports.now (object_view object.now))) }
{
    if !are_good_alignments(&object.sections) {
        return Err(RelocRefusal::Fault(ObjectFault::Alignment));
    }
    let layout = lay_out(alloc, &object.sections)?;
    let sites = sites_of(alloc, object, &layout.sections, exports)?;
    module_with(alloc, object, layout.text_size, &sites)
}

/// Reads a module's object: its text and the fields that relocations change, for a kernel with these exports, of which
/// there are at most 4,096. Refuses an object for its first fault, and when out of memory. The time is linear in
/// the file's relocations, but for looking names up and for sorting. A module of a file of at most 4 GiB is within the
/// limits of a policy with these exports.
#[tactic(auto, unfolding(crate::specs::Modules::module_judged), using(crate::proofs::RefusedOn::refused_on))]
pub fn read_module(
    alloc: Global,
    bytes: &[u8],
    exports: &[Export],
) -> Result<ModuleImage, RelocRefusal>
    requires { length exports.now ≤ max_exports }
    ensures module { IfOk result (λ image. spec.module_judged bytes.now exports.now ≡ Ok (module_view image)) }
    ensures fits { length bytes.now ≤ 2 ^ 32 → IfOk result (λ image. spec.module_fits (length exports.now) (module_view image) ≡ true) }
    ensures refused { IfErr result (Refuses (spec.module_judged bytes.now exports.now)) }
{
    let object = read_object(alloc, bytes)?;
    module_of(alloc, &object, exports)
}
