// What a policy says of modules.

ghost use Rattle.std.specs.Prelude.{◌≡◌, ◌≤◌, ◌%◌, ◌/◌, Ok, IsTrue, map, length, All, IfOk, IfErr};
ghost use Rattle.spec_processor.specs.Bytes.{page_size};
ghost use Rattle.sv_types.specs.Limits.{max_exports};
ghost use Rattle.sv_types.specs.Measure as measures;
ghost use Rattle.sv_types.specs.Policies.{module_pages_within, module_rule};
ghost use Rattle.spec_reference.specs.Relocations.{masked_text};
ghost use Rattle.elf64_reloc.specs.Modules.{pages_of};
ghost use Rattle.elf64_reloc.specs.ModuleViews.{module_view};
ghost use Rattle.page_measure.specs.Pieces.{piece_sites, IsAligned};
ghost use Rattle.policy_making.specs.Making as spec;
ghost use Rattle.policy_making.specs.Refusals.{Refuses};

use crate::object_file::ObjectFile;
use crate::refusal::{MakingRefusal, of_module};
use elf64_reloc::{ModuleImage, read_module};
use page_measure::fields::mask;
use page_measure::{Silent, measure};
use spec_processor::PAGE_BYTES;
use std::alloc::{AllocError, Global};
use std::thread::Threads;
use sv_types::{Digest, Export, ModulePolicy, Name, Site};

// The measure of a text with each field cleared.
fn masked_digest<R: Threads + Sync>(
    rt: &R,
    alloc: Global,
    text: &mut [u8],
    sites: &[Site],
) -> Result<Digest, AllocError>
    requires whole { length text.old % page_size ≡ 0 }
    requires inside { piece_sites 0 (length text.old) sites.now ≡ sites.now }
    requires aligned { All IsAligned sites.now }
    ensures { IfOk result (λ digest. digest ≡ measures.measure (masked_text text.old sites.now)) }
{
    mask(text, 0, sites);
    measure(rt, alloc, text, &Silent)
}

// What a policy says of a module that was read.
fn rule_of<R: Threads + Sync>(
    rt: &R,
    alloc: Global,
    name: Name,
    image: ModuleImage,
) -> Result<ModulePolicy, AllocError>
    requires whole { length image.text.items % page_size ≡ 0 }
    requires pages { IsTrue (module_pages_within (pages_of image.text.items)) }
    requires inside { piece_sites 0 (length image.text.items) image.sites.items ≡ image.sites.items }
    requires aligned { All IsAligned image.sites.items }
    ensures { IfOk result (λ made. module_rule made ≡ spec.rule_of name (module_view image)) }
{
    let ModuleImage { mut text, sites } = image;
    let pages = (text.len() / PAGE_BYTES as usize) as u32;
    let measure = masked_digest(rt, alloc, &mut text, &sites)?;
    Ok(ModulePolicy {
        name,
        pages,
        measure,
        sites,
    })
}

#[tactic(auto, unfolding(crate::specs::Making::module_made), using(crate::proofs::WholePages::module_is_whole, crate::proofs::Refused::object_refused))]
fn made_module<R: Threads + Sync>(
    rt: &R,
    alloc: Global,
    exports: &[Export],
    object: &ObjectFile,
) -> Result<ModulePolicy, MakingRefusal>
    requires few { length exports.now ≤ max_exports }
    ensures made { IfOk result (λ made. spec.module_made exports.now (spec.file_of object.now) ≡ Ok (module_rule made)) }
    ensures refused { IfErr result (Refuses (spec.module_made exports.now (spec.file_of object.now))) }
{
    match read_module(alloc, &object.bytes, exports) {
        Ok(image) => Ok(rule_of(rt, alloc, object.name, image)?),
        Err(refusal) => Err(of_module(refusal)),
    }
}

/// What a policy with these exports says of modules, in the order of their objects: of each its name, its pages, its fields
/// that relocations change, and the measure of its text with these cleared. Refuses an object for its first fault, and for
/// out of memory.
pub fn made_modules<R: Threads + Sync>(
    rt: &R,
    alloc: Global,
    exports: &[Export],
    objects: &[ObjectFile],
) -> Result<Vec<ModulePolicy>, MakingRefusal>
    requires few { length exports.now ≤ max_exports }
    ensures made { IfOk result (λ made. spec.modules_made exports.now (map spec.file_of objects.now) ≡ Ok (map module_rule made.items)) }
    ensures refused { IfErr result (Refuses (spec.modules_made exports.now (map spec.file_of objects.now))) }
{
    let mut made = Vec::new(alloc);
    'objects: for object in objects {
        let one = made_module(rt, alloc, exports, object)?;
        made.push(one)?;
    }
    Ok(made)
}
