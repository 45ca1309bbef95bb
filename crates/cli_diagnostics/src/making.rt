// The files of `measure`.

ghost use Rattle.std.specs.Prelude.{◌≤◌, length, IfOk};
ghost use Rattle.sv_types.specs.Limits.{max_exports};

use crate::faults::{image_fault, object_fault, policy_fault};
use crate::files::{Found, MostBytes, Reread, read_part, remark_at, remark_on};
use crate::running::kernel_file;
use elf64_load::{ElfRefusal, read_exports};
use elf64_reloc::{RelocRefusal, read_module, refused_place};
use policy::first_refused;
use policy_limits::{MAX_RAM_PAGES, PolicyFault};
use policy_making::{MakingFault, MakingRefusal, want_names, wanted_exports};
use std::alloc::Global;
use sv_types::{Export, ImageFault, Name};
use text_numbers::number_within;

/// The words of `measure` that name files, and the one of RAM.
#[derive(Clone, Copy, Drop)]
pub(crate) struct MakingNames<'a> {
    pub(crate) out: &'a str,
    pub(crate) kernel: &'a str,
    pub(crate) ram: &'a str,
    pub(crate) modules: &'a [String],
}

/// The files that a policy is made of, in the order in which they are judged.
pub(crate) fn making_files<A: Reread>(
    alloc: Global,
    files: &A,
    most: &MostBytes,
    names: &MakingNames<'_>,
) -> Result<(), Found> {
    let exports = kernel_exports(alloc, files, most, names)?;
    module_files(alloc, files, most.module, names.modules, &exports)?;
    // Each file is good, so that the fields of all modules together are too many.
    Err(remark_on(alloc, names.out, policy_fault(PolicyFault::BeyondLimit)))
}

// The exports of the kernel's file that the modules want.
fn kernel_exports<A: Reread>(
    alloc: Global,
    files: &A,
    most: &MostBytes,
    names: &MakingNames<'_>,
) -> Result<Vec<Export>, Found>
    ensures { IfOk result (λ exports. length exports.items ≤ max_exports) }
{
    let Some(ram_pages) = number_within(names.ram.as_bytes(), 0, u64::from(MAX_RAM_PAGES)) else {
        return Err(Found::Nothing);
    };
    let kernel = read_part(alloc, files, names.kernel, most.image)?;
    kernel_file(alloc, names.kernel, &kernel, ram_pages as u32)?;
    let wanted = all_wanted(alloc, files, most.module, names.modules)?;
    exports_in(alloc, names.kernel, &kernel, &wanted)
}

fn module_files<A: Reread>(
    alloc: Global,
    files: &A,
    most: usize,
    modules: &[String],
    exports: &[Export],
) -> Result<(), Found>
    requires { length exports.now ≤ max_exports }
{
    for module in modules {
        let object = read_part(alloc, files, module.as_str(), most)?;
        module_file(alloc, module.as_str(), &object, exports)?;
    }
    Ok(())
}

// The names that the modules want of the kernel.
fn all_wanted<A: Reread>(
    alloc: Global,
    files: &A,
    most: usize,
    modules: &[String],
) -> Result<Vec<Name>, Found> {
    let mut names = Vec::new(alloc);
    for module in modules {
        want_of(alloc, files, most, module.as_str(), &mut names)?;
    }
    Ok(names)
}

// Adds the names that a module wants.
fn want_of<A: Reread>(
    alloc: Global,
    files: &A,
    most: usize,
    module: &str,
    names: &mut Vec<Name>,
) -> Result<(), Found> {
    let object = read_part(alloc, files, module, most)?;
    match want_names(alloc, names, &object) {
        Ok(()) => Ok(()),
        Err(refusal) => Err(making_fault(alloc, module, refusal)),
    }
}

fn making_fault(alloc: Global, name: &str, refusal: MakingRefusal) -> Found {
    match refusal {
        MakingRefusal::Fault(MakingFault::Image(fault)) => remark_on(
            alloc,
            name,
            image_fault(fault),
        ),
        MakingRefusal::Fault(MakingFault::Module(fault)) => remark_on(
            alloc,
            name,
            object_fault(fault),
        ),
        MakingRefusal::Fault(MakingFault::TooManySites) => {
            remark_on(alloc, name, policy_fault(PolicyFault::BeyondLimit))
        }
        MakingRefusal::Memory => Found::Nothing,
    }
}

// The kernel's exports, or the first wanted name that it doesn't define.
fn exports_in(
    alloc: Global,
    name: &str,
    kernel: &[u8],
    wanted: &[Name],
) -> Result<Vec<Export>, Found>
    ensures { IfOk result (λ exports. length exports.items ≤ max_exports) }
{
    match wanted_exports(alloc, kernel, wanted) {
        Ok(exports) => Ok(exports),
        Err(refusal) => Err(match first_undefined(alloc, kernel, wanted) {
            Some(undefined) => undefined_name(alloc, name, &undefined),
            None => making_fault(alloc, name, refusal),
        }),
    }
}

fn undefined_name(alloc: Global, name: &str, undefined: &Name) -> Found {
    match format!(in alloc; "symbol {}", undefined.text()) {
        Ok(symbol) => {
            let fault = image_fault(ImageFault::UndefinedName);
            remark_at(alloc, name, Some(symbol), fault)
        }
        Err(_) => Found::Nothing,
    }
}

// The first name that the kernel doesn't define.
fn first_undefined(alloc: Global, kernel: &[u8], wanted: &[Name]) -> Option<Name> {
    let first = first_refused(wanted, |names| match read_exports(alloc, kernel, names) {
        Err(ElfRefusal::Fault(ImageFault::UndefinedName)) => true,
        _ => false,
    });
    match first {
        Some(i) => wanted.get(i).copied(),
        None => None,
    }
}

fn module_file(alloc: Global, name: &str, object: &[u8], exports: &[Export]) -> Result<(), Found>
    requires { length exports.now ≤ max_exports }
{
    match read_module(alloc, object, exports) {
        Ok(_) => Ok(()),
        Err(RelocRefusal::Fault(fault)) => {
            let place = refused_place(alloc, object, exports)?;
            Err(remark_at(alloc, name, place, object_fault(fault)))
        }
        Err(RelocRefusal::Memory) => Err(Found::Nothing),
    }
}
