// The files of `convert`.

use crate::faults::{convert_fault, image_fault};
use crate::files::{Found, MostBytes, Reread, read_part, remark_on};
use crate::running::policy_file;
use elf64_load::{ElfRefusal, read_kernel};
use policy_making::{BindFault, BindRefusal, bind};
use std::alloc::Global;
use std::thread::Threads;
use sv_types::Policy;

/// The words of `convert` that name files which are read.
#[derive(Clone, Copy, Drop)]
pub(crate) struct ConvertNames<'a> {
    pub(crate) kernel: &'a str,
    pub(crate) given: &'a str,
}

/// A policy and a kernel, in the order in which they are judged.
pub(crate) fn convert_files<R: Threads + Sync, A: Reread>(
    rt: &R,
    alloc: Global,
    files: &A,
    most: &MostBytes,
    names: &ConvertNames<'_>,
) -> Result<(), Found> {
    let policy = policy_file(alloc, files, most.policy, names.given)?;
    let image = read_part(alloc, files, names.kernel, most.image)?;
    bound_entries(rt, alloc, names, policy, &image)
}

// Another measure is told by the line that refuses it.
fn bound_entries<R: Threads + Sync>(
    rt: &R,
    alloc: Global,
    names: &ConvertNames<'_>,
    policy: Policy,
    image: &[u8],
) -> Result<(), Found> {
    match read_kernel(alloc, image, policy.ram_pages) {
        Ok(kernel) => match bind(rt, alloc, policy, &kernel) {
            Err(BindRefusal::Fault(BindFault::Convert(fault))) => {
                Err(remark_on(alloc, names.given, convert_fault(fault)))
            }
            _ => Ok(()),
        },
        Err(ElfRefusal::Fault(fault)) => Err(remark_on(alloc, names.kernel, image_fault(fault))),
        Err(ElfRefusal::Memory) => Err(Found::Nothing),
    }
}
