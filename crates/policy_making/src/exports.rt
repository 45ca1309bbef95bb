// The exports that modules want of the kernel.

ghost use Rattle.std.specs.Prelude.{◌≡◌, ◌≤◌, Ok, length, IfOk, IfErr};
ghost use Rattle.sv_types.specs.Limits.{max_exports};
ghost use Rattle.policy_making.specs.Making as spec;
ghost use Rattle.policy_making.specs.Refusals.{Refuses};

use crate::names::each_once;
use crate::refusal::{MakingRefusal, of_image};
use elf64_load::read_exports;
use std::alloc::Global;
use sv_types::{Export, Name};

#[tactic(auto, unfolding(crate::specs::Making::exports_for), using(crate::proofs::Refused::image_refused))]
fn exports_for(alloc: Global, kernel: &[u8], names: &[Name]) -> Result<Vec<Export>, MakingRefusal>
    ensures exports { IfOk result (λ exports. spec.exports_for kernel.now names.now ≡ Ok exports.items) }
    ensures refused { IfErr result (Refuses (spec.exports_for kernel.now names.now)) }
{
    if names.is_empty() {
        return Ok(Vec::new(alloc));
    }
    match read_exports(alloc, kernel, names) {
        Ok(exports) => Ok(exports),
        Err(refusal) => Err(of_image(refusal)),
    }
}

/// The exports of the kernel that modules want, each once, in the order of their names' bytes. Where a name is wanted the
/// image is refused for its header, for its symbols, and when out of memory.
#[tactic(auto, using(crate::proofs::FewExports::few_exports))]
pub fn wanted_exports(
    alloc: Global,
    kernel: &[u8],
    names: &[Name],
) -> Result<Vec<Export>, MakingRefusal>
    ensures exports { IfOk result (λ exports. spec.exports_wanted kernel.now names.now ≡ Ok exports.items) }
    ensures few { IfOk result (λ exports. length exports.items ≤ max_exports) }
    ensures refused { IfErr result (Refuses (spec.exports_wanted kernel.now names.now)) }
{
    let once = each_once(alloc, names)?;
    exports_for(alloc, kernel, &once)
}
