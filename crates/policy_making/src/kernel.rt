// The digest of a kernel.

ghost use Rattle.std.specs.Prelude.{◌≡◌, Ok, IfOk, IfErr};
ghost use Rattle.sv_types.specs.Kernel.{text_of};
ghost use Rattle.sv_types.specs.Measure as measures;
ghost use Rattle.elf64_load.specs.Images.{segments_of};
ghost use Rattle.policy_making.specs.Making as spec;
ghost use Rattle.policy_making.specs.Refusals.{Refuses};

use crate::refusal::{MakingRefusal, of_image};
use elf64_load::{KernelImage, read_kernel};
use page_measure::{Silent, measure};
use std::alloc::{AllocError, Global};
use std::thread::Threads;
use sv_types::Digest;

/// The digest of a kernel that was read: the measure of its text. Fails where memory runs out.
#[tactic(auto, using(crate::proofs::WholePages::text_is_whole))]
pub fn text_digest<R: Threads + Sync>(
    rt: &R,
    alloc: Global,
    image: &KernelImage,
) -> Result<Digest, AllocError>
    ensures { IfOk result (λ digest. digest ≡ measures.measure (text_of (segments_of image.now))) }
{
    if let Some(text) = image.text_in_file() {
        return measure(rt, alloc, text, &Silent);
    }
    let text = image.text(alloc)?;
    measure(rt, alloc, &text, &Silent)
}

/// The digest of a kernel for a machine of so many pages of RAM: the measure of its text. Refuses an image for its first
/// fault, and when out of memory.
#[tactic(auto, unfolding(crate::specs::Making::kernel_digest), using(crate::proofs::Refused::image_refused))]
pub fn kernel_digest<R: Threads + Sync>(
    rt: &R,
    alloc: Global,
    kernel: &[u8],
    ram_pages: u32,
) -> Result<Digest, MakingRefusal>
    ensures digest { IfOk result (λ digest. spec.kernel_digest kernel.now ram_pages ≡ Ok digest) }
    ensures refused { IfErr result (Refuses (spec.kernel_digest kernel.now ram_pages)) }
{
    match read_kernel(alloc, kernel, ram_pages) {
        Ok(image) => Ok(text_digest(rt, alloc, &image)?),
        Err(refusal) => Err(of_image(refusal)),
    }
}
