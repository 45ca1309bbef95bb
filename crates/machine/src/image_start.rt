// The machine of a kernel's image before its first event.

ghost use Rattle.std.specs.Prelude.{◌≡◌, ℕ, ◌≤◌, ◌*◌, List, length, true, IfOk, OnOk, IfErr, IsTrue};
ghost use Rattle.spec_processor.specs.Bytes.{page_size};
ghost use Rattle.sv_types.specs.Kernel.{segments_ram};
ghost use Rattle.sv_types.specs.Measure.{digests_of, measure};
ghost use Rattle.sv_types.specs.Policies.{rules_of, rules_within};
ghost use Rattle.spec_processor.specs.Regions.{max_ram_pages};
ghost use Rattle.gstage_tables.specs.Layout.{max_bound, table_size};
ghost use Rattle.page_guard.specs.Guarded.{Guards};
ghost use Rattle.elf64_load.specs.Images.{segments_of};
ghost use Rattle.secvisor_core.specs.Placed.{ArePlaced};
ghost use Rattle.spec_reference.specs.Start.{image_start, AreWords};
ghost use Rattle.spec_reference.specs.States.{has_number};
ghost use Rattle.spec_reference.specs.Soundness.{IsSoundDisk};
ghost use Rattle.spec_hardware.specs.Reaches.{IsNew};
ghost use Rattle.spec_hardware.specs.StandsFor.{bound_pages};
ghost use Rattle.hw_devices.specs.Ports.{port_disk};
ghost use Rattle.laws_resume.specs.Starts.{image_machine, image_protections, journal_at_boot, IsGuarded};
ghost use Rattle.machine.specs.Boot.{HasDigests, IsImageOf, image_text, RefusesFlat, RefusesImage};

use crate::boot::BootRefusal;
use crate::events::System;
use crate::start::{at_boot, judge_measure};
use elf64_load::KernelImage;
use gstage_tables::Trees;
use host_mem::HostMem;
use hw_devices::Port;
use page_guard::Guard;
use secvisor_core::boot::{approve_text, fill_ram};
use spec_processor::page_of;
use std::alloc::{AllocError, Global};
use std::thread::Threads;
use sv_types::{Digest, Policy};

/// A system before its first event, and the digests of its text's pages, ascending, by which it was measured.
pub(crate) struct BootedSystem {
    pub(crate) system: System,
    pub(crate) digests: Vec<Digest>,
}

/// A machine of a kernel's image under a policy: the image's segments in RAM, its text approved, and hart 0 at its
/// entry. First the text is measured against the policy, and the entry has to be one of the policy's.
#[tactic(auto, unfolding(laws_resume::specs::Starts::machine_at_boot, laws_resume::specs::Starts::image_machine))]
pub(crate) fn boot<R: Threads + Sync>(
    rt: &R,
    alloc: Global,
    image: &KernelImage,
    policy: Policy,
    port: Port,
) -> Result<BootedSystem, BootRefusal>
    requires within { IsTrue (rules_within (rules_of policy)) }
    requires placed { ArePlaced policy.ram_pages (segments_of image.now) }
    requires quiet { IsSoundDisk (port_disk port) }
    ensures made { IfOk result (λ b.
        b.system ≡ image_machine b.system.region.tables (rules_of policy) image.now.entry (segments_of image.now) (port_disk port)) }
    ensures new { (file : List ℕ) → IsImageOf file policy.ram_pages image.now →
        IfOk result (λ b. IsNew b.system (image_start (rules_of policy) file (port_disk port))) }
    ensures digests { (file : List ℕ) → IsImageOf file policy.ram_pages image.now → IfOk result (λ b. HasDigests b.system b.digests.items) }
    ensures journal { IfOk result (λ b. b.system.journal ≡ journal_at_boot) }
    ensures guarded { IfOk result (λ b. IsGuarded b.system) }
    ensures measured { OnOk result (measure (image_text image.now) ≡ policy.kernel) }
    ensures permitted { OnOk result (has_number policy.entries.items image.now.entry ≡ true) }
    ensures refused { IfErr result (RefusesImage image.now (rules_of policy)) }
{
    let digests = judge_image(rt, alloc, image, &policy)?;
    let system = assemble(alloc, image, policy, port)?;
    Ok(BootedSystem { system, digests })
}

// The digests of the text, which has the policy's measure; and the entry is permitted.
#[tactic(auto, using(crate::proofs::ImageStarting::image_refused))]
fn judge_image<R: Threads + Sync>(
    rt: &R,
    alloc: Global,
    image: &KernelImage,
    policy: &Policy,
) -> Result<Vec<Digest>, BootRefusal>
    ensures digests { IfOk result (λ digests. digests.items ≡ digests_of (image_text image.now)) }
    ensures measured { OnOk result (measure (image_text image.now) ≡ policy.now.kernel) }
    ensures permitted { OnOk result (has_number policy.now.entries.items image.now.entry ≡ true) }
    ensures words { OnOk result (AreWords policy.now.entries.items) }
    ensures refused { IfErr result (RefusesImage image.now (rules_of policy.now)) }
{
    let digests = judge_text(rt, alloc, image, policy.kernel)?;
    if is_permitted(&policy.entries, image.entry) {
        Ok(digests)
    } else {
        Err(BootRefusal::Entry { entry: image.entry })
    }
}

// The digests of the text. Refuses text whose measure isn't the one that is wanted. It is measured where it lies in the file, or else in a copy, which
// is given back after this.
#[tactic(auto, using(crate::proofs::ImageStarting::text_whole))]
fn judge_text<R: Threads + Sync>(
    rt: &R,
    alloc: Global,
    image: &KernelImage,
    wanted: Digest,
) -> Result<Vec<Digest>, BootRefusal>
    ensures digests { IfOk result (λ digests. digests.items ≡ digests_of (image_text image.now)) }
    ensures measured { OnOk result (measure (image_text image.now) ≡ wanted) }
    ensures refused { IfErr result (RefusesFlat (image_text image.now) wanted) }
{
    if let Some(text) = image.text_in_file() {
        return judge_measure(rt, alloc, text, wanted);
    }
    let text = image.text(alloc)?;
    judge_measure(rt, alloc, &text, wanted)
}

fn is_permitted(entries: &[u64], entry: u64) -> bool
    ensures permitted { result ≡ has_number entries.now entry }
    ensures words { AreWords entries.now }
{
    entries.contains(&entry)
}

#[tactic(auto, using(crate::proofs::ImageStarting::image_made))]
fn assemble(
    alloc: Global,
    image: &KernelImage,
    policy: Policy,
    port: Port,
) -> Result<System, AllocError>
    requires within { IsTrue (rules_within (rules_of policy)) }
    requires placed { ArePlaced policy.ram_pages (segments_of image.now) }
    ensures made { IfOk result (λ p. p ≡ image_machine p.region.tables (rules_of policy) image.now.entry (segments_of image.now) (port_disk port)) }
    ensures guarded { IfOk result IsGuarded }
{
    let GuardedMem { mem, guard } = guarded_mem(alloc, image, &policy)?;
    let _tables = mem.table_bytes();
    at_boot(alloc, policy, mem, guard, port, image.entry)
}

// A region with the image's segments, and the guard of its pages.
struct GuardedMem {
    mem: HostMem,
    guard: Guard,
}

// A region of a policy's RAM with the image's segments, its text approved and all other pages free. Made alongside the policy,
// which is owned where a machine is assembled.
fn guarded_mem(
    alloc: Global,
    image: &KernelImage,
    policy: &Policy,
) -> Result<GuardedMem, AllocError>
    requires within { IsTrue (rules_within (rules_of policy.now)) }
    requires placed { ArePlaced policy.now.ram_pages (segments_of image.now) }
    ensures ram { IfOk result (λ g. g.mem.ram ≡ segments_ram (segments_of image.now) policy.now.ram_pages) }
    ensures guard { IfOk result (λ g. g.guard.pages ≡ image_protections policy.now.ram_pages (segments_of image.now)) }
    ensures guards { IfOk result (λ g. Guards g.mem (bound_pages (rules_of policy.now)) g.guard) }
    ensures number { IfOk result (λ g. length g.guard.pages ≡ policy.now.ram_pages) }
{
    let bound = bound_pages(alloc, policy)?;
    let mut mem = image_region(alloc, image, policy.ram_pages, bound.len())?;
    let guard = image_guard(alloc, &mut mem, image, policy.ram_pages, &bound)?;
    Ok(GuardedMem { mem, guard })
}

// The page that each entry of a policy is bound to.
#[tactic(auto, using(crate::proofs::BoundPages::page_fits))]
pub(crate) fn bound_pages(alloc: Global, policy: &Policy) -> Result<Vec<u32>, AllocError>
    requires within { IsTrue (rules_within (rules_of policy.now)) }
    ensures pages { IfOk result (λ pages. pages.items ≡ bound_pages (rules_of policy.now)) }
    ensures number { IfOk result (λ pages. length pages.items ≡ length policy.now.bound.items) }
{
    let mut pages = Vec::new(alloc);
    'entries: for i in 0..policy.bound.len() {
        pages.push(page_of(policy.bound[i]) as u32)?;
    }
    Ok(pages)
}

// A region of so many pages of RAM with the image's segments, and room for its tables, where so many entries are bound.
#[tactic(auto, using(crate::proofs::Regions::tables_sized))]
fn image_region(
    alloc: Global,
    image: &KernelImage,
    ram_pages: u32,
    bound: usize,
) -> Result<HostMem, AllocError>
    requires few { ram_pages ≤ max_ram_pages }
    requires bound { bound ≤ max_bound }
    requires placed { ArePlaced ram_pages (segments_of image.now) }
    ensures tables { IfOk result (λ m. length m.tables ≡ table_size ram_pages bound) }
    ensures ram { IfOk result (λ m. m.ram ≡ segments_ram (segments_of image.now) ram_pages) }
    ensures size { IfOk result (λ m. length m.ram ≡ page_size * ram_pages) }
{
    let tables = Trees::table_bytes(ram_pages as usize, bound);
    let mut mem = HostMem::new(alloc, tables, ram_pages as usize)?;
    fill_ram(alloc, &mut mem, image, ram_pages)?;
    Ok(mem)
}

// The pages of the image's text held and then approved, all others free. `bound` has the page that each entry is bound to.
fn image_guard(
    alloc: Global,
    mem: &mut HostMem,
    image: &KernelImage,
    ram_pages: u32,
    bound: &[u32],
) -> Result<Guard, AllocError>
    requires size { length mem.old.ram ≡ page_size * ram_pages }
    requires few { length bound.now ≤ max_bound }
    requires tables { length mem.old.tables ≡ table_size ram_pages (length bound.now) }
    requires placed { ArePlaced ram_pages (segments_of image.now) }
    ensures guard { IfOk result (λ g. g.pages ≡ image_protections ram_pages (segments_of image.now)) }
    ensures guards { IfOk result (λ g. Guards mem.new bound.now g) }
    ensures ram { mem.new.ram ≡ mem.old.ram }
{
    let mut guard = Guard::new(alloc, mem, bound)?;
    approve_text(alloc, &mut guard, mem, image)?;
    Ok(guard)
}
