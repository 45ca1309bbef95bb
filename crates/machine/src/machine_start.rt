// A machine before its first event.

ghost use Rattle.std.specs.Prelude.{◌≡◌, ℕ, ◌≤◌, ◌%◌, List, length, true, IfOk, OnOk, IfErr, IsTrue};
ghost use Rattle.spec_processor.specs.Bytes.{page_size};
ghost use Rattle.spec_reference.specs.BlockDisk.{sector_size};
ghost use Rattle.sv_types.specs.Boot.{max_flat_bytes};
ghost use Rattle.sv_types.specs.Measure.{measure};
ghost use Rattle.sv_types.specs.Policies.{rules_of, rules_within};
ghost use Rattle.spec_reference.specs.Start.{flat_start, image_start, boot_start, virtio_start};
ghost use Rattle.spec_reference.specs.States.{has_number};
ghost use Rattle.spec_reference.specs.Soundness.{IsSoundDisk};
ghost use Rattle.spec_hardware.specs.Reaches.{IsNew};
ghost use Rattle.hw_devices.specs.Ports.{port_disk};
ghost use Rattle.laws_resume.specs.Starts.{journal_at_boot};
ghost use Rattle.machine.specs.Boot.{IsBootOf, IsImageOf, IsRead, MayBoot, image_text, RefusesFlat, RefusesImage};

use crate::boot::BootRefusal;
use crate::image_start::{BootedSystem, boot};
use crate::machine::Machine;
use crate::start::flat;
use elf64_load::KernelImage;
use hw_devices::Port;
use std::alloc::Global;
use std::thread::Threads;
use sv_types::{Digest, Policy};

/// A machine before its first event, and the digests of its text's pages, ascending, by which it was measured.
#[derive(Drop)]
pub struct Booted {
    pub machine: Machine,
    pub digests: Vec<Digest>,
}

impl Booted {
    /// A machine as `Machine::boot` makes it, with the digests of its text.
    pub fn block<R: Threads + Sync>(
        rt: &R,
        alloc: Global,
        image: &KernelImage,
        policy: Policy,
        disk: Vec<u8>,
    ) -> Result<Booted, BootRefusal>
        requires { MayBoot (rules_of policy) image.now disk.items }
        ensures booted { IfOk result (IsBootOf (λ file. boot_start (rules_of policy) file disk.items) (rules_of policy) image.now) }
        ensures refused { IfErr result (RefusesImage image.now (rules_of policy)) }
    {
        Booted::after(rt, alloc, image, policy, Port::block(disk))
    }

    /// The same with its disk behind a virtio block device.
    pub fn virtio<R: Threads + Sync>(
        rt: &R,
        alloc: Global,
        image: &KernelImage,
        policy: Policy,
        disk: Vec<u8>,
    ) -> Result<Booted, BootRefusal>
        requires { MayBoot (rules_of policy) image.now disk.items }
        ensures booted { IfOk result (IsBootOf (λ file. virtio_start (rules_of policy) file disk.items) (rules_of policy) image.now) }
        ensures refused { IfErr result (RefusesImage image.now (rules_of policy)) }
    {
        Booted::after(rt, alloc, image, policy, Port::virtio(disk))
    }

    // The same with its disk behind a device as it stands.
    fn after<R: Threads + Sync>(
        rt: &R,
        alloc: Global,
        image: &KernelImage,
        policy: Policy,
        port: Port,
    ) -> Result<Booted, BootRefusal>
        requires within { IsTrue (rules_within (rules_of policy)) }
        requires read { IsRead policy.ram_pages image.now }
        requires quiet { IsSoundDisk (port_disk port) }
        ensures booted { IfOk result (IsBootOf (λ file. image_start (rules_of policy) file (port_disk port)) (rules_of policy) image.now) }
        ensures refused { IfErr result (RefusesImage image.now (rules_of policy)) }
    {
        let BootedSystem { system, digests } = boot(rt, alloc, image, policy, port)?;
        let machine = Machine {
            system,
            none_reserved: false,
        };
        Ok(Booted { machine, digests })
    }
}

impl Machine {
    /// A machine of 16 pages of RAM with these pages at their start, all of them approved, where the hart begins. It has
    /// one hart, no modules and an empty disk. The pages are measured first: the SHA-256 of the pages' SHA-256 digests
    /// has to be the digest that is wanted.
    pub fn flat<R: Threads + Sync>(
        rt: &R,
        alloc: Global,
        pages: &[u8],
        wanted: Digest,
    ) -> Result<Machine, BootRefusal>
        requires whole { length pages.now % page_size ≡ 0 }
        requires size { length pages.now ≤ max_flat_bytes }
        ensures new { IfOk result (λ m. IsNew m (flat_start pages.now wanted)) }
        ensures journal { IfOk result (λ m. m.journal ≡ journal_at_boot) }
        ensures measured { OnOk result (measure pages.now ≡ wanted) }
        ensures refused { IfErr result (RefusesFlat pages.now wanted) }
    {
        let system = flat(rt, alloc, pages, wanted)?;
        Ok(Machine {
            system,
            none_reserved: false,
        })
    }

    /// A machine of a kernel's image under a policy: the image's segments in RAM, its text approved, and hart 0 at its
    /// entry. First the text is measured against the policy, and the entry has to be one of the policy's. The disk is
    /// behind this project's block device.
    pub fn boot<R: Threads + Sync>(
        rt: &R,
        alloc: Global,
        image: &KernelImage,
        policy: Policy,
        disk: Vec<u8>,
    ) -> Result<Machine, BootRefusal>
        requires within { IsTrue (rules_within (rules_of policy)) }
        requires read { IsRead policy.ram_pages image.now }
        requires sectors { length disk.items % sector_size ≡ 0 }
        ensures new { (file : List ℕ) → IsImageOf file policy.ram_pages image.now → IfOk result (λ m. IsNew m (boot_start (rules_of policy) file disk.items)) }
        ensures journal { IfOk result (λ m. m.journal ≡ journal_at_boot) }
        ensures measured { OnOk result (measure (image_text image.now) ≡ policy.kernel) }
        ensures permitted { OnOk result (has_number policy.entries.items image.now.entry ≡ true) }
        ensures refused { IfErr result (RefusesImage image.now (rules_of policy)) }
    {
        Ok(Booted::block(rt, alloc, image, policy, disk)?.machine)
    }

    /// The same with its disk behind a virtio block device.
    pub fn boot_virtio<R: Threads + Sync>(
        rt: &R,
        alloc: Global,
        image: &KernelImage,
        policy: Policy,
        disk: Vec<u8>,
    ) -> Result<Machine, BootRefusal>
        requires within { IsTrue (rules_within (rules_of policy)) }
        requires read { IsRead policy.ram_pages image.now }
        requires sectors { length disk.items % sector_size ≡ 0 }
        ensures new { (file : List ℕ) → IsImageOf file policy.ram_pages image.now →
            IfOk result (λ m. IsNew m (virtio_start (rules_of policy) file disk.items)) }
        ensures journal { IfOk result (λ m. m.journal ≡ journal_at_boot) }
        ensures measured { OnOk result (measure (image_text image.now) ≡ policy.kernel) }
        ensures permitted { OnOk result (has_number policy.entries.items image.now.entry ≡ true) }
        ensures refused { IfErr result (RefusesImage image.now (rules_of policy)) }
    {
        Ok(Booted::virtio(rt, alloc, image, policy, disk)?.machine)
    }
}
