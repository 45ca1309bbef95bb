// A machine from the bytes of its files.
ghost use Rattle.std.specs.Prelude.{◌≡◌, ◌%◌, IfOk, IsErrOf, IsTrue, Ok, OnOk, false, is_none, is_ok, length};
ghost use Rattle.sv_types.specs.Kernel.{kernel_refusal};
ghost use Rattle.sv_types.specs.Policies.{rules_of, rules_within};
ghost use Rattle.spec_reference.specs.BlockDisk.{sector_size};
ghost use Rattle.spec_reference.specs.Start.{boot_start};
ghost use Rattle.spec_hardware.specs.Reaches.{IsNew};
ghost use Rattle.policy.specs.Text.{rules_of_text};
ghost use Rattle.laws_resume.specs.SnapLaws.{IsMeasuredBoot};
ghost use Rattle.machine.specs.Boot.{HasDigests, IsImageOf};
ghost use Rattle.cli_trials.specs.Trials.{IsBooted, allows_boot};

use crate::trial::files::{NoOutcome, RunFiles};
use elf64_load::{ElfRefusal, KernelImage, read_kernel};
use machine::{BootRefusal, Booted};
use policy::PolicyRefusal;
use std::alloc::Global;
use std::thread::Threads;
use sv_types::Policy;

pub(crate) fn read_policy(alloc: Global, text: &[u8]) -> Result<Policy, NoOutcome>
    ensures rules { IfOk result (λ p. rules_of_text text.now ≡ Ok (rules_of p)) }
    ensures within { IfOk result (λ p. IsTrue (rules_within (rules_of p))) }
    ensures refused { IsErrOf result NoOutcome.Refused → is_ok (rules_of_text text.now) ≡ false }
    ensures other { IsErrOf result NoOutcome.Script → ⊥ }
{
    match policy::read(alloc, text) {
        Ok(policy) => Ok(policy),
        Err(PolicyRefusal::Fault(_)) => Err(NoOutcome::Refused),
        Err(PolicyRefusal::Memory) => Err(NoOutcome::Memory),
    }
}

fn read_image(alloc: Global, file: &[u8], ram_pages: u32) -> Result<KernelImage<'_>, NoOutcome>
    ensures image { IfOk result (IsImageOf file.now ram_pages) }
    ensures refused { IsErrOf result NoOutcome.Refused → is_none (kernel_refusal file.now ram_pages) ≡ false }
    ensures other { IsErrOf result NoOutcome.Script → ⊥ }
{
    match read_kernel(alloc, file, ram_pages) {
        Ok(image) => Ok(image),
        Err(ElfRefusal::Fault(_)) => Err(NoOutcome::Refused),
        Err(ElfRefusal::Memory) => Err(NoOutcome::Memory),
    }
}

fn copy_disk(alloc: Global, disk: &[u8]) -> Result<Vec<u8>, NoOutcome>
    ensures copy { IfOk result (λ copy. copy.items ≡ disk.now) }
    ensures refused { IsErrOf result NoOutcome.Refused → ⊥ }
    ensures other { IsErrOf result NoOutcome.Script → ⊥ }
{
    match disk.to_vec(alloc) {
        Ok(copy) => Ok(copy),
        Err(_) => Err(NoOutcome::Memory),
    }
}

/// A machine of its own, before its first event, and the digests by which it was measured.
pub(crate) fn boot<R: Threads + Sync>(
    rt: &R,
    alloc: Global,
    files: &RunFiles<'_>,
    policy: Policy,
) -> Result<Booted, NoOutcome>
    requires within { IsTrue (rules_within (rules_of policy)) }
    requires sectors { length files.now.disk.now % sector_size ≡ 0 }
    ensures new { IfOk result (λ b. IsNew b.machine (boot_start (rules_of policy) files.now.image.now files.now.disk.now)) }
    ensures booted { IfOk result (λ b. IsBooted b.machine) }
    ensures digests { IfOk result (λ b. HasDigests b.machine b.digests.items) }
    ensures measured { OnOk result (IsMeasuredBoot (rules_of policy) files.now.image.now) }
    ensures refused { IsErrOf result NoOutcome.Refused → allows_boot (rules_of policy) files.now.image.now ≡ false }
    ensures other { IsErrOf result NoOutcome.Script → ⊥ }
{
    let image = read_image(alloc, files.image, policy.ram_pages)?;
    let disk = copy_disk(alloc, files.disk)?;
    match Booted::block(rt, alloc, &image, policy, disk) {
        Ok(booted) => Ok(booted),
        Err(BootRefusal::Measure { .. }) | Err(BootRefusal::Entry { .. }) => {
            Err(NoOutcome::Refused)
        }
        Err(BootRefusal::Memory) => Err(NoOutcome::Memory),
    }
}
