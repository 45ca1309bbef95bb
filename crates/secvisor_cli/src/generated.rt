// The command `gen`.
ghost use Rattle.std.specs.Prelude.{◌≡◌, ◌≤◌, IfOk, IsTrue};
ghost use Rattle.sv_types.specs.Policies.{rules_of, rules_within};
ghost use Rattle.spec_reference.specs.Start.{boot_start};
ghost use Rattle.spec_hardware.specs.Reaches.{IsNew};
ghost use Rattle.guest_gen.specs.GuestCode.{max_calls};
ghost use Rattle.guest_gen.specs.Booting.{IsMeasuredKernel};
ghost use Rattle.cli_plans.specs.Plans.{gen_due, gen_disk};
ghost use Rattle.secvisor_cli.specs.Ready.{IsReady};

use crate::ready::{PreparedRun, Ready, Stop};
use elf64_load::{ElfRefusal, read_kernel};
use guest_gen::generate;
use machine::{BootRefusal, Machine};
use script::weave;
use std::alloc::{AllocError, Global};
use std::thread::Threads;
use sv_types::{MAX_EVENTS, Policy, SECTOR_BYTES};

const DISK_BYTES: u32 = 2 * SECTOR_BYTES as u32;

/// Generates the guest, which calls its kernel so many times, and boots it. It is never refused.
pub fn prepare_gen<R: Threads + Sync>(
    rt: &R,
    alloc: Global,
    calls: u64,
) -> Result<Ready<'static>, Stop>
    requires some { 1 ≤ calls }
    requires most { calls ≤ max_calls }
    ensures { IsReady (gen_due calls) result }
{
    let (file, policy) = generate(alloc, calls)?;
    let disk = disk(alloc)?;
    let machine = boot(rt, alloc, &file, policy, disk)?;
    Ok(Ready::Run(PreparedRun {
        machine,
        script: weave(),
        events: MAX_EVENTS,
        save: None,
    }))
}

// Two sectors, in which each byte is the last one of its place.
fn disk(alloc: Global) -> Result<Vec<u8>, AllocError>
    ensures { IfOk result (λ disk. disk.items ≡ gen_disk) }
{
    let mut disk = Vec::new(alloc);
    'places: for place in 0..DISK_BYTES {
        disk.push((place % 256) as u8)?;
    }
    Ok(disk)
}

// A machine of a file that is never refused under a policy.
fn boot<R: Threads + Sync>(
    rt: &R,
    alloc: Global,
    file: &[u8],
    policy: Policy,
    disk: Vec<u8>,
) -> Result<Machine, AllocError>
    requires within { IsTrue (rules_within (rules_of policy)) }
    requires bootable { IsMeasuredKernel file.now (rules_of policy) }
    requires disk { disk.items ≡ gen_disk }
    ensures { IfOk result (λ m. IsNew m (boot_start (rules_of policy) file.now gen_disk)) }
{
    let Ok(image) = read_kernel(alloc, file, policy.ram_pages) else {
        return Err(AllocError);
    };
    match Machine::boot(rt, alloc, &image, policy, disk) {
        Ok(machine) => Ok(machine),
        Err(BootRefusal::Memory) => Err(AllocError),
        Err(_) => unreachable!(),
    }
}
