// A run that begins from files.
ghost use Rattle.std.specs.Prelude.{◌≡◌, ◌≤◌, ◌%◌, IfOk, IsTrue, Ok, None, length};
ghost use Rattle.sv_types.specs.Limits.{max_disk_bytes};
ghost use Rattle.sv_types.specs.Policies.{rules_of, rules_within};
ghost use Rattle.spec_reference.specs.BlockDisk.{sector_size};
ghost use Rattle.policy.specs.Text.{rules_of_text};
ghost use Rattle.debug_session.specs.Places.{place_name};
ghost use Rattle.cli_trials.specs.Orders.{IsAccepted};
ghost use Rattle.cli_debug.specs.Accepting.{refused_in};

use crate::target::{Beginning, Begun};
use cli_trials::Parts;
use cli_trials::trial::{boot_files, script_of_order};
use debug_session::{Place, place_name};
use elf64_load::read_kernel;
use machine::Machine;
use script::Script;
use secvisor_cli::MAX_DISK_BYTES;
use snapshot_format::Snapshot;
use std::alloc::{AllocError, Global};
use std::thread::Threads;
use sv_types::Policy;

/// A run that begins from files, which were read and judged as `run` does. Its machine boots as often as asked. A boot that is
/// refused then is told as out of memory; all that refuses one was judged before.
#[derive(Drop)]
pub struct FilesBeginning {
    parts: Parts,
    policy: Policy,
    ghost reads: { rules_of_text parts.policy.items ≡ Ok (rules_of policy) },
    ghost sectors: { length parts.disk.items % sector_size ≡ 0 },
    ghost few: { length parts.disk.items ≤ max_disk_bytes },
    ghost accepted: { refused_in parts.order ≡ None },
}

// A policy's text, which was judged before, so that nothing but memory is left to fail.
fn read_again(alloc: Global, text: &[u8]) -> Result<Policy, AllocError>
    ensures rules { IfOk result (λ p. rules_of_text text.now ≡ Ok (rules_of p)) }
    ensures within { IfOk result (λ p. IsTrue (rules_within (rules_of p))) }
{
    match policy::read(alloc, text) {
        Ok(policy) => Ok(policy),
        Err(_) => Err(AllocError),
    }
}

// The name of a place by a kernel's file, which was judged before, so that nothing but memory is left to fail.
fn name_in(alloc: Global, file: &[u8], ram_pages: u32, place: Place) -> Result<Vec<u8>, AllocError>
    ensures { IfOk result (λ name. name.items ≡ place_name file.now place) }
{
    match read_kernel(alloc, file, ram_pages) {
        Ok(image) => place_name(alloc, file, &image, place),
        Err(_) => Err(AllocError),
    }
}

impl FilesBeginning {
    ghost use Rattle.sv_types.specs.Policies.{Rules};
    ghost use Rattle.cli_debug.specs.Beginnings.{BeginsAs};

    /// From files that were read and judged.
    pub fn new(alloc: Global, parts: Parts) -> Result<FilesBeginning, AllocError>
        requires sectors { length parts.disk.items % sector_size ≡ 0 }
        requires accepted { IsAccepted parts.order }
        ensures { IfOk result (λ b. (rules : Rules) → rules_of_text parts.policy.items ≡ Ok rules → BeginsAs b rules parts) }
    {
        let policy = read_again(alloc, &parts.policy)?;
        if parts.disk.len() > MAX_DISK_BYTES {
            return Err(AllocError);
        }
        Ok(FilesBeginning { parts, policy })
    }
}

impl Beginning for FilesBeginning {
    ghost use Rattle.cli_debug.specs.Beginnings.{kernel_of, start_of, schedule_of};

    ghost kernel = { kernel_of };

    ghost start = { start_of };

    ghost schedule = { schedule_of };

    fn begin<R: Threads + Sync>(&self, rt: &R, alloc: Global) -> Result<Begun, AllocError> {
        let Ok(booted) = boot_files(rt, alloc, &self.parts.files()) else {
            return Err(AllocError);
        };
        let text = booted.machine.text(alloc, &booted.digests)?;
        Ok(Begun {
            machine: booted.machine,
            text,
        })
    }

    fn go_on<R: Threads + Sync>(
        &self,
        rt: &R,
        alloc: Global,
        snapshot: Snapshot,
    ) -> Result<Machine, AllocError> {
        let policy = read_again(alloc, &self.parts.policy)?;
        match Machine::from_snapshot(rt, alloc, snapshot, policy) {
            Ok(machine) => Ok(machine),
            Err(_) => Err(AllocError),
        }
    }

    fn script(&self, alloc: Global) -> Result<Script, AllocError> {
        match script_of_order(alloc, &self.parts.policy, &self.parts.order.order()) {
            Ok(script) => Ok(script),
            Err(_) => Err(AllocError),
        }
    }

    fn place_name(&self, alloc: Global, place: Place) -> Result<Vec<u8>, AllocError> {
        name_in(alloc, &self.parts.image, self.policy.ram_pages, place)
    }
}
