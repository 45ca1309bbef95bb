// The files that runs begin from.
ghost use Rattle.std.specs.Prelude.{◌≡◌, ◌<◌, ◌-◌, ◌%◌, IfErr, IfOk, IsTrue, OnOk, Ok, length, true};
ghost use Rattle.spec_processor.specs.Counters.{CanCount};
ghost use Rattle.sv_types.specs.Policies.{rules_of, rules_within};
ghost use Rattle.sv_types.specs.Measure.{measure};
ghost use Rattle.spec_reference.specs.BlockDisk.{sector_size};
ghost use Rattle.spec_reference.specs.States.{has_number};
ghost use Rattle.machine.specs.Boot.{MayBoot, RefusesImage, image_text};
ghost use Rattle.policy.specs.Text.{rules_of_text};
ghost use Rattle.cli_plans.specs.Plans.{policy_part, kernel_part, boot_plan, run_plan};
ghost use Rattle.cli_plans.specs.Reading.{MayFollow};
ghost use Rattle.cli_plans.specs.Words.{run_value};
ghost use Rattle.secvisor_cli.specs.Ready.{Staged, MayStage};
ghost use Rattle.cli_trials.specs.Orders.{IsAccepted};
ghost use Rattle.cli_trials.specs.Reading.{BootsFrom, PartsRead};

use crate::order::{OwnOrder, read_order};
use crate::trial::RunFiles;
use cli_plans::{DiskKind, Part, Run};
use elf64_load::KernelImage;
use host_io::Files;
use machine::BootRefusal;
use secvisor_cli::{
    MAX_IMAGE_BYTES, MAX_POLICY_BYTES, Stop, boot_with, judge_kernel, judge_policy, read_disk,
    read_part,
};
use std::alloc::Global;
use std::thread::Threads;
use sv_types::Policy;

/// The files that runs begin from, and the order of the events of one.
#[derive(Drop)]
pub struct Parts {
    pub policy: Vec<u8>,
    pub image: Vec<u8>,
    pub disk: Vec<u8>,
    pub order: OwnOrder,
}

impl Parts {
    /// The files.
    pub fn files(&self) -> RunFiles<'_>
        ensures policy { result.policy.now ≡ self.now.policy.items }
        ensures image { result.image.now ≡ self.now.image.items }
        ensures disk { result.disk.now ≡ self.now.disk.items }
    {
        RunFiles {
            policy: &self.policy,
            image: &self.image,
            disk: &self.disk,
        }
    }
}

/// A policy with its text.
#[derive(Drop)]
pub struct PolicyText {
    pub text: Vec<u8>,
    pub policy: Policy,
}

/// What is read after an image.
#[derive(Drop)]
pub struct AfterImage {
    pub disk: Vec<u8>,
    pub order: OwnOrder,
}

/// Reads what `run` reads, each part judged before the next, and boots a machine from them, which isn't kept.
pub fn read_parts<R: Threads + Sync, F: Files>(
    rt: &R,
    alloc: Global,
    asked: &Run<'_>,
    files: &mut F,
) -> Result<Parts, Stop>
    requires permitted { MayFollow (run_plan (run_value asked.now)) (F.state files.old) }
    requires reads { CanCount (F.state files.old).read_faults }
    ensures { PartsRead (run_value asked.now) (F.state files.old) (F.state files.new) result }
{
    let read = read_policy_text(alloc, asked.policy, files)?;
    let PolicyText { text, policy } = read;
    let image = read_part(alloc, files, Part::Image, asked.image, MAX_IMAGE_BYTES)?;
    let rest = boot_parts(rt, alloc, asked, policy, &image, files)?;
    let AfterImage { disk, order } = rest;
    Ok(Parts {
        policy: text,
        image,
        disk,
        order,
    })
}

fn read_policy_text<F: Files>(alloc: Global, name: &str, files: &mut F) -> Result<PolicyText, Stop>
    requires permitted { MayStage (policy_part name.now) (F.state files.old) }
    requires reads { CanCount (F.state files.old).read_faults }
    ensures stage { Staged (policy_part name.now) (λ p. rules_of p.policy) (F.state files.old) (F.state files.new) result }
    ensures text { IfOk result (λ p. rules_of_text p.text.items ≡ Ok (rules_of p.policy)) }
    ensures within { IfOk result (λ p. IsTrue (rules_within (rules_of p.policy))) }
{
    let text = read_part(alloc, files, Part::Policy, name, MAX_POLICY_BYTES)?;
    let policy = judge_policy(alloc, &text)?;
    Ok(PolicyText { text, policy })
}

// An image's file is judged, the disk and the script are read, and a machine boots from them.
fn boot_parts<R: Threads + Sync, F: Files>(
    rt: &R,
    alloc: Global,
    asked: &Run<'_>,
    policy: Policy,
    file: &[u8],
    files: &mut F,
) -> Result<AfterImage, Stop>
    requires permitted { MayFollow (kernel_part (rules_of policy) file.now (boot_plan (run_value asked.now) (rules_of policy) file.now)) (F.state files.old) }
    requires reads { CanCount (F.state files.old).read_faults }
    requires within { IsTrue (rules_within (rules_of policy)) }
    ensures boots { BootsFrom (run_value asked.now) (rules_of policy) file.now (F.state files.old) (F.state files.new) result }
    ensures sectors { IfOk result (λ rest. length rest.disk.items % sector_size ≡ 0) }
    ensures accepted { IfOk result (λ rest. IsAccepted rest.order) }
{
    let image = judge_kernel(alloc, file, policy.ram_pages)?;
    let disk = read_disk(alloc, asked.disk, files)?;
    let order = read_order(alloc, &asked.script, policy.harts, files)?;
    let copy = disk.to_vec(alloc)?;
    check_boot(rt, alloc, asked.kind, &image, policy, copy)?;
    Ok(AfterImage { disk, order })
}

// A machine boots, and isn't kept.
fn check_boot<R: Threads + Sync>(
    rt: &R,
    alloc: Global,
    kind: DiskKind,
    image: &KernelImage,
    policy: Policy,
    disk: Vec<u8>,
) -> Result<(), BootRefusal>
    requires { MayBoot (rules_of policy) image.now disk.items }
    ensures measured { OnOk result (measure (image_text image.now) ≡ policy.kernel) }
    ensures permitted { OnOk result (has_number policy.entries.items image.now.entry ≡ true) }
    ensures refused { IfErr result (RefusesImage image.now (rules_of policy)) }
{
    match boot_with(rt, alloc, kind, image, policy, disk) {
        Ok(_) => Ok(()),
        Err(refusal) => Err(refusal),
    }
}
