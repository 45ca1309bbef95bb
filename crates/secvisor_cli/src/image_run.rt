// The commands `run` and `vrun`.
ghost use Rattle.std.specs.Prelude.{◌≡◌, ◌<◌, ◌≤◌, ◌-◌, ◌%◌, ◌==◌, ℕ, IfOk, IfErr, IsTrue, length};
ghost use Rattle.std.specs.Option.{option_copied};
ghost use Rattle.sv_types.specs.Limits.{max_events};
ghost use Rattle.spec_reference.specs.BlockDisk.{sector_size};
ghost use Rattle.sv_types.specs.Policies.{rules_of, rules_within};
ghost use Rattle.sv_types.specs.Schedule.{Schedule};
ghost use Rattle.machine.specs.Boot.{HasDigests, IsBootOf, MayBoot, RefusesImage};
ghost use Rattle.policy.specs.Text.{rules_of_text};
ghost use Rattle.cli_plans.specs.CommandLine.{Auto};
ghost use Rattle.cli_plans.specs.Plans.{policy_part, kernel_part, disk_part, text_part, script_part, boot_plan, run_plan, start_with};
ghost use Rattle.cli_plans.specs.Reading.{MayFollow};
ghost use Rattle.secvisor_cli.specs.Ready.{Prepares, Staged, MayStage, DrawsFrom, IsPolicy, IsKernel, IsScript, run_of, run_ready};
ghost use Rattle.cli_plans.specs.Words.{source_value, run_value};
ghost use Rattle.script.specs.HartCounts.{IsHartCount};
ghost use Rattle.spec_processor.specs.Counters.{CanCount};

use crate::parts::read_part;
use crate::ready::{MeasuredRun, PreparedRun, Stop};
use cli_plans::command_words::DiskKind;
use cli_plans::{FileFault, Part, Refusal, Run, Source};
use elf64_load::{ElfRefusal, KernelImage, read_kernel};
use host_io::Files;
use machine::{BootRefusal, Booted, SECTOR_BYTES};
use policy::PolicyRefusal;
use script::{Script, ScriptRefusal, auto, bursts, rounds};
use std::alloc::Global;
use std::thread::Threads;
use sv_types::Policy;

/// The most bytes of a policy's text.
pub const MAX_POLICY_BYTES: usize = 16 << 20;

/// The most bytes of an image.
pub const MAX_IMAGE_BYTES: usize = 64 << 20;

/// The most bytes of a disk.
pub const MAX_DISK_BYTES: usize = sv_types::MAX_DISK_BYTES as usize;

/// The most bytes of a script's text.
pub const MAX_SCRIPT_BYTES: usize = 1 << 20;

/// Reads the policy, the image, the disk and the script, each judged before the next, and boots a machine.
pub fn prepare_run<'a, R: Threads + Sync, F: Files>(
    rt: &R,
    alloc: Global,
    asked: &Run<'a>,
    files: &mut F,
) -> Result<PreparedRun<'a>, Stop>
    requires permitted { MayFollow (run_plan (run_value asked.now)) (F.state files.old) }
    requires reads { CanCount (F.state files.old).read_faults }
    requires events { asked.now.events ≤ max_events }
    ensures prepares { Prepares (run_plan (run_value asked.now)) (F.state files.old) (F.state files.new) (run_ready result) }
    ensures draws { (number : ℕ) → source_value asked.now.script ≡ Auto number → IfOk result (DrawsFrom number) }
{
    Ok(prepare_measured(rt, alloc, asked, files)?.run)
}

/// The same with the digests of the machine's text.
pub fn prepare_measured<'a, R: Threads + Sync, F: Files>(
    rt: &R,
    alloc: Global,
    asked: &Run<'a>,
    files: &mut F,
) -> Result<MeasuredRun<'a>, Stop>
    requires permitted { MayFollow (run_plan (run_value asked.now)) (F.state files.old) }
    requires reads { CanCount (F.state files.old).read_faults }
    requires events { asked.now.events ≤ max_events }
    ensures prepares { Prepares (run_plan (run_value asked.now)) (F.state files.old) (F.state files.new) (run_ready (run_of result)) }
    ensures draws { (number : ℕ) → source_value asked.now.script ≡ Auto number → IfOk result (λ m. DrawsFrom number m.run) }
    ensures digests { IfOk result (λ m. HasDigests m.run.machine m.digests.items) }
{
    let policy = read_policy(alloc, asked.policy, files)?;
    let file = read_part(alloc, files, Part::Image, asked.image, MAX_IMAGE_BYTES)?;
    boot_file(rt, alloc, asked, policy, &file, files)
}

/// An image's file is judged, then the disk and the script are read, and the machine boots.
pub fn boot_file<'a, R: Threads + Sync, F: Files>(
    rt: &R,
    alloc: Global,
    asked: &Run<'a>,
    policy: Policy,
    file: &[u8],
    files: &mut F,
) -> Result<MeasuredRun<'a>, Stop>
    requires permitted { MayFollow (kernel_part (rules_of policy) file.now (boot_plan (run_value asked.now) (rules_of policy) file.now)) (F.state files.old) }
    requires reads { CanCount (F.state files.old).read_faults }
    requires events { asked.now.events ≤ max_events }
    requires within { IsTrue (rules_within (rules_of policy)) }
    ensures prepares { Prepares (kernel_part (rules_of policy) file.now (boot_plan (run_value asked.now) (rules_of policy) file.now))
        (F.state files.old) (F.state files.new) (run_ready (run_of result)) }
    ensures draws { (number : ℕ) → source_value asked.now.script ≡ Auto number → IfOk result (λ m. DrawsFrom number m.run) }
    ensures digests { IfOk result (λ m. HasDigests m.run.machine m.digests.items) }
{
    let image = judge_kernel(alloc, file, policy.ram_pages)?;
    let disk = read_disk(alloc, asked.disk, files)?;
    let script = read_script(alloc, &asked.script, policy.harts, files)?;
    let booted = boot_with(rt, alloc, asked.kind, &image, policy, disk)?;
    Ok(MeasuredRun {
        run: PreparedRun {
            machine: booted.machine,
            script,
            events: asked.events,
            save: asked.save,
        },
        digests: booted.digests,
    })
}

/// A machine with a disk of such a kind, and the digests of its text.
pub fn boot_with<R: Threads + Sync>(
    rt: &R,
    alloc: Global,
    kind: DiskKind,
    image: &KernelImage,
    policy: Policy,
    disk: Vec<u8>,
) -> Result<Booted, BootRefusal>
    requires { MayBoot (rules_of policy) image.now disk.items }
    ensures booted { IfOk result (IsBootOf (λ file. start_with kind (rules_of policy) file disk.items) (rules_of policy) image.now) }
    ensures refused { IfErr result (RefusesImage image.now (rules_of policy)) }
{
    match kind {
        DiskKind::Block => Booted::block(rt, alloc, image, policy, disk),
        DiskKind::Virtio => Booted::virtio(rt, alloc, image, policy, disk),
    }
}

// ---- the policy

/// The policy of a name, which is judged.
pub fn read_policy<F: Files>(alloc: Global, name: &str, files: &mut F) -> Result<Policy, Stop>
    requires permitted { MayStage (policy_part name.now) (F.state files.old) }
    requires reads { CanCount (F.state files.old).read_faults }
    ensures stage { Staged (policy_part name.now) rules_of (F.state files.old) (F.state files.new) result }
    ensures within { IfOk result (λ p. IsTrue (rules_within (rules_of p))) }
{
    let text = read_part(alloc, files, Part::Policy, name, MAX_POLICY_BYTES)?;
    judge_policy(alloc, &text)
}

/// The policy of a text.
pub fn judge_policy(alloc: Global, text: &[u8]) -> Result<Policy, Stop>
    ensures policy { IsPolicy (rules_of_text text.now) result }
    ensures within { IfOk result (λ p. IsTrue (rules_within (rules_of p))) }
{
    match policy::read(alloc, text) {
        Ok(policy) => Ok(policy),
        Err(PolicyRefusal::Fault(fault)) => Err(Stop::Refused(Refusal::File {
            fault: FileFault::Policy(fault),
        })),
        Err(PolicyRefusal::Memory) => Err(Stop::Memory),
    }
}

// ---- the image

/// The image of a kernel's file.
pub fn judge_kernel(alloc: Global, file: &[u8], ram_pages: u32) -> Result<KernelImage<'_>, Stop>
    ensures { IsKernel file.now ram_pages result }
{
    match read_kernel(alloc, file, ram_pages) {
        Ok(image) => Ok(image),
        Err(ElfRefusal::Fault(fault)) => Err(Stop::Refused(Refusal::File {
            fault: FileFault::Image(fault),
        })),
        Err(ElfRefusal::Memory) => Err(Stop::Memory),
    }
}

// ---- the disk

/// The disk of a name, which is judged; an empty one where there is no name.
pub fn read_disk<F: Files>(
    alloc: Global,
    name: Option<&str>,
    files: &mut F,
) -> Result<Vec<u8>, Stop>
    requires permitted { MayStage (disk_part (option_copied name)) (F.state files.old) }
    requires reads { CanCount (F.state files.old).read_faults }
    ensures stage { Staged (disk_part (option_copied name.entry)) (λ disk. disk.items) (F.state files.old) (F.state files.new) result }
    ensures sectors { IfOk result (λ disk. length disk.items % sector_size ≡ 0) }
{
    let Some(name) = name else {
        return Ok(Vec::new(alloc));
    };
    let disk = read_part(alloc, files, Part::Disk, name, MAX_DISK_BYTES)?;
    if !is_whole_sectors(&disk) {
        return Err(Stop::Refused(Refusal::File {
            fault: FileFault::DiskSectors,
        }));
    }
    Ok(disk)
}

fn is_whole_sectors(bytes: &[u8]) -> bool
    ensures value { result ≡ (length bytes.now % sector_size == 0) }
    ensures whole { IsTrue result → length bytes.now % sector_size ≡ 0 }
{
    bytes.len() % SECTOR_BYTES as usize == 0
}

// ---- the script

/// The script of a source, which is judged.
pub fn read_script<F: Files>(
    alloc: Global,
    source: &Source<'_>,
    harts: u8,
    files: &mut F,
) -> Result<Script, Stop>
    requires permitted { MayStage (script_part harts (source_value source.now)) (F.state files.old) }
    requires reads { CanCount (F.state files.old).read_faults }
    requires harts { IsHartCount harts }
    ensures stage { Staged (script_part harts (source_value source.now)) (λ script. script) (F.state files.old) (F.state files.new) result }
    ensures draws { (number : ℕ) → source_value source.now ≡ Auto number → IfOk result (λ script. script ≡ Schedule.Auto harts number) }
{
    match source {
        Source::Rounds => Ok(rounds(harts)),
        Source::Auto(number) => Ok(auto(*number, harts)),
        Source::Bursts(number) => Ok(bursts(*number, harts)),
        Source::Text(name) => read_text(alloc, name, harts, files),
    }
}

fn read_text<F: Files>(alloc: Global, name: &str, harts: u8, files: &mut F) -> Result<Script, Stop>
    requires permitted { MayStage (text_part harts name.now) (F.state files.old) }
    requires reads { CanCount (F.state files.old).read_faults }
    requires harts { IsHartCount harts }
    ensures { Staged (text_part harts name.now) (λ script. script) (F.state files.old) (F.state files.new) result }
{
    let text = read_part(alloc, files, Part::Script, name, MAX_SCRIPT_BYTES)?;
    judge_script(alloc, &text, harts)
}

/// The events of a text.
pub fn judge_script(alloc: Global, text: &[u8], harts: u8) -> Result<Script, Stop>
    requires harts { IsHartCount harts }
    ensures { IsScript harts text.now result }
{
    match script::read(alloc, text, harts) {
        Ok(script) => Ok(script),
        Err(ScriptRefusal::Line { line }) => Err(Stop::Refused(Refusal::File {
            fault: FileFault::ScriptLine { line },
        })),
        Err(ScriptRefusal::Memory) => Err(Stop::Memory),
    }
}
