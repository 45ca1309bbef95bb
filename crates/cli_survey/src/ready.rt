// What is made ready of `survey`.
ghost use Rattle.std.specs.Prelude.{◌≡◌, ◌<◌, ◌≤◌, ◌-◌};
ghost use Rattle.spec_processor.specs.Counters.{CanCount};
ghost use Rattle.cli_plans.specs.Plans.{run_plan};
ghost use Rattle.cli_plans.specs.Reading.{MayFollow};
ghost use Rattle.cli_plans.specs.Words.{IsSurveyRun, run_value};
ghost use Rattle.cli_survey.specs.SurveyAnswers.{PreparesSurvey};

use cli_plans::{Part, Run};
use host_io::Files;
use secvisor_cli::{MAX_IMAGE_BYTES, PreparedRun, Stop, boot_file, read_part, read_policy};
use std::alloc::Global;
use std::thread::Threads;

/// A kernel's file, and the pages of RAM for which it was read.
#[derive(Drop)]
pub struct KernelFile {
    pub bytes: Vec<u8>,
    pub ram_pages: u32,
}

/// A booted machine with its events, and its kernel's file, which tells the names of addresses.
#[derive(Drop)]
pub struct ReadySurvey<'a> {
    pub booted: PreparedRun<'a>,
    pub kernel: KernelFile,
}

/// Reads and judges what `run` does for the same words, and boots a machine with the project's block device.
pub(crate) fn prepare_survey<'a, R: Threads + Sync, F: Files>(
    rt: &R,
    alloc: Global,
    asked: &Run<'a>,
    files: &mut F,
) -> Result<ReadySurvey<'a>, Stop>
    requires permitted { MayFollow (run_plan (run_value asked.now)) (F.state files.old) }
    requires reads { CanCount (F.state files.old).read_faults }
    requires run { IsSurveyRun asked.now }
    ensures { PreparesSurvey (run_value asked.now) (F.state files.old) (F.state files.new) result }
{
    let policy = read_policy(alloc, asked.policy, files)?;
    let ram_pages = policy.ram_pages;
    let bytes = read_part(alloc, files, Part::Image, asked.image, MAX_IMAGE_BYTES)?;
    let booted = boot_file(rt, alloc, asked, policy, &bytes, files)?;
    Ok(ReadySurvey {
        booted: booted.run,
        kernel: KernelFile { bytes, ram_pages },
    })
}
