// What is ready of `snap` or `vsnap`.
ghost use Rattle.std.specs.Prelude.{◌<◌, ◌≤◌, ◌-◌, IfOk};
ghost use Rattle.sv_types.specs.Limits.{max_events};
ghost use Rattle.cli_plans.specs.Plans.{run_plan};
ghost use Rattle.cli_plans.specs.Reading.{MayFollow};
ghost use Rattle.cli_plans.specs.Words.{run_value};
ghost use Rattle.secvisor_cli.specs.Ready.{run_of};
ghost use Rattle.machine.specs.Boot.{HasDigests};
ghost use Rattle.cli_snap.specs.SnapReady.{Boots};
ghost use Rattle.spec_processor.specs.Counters.{CanCount};

use cli_plans::Run;
use host_io::Files;
use secvisor_cli::{MeasuredRun, Stop, prepare_measured};
use std::alloc::Global;
use std::thread::Threads;

/// Reads and judges what `run` or `vrun` does for the same words, and boots a machine, of which the digests of its text
/// are kept.
pub fn prepare_snap<'a, R: Threads + Sync, F: Files>(
    rt: &R,
    alloc: Global,
    asked: &Run<'a>,
    files: &mut F,
) -> Result<MeasuredRun<'a>, Stop>
    requires permitted { MayFollow (run_plan (run_value asked.now)) (F.state files.old) }
    requires reads { CanCount (F.state files.old).read_faults }
    requires events { asked.now.events ≤ max_events }
    ensures boots { Boots (run_plan (run_value asked.now)) (F.state files.old) (F.state files.new) (run_of result) }
    ensures digests { IfOk result (λ m. HasDigests m.run.machine m.digests.items) }
{
    prepare_measured(rt, alloc, asked, files)
}
