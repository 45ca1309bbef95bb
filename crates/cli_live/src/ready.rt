// What is ready of `live` or `vlive`.
ghost use Rattle.std.specs.Prelude.{◌≡◌, ◌<◌, ◌-◌, map, string_bytes, IfOk};
ghost use Rattle.cli_plans.specs.Reading.{MayFollow};
ghost use Rattle.cli_plans.specs.CommandLine.{live_judged};
ghost use Rattle.cli_plans.specs.Plans.{live_plan};
ghost use Rattle.cli_live.specs.LiveReady.{PreparesLive, out_of};
ghost use Rattle.spec_processor.specs.Counters.{CanCount};

use crate::live_run::LiveRun;
use crate::threads::KeySource;
use cli_plans::ask_live;
use host_io::Files;
use live_keys::{Journal, KeyLine};
use secvisor_cli::{PreparedRun, Stop, prepare_run};
use std::alloc::Global;
use std::thread::Threads;

/// What is ready of `live` or `vlive`: a run that has made no event, where its keys come from, and the name of its script.
#[derive(Drop)]
pub struct LiveReady<'a> {
    pub live: LiveRun,
    pub source: KeySource,
    pub out: &'a str,
}

/// Reads and judges what `run` or `vrun` does for the same words, and boots a machine. The room for keys is taken before any file is
/// read.
pub fn prepare_live<'a, R: Threads + Sync, F: Files>(
    rt: &R,
    alloc: Global,
    words: &'a [String],
    files: &mut F,
) -> Result<LiveReady<'a>, Stop>
    requires permitted { MayFollow (live_plan (live_judged (map string_bytes words.now))) (F.state files.old) }
    requires reads { CanCount (F.state files.old).read_faults }
    ensures prepares { PreparesLive (live_plan (live_judged (map string_bytes words.now))) (F.state files.old) (F.state files.new) result }
    ensures name { IfOk result (λ ready. ready.out.now ≡ out_of (live_judged (map string_bytes words.now))) }
{
    let asked = ask_live(alloc, words)?;
    let (line, feeder, taker) = KeyLine::new(alloc)?;
    let journal = Journal::new(alloc)?;
    let booted = prepare_run(rt, alloc, &asked.run, files)?;
    let PreparedRun {
        machine,
        script,
        events,
        ..
    } = booted;
    Ok(LiveReady {
        live: LiveRun {
            machine,
            script,
            events,
            journal,
            taker,
        },
        source: KeySource { line, feeder },
        out: asked.out,
    })
}
