// Calls of the program, over files, keys and a sink in memory.
ghost use Rattle.std.specs.Prelude.{◌<◌, ◌-◌};
ghost use Rattle.spec_processor.specs.Counters.{CanCount};

use crate::memory::Answer;
use cli_dispatch::{Host, Progress};
use host_io::{MemFiles, MemSink};
use live_keys::{Keys, MemKeys, Pace, Still};
use secvisor_cli::Bench;
use std::alloc::Global;
use std::sync::Wait;
use std::thread::Threads;

/// What the program's call answers to these words.
pub fn answer_with<R: Threads + Wait + Sync, K: Keys + Send, P: Pace + Progress + Sync>(
    host: &Host<'_, R, P>,
    line: &[String],
    files: &mut MemFiles,
    keys: &mut K,
    out: &mut MemSink,
) -> Answer
    requires reads { CanCount files.old.read_faults }
    requires saves { CanCount files.old.save_faults }
    requires keys { CanCount (K.state keys.old).faults }
    requires writes { CanCount out.old.faults }
{
    let mut bench = Bench { machine: None };
    let status = cli_dispatch::answer(host, line, files, keys, out, &mut bench);
    Answer {
        status,
        is_booted: bench.machine.is_some(),
    }
}

/// The same where no key is typed.
pub fn answer<R: Threads + Wait + Sync>(
    rt: &R,
    alloc: Global,
    line: &[String],
    files: &mut MemFiles,
    out: &mut MemSink,
) -> Answer
    requires reads { CanCount files.old.read_faults }
    requires saves { CanCount files.old.save_faults }
    requires writes { CanCount out.old.faults }
{
    let mut keys = MemKeys::new(Vec::new(alloc), Vec::new(alloc));
    let host = Host {
        rt,
        alloc,
        pace: &Still,
    };
    answer_with(&host, line, files, &mut keys, out)
}
