// The call that the words ask for.
ghost use Rattle.std.specs.Prelude.{◌≡◌, ◌<◌, ◌≤◌, ◌-◌, map, string_bytes};
ghost use Rattle.host_io.specs.Outside.{MayWrite};
ghost use Rattle.spec_processor.specs.Counters.{CanCount};
ghost use Rattle.cli_live.specs.LiveAnswers.{live_outside};
ghost use Rattle.cli_dispatch.specs.Choice as spec;
ghost use Rattle.cli_dispatch.specs.Answers.{MayAnswer, Owed};

use crate::choice::{TopCall, top_call_of};
use cli_debug::secvisor_debug;
use cli_live::{Host, secvisor_live};
use cli_snap::resume::secvisor_resume;
use cli_snap::secvisor_snap;
use cli_snap::show::secvisor_show;
use cli_survey::secvisor_survey;
use cli_trials::shrink::secvisor_shrink;
use cli_trials::sweep::{Progress, secvisor_sweep};
use host_io::{Files, Sink};
use live_keys::{Keys, Pace};
use secvisor_cli::{Bench, Status, secvisor};
use std::sync::Wait;
use std::thread::Threads;

/// Does all that the program does with these words: that of the command that the first of them names.
pub fn answer<
    R: Threads + Wait + Sync,
    F: Files,
    K: Keys + Send,
    O: Sink,
    P: Pace + Progress + Sync,
>(
    host: &Host<'_, R, P>,
    words: &[String],
    files: &mut F,
    keys: &mut K,
    out: &mut O,
    bench: &mut Bench,
) -> Status
    // Nothing but what the call that the words ask for may ask for may be asked for or saved.
    requires permitted { MayAnswer (spec.top_call_of (map string_bytes words.now)) (map string_bytes words.now) (F.state files.old) }
    requires sink { MayWrite (O.state out.old) }
    requires reads { CanCount (F.state files.old).read_faults }
    requires saves { CanCount (F.state files.old).save_faults }
    requires keys { CanCount (K.state keys.old).faults }

    // What is written, saved and answered is what that call owes.
    ensures owed { Owed (spec.top_call_of (map string_bytes words.now)) (map string_bytes words.now)
        (live_outside (F.state files.old) (O.state out.old) (K.state keys.old) bench.old.machine)
        (live_outside (F.state files.new) (O.state out.new) (K.state keys.new) bench.new.machine) result }

    // The counts of faults never fall.
    ensures reads { (F.state files.old).read_faults ≤ (F.state files.new).read_faults }
    ensures writes { (O.state out.old).faults ≤ (O.state out.new).faults }
    ensures saves { (F.state files.old).save_faults ≤ (F.state files.new).save_faults }
    ensures keys { (K.state keys.old).faults ≤ (K.state keys.new).faults }
{
    let Host { rt, alloc, pace } = *host;
    match top_call_of(words) {
        TopCall::Survey => secvisor_survey(rt, alloc, words, files, out, bench),
        TopCall::Debug => secvisor_debug(rt, alloc, words, files, keys, out),
        TopCall::Live => secvisor_live(rt, alloc, words, files, keys, out, pace, bench),
        TopCall::Snap => secvisor_snap(rt, alloc, words, files, out, bench),
        TopCall::Sweep => secvisor_sweep(rt, alloc, words, files, out, pace),
        TopCall::Shrink => secvisor_shrink(rt, alloc, words, files, out),
        TopCall::Resume => secvisor_resume(rt, alloc, words, files, out, bench),
        TopCall::Show => secvisor_show(alloc, words, files, out),
        TopCall::Others => secvisor(rt, alloc, words, files, out, bench),
    }
}
