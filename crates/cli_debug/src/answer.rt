// The answer to the words of `debug`.
ghost use Rattle.std.specs.Prelude.{◌≡◌, ◌<◌, ◌≤◌, ◌-◌, ◌%◌, ◌⊎◌, ℕ, List, Ok, None, IsTrue, false, length, map, string_bytes};
ghost use Rattle.std.specs.Result.{is_ok};
ghost use Rattle.spec_processor.specs.Counters.{CanCount};
ghost use Rattle.sv_types.specs.Limits.{max_events};
ghost use Rattle.sv_types.specs.Policies.{Rules};
ghost use Rattle.sv_types.specs.Schedule.{first_events};
ghost use Rattle.spec_reference.specs.BlockDisk.{sector_size};
ghost use Rattle.spec_reference.specs.Start.{boot_start};
ghost use Rattle.policy.specs.Text.{rules_of_text};
ghost use Rattle.host_io.specs.Outside.{MayWrite};
ghost use Rattle.cli_plans.specs.CommandLine.{debug_judged};
ghost use Rattle.cli_plans.specs.Plans.{run_plan, survey_plan};
ghost use Rattle.cli_plans.specs.Reading.{MayFollow, IsNamed};
ghost use Rattle.cli_plans.specs.Words.{IsSurveyRun, run_value};
ghost use Rattle.cli_trials.specs.Orders.{IsAccepted, order_schedule};
ghost use Rattle.cli_debug.specs.Debugged.{run_from};
ghost use Rattle.cli_debug.specs.DebugAnswers as spec;

use crate::beginning::FilesBeginning;
use crate::target::debug;
use cli_plans::{Run, Unread, ask_debug};
use cli_trials::{Parts, read_parts, refuse};
use debug_session::Breakdown;
use host_io::{Files, Sink, Trouble, status_of_end};
use live_keys::Keys;
use secvisor_cli::Stop;
use std::alloc::Global;
use std::thread::Threads;
use sv_types::Status;

/// Does all that `debug` does: judges the words, reads the files that they name as `run` does, boots a machine, and serves a
/// debugger: its bytes come in by `keys`, and what is written on them goes out; or writes the line of the first refusal.
pub fn secvisor_debug<R: Threads + Sync, F: Files, K: Keys, O: Sink>(
    rt: &R,
    alloc: Global,
    words: &[String],
    files: &mut F,
    keys: &mut K,
    out: &mut O,
) -> Status
    // Nothing but what `run` reads for the same words may be asked for, in its order, each part once and up to its limit.
    requires permitted { MayFollow (survey_plan (debug_judged (map string_bytes words.now))) (F.state files.old) }
    requires sink { MayWrite (O.state out.old) }
    requires reads { CanCount (F.state files.old).read_faults }
    requires keys { CanCount (K.state keys.old).faults }

    // For every file, all words and all bytes that come in, those that are written are the frames of the answers of a session over
    // the reference machine's run of these files, each from its state after the events that the packets have made; or the line of
    // the first refusal.
    ensures headline { spec.DebugHeadline (debug_judged (map string_bytes words.now)) (F.state files.old) (F.state files.new)
        (spec.wire (K.state keys.old) (O.state out.old)) (spec.wire (K.state keys.new) (O.state out.new)) result }

    // A read fault is answered only where the files tell that a name of the words isn't held, or a count of reads rose: that of
    // the files, or that of the bytes that come in.
    ensures read_fault { result ≡ Status.ReadFault →
        ((IsTrue (F.state files.old).tells ×
        ((name : List ℕ) × IsNamed (survey_plan (debug_judged (map string_bytes words.now))) name × ((F.state files.old).held name ≡ None)))
        ⊎ ((F.state files.old).read_faults < (F.state files.new).read_faults))
        ⊎ ((K.state keys.old).faults < (K.state keys.new).faults) }

    // No file changes, nothing is saved, words that are refused read no file, and the counts of faults never fall.
    ensures same { ((F.state files.new).held ≡ (F.state files.old).held) × ((F.state files.new).save_faults ≡ (F.state files.old).save_faults) }
    ensures unread { is_ok (debug_judged (map string_bytes words.now)) ≡ false → F.state files.new ≡ F.state files.old }
    ensures reads { (F.state files.old).read_faults ≤ (F.state files.new).read_faults }
    ensures writes { (O.state out.old).faults ≤ (O.state out.new).faults }
    ensures keys { (K.state keys.old).faults ≤ (K.state keys.new).faults }
{
    status_of_end(answer(rt, alloc, words, files, keys, out))
}

// What the words ask for is carried out, or refused.
fn answer<R: Threads + Sync, F: Files, K: Keys, O: Sink>(
    rt: &R,
    alloc: Global,
    words: &[String],
    files: &mut F,
    keys: &mut K,
    out: &mut O,
) -> Result<Status, Trouble>
    requires permitted { MayFollow (survey_plan (debug_judged (map string_bytes words.now))) (F.state files.old) }
    requires sink { MayWrite (O.state out.old) }
    requires reads { CanCount (F.state files.old).read_faults }
    requires keys { CanCount (K.state keys.old).faults }
    ensures { spec.AnswersDebug (debug_judged (map string_bytes words.now)) (F.state files.old) (F.state files.new)
        (spec.wire (K.state keys.old) (O.state out.old)) (spec.wire (K.state keys.new) (O.state out.new)) result }
{
    match ask_debug(alloc, words) {
        Ok(asked) => debug_files(rt, alloc, &asked, files, keys, out),
        Err(Unread::Refused(refusal)) => refuse(alloc, &refusal, out),
        Err(Unread::Memory) => Err(Trouble::Memory),
    }
}

// The files are read, and their run is debugged; or one of them is refused.
fn debug_files<R: Threads + Sync, F: Files, K: Keys, O: Sink>(
    rt: &R,
    alloc: Global,
    asked: &Run<'_>,
    files: &mut F,
    keys: &mut K,
    out: &mut O,
) -> Result<Status, Trouble>
    requires permitted { MayFollow (run_plan (run_value asked.now)) (F.state files.old) }
    requires run { IsSurveyRun asked.now }
    requires sink { MayWrite (O.state out.old) }
    requires reads { CanCount (F.state files.old).read_faults }
    requires keys { CanCount (K.state keys.old).faults }
    ensures { spec.DebugsFiles (run_value asked.now) (F.state files.old) (F.state files.new)
        (spec.wire (K.state keys.old) (O.state out.old)) (spec.wire (K.state keys.new) (O.state out.new)) result }
{
    match read_parts(rt, alloc, asked, files) {
        Ok(parts) => debug_parts(rt, alloc, parts, asked.events, keys, out),
        Err(Stop::Refused(refusal)) => refuse(alloc, &refusal, out),
        Err(Stop::Memory) => Err(Trouble::Memory),
    }
}

// The run of files that were judged, so that nothing but memory is left to fail.
fn debug_parts<R: Threads + Sync, K: Keys, O: Sink>(
    rt: &R,
    alloc: Global,
    parts: Parts,
    events: u64,
    keys: &mut K,
    out: &mut O,
) -> Result<Status, Trouble>
    requires sectors { length parts.disk.items % sector_size ≡ 0 }
    requires accepted { IsAccepted parts.order }
    requires few { events ≤ max_events }
    requires sink { MayWrite (O.state out.old) }
    requires keys { CanCount (K.state keys.old).faults }
    ensures { (rules : Rules) → rules_of_text parts.policy.items ≡ Ok rules →
        spec.DebugsRun (run_from parts.image.items (boot_start rules parts.image.items parts.disk.items)
        (first_events events (order_schedule rules.harts parts.order)))
        (spec.wire (K.state keys.old) (O.state out.old)) (spec.wire (K.state keys.new) (O.state out.new)) result }
{
    let beginning = FilesBeginning::new(alloc, parts)?;
    end_of_session(debug(rt, alloc, beginning, events, keys, out))
}

fn end_of_session(served: Result<(), Breakdown>) -> Result<Status, Trouble>
    ensures { result ≡ spec.end_of_session served }
{
    match served {
        Ok(()) => Ok(Status::Done),
        Err(Breakdown::Read) => Ok(Status::ReadFault),
        Err(Breakdown::Write) => Err(Trouble::Write),
        Err(Breakdown::Memory) => Err(Trouble::Memory),
    }
}
