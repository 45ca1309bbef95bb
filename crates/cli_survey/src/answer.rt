// The answer to the words of `survey`.
ghost use Rattle.std.specs.Prelude.{◌≡◌, ◌<◌, ◌≤◌, ◌-◌, ◌⊎◌, ℕ, List, None, IsTrue, map, string_bytes, false};
ghost use Rattle.std.specs.Result.{is_ok};
ghost use Rattle.spec_processor.specs.Counters.{CanCount};
ghost use Rattle.sv_types.specs.Schedule.{first_events};
ghost use Rattle.spec_reference.specs.Start.{IsStart};
ghost use Rattle.spec_reference.specs.States.{State};
ghost use Rattle.spec_hardware.specs.Reaches.{IsNew};
ghost use Rattle.host_io.specs.Outside.{FilesState, MayWrite};
ghost use Rattle.machine.specs.Console.{MayRun};
ghost use Rattle.cli_plans.specs.CommandLine.{survey_judged};
ghost use Rattle.cli_plans.specs.Plans.{run_plan, survey_plan};
ghost use Rattle.cli_plans.specs.Reading.{IsNamed, MayFollow};
ghost use Rattle.cli_plans.specs.Words.{IsSurveyRun, run_value};
ghost use Rattle.secvisor_cli.specs.Answers.{outside};
ghost use Rattle.secvisor_cli.specs.Ready.{IsFresh};
ghost use Rattle.cli_survey.specs.SurveyAnswers.{IsAtStart, PerformsRun, PerformsSurvey, RunsSurvey, SurveyHeadline, SurveysTo};

use crate::ending::finish;
use crate::ready::{KernelFile, ReadySurvey, prepare_survey};
use crate::surveying::survey;
use cli_plans::{Run, Unread, ask_survey};
use host_io::{Files, Sink};
use machine::Machine;
use report::findings::nothing_found;
use script::Script;
use secvisor_cli::{Bench, Status, Stop, Trouble, refuse, status_of_end};
use std::alloc::Global;
use std::thread::Threads;

/// Does all that `survey` does: judges the words, reads the files that they name as `run` does, runs the machine past each write
/// that would stop it, and writes its console, the lines of what was found, and the report.
pub fn secvisor_survey<R: Threads + Sync, F: Files, O: Sink>(
    rt: &R,
    alloc: Global,
    words: &[String],
    files: &mut F,
    out: &mut O,
    bench: &mut Bench,
) -> Status
    // Nothing but what `run` reads for the same words may be asked for, in its order, each part once and up to its limit.
    requires permitted { MayFollow (survey_plan (survey_judged (map string_bytes words.now))) (F.state files.old) }
    requires sink { MayWrite (O.state out.old) }
    requires reads { CanCount (F.state files.old).read_faults }

    // For every file, words and number of events, the console's bytes, the lines, the report and the status are those of the
    // reference machine's survey; or those of the first refusal.
    ensures headline { SurveyHeadline (survey_judged (map string_bytes words.now))
        (outside (F.state files.old) (O.state out.old) bench.old.machine)
        (outside (F.state files.new) (O.state out.new) bench.new.machine) result }

    // A read fault is answered only where the files tell that a name of the words isn't held, or the count of reads rose.
    ensures read_fault { result ≡ Status.ReadFault →
        (IsTrue (F.state files.old).tells ×
        ((name : List ℕ) × IsNamed (survey_plan (survey_judged (map string_bytes words.now))) name × ((F.state files.old).held name ≡ None)))
        ⊎ ((F.state files.old).read_faults < (F.state files.new).read_faults) }

    // No file changes, nothing is saved, words that are refused read no file, and the counts of faults never fall.
    ensures same { ((F.state files.new).held ≡ (F.state files.old).held) × ((F.state files.new).save_faults ≡ (F.state files.old).save_faults) }
    ensures unread { is_ok (survey_judged (map string_bytes words.now)) ≡ false → F.state files.new ≡ F.state files.old }
    ensures reads { (F.state files.old).read_faults ≤ (F.state files.new).read_faults }
    ensures writes { (O.state out.old).faults ≤ (O.state out.new).faults }
{
    status_of_end(answer(rt, alloc, words, files, out, bench))
}

// What the words ask for is carried out, or refused.
fn answer<R: Threads + Sync, F: Files, O: Sink>(
    rt: &R,
    alloc: Global,
    words: &[String],
    files: &mut F,
    out: &mut O,
    bench: &mut Bench,
) -> Result<Status, Trouble>
    requires permitted { MayFollow (survey_plan (survey_judged (map string_bytes words.now))) (F.state files.old) }
    requires sink { MayWrite (O.state out.old) }
    requires reads { CanCount (F.state files.old).read_faults }
    ensures { PerformsSurvey (survey_judged (map string_bytes words.now))
        (outside (F.state files.old) (O.state out.old) bench.old.machine)
        (outside (F.state files.new) (O.state out.new) bench.new.machine) result }
{
    match ask_survey(alloc, words) {
        Ok(asked) => survey_files(rt, alloc, &asked, files, out, bench),
        Err(Unread::Refused(refusal)) => refuse(alloc, &refusal, out),
        Err(Unread::Memory) => Err(Trouble::Memory),
    }
}

// A machine is booted and surveyed, or its parts are refused.
fn survey_files<R: Threads + Sync, F: Files, O: Sink>(
    rt: &R,
    alloc: Global,
    asked: &Run<'_>,
    files: &mut F,
    out: &mut O,
    bench: &mut Bench,
) -> Result<Status, Trouble>
    requires permitted { MayFollow (run_plan (run_value asked.now)) (F.state files.old) }
    requires run { IsSurveyRun asked.now }
    requires sink { MayWrite (O.state out.old) }
    requires reads { CanCount (F.state files.old).read_faults }
    ensures { PerformsRun (run_value asked.now)
        (outside (F.state files.old) (O.state out.old) bench.old.machine)
        (outside (F.state files.new) (O.state out.new) bench.new.machine) result }
{
    match prepare_survey(rt, alloc, asked, files) {
        Ok(ready) => survey_on_bench(alloc, ready, out, bench),
        Err(Stop::Refused(refusal)) => refuse(alloc, &refusal, out),
        Err(Stop::Memory) => Err(Trouble::Memory),
    }
}

// The machine is surveyed, and stands on the bench from then on.
fn survey_on_bench<O: Sink>(
    alloc: Global,
    ready: ReadySurvey<'_>,
    out: &mut O,
    bench: &mut Bench,
) -> Result<Status, Trouble>
    requires sink { MayWrite (O.state out.old) }
    requires fresh { IsFresh ready.booted }
    requires starts { IsAtStart ready.booted.machine }
    ensures { (start : State) (files : FilesState) → IsNew ready.entry.booted.machine start → IsStart start →
        RunsSurvey ready.entry.kernel.bytes.items start (first_events ready.entry.booted.events ready.entry.booted.script)
        (outside files (O.state out.old) bench.old.machine) (outside files (O.state out.new) bench.new.machine) result }
{
    let ReadySurvey { booted, kernel } = ready;
    let mut machine = booted.machine;
    let result = survey_and_report(
        alloc,
        &mut machine,
        booted.script,
        booted.events,
        &kernel,
        out,
    );
    bench.machine = Some(machine);
    result
}

// The survey of a machine, what it found, and its report.
fn survey_and_report<O: Sink>(
    alloc: Global,
    machine: &mut Machine,
    script: Script,
    events: u64,
    kernel: &KernelFile,
    out: &mut O,
) -> Result<Status, Trouble>
    requires may { MayRun machine.old events (O.state out.old) }
    requires starts { IsAtStart machine.old }
    ensures { (start : State) → IsNew machine.old start → IsStart start →
        SurveysTo kernel.now.bytes.items start (first_events events script) machine.new (O.state out.old) (O.state out.new) result }
{
    let mut found = nothing_found(alloc);
    survey(machine, script, events, &mut found, out)?;
    finish(alloc, machine, &found, kernel, out)
}
