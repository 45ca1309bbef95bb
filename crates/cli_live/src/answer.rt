// The answer to the words of `live` and `vlive`.
ghost use Rattle.std.specs.Prelude.{◌≡◌, ◌≢◌, ◌<◌, ◌≤◌, ◌-◌, ◌⊎◌, ◌∷◌, ℕ, [], true, false, List, map, string_bytes, Result, Some, None, IsTrue};
ghost use Rattle.std.specs.Result.{is_ok};
ghost use Rattle.sv_types.specs.Limits.{max_events};
ghost use Rattle.sv_types.specs.Schedule.{first_events};
ghost use Rattle.spec_reference.specs.States.{State};
ghost use Rattle.spec_hardware.specs.Reaches.{IsNew};
ghost use Rattle.sv_types.specs.Output.{run_status};
ghost use Rattle.machine.specs.Standing.{machine_output};
ghost use Rattle.cli_live.specs.LiveRuns.{harts_of, events_made, IsUnderWay};
ghost use Rattle.secvisor_cli.specs.Answers.{Writes, AfterSave};
ghost use Rattle.cli_plans.specs.Plans.{Exactly, live_plan};
ghost use Rattle.cli_plans.specs.Reading.{MayFollow, IsNamed};
ghost use Rattle.host_io.specs.declared.trouble.Trouble.{Trouble as Ending};
ghost use Rattle.sv_types.specs.declared.status.Status.{Status as Answer};
ghost use Rattle.cli_plans.specs.CommandLine.{live_judged};
ghost use Rattle.cli_live.specs.LiveReady.{IsLiveFresh, out_of};
ghost use Rattle.cli_live.specs.LiveAnswers.{live_outside, SavesScript, after_reading, is_refusal, Reports, TriesAndRuns, PerformsLive, LiveHeadline};
ghost use Rattle.cli_live.specs.Replays.{LiveLine, live_line, HasEnded, Replays};
ghost use Rattle.host_io.specs.Outside.{MayWrite, MaySaveUnder};
ghost use Rattle.spec_processor.specs.Counters.{CanCount};

use crate::host::Host;
use crate::live_run::LiveRun;
use crate::ready::{LiveReady, prepare_live};
use crate::threads::LiveEnd;
use host_io::{Files, Sink};
use live_keys::{Keys, Pace, journal_text};
use secvisor_cli::{Bench, Status, Stop, Trouble, finish, refuse, status_of_end, try_place};
use std::alloc::Global;
use std::sync::Wait;
use std::thread::Threads;

// The report, and then the script. Where memory runs out, nothing is written.
fn report_and_save<F: Files, O: Sink>(
    alloc: Global,
    live: &LiveRun,
    name: &str,
    files: &mut F,
    out: &mut O,
) -> Result<Status, Trouble>
    requires sink { MayWrite (O.state out.old) }
    requires saves { CanCount (F.state files.old).save_faults }
    requires permitted { MaySaveUnder name.now (F.state files.old) }
    requires way { IsUnderWay live.now }
    requires autos { live.now.journal.autos ≤ max_events }
    ensures { (written : Result Answer Ending) ×
        Writes (run_status live.now.machine.journal.verdict) (machine_output live.now.machine) (O.state out.old) (O.state out.new) written
        × SavesScript (harts_of live.now.script) (events_made live.now) name.now (F.state files.old) (F.state files.new) written result }
{
    let text = journal_text(alloc, &live.journal)?;
    let status = finish(alloc, &live.machine, out)?;
    save_text(name, text.as_str(), files)?;
    Ok(status)
}

#[tactic(auto, using(secvisor_cli::proofs::SaveLemmas::saved_exactly, secvisor_cli::proofs::SaveLemmas::broke_exactly))]
fn save_text<F: Files>(name: &str, text: &str, files: &mut F) -> Result<(), Trouble>
    requires permitted { IsTrue ((F.state files.old).permits_save ((name.now, text.now) ∷ [])) }
    requires count { CanCount (F.state files.old).save_faults }
    ensures { AfterSave (Some (record { name = name.now; content = Exactly text.now })) (F.state files.old) (F.state files.new) result }
{
    Ok(files.save(name, text.as_bytes())?)
}

fn after_reading(failed: bool, saved: Result<Status, Trouble>) -> Result<Status, Trouble>
    ensures { result ≡ after_reading failed saved }
{
    match saved {
        Ok(status) => Ok(if failed { Status::ReadFault } else { status }),
        Err(trouble) => Err(trouble),
    }
}

// The run, its report and its script. After a write that failed nothing more is written.
fn report<F: Files, O: Sink>(
    alloc: Global,
    live: &LiveRun,
    end: LiveEnd,
    name: &str,
    files: &mut F,
    out: &mut O,
) -> Result<Status, Trouble>
    requires sink { end.write_failed ≡ false → MayWrite (O.state out.old) }
    requires saves { CanCount (F.state files.old).save_faults }
    requires permitted { MaySaveUnder name.now (F.state files.old) }
    requires way { IsUnderWay live.now }
    requires autos { live.now.journal.autos ≤ max_events }
    ensures { Reports live.now end name.now (F.state files.old) (F.state files.new) (O.state out.old) (O.state out.new) result }
{
    if end.write_failed {
        return Err(Trouble::Write);
    }
    let saved = report_and_save(alloc, live, name, files, out);
    after_reading(end.read_failed, saved)
}

// The name for the script is tried; what is ready is run, with its keys, and the machine stands on the bench from then on.
fn carry_out<R: Threads + Wait + Sync, F: Files, K: Keys + Send, O: Sink, P: Pace + Sync>(
    host: &Host<'_, R, P>,
    ready: LiveReady<'_>,
    files: &mut F,
    keys: &mut K,
    out: &mut O,
    bench: &mut Bench,
) -> Result<Status, Trouble>
    requires fresh { IsLiveFresh ready }
    requires state { (start : State) × IsNew ready.live.machine start }
    requires sink { MayWrite (O.state out.old) }
    requires reads { CanCount (K.state keys.old).faults }
    requires saves { CanCount (F.state files.old).save_faults }
    requires permitted { MaySaveUnder ready.out.now (F.state files.old) }
    ensures { (start : State) → IsNew ready.entry.live.machine start →
        TriesAndRuns start (first_events ready.entry.live.events ready.entry.live.script) ready.entry.out.now
        (live_outside (F.state files.old) (O.state out.old) (K.state keys.old) bench.old.machine)
        (live_outside (F.state files.new) (O.state out.new) (K.state keys.new) bench.new.machine) result }
{
    try_place(Some(ready.out), files)?;
    let LiveReady {
        mut live,
        source,
        out: name,
    } = ready;
    let end = live.run(host, source, keys, out);
    let result = report(host.alloc, &live, end, name, files, out);
    let LiveRun { machine, .. } = live;
    bench.machine = Some(machine);
    result
}

// What the words ask for is made ready and run, or refused.
fn answer<R: Threads + Wait + Sync, F: Files, K: Keys + Send, O: Sink, P: Pace + Sync>(
    host: &Host<'_, R, P>,
    words: &[String],
    files: &mut F,
    keys: &mut K,
    out: &mut O,
    bench: &mut Bench,
) -> Result<Status, Trouble>
    requires permitted { MayFollow (live_plan (live_judged (map string_bytes words.now))) (F.state files.old) }
    requires script { MaySaveUnder (out_of (live_judged (map string_bytes words.now))) (F.state files.old) }
    requires sink { MayWrite (O.state out.old) }
    requires reads { CanCount (F.state files.old).read_faults }
    requires saves { CanCount (F.state files.old).save_faults }
    requires keys { CanCount (K.state keys.old).faults }
    ensures { PerformsLive (live_judged (map string_bytes words.now))
        (live_outside (F.state files.old) (O.state out.old) (K.state keys.old) bench.old.machine)
        (live_outside (F.state files.new) (O.state out.new) (K.state keys.new) bench.new.machine) result }
{
    match prepare_live(host.rt, host.alloc, words, files) {
        Ok(ready) => carry_out(host, ready, files, keys, out, bench),
        Err(Stop::Refused(refusal)) => refuse(host.alloc, &refusal, out),
        Err(Stop::Memory) => Err(Trouble::Memory),
    }
}

/// Does all that `live` or `vlive` does: judges the words, reads the files that they name, runs the machine while a second thread reads the
/// keys, writes the report, and saves the events as a script. It returns when the keys have ended, too. Each parameter is a
/// thing of its own outside of the program.
pub fn secvisor_live<R: Threads + Wait + Sync, F: Files, K: Keys + Send, O: Sink, P: Pace + Sync>(
    rt: &R,
    alloc: Global,
    words: &[String],
    files: &mut F,
    keys: &mut K,
    out: &mut O,
    pace: &P,
    bench: &mut Bench,
) -> Status
    // Nothing but what the words name may be asked for, in its order, each part once and up to its limit; and one text may be
    // saved under the last of them.
    requires permitted { MayFollow (live_plan (live_judged (map string_bytes words.now))) (F.state files.old) }
    requires script { MaySaveUnder (out_of (live_judged (map string_bytes words.now))) (F.state files.old) }
    requires sink { MayWrite (O.state out.old) }
    requires reads { CanCount (F.state files.old).read_faults }
    requires saves { CanCount (F.state files.old).save_faults }
    requires keys { CanCount (K.state keys.old).faults }
    // For every file, words, number of events and keys, and however the threads run, there is one list of events of which all that
    // was written and saved is.
    ensures headline { LiveHeadline (live_judged (map string_bytes words.now))
        (live_outside (F.state files.old) (O.state out.old) (K.state keys.old) bench.old.machine)
        (live_outside (F.state files.new) (O.state out.new) (K.state keys.new) bench.new.machine) result }

    // Where a run came to its end, `run`, or `vrun` after `vlive`, over what was saved is due the same bytes, status and disk.
    ensures replay { (line : LiveLine) → map string_bytes words.now ≡ live_line line → HasEnded result (K.state keys.old) (K.state keys.new) →
        Replays line
        (live_outside (F.state files.old) (O.state out.old) (K.state keys.old) bench.old.machine)
        (live_outside (F.state files.new) (O.state out.new) (K.state keys.new) bench.new.machine) result }

    // A read fault is answered only where the files tell that a name of the words isn't held, or a count of reads rose: that of
    // the files, or that of the keys.
    ensures read_fault { result ≡ Status.ReadFault →
        ((IsTrue (F.state files.old).tells × ((name : List ℕ) × IsNamed (live_plan (live_judged (map string_bytes words.now))) name ×
        ((F.state files.old).held name ≡ None)))
        ⊎ ((F.state files.old).read_faults < (F.state files.new).read_faults))
        ⊎ ((K.state keys.old).faults < (K.state keys.new).faults) }

    // The counts of faults never fall.
    ensures reads { (F.state files.old).read_faults ≤ (F.state files.new).read_faults }
    ensures writes { (O.state out.old).faults ≤ (O.state out.new).faults }
    ensures saves { (F.state files.old).save_faults ≤ (F.state files.new).save_faults }
    ensures keys { (K.state keys.old).faults ≤ (K.state keys.new).faults }

    // Words that are refused read no file, and no refusal reads a key.
    ensures unread { is_ok (live_judged (map string_bytes words.now)) ≡ false → F.state files.new ≡ F.state files.old }
    ensures unasked { is_refusal result ≡ true → K.state keys.new ≡ K.state keys.old }

    // No name changes but the one that the script is saved under; and of a refusal, or where memory ran out, nothing is saved.
    ensures held { (name : List ℕ) → name ≢ out_of (live_judged (map string_bytes words.now)) → (F.state files.new).held name ≡ (F.state files.old).held name }
    ensures unsaved { (is_refusal result ≡ true) ⊎ (result ≡ Status.Memory) →
        ((F.state files.new).held ≡ (F.state files.old).held) × ((F.state files.new).save_faults ≡ (F.state files.old).save_faults) }
{
    let host = Host { rt, alloc, pace };
    status_of_end(answer(&host, words, files, keys, out, bench))
}
