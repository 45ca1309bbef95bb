// The answer to the words of `snap` and `vsnap`.
ghost use Rattle.std.specs.Prelude.{◌≡◌, ◌≢◌, ◌<◌, ◌≤◌, ◌-◌, ◌⊎◌, ℕ, List, [], map, string_bytes, false, IsTrue, None};
ghost use Rattle.std.specs.Result.{is_ok};
ghost use Rattle.sv_types.specs.Limits.{max_events};
ghost use Rattle.spec_reference.specs.Counting.{CountsAtMost};
ghost use Rattle.spec_reference.specs.Run.{run};
ghost use Rattle.spec_reference.specs.States.{State};
ghost use Rattle.spec_hardware.specs.Reaches.{IsNew};
ghost use Rattle.sv_types.specs.Schedule.{first_events};
ghost use Rattle.machine.specs.Console.{MayRun};
ghost use Rattle.machine.specs.Boot.{HasDigests};
ghost use Rattle.machine.specs.Standing.{HasState};
ghost use Rattle.host_io.specs.Outside.{MayWrite, MaySaveUnder};
ghost use Rattle.spec_processor.specs.Counters.{CanCount};
ghost use Rattle.secvisor_cli.specs.Answers.{outside, Writes};
ghost use Rattle.cli_plans.specs.Plans.{run_plan, snap_plan};
ghost use Rattle.cli_plans.specs.Reading.{MayFollow, IsNamed};
ghost use Rattle.secvisor_cli.specs.Ready.{IsFresh};
ghost use Rattle.cli_plans.specs.Words.{run_value};
ghost use Rattle.cli_snap.specs.SnapAnswers.{StandsAfter, SnapsTo, TriesAndSnaps, PerformsSnap, PerformsRun, SnapHeadline};
ghost use Rattle.cli_snap.specs.SnapReady.{HasStarted, out_of};
ghost use Rattle.cli_plans.specs.CommandLine.{snap_judged};

use crate::ready::prepare_snap;
use crate::saving::save_snapshot;
use cli_plans::{Snap, Unread, ask_snap};
use host_io::{Files, Sink, write_all};
use machine::{Machine, run};
use script::Script;
use secvisor_cli::{
    Bench, MeasuredRun, PreparedRun, Status, Stop, Trouble, refuse, status_of_end, try_place,
};
use std::alloc::Global;
use std::thread::Threads;
use sv_types::Digest;

/// Does all that `snap` or `vsnap` does: judges the words, reads the files that they name, runs the machine, writes its console's bytes and
/// no report, and saves the machine as a snapshot.
pub fn secvisor_snap<R: Threads + Sync, F: Files, O: Sink>(
    rt: &R,
    alloc: Global,
    words: &[String],
    files: &mut F,
    out: &mut O,
    bench: &mut Bench,
) -> Status
    // Nothing but what the words name may be asked for, in its order, each part once and up to its limit; and bytes may be saved
    // once under the last of them.
    requires permitted { MayFollow (snap_plan (snap_judged (map string_bytes words.now))) (F.state files.old) }
    requires snapshot { MaySaveUnder (out_of (snap_judged (map string_bytes words.now))) (F.state files.old) }
    requires sink { MayWrite (O.state out.old) }
    requires reads { CanCount (F.state files.old).read_faults }
    requires saves { CanCount (F.state files.old).save_faults }

    // For every file, words and number of events, the console's bytes are those of the reference machine's run, and what is saved
    // is exactly the encoding of a snapshot of its state, with the number of events that were made.
    ensures headline { SnapHeadline (snap_judged (map string_bytes words.now))
        (outside (F.state files.old) (O.state out.old) bench.old.machine)
        (outside (F.state files.new) (O.state out.new) bench.new.machine) result }

    // A read fault is answered only where the files tell that a name of the words isn't held, or the count of reads rose.
    ensures read_fault { result ≡ Status.ReadFault →
        (IsTrue (F.state files.old).tells ×
        ((name : List ℕ) × IsNamed (snap_plan (snap_judged (map string_bytes words.now))) name × ((F.state files.old).held name ≡ None)))
        ⊎ ((F.state files.old).read_faults < (F.state files.new).read_faults) }

    // The counts of faults never fall, and words that are refused read no file.
    ensures reads { (F.state files.old).read_faults ≤ (F.state files.new).read_faults }
    ensures writes { (O.state out.old).faults ≤ (O.state out.new).faults }
    ensures saves { (F.state files.old).save_faults ≤ (F.state files.new).save_faults }
    ensures unread { is_ok (snap_judged (map string_bytes words.now)) ≡ false → F.state files.new ≡ F.state files.old }

    // No name changes but the one that the snapshot is saved under.
    ensures held { (name : List ℕ) → name ≢ out_of (snap_judged (map string_bytes words.now)) → (F.state files.new).held name ≡ (F.state files.old).held name }
{
    status_of_end(answer(rt, alloc, words, files, out, bench))
}

// What the words ask for is carried out, or refused.
fn answer<R: Threads + Sync, F: Files, O: Sink>(
    rt: &R,
    alloc: Global,
    words: &[String],
    files: &mut F,
    out: &mut O,
    bench: &mut Bench,
) -> Result<Status, Trouble>
    requires permitted { MayFollow (snap_plan (snap_judged (map string_bytes words.now))) (F.state files.old) }
    requires snapshot { MaySaveUnder (out_of (snap_judged (map string_bytes words.now))) (F.state files.old) }
    requires sink { MayWrite (O.state out.old) }
    requires reads { CanCount (F.state files.old).read_faults }
    requires saves { CanCount (F.state files.old).save_faults }
    ensures { PerformsSnap (snap_judged (map string_bytes words.now))
        (outside (F.state files.old) (O.state out.old) bench.old.machine)
        (outside (F.state files.new) (O.state out.new) bench.new.machine) result }
{
    match ask_snap(alloc, words) {
        Ok(snap) => answer_snap(rt, alloc, &snap, files, out, bench),
        Err(Unread::Refused(refusal)) => refuse(alloc, &refusal, out),
        Err(Unread::Memory) => Err(Trouble::Memory),
    }
}

// A machine is booted and run, or its parts are refused.
fn answer_snap<R: Threads + Sync, F: Files, O: Sink>(
    rt: &R,
    alloc: Global,
    snap: &Snap<'_>,
    files: &mut F,
    out: &mut O,
    bench: &mut Bench,
) -> Result<Status, Trouble>
    requires permitted { MayFollow (run_plan (run_value snap.now.run)) (F.state files.old) }
    requires snapshot { MaySaveUnder snap.now.out.now (F.state files.old) }
    requires events { snap.now.run.events ≤ max_events }
    requires sink { MayWrite (O.state out.old) }
    requires reads { CanCount (F.state files.old).read_faults }
    requires saves { CanCount (F.state files.old).save_faults }
    ensures { PerformsRun (run_plan (run_value snap.now.run)) snap.now.out.now
        (outside (F.state files.old) (O.state out.old) bench.old.machine)
        (outside (F.state files.new) (O.state out.new) bench.new.machine) result }
{
    match prepare_snap(rt, alloc, &snap.run, files) {
        Ok(booted) => run_on_bench(alloc, booted, snap.out, files, out, bench),
        Err(Stop::Refused(refusal)) => refuse(alloc, &refusal, out),
        Err(Stop::Memory) => Err(Trouble::Memory),
    }
}

// The name is tried, and then the machine is run and saved, and stands on the bench from then on.
fn run_on_bench<F: Files, O: Sink>(
    alloc: Global,
    ready: MeasuredRun<'_>,
    name: &str,
    files: &mut F,
    out: &mut O,
    bench: &mut Bench,
) -> Result<Status, Trouble>
    requires sink { MayWrite (O.state out.old) }
    requires saves { CanCount (F.state files.old).save_faults }
    requires fresh { IsFresh ready.run }
    requires starts { HasStarted ready.run.machine }
    requires digests { HasDigests ready.run.machine ready.digests.items }
    requires snapshot { MaySaveUnder name.now (F.state files.old) }
    ensures { (start : State) → IsNew ready.entry.run.machine start →
        TriesAndSnaps start (first_events ready.entry.run.events ready.entry.run.script) name.now
        (outside (F.state files.old) (O.state out.old) bench.old.machine)
        (outside (F.state files.new) (O.state out.new) bench.new.machine) result }
{
    try_place(Some(name), files)?;
    let PreparedRun {
        mut machine,
        script,
        events,
        ..
    } = ready.run;
    let order = SnapOrder {
        script,
        events,
        digests: ready.digests,
        name,
    };
    let result = run_and_save(alloc, &mut machine, order, files, out);
    bench.machine = Some(machine);
    result
}

// The events that a machine is to make, the first `events` of the script; the digests of its text, ascending, by which it was
// measured; and the name under which its snapshot is saved then.
#[derive(Drop)]
struct SnapOrder<'a> {
    script: Script,
    events: u64,
    digests: Vec<Digest>,
    name: &'a str,
}

// The run of a booted machine, and then its snapshot. Its text is listed before the first event.
fn run_and_save<F: Files, O: Sink>(
    alloc: Global,
    machine: &mut Machine,
    order: SnapOrder<'_>,
    files: &mut F,
    out: &mut O,
) -> Result<Status, Trouble>
    requires sink { MayWrite (O.state out.old) }
    requires saves { CanCount (F.state files.old).save_faults }
    requires events { order.events ≤ max_events }
    requires state { HasState machine.old }
    requires counts { CountsAtMost 0 machine.old.journal.counts }
    requires console { machine.old.journal.printed ≡ [] }
    requires starts { HasStarted machine.old }
    requires digests { HasDigests machine.old order.digests.items }
    requires snapshot { MaySaveUnder order.name.now (F.state files.old) }
    ensures { (start : State) → IsNew machine.old start →
        SnapsTo start (first_events order.entry.events order.entry.script) order.entry.name.now machine.new
        (F.state files.old) (F.state files.new) (O.state out.old) (O.state out.new) result }
{
    let SnapOrder {
        script,
        events,
        digests,
        name,
    } = order;
    let text = machine.text(alloc, &digests)?;
    let status = run_and_print(machine, script, events, out)?;
    save_snapshot(alloc, machine, text, name, files)?;
    Ok(status)
}

// The run of a booted machine, with its console's bytes and nothing else.
fn run_and_print<O: Sink>(
    machine: &mut Machine,
    script: Script,
    events: u64,
    out: &mut O,
) -> Result<Status, Trouble>
    requires { MayRun machine.old events (O.state out.old) }
    ensures writes { (start : State) → IsNew machine.old start →
        Writes Status.Done (run start (first_events events script)).journal.printed (O.state out.old) (O.state out.new) result }
    ensures stands { (start : State) → IsNew machine.old start →
        StandsAfter start (first_events events script) machine.new (O.state out.old) (O.state out.new) result }
{
    run(machine, script, events, out)?;
    write_all(out, machine.printed())?;
    Ok(Status::Done)
}
