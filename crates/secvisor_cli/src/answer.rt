// The answer to the words.
ghost use Rattle.std.specs.Prelude.{◌≡◌, ◌<◌, ◌≤◌, ◌-◌, ◌⊎◌, ℕ, List, Option, [], ◌∷◌, map, string_bytes, Ok, IsTrue, OnOk, IsErrOf, false};
ghost use Rattle.std.specs.Option.{option_copied};
ghost use Rattle.std.specs.Result.{is_ok};
ghost use Rattle.sv_types.specs.Output.{run_status};
ghost use Rattle.spec_reference.specs.Disk.{disk_bytes};
ghost use Rattle.spec_reference.specs.Report.{output};
ghost use Rattle.spec_reference.specs.Run.{run};
ghost use Rattle.spec_reference.specs.States.{State};
ghost use Rattle.spec_hardware.specs.Reaches.{IsNew};
ghost use Rattle.machine.specs.Console.{MayRun};
ghost use Rattle.machine.specs.Standing.{machine_output};
ghost use Rattle.sv_types.specs.Schedule.{first_events};
ghost use Rattle.cli_plans.specs.Refusals.{refusal_line, refusal_status, takes_memory};
ghost use Rattle.cli_plans.specs.CommandLine.{judgement_of_words};
ghost use Rattle.cli_plans.specs.Words.{command_of, IsInRange};
ghost use Rattle.cli_plans.specs.Plans.{Due, Exactly, RunFrom, command_plan, plan_of};
ghost use Rattle.cli_plans.specs.Reading.{MayFollow, IsNamed, SavesUnder};
ghost use Rattle.secvisor_cli.specs.Ready.{Prepares, IsReady, IsRunnable, MayCarryOut, MaySaveRun};
ghost use Rattle.secvisor_cli.specs.Answers.{outside, Writes, Answers, SavesAndWrites, Performs, RunsTo, RunsAndSaves, Headline};
ghost use Rattle.host_io.specs.Outside.{MayWrite};
ghost use Rattle.spec_processor.specs.Counters.{CanCount};

use crate::converting::prepare_converted;
use crate::flat::prepare_flat;
use crate::generated::prepare_gen;
use crate::image_run::prepare_run;
use crate::making::prepare_policy;
use crate::ready::{Made, PreparedRun, Ready, Stop, run_ready};
use crate::save::{save_disk, try_place};
use cli_plans::{Command, Refusal, ask};
use host_io::{Files, Sink, Trouble, status_of_end, write_all};
use machine::{Machine, run};
use report::{report, status_of};
use script::Script;
use std::alloc::Global;
use std::thread::Threads;
use sv_types::Status;

/// What a run leaves: the machine, where one was booted.
#[derive(Drop)]
pub struct Bench {
    pub machine: Option<Machine>,
}

/// Does all that the program does: judges the words, reads the files that they name, runs the machine and writes the
/// report, or makes a policy, saves it and writes its line.
pub fn secvisor<R: Threads + Sync, F: Files, O: Sink>(
    rt: &R,
    alloc: Global,
    words: &[String],
    files: &mut F,
    out: &mut O,
    bench: &mut Bench,
) -> Status
    // Nothing but what the words name may be asked for, in its order, each part once and up to its limit; and what is due at
    // the end may be saved once.
    requires permitted { MayFollow (plan_of (judgement_of_words (map string_bytes words.now))) (F.state files.old) }
    requires sink { MayWrite (O.state out.old) }
    requires reads { CanCount (F.state files.old).read_faults }
    requires saves { CanCount (F.state files.old).save_faults }

    // For every file, words and number of events the report, the status and the machine are the reference machine's, and a
    // policy that is made is the one that the files ask for: it is saved, and then its line is written.
    ensures headline { Headline (plan_of (judgement_of_words (map string_bytes words.now)))
        (outside (F.state files.old) (O.state out.old) bench.old.machine)
        (outside (F.state files.new) (O.state out.new) bench.new.machine) result }

    // A read fault is answered only where the files tell that a name of the words isn't held, or the count of reads rose.
    ensures read_fault { result ≡ Status.ReadFault →
        (IsTrue (F.state files.old).tells ×
        ((name : List ℕ) × IsNamed (plan_of (judgement_of_words (map string_bytes words.now))) name × ((F.state files.old).held name ≡ None)))
        ⊎ ((F.state files.old).read_faults < (F.state files.new).read_faults) }

    // The counts of faults never fall, and words that are refused read no file.
    ensures reads { (F.state files.old).read_faults ≤ (F.state files.new).read_faults }
    ensures writes { (O.state out.old).faults ≤ (O.state out.new).faults }
    ensures unread { is_ok (judgement_of_words (map string_bytes words.now)) ≡ false → F.state files.new ≡ F.state files.old }

    // No name changes but those under which the plan saves; where it saves none, nothing is saved.
    ensures saves { (F.state files.old).save_faults ≤ (F.state files.new).save_faults }
    ensures held { (name : List ℕ) → (SavesUnder (plan_of (judgement_of_words (map string_bytes words.now))) name → ⊥) →
        (F.state files.new).held name ≡ (F.state files.old).held name }
    ensures unsaved { ((name : List ℕ) → SavesUnder (plan_of (judgement_of_words (map string_bytes words.now))) name → ⊥) →
        ((F.state files.new).held ≡ (F.state files.old).held) × ((F.state files.new).save_faults ≡ (F.state files.old).save_faults) }
{
    status_of_end(answer(rt, alloc, words, files, out, bench))
}

// What the words ask for is made ready and run, or refused.
fn answer<R: Threads + Sync, F: Files, O: Sink>(
    rt: &R,
    alloc: Global,
    words: &[String],
    files: &mut F,
    out: &mut O,
    bench: &mut Bench,
) -> Result<Status, Trouble>
    requires permitted { MayFollow (plan_of (judgement_of_words (map string_bytes words.now))) (F.state files.old) }
    requires sink { MayWrite (O.state out.old) }
    requires reads { CanCount (F.state files.old).read_faults }
    requires saves { CanCount (F.state files.old).save_faults }
    ensures { Performs (plan_of (judgement_of_words (map string_bytes words.now)))
        (outside (F.state files.old) (O.state out.old) bench.old.machine)
        (outside (F.state files.new) (O.state out.new) bench.new.machine) result }
{
    match prepare(rt, alloc, words, files) {
        Ok(ready) => carry_out(alloc, ready, files, out, bench),
        Err(Stop::Refused(refusal)) => refuse(alloc, &refusal, out),
        Err(Stop::Memory) => Err(Trouble::Memory),
    }
}

// The words, judged without memory and then read by their names, and the files that they name.
fn prepare<'a, R: Threads + Sync, F: Files>(
    rt: &R,
    alloc: Global,
    words: &'a [String],
    files: &mut F,
) -> Result<Ready<'a>, Stop>
    requires permitted { MayFollow (plan_of (judgement_of_words (map string_bytes words.now))) (F.state files.old) }
    requires reads { CanCount (F.state files.old).read_faults }
    ensures { Prepares (plan_of (judgement_of_words (map string_bytes words.now))) (F.state files.old) (F.state files.new) result }
{
    let command = ask(alloc, words)?;
    prepare_command(rt, alloc, &command, files)
}

#[tactic(auto, unfolding(cli_plans::specs::Plans::command_plan))]
fn prepare_command<'a, R: Threads + Sync, F: Files>(
    rt: &R,
    alloc: Global,
    command: &Command<'a>,
    files: &mut F,
) -> Result<Ready<'a>, Stop>
    requires permitted { MayFollow (command_plan (command_of command.now)) (F.state files.old) }
    requires reads { CanCount (F.state files.old).read_faults }
    requires range { IsInRange command.now }
    ensures { Prepares (command_plan (command_of command.now)) (F.state files.old) (F.state files.new) result }
{
    match command {
        Command::Flat(flat) => prepare_flat(rt, alloc, flat, files),
        Command::Generated(calls) => prepare_gen(rt, alloc, *calls),
        Command::Run(run) => run_ready(prepare_run(rt, alloc, run, files)),
        Command::MakePolicy(policy) => prepare_policy(rt, alloc, policy, files),
        Command::Convert(convert) => prepare_converted(rt, alloc, convert, files),
    }
}

/// Writes the line of a refusal, and answers its status.
pub fn refuse<O: Sink>(alloc: Global, refusal: &Refusal, out: &mut O) -> Result<Status, Trouble>
    requires sink { MayWrite (O.state out.old) }
    ensures writes { Writes (refusal_status refusal.now) (refusal_line refusal.now) (O.state out.old) (O.state out.new) result }
    ensures wants { IsErrOf result Trouble.Memory → IsTrue (takes_memory refusal.now) }
    ensures quiet { IsErrOf result Trouble.Memory → O.state out.new ≡ O.state out.old }
{
    refusal.write_line(alloc, out)?;
    Ok(refusal.status())
}

// What is ready is run, or saved.
fn carry_out<F: Files, O: Sink>(
    alloc: Global,
    ready: Ready<'_>,
    files: &mut F,
    out: &mut O,
    bench: &mut Bench,
) -> Result<Status, Trouble>
    requires sink { MayWrite (O.state out.old) }
    requires saves { CanCount (F.state files.old).save_faults }
    requires permitted { MayCarryOut ready (F.state files.old) }
    ensures { (due : Due) → IsReady due (Ok ready.entry) → Answers due
        (outside (F.state files.old) (O.state out.old) bench.old.machine)
        (outside (F.state files.new) (O.state out.new) bench.new.machine) result }
{
    match ready {
        Ready::Run(booted) => run_on_bench(alloc, booted, files, out, bench),
        Ready::Save(made) => save_policy(&made, files, out),
    }
}

// A policy is saved, and then its line is written.
#[tactic(auto, using(crate::proofs::SaveLemmas::saved_exactly, crate::proofs::SaveLemmas::broke_exactly))]
fn save_policy<F: Files, O: Sink>(
    made: &Made<'_>,
    files: &mut F,
    out: &mut O,
) -> Result<Status, Trouble>
    requires sink { MayWrite (O.state out.old) }
    requires saves { CanCount (F.state files.old).save_faults }
    requires permitted { IsTrue ((F.state files.old).permits_save ((made.now.name.now, made.now.text.items) ∷ [])) }
    ensures { SavesAndWrites (record { name = made.now.name.now; content = Exactly made.now.text.items }) (string_bytes made.now.line)
        (F.state files.old) (F.state files.new) (O.state out.old) (O.state out.new) result }
{
    files.save(made.name, &made.text)?;
    write_all(out, made.line.as_str().as_bytes())?;
    Ok(Status::Done)
}

/// Runs a machine, writes its report and saves its disk. It stands on the bench from then on. The name for the disk is tried
/// first: where it takes no file, nothing is written and nothing runs.
pub fn run_on_bench<F: Files, O: Sink>(
    alloc: Global,
    ready: PreparedRun<'_>,
    files: &mut F,
    out: &mut O,
    bench: &mut Bench,
) -> Result<Status, Trouble>
    requires sink { MayWrite (O.state out.old) }
    requires saves { CanCount (F.state files.old).save_faults }
    requires runnable { IsRunnable ready }
    requires permitted { MaySaveRun ready.machine (first_events ready.events ready.script) (option_copied ready.save) (F.state files.old) }
    ensures { (start : State) → IsNew ready.entry.machine start →
        Answers (RunFrom start (first_events ready.entry.events ready.entry.script) (option_copied ready.entry.save))
        (outside (F.state files.old) (O.state out.old) bench.old.machine)
        (outside (F.state files.new) (O.state out.new) bench.new.machine) result }
{
    try_place(ready.save, files)?;
    let PreparedRun {
        mut machine,
        script,
        events,
        save,
    } = ready;
    let order = RunOrder {
        script,
        events,
        save,
    };
    let result = run_and_save(alloc, &mut machine, order, files, out);
    bench.machine = Some(machine);
    result
}

// The events that a machine is to make, the first `events` of the script, and the name under which its disk is saved then.
#[derive(Drop)]
struct RunOrder<'a> {
    script: Script,
    events: u64,
    save: Option<&'a str>,
}

// The run of a machine with its report, and then its disk, where it is saved.
fn run_and_save<F: Files, O: Sink>(
    alloc: Global,
    machine: &mut Machine,
    order: RunOrder<'_>,
    files: &mut F,
    out: &mut O,
) -> Result<Status, Trouble>
    requires may { MayRun machine.old order.events (O.state out.old) }
    requires saves { CanCount (F.state files.old).save_faults }
    requires permitted { MaySaveRun machine.old (first_events order.events order.script) (option_copied order.save) (F.state files.old) }
    ensures { (start : State) → IsNew machine.old start →
        RunsAndSaves start (first_events order.entry.events order.entry.script) (option_copied order.entry.save) machine.new
        (F.state files.old) (F.state files.new) (O.state out.old) (O.state out.new) result }
{
    let RunOrder {
        script,
        events,
        save,
    } = order;
    let status = run_and_report(alloc, machine, script, events, out)?;
    save_disk(machine, save, files)?;
    Ok(status)
}

// The run of a machine, and its report.
fn run_and_report<O: Sink>(
    alloc: Global,
    machine: &mut Machine,
    script: Script,
    events: u64,
    out: &mut O,
) -> Result<Status, Trouble>
    requires { MayRun machine.old events (O.state out.old) }
    ensures writes { (start : State) → IsNew machine.old start → let last = run start (first_events events script) in
        Writes (run_status last.journal.verdict) (output last) (O.state out.old) (O.state out.new) result }
    ensures machine { (start : State) → IsNew machine.old start →
        RunsTo (IsErrOf result Trouble.Memory) start (first_events events script) machine.new (O.state out.old) (O.state out.new) }
    ensures disk { OnOk result ((start : State) → IsNew machine.old start →
        disk_bytes machine.new.devices.disk ≡ disk_bytes (run start (first_events events script)).devices.disk) }
{
    run(machine, script, events, out)?;
    finish(alloc, machine, out)
}

/// Writes the rest of the console, and the report. Where memory runs out, nothing is written.
pub fn finish<O: Sink>(alloc: Global, machine: &Machine, out: &mut O) -> Result<Status, Trouble>
    requires sink { MayWrite (O.state out.old) }
    ensures writes { Writes (run_status machine.now.journal.verdict) (machine_output machine.now) (O.state out.old) (O.state out.new) result }
    ensures quiet { IsErrOf result Trouble.Memory → O.state out.new ≡ O.state out.old }
{
    let text = report(
        alloc,
        machine.journal(),
        machine.verdict(),
        &machine.counts(),
    )?;
    write_all(out, machine.printed())?;
    write_all(out, text.as_str().as_bytes())?;
    Ok(status_of(machine.verdict()))
}
