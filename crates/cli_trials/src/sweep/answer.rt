// The answer to the words of `sweep`.
ghost use Rattle.std.specs.Prelude.{◌≡◌, ◌<◌, ◌≤◌, ◌-◌, ◌%◌, ◌⊎◌, ℕ, List, Ok, None, IsErrOf, IsTrue, false, length, map, string_bytes};
ghost use Rattle.std.specs.Result.{is_ok};
ghost use Rattle.spec_processor.specs.Counters.{CanCount};
ghost use Rattle.sv_types.specs.Policies.{Rules};
ghost use Rattle.spec_reference.specs.BlockDisk.{sector_size};
ghost use Rattle.spec_reference.specs.Start.{boot_start};
ghost use Rattle.policy.specs.Text.{rules_of_text};
ghost use Rattle.host_io.specs.Outside.{MayWrite};
ghost use Rattle.cli_plans.specs.CommandLine.{sweep_judged, first_run};
ghost use Rattle.cli_plans.specs.Plans.{run_plan};
ghost use Rattle.cli_plans.specs.Reading.{MayFollow, IsNamed};
ghost use Rattle.cli_plans.specs.Words.{AreNumbers, run_value, sweep_value};
ghost use Rattle.script_lines.specs.TallyLines as lines;
ghost use Rattle.cli_trials.specs.Writing.{WritesAll};
ghost use Rattle.cli_trials.specs.SweepAnswers.{SweepsFiles, Sweeps, SweepHeadline, MayAsk, entries_due, sweep_plan};

use crate::sweep::progress::Progress;
use crate::sweep::sweeping::{Sweep, sweep_numbers};
use crate::{Parts, read_parts, refuse, write_text};
use cli_plans::{DiskKind, DrawnOrder, Run, Source, Sweep as AskedSweep, Unread, ask_sweep};
use host_io::{Files, Sink, Trouble, status_of_end};
use script_lines::tally::{Tallies, sweep_status, sweep_text};
use secvisor_cli::Stop;
use std::alloc::Global;
use std::thread::Threads;
use sv_types::Status;

/// Does all that `sweep` does: judges the words, reads the files that they name as `run` does, makes the run of each number, and
/// writes how they end, or the line of the first refusal. It prints no console and saves nothing. Each run that ends is counted for
/// who watches.
pub fn secvisor_sweep<R: Threads + Sync, F: Files, O: Sink, P: Progress + Sync>(
    rt: &R,
    alloc: Global,
    words: &[String],
    files: &mut F,
    out: &mut O,
    progress: &P,
) -> Status
    // Nothing but what `run` reads for the first number may be asked for, in its order, each part once and up to its limit.
    requires permitted { MayAsk (sweep_judged (map string_bytes words.now)) (F.state files.old) }
    requires sink { MayWrite (O.state out.old) }
    requires reads { CanCount (F.state files.old).read_faults }

    // For every file and all words, what is written and the status are those of the reference machine's runs, one for each number,
    // whatever the threads; or those of the first refusal.
    ensures headline { SweepHeadline (sweep_judged (map string_bytes words.now)) (F.state files.old) (F.state files.new) (O.state out.old)
        (O.state out.new) result }

    // A read fault is answered only where the files tell that a name of the words isn't held, or the count of reads rose.
    ensures read_fault { result ≡ Status.ReadFault →
        (IsTrue (F.state files.old).tells ×
        ((name : List ℕ) × IsNamed (sweep_plan (sweep_judged (map string_bytes words.now))) name × ((F.state files.old).held name ≡ None)))
        ⊎ ((F.state files.old).read_faults < (F.state files.new).read_faults) }

    // No file changes, nothing is saved, words that are refused read no file, and the counts of faults never fall.
    ensures same { ((F.state files.new).held ≡ (F.state files.old).held) × ((F.state files.new).save_faults ≡ (F.state files.old).save_faults) }
    ensures unread { is_ok (sweep_judged (map string_bytes words.now)) ≡ false → F.state files.new ≡ F.state files.old }
    ensures reads { (F.state files.old).read_faults ≤ (F.state files.new).read_faults }
    ensures writes { (O.state out.old).faults ≤ (O.state out.new).faults }
{
    status_of_end(answer(rt, alloc, words, files, out, progress))
}

// What the words ask for is carried out, or refused.
fn answer<R: Threads + Sync, F: Files, O: Sink, P: Progress + Sync>(
    rt: &R,
    alloc: Global,
    words: &[String],
    files: &mut F,
    out: &mut O,
    progress: &P,
) -> Result<Status, Trouble>
    requires permitted { MayAsk (sweep_judged (map string_bytes words.now)) (F.state files.old) }
    requires sink { MayWrite (O.state out.old) }
    requires reads { CanCount (F.state files.old).read_faults }
    ensures { Sweeps (sweep_judged (map string_bytes words.now)) (F.state files.old) (F.state files.new) (O.state out.old) (O.state out.new) result }
{
    match ask_sweep(alloc, words) {
        Ok(asked) => sweep_files(rt, alloc, &asked, files, out, progress),
        Err(Unread::Refused(refusal)) => refuse(alloc, &refusal, out),
        Err(Unread::Memory) => Err(Trouble::Memory),
    }
}

// The run of the first number.
fn first_run<'a>(asked: &AskedSweep<'a>) -> Run<'a>
    ensures { run_value result ≡ first_run (sweep_value asked.now) }
{
    let script = match asked.order {
        DrawnOrder::Auto => Source::Auto(asked.first),
        DrawnOrder::Bursts => Source::Bursts(asked.first),
    };
    Run {
        kind: DiskKind::Block,
        image: asked.image,
        policy: asked.policy,
        disk: asked.disk,
        script,
        events: asked.events,
        save: None,
    }
}

// The files are read and swept, or one of them is refused.
fn sweep_files<R: Threads + Sync, F: Files, O: Sink, P: Progress + Sync>(
    rt: &R,
    alloc: Global,
    asked: &AskedSweep<'_>,
    files: &mut F,
    out: &mut O,
    progress: &P,
) -> Result<Status, Trouble>
    requires permitted { MayFollow (run_plan (first_run (sweep_value asked.now))) (F.state files.old) }
    requires numbers { AreNumbers asked.now }
    requires sink { MayWrite (O.state out.old) }
    requires reads { CanCount (F.state files.old).read_faults }
    ensures { SweepsFiles (sweep_value asked.now) (F.state files.old) (F.state files.new) (O.state out.old) (O.state out.new) result }
{
    let first = first_run(asked);
    match read_parts(rt, alloc, &first, files) {
        Ok(parts) => sweep_parts(rt, alloc, asked, &parts, out, progress),
        Err(Stop::Refused(refusal)) => refuse(alloc, &refusal, out),
        Err(Stop::Memory) => Err(Trouble::Memory),
    }
}

// The runs of all numbers. Their files were judged before, so that nothing but memory is left to fail.
fn sweep_parts<R: Threads + Sync, O: Sink, P: Progress + Sync>(
    rt: &R,
    alloc: Global,
    asked: &AskedSweep<'_>,
    parts: &Parts,
    out: &mut O,
    progress: &P,
) -> Result<Status, Trouble>
    requires numbers { AreNumbers asked.now }
    requires sectors { length parts.now.disk.items % sector_size ≡ 0 }
    requires sink { MayWrite (O.state out.old) }
    ensures { (rules : Rules) → rules_of_text parts.now.policy.items ≡ Ok rules →
        let entries = entries_due (sweep_value asked.now) (boot_start rules parts.now.image.items parts.now.disk.items) in
        WritesAll (lines.sweep_status entries) (lines.sweep_text entries) (O.state out.old) (O.state out.new) result }
{
    let sweep = Sweep {
        files: parts.files(),
        order: asked.order,
        events: asked.events,
    };
    let (first, count) = (asked.first, asked.count as usize);
    match sweep_numbers(rt, alloc, &sweep, first, count, progress) {
        Ok(tallies) => write_tallies(alloc, &tallies, out),
        Err(_) => Err(Trouble::Memory),
    }
}

fn write_tallies<O: Sink>(alloc: Global, tallies: &Tallies, out: &mut O) -> Result<Status, Trouble>
    requires sink { MayWrite (O.state out.old) }
    ensures { WritesAll (lines.sweep_status tallies.now.entries) (lines.sweep_text tallies.now.entries) (O.state out.old) (O.state out.new) result }
{
    let text = sweep_text(alloc, tallies)?;
    let status = sweep_status(alloc, tallies)?;
    write_text(text.as_str(), status, out)
}
