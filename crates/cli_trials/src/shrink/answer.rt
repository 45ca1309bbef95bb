// The answer to the words of `shrink`.
ghost use Rattle.std.specs.Prelude.{◌≡◌, ◌≢◌, ◌<◌, ◌≤◌, ◌-◌, ◌%◌, ◌⊎◌, ℕ, List, [], ◌∷◌, Ok, None, IsTrue, false, length, map, string_bytes};
ghost use Rattle.std.specs.Result.{is_ok};
ghost use Rattle.spec_processor.specs.Counters.{CanCount};
ghost use Rattle.sv_types.specs.Policies.{Rules};
ghost use Rattle.sv_types.specs.Schedule.{first_events};
ghost use Rattle.spec_reference.specs.BlockDisk.{sector_size};
ghost use Rattle.spec_reference.specs.Start.{boot_start};
ghost use Rattle.policy.specs.Text.{rules_of_text};
ghost use Rattle.host_io.specs.Outside.{MayWrite, MaySaveUnder};
ghost use Rattle.cli_plans.specs.CommandLine.{shrink_judged};
ghost use Rattle.cli_plans.specs.Plans.{run_plan, snap_plan};
ghost use Rattle.cli_plans.specs.Reading.{MayFollow, IsNamed};
ghost use Rattle.cli_plans.specs.Words.{IsBlockRun, run_value, snap_value};
ghost use Rattle.secvisor_cli.specs.Answers.{SavesAndWrites};
ghost use Rattle.cli_trials.specs.Orders.{IsAccepted, order_schedule};
ghost use Rattle.cli_trials.specs.ShrinkAnswers.{AnswersRun, AnswersShrunk, MayAsk, Shrinks, ShrinksFiles, ShrinkHeadline, Wants, out_of, script_saving};

use crate::shrink::lines::{shrunk_line, shrunk_status};
use crate::shrink::shrinking::{Script, Shrunk, shrink};
use crate::{Parts, read_parts, refuse, write_text};
use cli_plans::{Snap, Unread, ask_shrink};
use host_io::{Files, Sink, Trouble, status_of_end, write_all};
use secvisor_cli::Stop;
use std::alloc::Global;
use std::thread::Threads;
use sv_types::Status;

/// Does all that `shrink` does: judges the words, reads the files that they name as `run` does, makes the run, and where it stops
/// saves a small script under which it stops so too, and writes a line; or writes the line of the first refusal. It prints no
/// console.
pub fn secvisor_shrink<R: Threads + Sync, F: Files, O: Sink>(
    rt: &R,
    alloc: Global,
    words: &[String],
    files: &mut F,
    out: &mut O,
) -> Status
    // Nothing but what `run` reads may be asked for, in its order, each part once and up to its limit; and bytes may be saved once
    // under the last word.
    requires permitted { MayAsk (shrink_judged (map string_bytes words.now)) (F.state files.old) }
    requires sink { MayWrite (O.state out.old) }
    requires reads { CanCount (F.state files.old).read_faults }
    requires saves { CanCount (F.state files.old).save_faults }

    // For every file and all words: where the reference machine's run stops, the script that is saved reads, and the reference
    // machine's run over its events stops by the same rule, at the same addresses; else nothing is saved; and the line and the
    // status are those of what was made, or of the first refusal.
    ensures headline { ShrinkHeadline (shrink_judged (map string_bytes words.now)) (F.state files.old) (F.state files.new) (O.state out.old)
        (O.state out.new) result }

    // A read fault is answered only where the files tell that a name of the words isn't held, or the count of reads rose.
    ensures read_fault { result ≡ Status.ReadFault →
        (IsTrue (F.state files.old).tells ×
        ((name : List ℕ) × IsNamed (snap_plan (shrink_judged (map string_bytes words.now))) name × ((F.state files.old).held name ≡ None)))
        ⊎ ((F.state files.old).read_faults < (F.state files.new).read_faults) }

    // The counts of faults never fall, and words that are refused read no file.
    ensures reads { (F.state files.old).read_faults ≤ (F.state files.new).read_faults }
    ensures writes { (O.state out.old).faults ≤ (O.state out.new).faults }
    ensures saves { (F.state files.old).save_faults ≤ (F.state files.new).save_faults }
    ensures unread { is_ok (shrink_judged (map string_bytes words.now)) ≡ false → F.state files.new ≡ F.state files.old }

    // No name changes but the one that the script is saved under.
    ensures held { (name : List ℕ) → name ≢ out_of (shrink_judged (map string_bytes words.now)) → (F.state files.new).held name ≡
        (F.state files.old).held name }
{
    status_of_end(answer(rt, alloc, words, files, out))
}

// What the words ask for is carried out, or refused.
fn answer<R: Threads + Sync, F: Files, O: Sink>(
    rt: &R,
    alloc: Global,
    words: &[String],
    files: &mut F,
    out: &mut O,
) -> Result<Status, Trouble>
    requires permitted { MayAsk (shrink_judged (map string_bytes words.now)) (F.state files.old) }
    requires sink { MayWrite (O.state out.old) }
    requires reads { CanCount (F.state files.old).read_faults }
    requires saves { CanCount (F.state files.old).save_faults }
    ensures { Shrinks (shrink_judged (map string_bytes words.now)) (F.state files.old) (F.state files.new) (O.state out.old) (O.state out.new) result }
{
    match ask_shrink(alloc, words) {
        Ok(asked) => shrink_files(rt, alloc, &asked, files, out),
        Err(Unread::Refused(refusal)) => refuse(alloc, &refusal, out),
        Err(Unread::Memory) => Err(Trouble::Memory),
    }
}

// The files are read, and their run is made small; or one of them is refused.
fn shrink_files<R: Threads + Sync, F: Files, O: Sink>(
    rt: &R,
    alloc: Global,
    asked: &Snap<'_>,
    files: &mut F,
    out: &mut O,
) -> Result<Status, Trouble>
    requires permitted { MayFollow (run_plan (run_value asked.now.run)) (F.state files.old) }
    requires script { MaySaveUnder asked.now.out.now (F.state files.old) }
    requires block { IsBlockRun asked.now }
    requires sink { MayWrite (O.state out.old) }
    requires reads { CanCount (F.state files.old).read_faults }
    requires saves { CanCount (F.state files.old).save_faults }
    ensures { ShrinksFiles (snap_value asked.now) (F.state files.old) (F.state files.new) (O.state out.old) (O.state out.new) result }
{
    match read_parts(rt, alloc, &asked.run, files) {
        Ok(parts) => shrink_parts(rt, alloc, asked, &parts, files, out),
        Err(Stop::Refused(refusal)) => refuse(alloc, &refusal, out),
        Err(Stop::Memory) => Err(Trouble::Memory),
    }
}

// The run of files that were judged, so that nothing but memory is left to fail.
fn shrink_parts<R: Threads + Sync, F: Files, O: Sink>(
    rt: &R,
    alloc: Global,
    asked: &Snap<'_>,
    parts: &Parts,
    files: &mut F,
    out: &mut O,
) -> Result<Status, Trouble>
    requires script { MaySaveUnder asked.now.out.now (F.state files.old) }
    requires block { IsBlockRun asked.now }
    requires sectors { length parts.now.disk.items % sector_size ≡ 0 }
    requires accepted { IsAccepted parts.now.order }
    requires sink { MayWrite (O.state out.old) }
    requires saves { CanCount (F.state files.old).save_faults }
    ensures { (rules : Rules) → rules_of_text parts.now.policy.items ≡ Ok rules →
        Wants (F.state files.old) (F.state files.new) (O.state out.old) (O.state out.new) result
        ⊎ AnswersRun (boot_start rules parts.now.image.items parts.now.disk.items)
        (first_events asked.now.run.events (order_schedule rules.harts parts.now.order))
        asked.now.run.events asked.now.out.now (F.state files.old) (F.state files.new) (O.state out.old) (O.state out.new) result }
{
    let order = parts.order.order();
    let run_files = parts.files();
    match shrink(rt, alloc, &run_files, &order, asked.run.events) {
        Ok(shrunk) => answer_shrunk(alloc, &shrunk, asked.out, files, out),
        Err(_) => Err(Trouble::Memory),
    }
}

// What came of a run is saved and written.
fn answer_shrunk<F: Files, O: Sink>(
    alloc: Global,
    shrunk: &Shrunk,
    name: &str,
    files: &mut F,
    out: &mut O,
) -> Result<Status, Trouble>
    requires script { MaySaveUnder name.now (F.state files.old) }
    requires sink { MayWrite (O.state out.old) }
    requires saves { CanCount (F.state files.old).save_faults }
    ensures { Wants (F.state files.old) (F.state files.new) (O.state out.old) (O.state out.new) result
        ⊎ AnswersShrunk name.now shrunk.now (F.state files.old) (F.state files.new) (O.state out.old) (O.state out.new) result }
{
    let line = shrunk_line(alloc, shrunk)?;
    match shrunk {
        Shrunk::Made(script) => save_script(script, name, line.as_str(), files, out),
        Shrunk::NothingStopped => write_text(line.as_str(), shrunk_status(shrunk), out),
    }
}

// A script is saved, and then its line is written.
#[tactic(auto, using(secvisor_cli::proofs::SaveLemmas::saved_exactly, secvisor_cli::proofs::SaveLemmas::broke_exactly))]
fn save_script<F: Files, O: Sink>(
    script: &Script,
    name: &str,
    line: &str,
    files: &mut F,
    out: &mut O,
) -> Result<Status, Trouble>
    requires script { MaySaveUnder name.now (F.state files.old) }
    requires sink { MayWrite (O.state out.old) }
    requires saves { CanCount (F.state files.old).save_faults }
    ensures { SavesAndWrites (script_saving name.now script.now) line.now (F.state files.old) (F.state files.new) (O.state out.old) (O.state out.new) result }
{
    files.save(name, script.text.as_str().as_bytes())?;
    write_all(out, line.as_bytes())?;
    Ok(Status::Done)
}
