// The answer to the words of `resume`.
ghost use Rattle.std.specs.Prelude.{◌≡◌, ◌<◌, ◌≤◌, ◌-◌, ◌⊎◌, ℕ, List, map, string_bytes, false, IsTrue, None};
ghost use Rattle.std.specs.Result.{is_ok};
ghost use Rattle.sv_types.specs.Limits.{max_events};
ghost use Rattle.host_io.specs.Outside.{MayWrite};
ghost use Rattle.spec_processor.specs.Counters.{CanCount};
ghost use Rattle.secvisor_cli.specs.Answers.{outside, Headline, Performs};
ghost use Rattle.cli_plans.specs.Reading.{MayFollow, IsNamed, SavesUnder};
ghost use Rattle.cli_snap.specs.ResumePlans.{resume_plan, words_plan};
ghost use Rattle.cli_plans.specs.CommandLine.{resume_judged};
ghost use Rattle.cli_plans.specs.Words.{resume_value};

use crate::resume::ready::prepare_resume;
use cli_plans::{Resume, Unread, ask_resume};
use host_io::{Files, Sink};
use secvisor_cli::{Bench, Status, Stop, Trouble, refuse, run_on_bench, status_of_end};
use std::alloc::Global;
use std::thread::Threads;

/// Does all that `resume` does: judges the words, reads the files that they name, and goes on from the snapshot with the events
/// of the script after those that were made before. It writes what the machine prints from then on and the report of the whole
/// run, and saves the disk.
pub fn secvisor_resume<R: Threads + Sync, F: Files, O: Sink>(
    rt: &R,
    alloc: Global,
    words: &[String],
    files: &mut F,
    out: &mut O,
    bench: &mut Bench,
) -> Status
    // Nothing but what the words name may be asked for, in its order, each part once and up to its limit; and what is due at
    // the end may be saved once.
    requires permitted { MayFollow (resume_plan (resume_judged (map string_bytes words.now))) (F.state files.old) }
    requires sink { MayWrite (O.state out.old) }
    requires reads { CanCount (F.state files.old).read_faults }
    requires saves { CanCount (F.state files.old).save_faults }

    // For every file, words and number of events the report, the status, the machine and the saved disk are those of the
    // reference machine's run from the state that the snapshot says, over the events that are left; or else the first refusal
    // is answered.
    ensures headline { Headline (resume_plan (resume_judged (map string_bytes words.now)))
        (outside (F.state files.old) (O.state out.old) bench.old.machine)
        (outside (F.state files.new) (O.state out.new) bench.new.machine) result }

    // A read fault is answered only where the files tell that a name of the words isn't held, or the count of reads rose.
    ensures read_fault { result ≡ Status.ReadFault →
        (IsTrue (F.state files.old).tells ×
        ((name : List ℕ) × IsNamed (resume_plan (resume_judged (map string_bytes words.now))) name × ((F.state files.old).held name ≡ None)))
        ⊎ ((F.state files.old).read_faults < (F.state files.new).read_faults) }

    // The counts of faults never fall, and words that are refused read no file.
    ensures reads { (F.state files.old).read_faults ≤ (F.state files.new).read_faults }
    ensures writes { (O.state out.old).faults ≤ (O.state out.new).faults }
    ensures saves { (F.state files.old).save_faults ≤ (F.state files.new).save_faults }
    ensures unread { is_ok (resume_judged (map string_bytes words.now)) ≡ false → F.state files.new ≡ F.state files.old }

    // No name changes but the one under which the plan saves; where it saves none, nothing is saved.
    ensures held { (name : List ℕ) → (SavesUnder (resume_plan (resume_judged (map string_bytes words.now))) name → ⊥) →
        (F.state files.new).held name ≡ (F.state files.old).held name }
    ensures unsaved { ((name : List ℕ) → SavesUnder (resume_plan (resume_judged (map string_bytes words.now))) name → ⊥) →
        ((F.state files.new).held ≡ (F.state files.old).held) × ((F.state files.new).save_faults ≡ (F.state files.old).save_faults) }
{
    status_of_end(answer(rt, alloc, words, files, out, bench))
}

// What the words ask for is carried out, or refused.
fn answer<R: Threads + Sync, F: Files, O: Sink>(
    rt: &R,
    alloc: Global,
    words: &[String],
    files: &mut F,
    out: &mut O,
    bench: &mut Bench,
) -> Result<Status, Trouble>
    requires permitted { MayFollow (resume_plan (resume_judged (map string_bytes words.now))) (F.state files.old) }
    requires sink { MayWrite (O.state out.old) }
    requires reads { CanCount (F.state files.old).read_faults }
    requires saves { CanCount (F.state files.old).save_faults }
    ensures { Performs (resume_plan (resume_judged (map string_bytes words.now)))
        (outside (F.state files.old) (O.state out.old) bench.old.machine)
        (outside (F.state files.new) (O.state out.new) bench.new.machine) result }
{
    match ask_resume(alloc, words) {
        Ok(resume) => answer_resume(rt, alloc, &resume, files, out, bench),
        Err(Unread::Refused(refusal)) => refuse(alloc, &refusal, out),
        Err(Unread::Memory) => Err(Trouble::Memory),
    }
}

// A machine goes on and is run, or its parts are refused.
fn answer_resume<R: Threads + Sync, F: Files, O: Sink>(
    rt: &R,
    alloc: Global,
    resume: &Resume<'_>,
    files: &mut F,
    out: &mut O,
    bench: &mut Bench,
) -> Result<Status, Trouble>
    requires permitted { MayFollow (words_plan (resume_value resume.now)) (F.state files.old) }
    requires events { resume.now.events ≤ max_events }
    requires sink { MayWrite (O.state out.old) }
    requires reads { CanCount (F.state files.old).read_faults }
    requires saves { CanCount (F.state files.old).save_faults }
    ensures { Performs (words_plan (resume_value resume.now))
        (outside (F.state files.old) (O.state out.old) bench.old.machine)
        (outside (F.state files.new) (O.state out.new) bench.new.machine) result }
{
    match prepare_resume(rt, alloc, resume, files) {
        Ok(booted) => run_on_bench(alloc, booted, files, out, bench),
        Err(Stop::Refused(refusal)) => refuse(alloc, &refusal, out),
        Err(Stop::Memory) => Err(Trouble::Memory),
    }
}
