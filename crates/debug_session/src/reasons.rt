// Why a run stands as it does.
ghost use Rattle.std.specs.Prelude.{◌≡◌, ◌++◌, IfOk, OnOk, string_bytes};
ghost use Rattle.debug_session.specs.Places.{place_line};
ghost use Rattle.debug_session.specs.Reasons as spec;
ghost use Rattle.debug_session.specs.Runs.{Run, state};

use crate::places::{Place, push_named_line, word_of};
use crate::target::Target;
use report::{note_line, verdict_text};
use std::alloc::{AllocError, Global};
use sv_types::{Note, Rule, Verdict};

fn last_of(notes: &[Note]) -> Option<Note>
    ensures { result ≡ spec.last_of notes.now }
{
    notes.last().copied()
}

fn line_of(alloc: Global, note: Option<Note>) -> Result<String, AllocError>
    ensures { IfOk result (λ text. string_bytes text ≡ spec.line_of note) }
{
    match note {
        Some(note) => note_line(alloc, note),
        None => String::from_str(alloc, "nothing is noted\n"),
    }
}

// The last note; the journal keeps the first 4,096.
#[tactic(auto, unfolding(crate::specs::Reasons::noted_text))]
fn noted_text(alloc: Global, notes: &[Note], counted: u64) -> Result<String, AllocError>
    ensures { IfOk result (λ text. string_bytes text ≡ spec.noted_text notes.now counted) }
{
    if counted == notes.len() as u64 {
        line_of(alloc, last_of(notes))
    } else {
        format!(in alloc; "the last note of {counted} isn't kept\n")
    }
}

/// The verdict of a run that has ended, else what was noted last.
pub(crate) fn reason_of(
    alloc: Global,
    verdict: Verdict,
    notes: &[Note],
    counted: u64,
) -> Result<String, AllocError>
    ensures { IfOk result (λ text. string_bytes text ≡ spec.reason_of verdict notes.now counted) }
{
    match verdict {
        Verdict::Running => noted_text(alloc, notes, counted),
        Verdict::Shutdown | Verdict::Stopped { .. } => verdict_text(alloc, verdict),
    }
}

// A line with the name of a place is put at the end, where it has one.
fn push_place<T: Target>(
    alloc: Global,
    out: &mut Vec<u8>,
    target: &T,
    place: Place,
) -> Result<(), AllocError>
    ensures { OnOk result ((run : Run) → T.stands target.now run → out.new.items ≡ out.old.items ++ place_line run.kernel place) }
{
    let name = target.place_name(alloc, place)?;
    push_named_line(out, word_of(place), &name)
}

fn push_write<T: Target>(
    alloc: Global,
    out: &mut Vec<u8>,
    target: &T,
    pc: u64,
    gpa: u64,
) -> Result<(), AllocError>
    ensures { OnOk result ((run : Run) → T.stands target.now run → out.new.items ≡ out.old.items ++ spec.write_names run.kernel pc gpa) }
{
    push_place(alloc, out, target, Place::By(pc))?;
    push_place(alloc, out, target, Place::At(gpa))
}

fn push_rule<T: Target>(
    alloc: Global,
    out: &mut Vec<u8>,
    target: &T,
    rule: Rule,
) -> Result<(), AllocError>
    ensures { OnOk result ((run : Run) → T.stands target.now run → out.new.items ≡ out.old.items ++ spec.rule_names run.kernel rule) }
{
    match rule {
        Rule::Entry { target: place } => push_place(alloc, out, target, Place::To(place)),
        Rule::Write { pc, gpa } => push_write(alloc, out, target, pc, gpa),
    }
}

fn push_note<T: Target>(
    alloc: Global,
    out: &mut Vec<u8>,
    target: &T,
    note: Option<Note>,
) -> Result<(), AllocError>
    ensures { OnOk result ((run : Run) → T.stands target.now run → out.new.items ≡ out.old.items ++ spec.note_names run.kernel note) }
{
    match note {
        Some(Note::Demote { pc, gpa, .. }) => push_write(alloc, out, target, pc, gpa),
        Some(Note::Denied { gpa }) => push_place(alloc, out, target, Place::At(gpa)),
        _ => Ok(()),
    }
}

// The last note, where the journal keeps it.
fn kept_last(notes: &[Note], counted: u64) -> Option<Note>
    ensures { result ≡ spec.kept_last notes.now counted }
{
    if counted == notes.len() as u64 {
        last_of(notes)
    } else {
        None
    }
}

/// The names of the addresses in the reason are put at the end, a line each.
pub(crate) fn push_names<T: Target>(
    alloc: Global,
    out: &mut Vec<u8>,
    target: &T,
) -> Result<(), AllocError>
    ensures { OnOk result ((run : Run) → T.stands target.now run → out.new.items ≡ out.old.items ++ spec.reason_names run.kernel (state run).journal) }
{
    match target.verdict() {
        Verdict::Running => {
            let note = kept_last(target.notes(), target.counts().notes);
            push_note(alloc, out, target, note)
        }
        Verdict::Shutdown => Ok(()),
        Verdict::Stopped { rule, .. } => push_rule(alloc, out, target, rule),
    }
}
