// Events of which the machine has no room to keep the notes: these are set apart, and what is found by them is kept.
ghost use Rattle.std.specs.Prelude.{◌≡◌, ◌≤◌, [], length, replicate, IfOk, OnOk, OnErr, Some, option_map};
ghost use Rattle.sv_types.specs.Limits.{max_notes};
ghost use Rattle.spec_reference.specs.States.{State};
ghost use Rattle.spec_hardware.specs.StandsFor.{StandsFor};
ghost use Rattle.report.specs.Findings.{with_notes};
ghost use Rattle.report.specs.Views.{notes_view};
ghost use Rattle.cli_survey.specs.Advances.{IsRowMade, IsRowTold, MayMakeRow};
ghost use Rattle.cli_survey.specs.Noted.{noted};

use crate::rows::make_few;
use machine::{Machine, Notes};
use report::findings::NotesFound;
use script::EventRun;
use std::alloc::{AllocError, Global};
use sv_types::Note;

// Events of a row while the machine's notes are set apart: it keeps those that it has, and the others are handed out.
#[inline(never)]
fn make_apart(machine: &mut Machine, row: &EventRun, spare: &mut Notes) -> u64
    requires row { MayMakeRow machine.old row.now.count }
    requires full { length machine.old.journal.notes ≡ max_notes }
    requires spare { spare.old ≡ [] }
    ensures made { IsRowMade machine.old row.now.event result machine.new }
    ensures most { result ≤ row.now.count }
    ensures kept { machine.new.journal.notes ≡ machine.old.journal.notes }
    ensures noted { (r : State) → StandsFor machine.old r → spare.new ≡ noted r (replicate result row.now.event) }
{
    machine.swap_notes(spare);
    let made = make_few(machine, row);
    machine.swap_notes(spare);
    made
}

// From here on what is found by all notes is kept.
fn keep_found(
    noted: &mut Option<NotesFound>,
    alloc: Global,
    notes: &[Note],
) -> Result<(), AllocError>
    ensures { OnOk result (noted.new ≡ Some (notes_view noted.old notes.now)) }
{
    if noted.is_none() {
        *noted = Some(NotesFound::of(alloc, notes)?);
    }
    Ok(())
}

fn add_found(noted: &mut Option<NotesFound>, notes: &[Note])
    ensures { noted.new ≡ option_map (λ found. with_notes found notes.now) noted.old }
{
    match noted {
        Some(found) => found.add(notes),
        None => {}
    }
}

// Events of a row, and what is found by their notes. Answers how many were made.
#[inline(never)]
pub(crate) fn make_noted(
    machine: &mut Machine,
    row: &EventRun,
    alloc: Global,
    noted: &mut Option<NotesFound>,
    spare: &mut Notes,
) -> Result<u64, AllocError>
    requires row { MayMakeRow machine.old row.now.count }
    requires full { length machine.old.journal.notes ≡ max_notes }
    requires spare { spare.old ≡ [] }
    ensures row { IfOk result (λ n. IsRowTold machine.old row.now.event row.now.count n machine.new noted.old noted.new) }
    ensures spare { spare.new ≡ [] }
    ensures same { OnErr result (machine.new ≡ machine.old) }
{
    keep_found(noted, alloc, machine.journal())?;
    let made = make_apart(machine, row, spare);
    add_found(noted, spare.items());
    spare.clear();
    Ok(made)
}
