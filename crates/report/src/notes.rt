// A line for each note.
ghost use Rattle.std.specs.Prelude.{◌≡◌, ◌++◌, OnOk, IfOk, string_bytes};
ghost use Rattle.std.specs.Fmt.{signed_decimal};
ghost use Rattle.sv_types.specs.declared.event.Note.TheVariants.{Demote, Denied, Load, Unload, Retire};
ghost use Rattle.sv_types.specs.SbiCodes.{code_number};
ghost use Rattle.spec_reference.specs.Report as spec;

use std::alloc::{AllocError, Global};
use sv_types::{Note, SbiCode};
use text_numbers::address_text;

fn code_text(alloc: Global, code: SbiCode) -> Result<String, AllocError>
    ensures { IfOk result (λ t. string_bytes t ≡ signed_decimal (code_number code)) }
{
    let number = code.number();
    format!(in alloc; "{number}")
}

#[tactic(auto, unfolding(spec_reference::specs::Report::note_line))]
fn demote_line(alloc: Global, hart: u8, turn: u64, pc: u64, gpa: u64) -> Result<String, AllocError>
    ensures { IfOk result (λ t. string_bytes t ≡ spec.note_line (Demote hart turn pc gpa)) }
{
    let pc = address_text(alloc, pc)?;
    let gpa = address_text(alloc, gpa)?;
    format!(in alloc; "demote hart {hart} turn {turn} pc {pc} gpa {gpa}\n")
}

#[tactic(auto, unfolding(spec_reference::specs::Report::note_line))]
fn denied_line(alloc: Global, gpa: u64) -> Result<String, AllocError>
    ensures { IfOk result (λ t. string_bytes t ≡ spec.note_line (Denied gpa)) }
{
    let gpa = address_text(alloc, gpa)?;
    format!(in alloc; "denied gpa {gpa}\n")
}

#[tactic(auto, unfolding(spec_reference::specs::Report::note_line))]
fn load_line(
    alloc: Global,
    hart: u8,
    turn: u64,
    id: u64,
    code: SbiCode,
) -> Result<String, AllocError>
    ensures { IfOk result (λ t. string_bytes t ≡ spec.note_line (Load hart turn id code)) }
{
    let code = code_text(alloc, code)?;
    format!(in alloc; "load hart {hart} turn {turn} id {id} code {code}\n")
}

#[tactic(auto, unfolding(spec_reference::specs::Report::note_line))]
fn unload_line(
    alloc: Global,
    hart: u8,
    turn: u64,
    id: u64,
    code: SbiCode,
) -> Result<String, AllocError>
    ensures { IfOk result (λ t. string_bytes t ≡ spec.note_line (Unload hart turn id code)) }
{
    let code = code_text(alloc, code)?;
    format!(in alloc; "unload hart {hart} turn {turn} id {id} code {code}\n")
}

#[tactic(auto, unfolding(spec_reference::specs::Report::note_line))]
fn retire_line(alloc: Global, hart: u8, turn: u64, code: SbiCode) -> Result<String, AllocError>
    ensures { IfOk result (λ t. string_bytes t ≡ spec.note_line (Retire hart turn code)) }
{
    let code = code_text(alloc, code)?;
    format!(in alloc; "retire hart {hart} turn {turn} code {code}\n")
}

/// The line of a note.
pub fn note_line(alloc: Global, note: Note) -> Result<String, AllocError>
    ensures { IfOk result (λ t. string_bytes t ≡ spec.note_line note) }
{
    match note {
        Note::Demote {
            hart,
            turn,
            pc,
            gpa,
        } => demote_line(alloc, hart, turn, pc, gpa),
        Note::Denied { gpa } => denied_line(alloc, gpa),
        Note::Load {
            hart,
            turn,
            id,
            code,
        } => load_line(alloc, hart, turn, id, code),
        Note::Unload {
            hart,
            turn,
            id,
            code,
        } => unload_line(alloc, hart, turn, id, code),
        Note::Retire { hart, turn, code } => retire_line(alloc, hart, turn, code),
    }
}

pub fn push_notes(alloc: Global, text: &mut String, notes: &[Note]) -> Result<(), AllocError>
    ensures { OnOk result (string_bytes text.new ≡ string_bytes text.old ++ spec.note_lines notes.now) }
{
    for note in notes {
        text.push_str(note_line(alloc, *note)?.as_str())?;
    }
    Ok(())
}
