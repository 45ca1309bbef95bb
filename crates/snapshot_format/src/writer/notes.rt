// The bytes of notes: a kind, and the fields of each.

ghost use Rattle.std.specs.Prelude.{◌≡◌, ℕ, ◌++◌, true, OnOk};
ghost use Rattle.std.specs.List.{list_all};
ghost use Rattle.sv_types.specs.SbiCodes.{code_word};
ghost use Rattle.snapshot_format.specs.Forms.{encode_number};
ghost use Rattle.snapshot_format.specs.JournalForms.{demote_kind, denied_kind, note_form, notes, retire_kind};
ghost use Rattle.snapshot_format.specs.Typed.{is_typed_note};

use crate::note_kind::{DEMOTE, DENIED, LOAD, RETIRE, UNLOAD};
use crate::writer::values::write_number;
use std::alloc::AllocError;
use sv_types::{Note, SbiCode};

pub(crate) fn write_notes(out: &mut Vec<u8>, kept: &[Note]) -> Result<(), AllocError>
    ensures encoded { (harts all : ℕ) → OnOk result (out.new.items ≡ out.old.items ++ (notes harts all).encode kept.now) }
    ensures typed { OnOk result (list_all is_typed_note kept.now ≡ true) }
{
    write_number(out, kept.len() as u64)?;
    'notes: for n in kept {
        write_note(out, *n)?;
    }
    Ok(())
}

#[tactic(auto, unfolding(crate::proofs::WrittenForms::note_forms))]
fn write_note(out: &mut Vec<u8>, n: Note) -> Result<(), AllocError>
    ensures encoded { (harts : ℕ) → OnOk result (out.new.items ≡ out.old.items ++ (note_form harts).encode n) }
    ensures typed { OnOk result (is_typed_note n ≡ true) }
{
    match n {
        Note::Demote {
            hart,
            turn,
            pc,
            gpa,
        } => write_demote(out, hart, turn, pc, gpa),
        Note::Denied { gpa } => write_denied(out, gpa),
        Note::Load {
            hart,
            turn,
            id,
            code,
        } => write_answer(out, LOAD, hart, turn, id, code),
        Note::Unload {
            hart,
            turn,
            id,
            code,
        } => write_answer(out, UNLOAD, hart, turn, id, code),
        Note::Retire { hart, turn, code } => write_retire(out, hart, turn, code),
    }
}

fn write_demote(out: &mut Vec<u8>, hart: u8, turn: u64, pc: u64, gpa: u64) -> Result<(), AllocError>
    ensures { OnOk result (out.new.items ≡
        out.old.items ++ (encode_number demote_kind ++ (encode_number hart ++ (encode_number turn ++ (encode_number pc ++ encode_number gpa))))) }
{
    write_number(out, DEMOTE)?;
    write_number(out, u64::from(hart))?;
    write_number(out, turn)?;
    write_number(out, pc)?;
    write_number(out, gpa)
}

fn write_denied(out: &mut Vec<u8>, gpa: u64) -> Result<(), AllocError>
    ensures { OnOk result (out.new.items ≡ out.old.items ++ (encode_number denied_kind ++ encode_number gpa)) }
{
    write_number(out, DENIED)?;
    write_number(out, gpa)
}

// The answer to a load or an unload, by its kind.
fn write_answer(
    out: &mut Vec<u8>,
    kind: u64,
    hart: u8,
    turn: u64,
    id: u64,
    code: SbiCode,
) -> Result<(), AllocError>
    ensures { OnOk result (out.new.items ≡
        out.old.items ++ (encode_number kind ++ (encode_number hart ++ (encode_number turn ++ (encode_number id ++ encode_number (code_word code)))))) }
{
    write_number(out, kind)?;
    write_number(out, u64::from(hart))?;
    write_number(out, turn)?;
    write_number(out, id)?;
    write_number(out, code.word())
}

fn write_retire(out: &mut Vec<u8>, hart: u8, turn: u64, code: SbiCode) -> Result<(), AllocError>
    ensures { OnOk result (out.new.items ≡
        out.old.items ++ (encode_number retire_kind ++ (encode_number hart ++ (encode_number turn ++ encode_number (code_word code))))) }
{
    write_number(out, RETIRE)?;
    write_number(out, u64::from(hart))?;
    write_number(out, turn)?;
    write_number(out, code.word())
}
