// The bytes of notes: a kind, and the fields of each.

ghost use Rattle.std.specs.Prelude.{◌≡◌, [], Some, None, if◌then◌else◌};
ghost use Rattle.snapshot_format.specs.Forms.{list_form};
ghost use Rattle.snapshot_format.specs.JournalForms.{answer, code, codes_known, demote_form, denied_note, found_among, is_among, load_note};
ghost use Rattle.snapshot_format.specs.JournalForms.{note_form, note_after, notes, retire, unload};
ghost use Rattle.snapshot_format.specs.Reading.{Gives, Reads};

use crate::SnapRefusal;
use crate::note_kind::{DEMOTE, DENIED, LOAD, RETIRE, UNLOAD};
use crate::reader::read_error::ReadError;
use crate::reader::row::{Range, read_row};
use crate::reader::values::read_number;
use std::alloc::Global;
use sv_types::{MAX_NOTES, Note, SbiCode};

// The first 4,096, or all of them.
#[tactic(auto, unfolding(crate::specs::JournalForms::notes))]
pub(crate) fn read_notes(
    alloc: Global,
    bytes: &[u8],
    harts: u8,
    all: u64,
) -> Result<(Vec<Note>, &[u8]), ReadError>
    ensures { Reads (λ x. (x.0.items, x.1.now)) result ((notes harts all).taken bytes.now) }
{
    let (count, rest) = read_number(bytes)?;
    if count != (MAX_NOTES as u64).min(all) {
        return Err(ReadError::Refused(SnapRefusal::OutOfRange));
    }
    read_kept(alloc, rest, count, harts)
}

fn read_kept(
    alloc: Global,
    bytes: &[u8],
    count: u64,
    harts: u8,
) -> Result<(Vec<Note>, &[u8]), ReadError>
    ensures { Reads (λ x. (x.0.items, x.1.now)) result ((list_form (λ before. note_form harts) [] count).taken bytes.now) }
{
    let mut read = Vec::new(alloc);
    let mut rest = bytes;
    'notes: for _ in 0..count {
        let (kept, after) = read_note(rest, harts)?;
        read.push(kept)?;
        rest = after;
    }
    Ok((read, rest))
}

#[tactic(auto, unfolding(crate::specs::JournalForms::note_form))]
fn read_note(bytes: &[u8], harts: u8) -> Result<(Note, &[u8]), SnapRefusal>
    ensures { Gives (λ x. (x.0, x.1.now)) result ((note_form harts).taken bytes.now) }
{
    let (kind, rest) = read_number(bytes)?;
    if kind < DEMOTE || RETIRE < kind {
        return Err(SnapRefusal::OutOfRange);
    }
    read_note_after(rest, harts, kind)
}

// The fields after a kind.
#[tactic(auto, unfolding(crate::specs::JournalForms::note_after, crate::specs::JournalForms::denied_note))]
fn read_note_after(bytes: &[u8], harts: u8, kind: u64) -> Result<(Note, &[u8]), SnapRefusal>
    ensures { Gives (λ x. (x.0, x.1.now)) result ((note_after harts kind).taken bytes.now) }
{
    if kind == DEMOTE {
        read_demote(bytes, harts)
    } else if kind == DENIED {
        read_denied(bytes)
    } else if kind == LOAD {
        read_load_note(bytes, harts)
    } else if kind == UNLOAD {
        read_unload(bytes, harts)
    } else {
        read_retire(bytes, harts)
    }
}

fn read_demote(bytes: &[u8], harts: u8) -> Result<(Note, &[u8]), SnapRefusal>
    ensures { Gives (λ x. (x.0, x.1.now)) result ((demote_form harts).taken bytes.now) }
{
    let ranges = [
        Range::Below(u64::from(harts)),
        Range::Any,
        Range::InstructionPlace,
        Range::Any,
    ];
    let ([hart, turn, pc, gpa], rest) = read_row(bytes, ranges)?;
    Ok((
        Note::Demote {
            hart: hart as u8,
            turn,
            pc,
            gpa,
        },
        rest,
    ))
}

#[tactic(auto, unfolding(crate::specs::JournalForms::denied_note))]
fn read_denied(bytes: &[u8]) -> Result<(Note, &[u8]), SnapRefusal>
    ensures { Gives (λ x. (x.0, x.1.now)) result (denied_note.taken bytes.now) }
{
    let (gpa, rest) = read_number(bytes)?;
    Ok((Note::Denied { gpa }, rest))
}

#[tactic(auto, unfolding(crate::specs::JournalForms::load_note))]
fn read_load_note(bytes: &[u8], harts: u8) -> Result<(Note, &[u8]), SnapRefusal>
    ensures { Gives (λ x. (x.0, x.1.now)) result ((load_note harts).taken bytes.now) }
{
    let ((hart, turn, id, code), rest) = read_answer(bytes, harts)?;
    Ok((
        Note::Load {
            hart,
            turn,
            id,
            code,
        },
        rest,
    ))
}

#[tactic(auto, unfolding(crate::specs::JournalForms::unload))]
fn read_unload(bytes: &[u8], harts: u8) -> Result<(Note, &[u8]), SnapRefusal>
    ensures { Gives (λ x. (x.0, x.1.now)) result ((unload harts).taken bytes.now) }
{
    let ((hart, turn, id, code), rest) = read_answer(bytes, harts)?;
    Ok((
        Note::Unload {
            hart,
            turn,
            id,
            code,
        },
        rest,
    ))
}

fn read_retire(bytes: &[u8], harts: u8) -> Result<(Note, &[u8]), SnapRefusal>
    ensures { Gives (λ x. (x.0, x.1.now)) result ((retire harts).taken bytes.now) }
{
    let ranges = [Range::Below(u64::from(harts)), Range::Any];
    let ([hart, turn], rest) = read_row(bytes, ranges)?;
    let (code, rest) = read_code(rest)?;
    Ok((
        Note::Retire {
            hart: hart as u8,
            turn,
            code,
        },
        rest,
    ))
}

// The answer to a load or an unload: hart, turn, module and code.
fn read_answer(bytes: &[u8], harts: u8) -> Result<((u8, u64, u64, SbiCode), &[u8]), SnapRefusal>
    ensures { Gives (λ x. ((x.0.0, (x.0.1, (x.0.2, x.0.3))), x.1.now)) result ((answer harts).taken bytes.now) }
{
    let ranges = [Range::Below(u64::from(harts)), Range::Any, Range::Any];
    let ([hart, turn, id], rest) = read_row(bytes, ranges)?;
    let (code, rest) = read_code(rest)?;
    Ok(((hart as u8, turn, id, code), rest))
}

#[tactic(auto, unfolding(crate::specs::JournalForms::code))]
fn read_code(bytes: &[u8]) -> Result<(SbiCode, &[u8]), SnapRefusal>
    ensures { Gives (λ x. (x.0, x.1.now)) result (code.taken bytes.now) }
{
    let (word, rest) = read_number(bytes)?;
    match code_of(word) {
        Some(code) => Ok((code, rest)),
        None => Err(SnapRefusal::OutOfRange),
    }
}

// The code that a register holds so.
#[tactic(auto, unfolding(crate::specs::JournalForms::is_among, crate::specs::JournalForms::found_among))]
fn code_of(word: u64) -> Option<SbiCode>
    ensures { result ≡ (if is_among codes_known word then Some (found_among codes_known word) else None) }
{
    if word == SbiCode::Success.word() {
        Some(SbiCode::Success)
    } else if word == SbiCode::NoInput.word() {
        Some(SbiCode::NoInput)
    } else if word == SbiCode::NotSupported.word() {
        Some(SbiCode::NotSupported)
    } else if word == SbiCode::InvalidParameter.word() {
        Some(SbiCode::InvalidParameter)
    } else if word == SbiCode::RefusedByMeasure.word() {
        Some(SbiCode::RefusedByMeasure)
    } else if word == SbiCode::InvalidAddress.word() {
        Some(SbiCode::InvalidAddress)
    } else if word == SbiCode::Already.word() {
        Some(SbiCode::Already)
    } else if word == SbiCode::PendingLoad.word() {
        Some(SbiCode::PendingLoad)
    } else {
        None
    }
}
