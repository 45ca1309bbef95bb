// The bytes of what a machine recorded: its counts, notes and verdict.

ghost use Rattle.std.specs.Prelude.{◌≡◌, ℕ, ◌++◌, true, OnOk};
ghost use Rattle.std.specs.List.{list_all};
ghost use Rattle.snapshot_format.specs.JournalForms.{journal};
ghost use Rattle.snapshot_format.specs.Typed.{are_words, is_typed_note, verdict_numbers};

use crate::writer::counts::write_counts;
use crate::writer::notes::write_notes;
use crate::writer::verdict::write_verdict;
use spec_reference::saved_machine::Saved;
use std::alloc::AllocError;

#[tactic(auto, unfolding(crate::specs::JournalForms::journal))]
pub(crate) fn write_journal(out: &mut Vec<u8>, machine: &Saved) -> Result<(), AllocError>
    ensures encoded { (events harts : ℕ) →
        OnOk result (out.new.items ≡ out.old.items ++ (journal events harts).encode (machine.now.counts, (machine.now.notes.items, machine.now.verdict))) }
    ensures notes { OnOk result (list_all is_typed_note machine.now.notes.items ≡ true) }
    ensures verdict { OnOk result (are_words (verdict_numbers machine.now.verdict) ≡ true) }
{
    write_counts(out, &machine.counts)?;
    write_notes(out, &machine.notes)?;
    write_verdict(out, machine.verdict)
}
