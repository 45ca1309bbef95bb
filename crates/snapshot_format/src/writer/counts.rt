// The bytes of counts.

ghost use Rattle.std.specs.Prelude.{◌≡◌, ℕ, ◌++◌, OnOk};
ghost use Rattle.snapshot_format.specs.JournalForms.{counts, counts_parts, event_counts, hart_counts, rule_counts};

use crate::writer::values::write_number;
use std::alloc::AllocError;
use sv_types::Counts;

#[tactic(auto, unfolding(crate::specs::JournalForms::counts))]
pub(crate) fn write_counts(out: &mut Vec<u8>, c: &Counts) -> Result<(), AllocError>
    ensures { (events : ℕ) → OnOk result (out.new.items ≡ out.old.items ++ (counts events).encode c.now) }
{
    write_event_counts(out, c)?;
    write_hart_counts(out, c)?;
    write_rule_counts(out, c)
}

#[tactic(auto, unfolding(crate::specs::JournalForms::event_counts, crate::specs::JournalForms::count))]
fn write_event_counts(out: &mut Vec<u8>, c: &Counts) -> Result<(), AllocError>
    ensures { (events : ℕ) → OnOk result (out.new.items ≡ out.old.items ++ (event_counts events).encode (counts_parts c.now).0) }
{
    write_number(out, c.turns)?;
    write_number(out, c.beats)?;
    write_number(out, c.keys)?;
    write_number(out, c.ticks)
}

#[tactic(auto, unfolding(crate::specs::JournalForms::hart_counts, crate::specs::JournalForms::count))]
fn write_hart_counts(out: &mut Vec<u8>, c: &Counts) -> Result<(), AllocError>
    ensures { (events : ℕ) → OnOk result (out.new.items ≡ out.old.items ++ (hart_counts events).encode (counts_parts c.now).1.0) }
{
    write_number(out, c.retired)?;
    write_number(out, c.traps)?;
    write_number(out, c.enters)?;
    write_number(out, c.leaves)?;
    write_number(out, c.demotes)
}

#[tactic(auto, unfolding(crate::specs::JournalForms::rule_counts, crate::specs::JournalForms::count))]
fn write_rule_counts(out: &mut Vec<u8>, c: &Counts) -> Result<(), AllocError>
    ensures { (events : ℕ) → OnOk result (out.new.items ≡ out.old.items ++ (rule_counts events).encode (counts_parts c.now).1.1) }
{
    write_number(out, c.denied)?;
    write_number(out, c.dropped)?;
    write_number(out, c.loads)?;
    write_number(out, c.unloads)?;
    write_number(out, c.refused)?;
    write_number(out, c.notes)
}
