// What an answer does to a hart: the guest's trap, its return from one, and the end of its stay in kernel mode.

ghost use Rattle.std.specs.Prelude.{◌≡◌, ◌%◌, ℕ};
ghost use Rattle.spec_processor.specs.Traps.{is_interrupt, guest_number};
ghost use Rattle.spec_processor.specs.declared.mode.Mode.TheVariants.{Kernel};
ghost use Rattle.spec_hardware.specs.HwHarts.{hw_trap, hw_return, hw_demote, hw_outside, hw_write_stopped, with_hw};
ghost use Rattle.spec_hardware.specs.Machine.{Machine};
ghost use Rattle.spec_reference.specs.Counting.{MayCount};
ghost use Rattle.spec_reference.specs.States.{Journal as Records};
ghost use Rattle.page_guard.specs.Privileges.{mode_of};
ghost use Rattle.monitor_exits.specs.HwOfSlots.{hw_at};
ghost use Rattle.monitor_exits.specs.Answered.{with_hart};
ghost use Rattle.spec_processor.specs.Bytes.{instruction_size};

use crate::answers::{Trap, demote, return_from_trap, send_again, take_trap};
use crate::slots::HartSlot;
use machine_journal::Journal;
use page_guard::Entries;
use sv_types::Rule;

/// A trap of the guest: it comes to its handler, or, from user mode to a target that isn't permitted, the machine stops.
#[inline(always)]
pub fn guest_trap(
    hart: u8,
    slot: &mut HartSlot,
    entries: &Entries,
    journal: &mut Journal,
    trap: Trap,
)
    requires aligned { slot.old.hart.core.pc % instruction_size ≡ 0 }
    requires counts { MayCount journal.old.counts }
    ensures machine { (m : Machine) → m.rules.entries ≡ entries.now.entries → m.rules.bound ≡ entries.now.bound →
        with_hart m hart (hw_at slot.new) journal.new ≡
        hw_trap (with_hart m hart (hw_at slot.old) journal.old) hart (hw_at slot.old) (mode_of slot.old.privilege) (is_interrupt trap.cause)
        (guest_number trap.cause) trap.tval }
{
    let from = slot.privilege.mode();
    match take_trap(&mut slot.hart, &mut slot.privilege, entries, trap) {
        Ok(()) => journal.count_trap(from),
        Err(forbidden) => journal.stop(
            hart,
            Rule::Entry {
                target: forbidden.target,
            },
        ),
    }
}

/// The guest's return from its trap.
#[tactic(auto, using(crate::proofs::Places::update_there))]
pub fn guest_return(slot: &mut HartSlot, journal: &mut Journal)
    requires kernel { mode_of slot.old.privilege ≡ Kernel }
    requires counts { MayCount journal.old.counts }
    ensures machine { (m : Machine) (h : ℕ) → with_hart m h (hw_at slot.new) journal.new ≡
        hw_return (with_hart m h (hw_at slot.old) journal.old) h (hw_at slot.old) }
{
    return_from_trap(&mut slot.hart, &mut slot.privilege);
    journal.count_return(slot.privilege.mode());
}

/// Kernel mode is left, with a note.
#[tactic(auto, using(crate::proofs::Places::update_there))]
pub fn guest_demotion(hart: u8, slot: &mut HartSlot, journal: &mut Journal, gpa: u64)
    requires counts { MayCount journal.old.counts }
    ensures machine { (m : Machine) → with_hart m hart (hw_at slot.new) journal.new ≡
        hw_demote (with_hart m hart (hw_at slot.old) journal.old) hart (hw_at slot.old) gpa }
{
    journal.demote(hart, slot.hart.core.pc, gpa);
    demote(&mut slot.hart, &mut slot.privilege);
}

/// The entry is left, and nothing else changes, so that the hart attempts the same turn again.
#[tactic(auto, using(crate::proofs::Places::update_there))]
pub fn leave_entry(slot: &mut HartSlot)
    ensures machine { (m : Machine) (h : ℕ) (journal : Records) → with_hart m h (hw_at slot.new) journal ≡
        with_hw (with_hart m h (hw_at slot.old) journal) h hw_outside }
{
    send_again(&mut slot.privilege);
}

/// The machine stops, since a hart was to write a protected page.
pub fn stop_at_write(hart: u8, slot: &HartSlot, journal: &mut Journal, gpa: u64)
    ensures machine { (m : Machine) → with_hart m hart (hw_at slot.now) journal.new ≡
        hw_write_stopped (with_hart m hart (hw_at slot.now) journal.old) hart (hw_at slot.now) gpa }
{
    journal.stop(
        hart,
        Rule::Write {
            pc: slot.hart.core.pc,
            gpa,
        },
    );
}
