// A write that is passed over.

ghost use Rattle.std.specs.Prelude.{◌≡◌, slice_get};
ghost use Rattle.monitor_exits.specs.HwOfSlots.{hw_at};
ghost use Rattle.laws_simulation.specs.HwPassing as spec;

use crate::events::system::System;
use monitor_exits::HartSlot;
use spec_processor::INSTRUCTION_BYTES;
use sv_types::{Rule, Verdict};

// The hart goes on at its next instruction.
fn move_slot_on(slot: &mut HartSlot)
    ensures { hw_at slot.new ≡ spec.hw_at_next (hw_at slot.old) }
{
    slot.hart.core.pc = slot.hart.core.pc.wrapping_add(INSTRUCTION_BYTES);
}

impl System {
    // A hart goes on at its next instruction, and the machine runs.
    fn move_on(&mut self, hart: u8)
        ensures { self.new ≡ spec.hw_moved_on self.old hart (slice_get self.old.harts hart) }
    {
        if hart as usize >= self.hardware.slots.len() {
            return;
        }
        move_slot_on(&mut self.hardware.slots[hart as usize]);
        self.journal.run_on();
    }

    /// Where a write stopped the machine, its hart goes on at the next instruction, and the machine runs. Any other machine stays as
    /// it is.
    #[tactic(auto, unfolding(laws_simulation::specs::HwPassing::hw_passed_over, laws_simulation::specs::HwPassing::hw_passed_under))]
    pub fn pass_over(&mut self)
        ensures { self.new ≡ spec.hw_passed_over self.old }
    {
        match self.journal.verdict() {
            Verdict::Stopped {
                rule: Rule::Write { pc: _, gpa: _ },
                hart,
                turn: _,
            } => self.move_on(hart),
            Verdict::Stopped {
                rule: Rule::Entry { target: _ },
                hart: _,
                turn: _,
            }
            | Verdict::Running
            | Verdict::Shutdown => {}
        }
    }
}
