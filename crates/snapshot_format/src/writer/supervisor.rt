// The bytes of a hart's supervisor registers.

ghost use Rattle.std.specs.Prelude.{◌≡◌, ◌++◌, [], ◌∷◌, true, OnOk};
ghost use Rattle.snapshot_format.specs.HartForms.{hart_parts, status, trap_status};
ghost use Rattle.snapshot_format.specs.Typed.{are_words, supervisor_numbers};

use crate::writer::values::write_number;
use spec_reference::saved_machine::SavedHart;
use std::alloc::AllocError;

#[tactic(auto, unfolding(crate::specs::HartForms::status, crate::specs::HartForms::legal))]
pub(crate) fn write_status(out: &mut Vec<u8>, h: &SavedHart) -> Result<(), AllocError>
    ensures encoded { OnOk result (out.new.items ≡ out.old.items ++ status.encode (hart_parts h.now).1.1.1.0) }
    ensures typed { OnOk result (are_words (supervisor_numbers h.now) ≡ true) }
{
    write_number(out, h.sstatus)?;
    write_number(out, h.sie)?;
    write_number(out, h.stvec)?;
    write_number(out, h.scounteren)?;
    write_number(out, h.sscratch)?;
    write_trap_status(out, h)
}

// What a trap writes, the software interrupt and the root of translation.
#[tactic(auto, unfolding(crate::specs::HartForms::trap_status, crate::specs::HartForms::legal))]
fn write_trap_status(out: &mut Vec<u8>, h: &SavedHart) -> Result<(), AllocError>
    ensures encoded { OnOk result (out.new.items ≡ out.old.items ++ trap_status.encode (hart_parts h.now).1.1.1.0.1.1.1.1.1) }
    ensures typed { OnOk result (are_words (h.now.sepc ∷ h.now.scause ∷ h.now.stval ∷ h.now.satp ∷ []) ≡ true) }
{
    write_number(out, h.sepc)?;
    write_number(out, h.scause)?;
    write_number(out, h.stval)?;
    write_number(out, h.sip)?;
    write_number(out, h.satp)
}
