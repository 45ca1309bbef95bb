// The bytes of harts.

ghost use Rattle.std.specs.Prelude.{◌≡◌, ℕ, ◌++◌, drop, true, OnOk};
ghost use Rattle.std.specs.List.{list_all};
ghost use Rattle.snapshot_format.specs.HartForms.{hart, hart_parts, harts, registers, privilege};
ghost use Rattle.snapshot_format.specs.Typed.{are_registers, is_typed_hart};

use crate::writer::supervisor::write_status;
use crate::writer::values::{write_address, write_bit, write_flag, write_number};
use spec_processor::{Mode, REGISTERS};
use spec_reference::saved_machine::SavedHart;
use std::alloc::AllocError;

pub(crate) fn write_harts(out: &mut Vec<u8>, saved: &[SavedHart]) -> Result<(), AllocError>
    ensures encoded { (ram_pages count : ℕ) → OnOk result (out.new.items ≡ out.old.items ++ (harts ram_pages count).encode saved.now) }
    ensures typed { OnOk result (list_all is_typed_hart saved.now ≡ true) }
{
    'harts: for h in saved {
        write_hart(out, h)?;
    }
    Ok(())
}

#[tactic(auto, unfolding(crate::specs::HartForms::hart, crate::specs::HartForms::multiple_of, crate::specs::HartForms::reservation))]
fn write_hart(out: &mut Vec<u8>, h: &SavedHart) -> Result<(), AllocError>
    ensures encoded { (ram_pages : ℕ) → OnOk result (out.new.items ≡ out.old.items ++ (hart ram_pages).encode h.now) }
    ensures typed { OnOk result (is_typed_hart h.now ≡ true) }
{
    write_privilege(out, h)?;
    write_number(out, h.pc)?;
    write_registers(out, &h.registers)?;
    write_status(out, h)?;
    write_address(out, h.reservation)?;
    write_number(out, h.timer)
}

// Started, mode and entry.
#[tactic(auto, unfolding(crate::specs::HartForms::privilege, crate::specs::HartForms::mode))]
fn write_privilege(out: &mut Vec<u8>, h: &SavedHart) -> Result<(), AllocError>
    ensures { OnOk result (out.new.items ≡ out.old.items ++ privilege.encode (hart_parts h.now).0) }
{
    write_flag(out, h.started)?;
    write_flag(out, h.mode == Mode::User)?;
    write_bit(out, h.entry)
}

// Registers 1 to 31, after register 0.
fn write_registers(out: &mut Vec<u8>, register_file: &[u64; REGISTERS]) -> Result<(), AllocError>
    ensures encoded { OnOk result (out.new.items ≡ out.old.items ++ registers.encode (drop 1 register_file.now)) }
    ensures typed { are_registers register_file.now ≡ true }
{
    let (_zero, values) = register_file.split_at(1);
    write_values(out, values)
}

fn write_values(out: &mut Vec<u8>, values: &[u64]) -> Result<(), AllocError>
    ensures { OnOk result (out.new.items ≡ out.old.items ++ registers.encode values.now) }
{
    'values: for value in values {
        write_number(out, *value)?;
    }
    Ok(())
}
