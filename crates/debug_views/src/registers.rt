// Registers.
ghost use Rattle.std.specs.Prelude.{◌≡◌, ◌++◌, ◌*◌, OnOk, flat_map};
ghost use Rattle.spec_processor.specs.Bits.{flag};
ghost use Rattle.debug_views.specs.Looks as spec;

use gdb_protocol::push_digits;
use spec_processor::{EXTERNAL_NUMBER, Lines, REGISTERS, TIMER_NUMBER};
use spec_reference::saved_machine::SavedHart;
use std::alloc::AllocError;

/// The answer to what can't be done.
pub const ERROR: &[u8] = b"E01";

// UXL reads as 2: user mode has 64-bit registers.
const UXL: u64 = 2 << 32;

// The bits of the interrupts that are wires'.
const TIMER: u64 = 1 << TIMER_NUMBER;

const EXTERNAL: u64 = 1 << EXTERNAL_NUMBER;

fn bit_where(is_set: bool, bit: u64) -> u64
    ensures { result ≡ bit * flag is_set }
{
    if is_set { bit } else { 0 }
}

// The pending interrupts that are wires'.
#[tactic(auto, unfolding(crate::specs::Looks::wired))]
fn wired(lines: Lines) -> u64
    ensures { result ≡ spec.wired lines }
{
    bit_where(lines.timer, TIMER) + bit_where(lines.external, EXTERNAL)
}

// The registers after the integer ones, as the guest reads them.
#[tactic(auto, unfolding(crate::specs::Looks::other_registers))]
fn other_registers(hart: &SavedHart, lines: Lines) -> [u64; 12]
    ensures { result ≡ spec.other_registers hart.now lines }
{
    [
        hart.pc,
        hart.sstatus.wrapping_add(UXL),
        hart.sie,
        hart.stvec,
        hart.scounteren,
        hart.sscratch,
        hart.sepc,
        hart.scause,
        hart.stval,
        hart.satp,
        hart.sip.wrapping_add(wired(lines)),
        lines.time,
    ]
}

#[tactic(auto, unfolding(crate::specs::Looks::word_text))]
fn push_word(out: &mut Vec<u8>, number: u64) -> Result<(), AllocError>
    ensures { OnOk result (out.new.items ≡ out.old.items ++ spec.word_text number) }
{
    push_digits(out, &number.to_le_bytes())
}

fn push_words(out: &mut Vec<u8>, numbers: &[u64]) -> Result<(), AllocError>
    ensures { OnOk result (out.new.items ≡ out.old.items ++ flat_map spec.word_text numbers.now) }
{
    'numbers: for number in numbers {
        push_word(out, *number)?;
    }
    Ok(())
}

/// All registers of a hart are put at the end.
#[tactic(auto, unfolding(crate::specs::Looks::registers_text))]
pub fn push_registers(out: &mut Vec<u8>, hart: &SavedHart, lines: Lines) -> Result<(), AllocError>
    ensures { OnOk result (out.new.items ≡ out.old.items ++ spec.registers_text hart.now lines) }
{
    push_words(out, &hart.registers)?;
    push_words(out, &other_registers(hart, lines))
}

fn register_at(hart: &SavedHart, lines: Lines, number: u64) -> Option<u64>
    ensures { result ≡ spec.register_at hart.now lines number }
{
    if number < REGISTERS as u64 {
        hart.registers.get(number as usize).copied()
    } else {
        other_registers(hart, lines)
            .get((number - REGISTERS as u64) as usize)
            .copied()
    }
}

/// One register of a hart is put at the end, or an error where there is none of the number.
#[tactic(auto, unfolding(crate::specs::Looks::register_text))]
pub fn push_register(
    out: &mut Vec<u8>,
    hart: &SavedHart,
    lines: Lines,
    number: u64,
) -> Result<(), AllocError>
    ensures { OnOk result (out.new.items ≡ out.old.items ++ spec.register_text hart.now lines number) }
{
    match register_at(hart, lines, number) {
        Some(value) => push_word(out, value),
        None => out.extend_from_slice(ERROR),
    }
}
