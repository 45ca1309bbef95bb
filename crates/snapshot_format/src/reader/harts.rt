// The bytes of harts.

ghost use Rattle.std.specs.Prelude.{◌≡◌, ◌∷◌, drop, length, not, IfOk, ◌&&◌, ◌||◌, ◌==◌};
ghost use Rattle.snapshot_format.specs.HartForms.{hart, harts, is_user, mode, place_number, registers, reservation, privilege};
ghost use Rattle.snapshot_format.specs.Reading.{Gives, Reads};

use crate::SnapRefusal;
use crate::reader::read_error::ReadError;
use crate::reader::supervisor::read_status;
use crate::reader::values::{read_flag, read_number, read_pc, read_place};
use spec_processor::{Mode, PAGE_BYTES, REGISTERS, RESERVED_BYTES, is_in_ram};
use spec_reference::saved_machine::SavedHart;
use std::alloc::Global;

/// So many harts.
pub(crate) fn read_harts(
    alloc: Global,
    bytes: &[u8],
    ram_pages: u32,
    count: u8,
) -> Result<(Vec<SavedHart>, &[u8]), ReadError>
    ensures harts { Reads (λ x. (x.0.items, x.1.now)) result ((harts ram_pages count).taken bytes.now) }
    ensures number { IfOk result (λ x. length x.0.items ≡ count) }
{
    let mut read = Vec::new(alloc);
    let mut rest = bytes;
    'harts: for _ in 0..count {
        let (hart, after) = read_hart(rest, ram_pages)?;
        read.push(hart)?;
        rest = after;
    }
    Ok((read, rest))
}

#[tactic(auto, unfolding(crate::specs::HartForms::hart))]
fn read_hart(bytes: &[u8], ram_pages: u32) -> Result<(SavedHart, &[u8]), SnapRefusal>
    ensures { Gives (λ x. (x.0, x.1.now)) result ((hart ram_pages).taken bytes.now) }
{
    let ((started, mode, entry), rest) = read_privilege(bytes)?;
    let (pc, rest) = read_pc(rest)?;
    let (registers, rest) = read_registers(rest)?;
    let (status, rest) = read_status(rest)?;
    let (reservation, rest) = read_reservation(rest, ram_pages)?;
    let (timer, rest) = read_number(rest)?;
    let [
        sstatus,
        sie,
        stvec,
        scounteren,
        sscratch,
        sepc,
        scause,
        stval,
        sip,
        satp,
    ] = status;
    let hart = SavedHart {
        started,
        mode,
        pc,
        registers,
        sstatus,
        sie,
        stvec,
        scounteren,
        sscratch,
        sepc,
        scause,
        stval,
        sip,
        satp,
        reservation,
        entry,
        timer,
    };
    Ok((hart, rest))
}

// Started, mode and entry.
#[tactic(auto, unfolding(crate::specs::HartForms::privilege))]
fn read_privilege(bytes: &[u8]) -> Result<((bool, Mode, Option<u8>), &[u8]), SnapRefusal>
    ensures { Gives (λ x. ((x.0.0, (x.0.1, x.0.2)), x.1.now)) result (privilege.taken bytes.now) }
{
    let (started, rest) = read_flag(bytes)?;
    let (mode, rest) = read_mode(rest)?;
    if !may_have_mode(started, mode) {
        return Err(SnapRefusal::OutOfRange);
    }
    let (entry, rest) = read_place(rest)?;
    if !may_have_entry(started, mode, entry) {
        return Err(SnapRefusal::OutOfRange);
    }
    Ok(((started, mode, entry), rest))
}

// A stopped hart is in kernel mode.
fn may_have_mode(started: bool, mode: Mode) -> bool
    ensures { result ≡ (started || not (is_user mode)) }
{
    started || mode == Mode::Kernel
}

// A hart that is stopped or in user mode is in no entry.
fn may_have_entry(started: bool, mode: Mode, entry: Option<u8>) -> bool
    ensures { result ≡ ((started && not (is_user mode)) || place_number entry == 0) }
{
    (started && mode == Mode::Kernel) || entry.is_none()
}

#[tactic(auto, unfolding(crate::specs::HartForms::mode))]
fn read_mode(bytes: &[u8]) -> Result<(Mode, &[u8]), SnapRefusal>
    ensures { Gives (λ x. (x.0, x.1.now)) result (mode.taken bytes.now) }
{
    let (is_user, rest) = read_flag(bytes)?;
    if is_user {
        Ok((Mode::User, rest))
    } else {
        Ok((Mode::Kernel, rest))
    }
}

// Registers 1 to 31, after register 0.
fn read_registers(bytes: &[u8]) -> Result<([u64; REGISTERS], &[u8]), SnapRefusal>
    ensures values { Gives (λ x. (drop 1 x.0, x.1.now)) result (registers.taken bytes.now) }
    ensures zero { IfOk result (λ x. x.0 ≡ 0 ∷ drop 1 x.0) }
{
    let mut registers = [0; REGISTERS];
    let mut rest = bytes;
    'registers: for i in 0..REGISTERS - 1 {
        let (value, after) = read_number(rest)?;
        registers[i + 1] = value;
        rest = after;
    }
    Ok((registers, rest))
}

// Address 0 stands for none.
#[tactic(auto, unfolding(crate::specs::HartForms::reservation), using(policy_limits::proofs::InRam::byte_in_ram))]
fn read_reservation(bytes: &[u8], ram_pages: u32) -> Result<(Option<u64>, &[u8]), SnapRefusal>
    ensures { Gives (λ x. (x.0, x.1.now)) result ((reservation ram_pages).taken bytes.now) }
{
    let (n, rest) = read_number(bytes)?;
    let ram_bytes = PAGE_BYTES * u64::from(ram_pages);
    if n == 0 {
        return Ok((None, rest));
    }
    if !is_in_ram(n, 1, ram_bytes) || n % RESERVED_BYTES != 0 {
        return Err(SnapRefusal::OutOfRange);
    }
    Ok((Some(n), rest))
}
