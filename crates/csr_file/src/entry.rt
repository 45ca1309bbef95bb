// Entry into a trap handler, and return from it.

ghost use Rattle.std.specs.Prelude.{◌≡◌, ◌%◌};
ghost use Rattle.spec_processor.specs.HypervisorRegisters.{registers_at_trap, registers_at_return, registers_at_exit};
ghost use Rattle.spec_processor.specs.Traps.{is_interrupt, guest_number, trap_target, trap_cause, status_at_trap, status_at_return, mode_at_return};
ghost use Rattle.spec_processor.specs.Bytes.{instruction_size};

use crate::csrs::Csrs;
use crate::masks::{SIE, SIE_BIT, SPIE, SPIE_BIT, SPP, SPP_BIT};
use spec_processor::{Exit, ExitCause, INSTRUCTION_BYTES, Mode, has_bit, with_bits};

/// The mode of a trap vector stands in its low bits.
const VECTOR_MODE: u64 = 3;
/// The bit of a cause that says that it is an interrupt.
const INTERRUPT: u64 = 1 << 63;

/// The cause as `scause` shows it.
#[tactic(auto, unfolding(spec_processor::specs::Traps::trap_cause))]
fn shown_cause(interrupt: bool, cause: u64) -> u64
    ensures { result ≡ trap_cause interrupt cause }
{
    if interrupt { cause | INTERRUPT } else { cause }
}

/// The status in a trap handler: SPIE has SIE, SIE is clear, SPP has the mode before.
#[tactic(auto, unfolding(spec_processor::specs::Traps::status_at_trap))]
fn status_at_trap(status: u64, from: Mode) -> u64
    ensures { result ≡ status_at_trap status from }
{
    let kept = with_bits(status, SPIE, has_bit(status, SIE_BIT));
    let closed = with_bits(kept, SIE, false);
    with_bits(closed, SPP, matches!(from, Mode::Kernel))
}

/// The status after a trap handler: SIE has SPIE, SPIE is set, SPP is user mode.
#[tactic(auto, unfolding(spec_processor::specs::Traps::status_at_return))]
fn status_at_return(status: u64) -> u64
    ensures { result ≡ status_at_return status }
{
    let opened = with_bits(status, SIE, has_bit(status, SPIE_BIT));
    let set = with_bits(opened, SPIE, true);
    with_bits(set, SPP, false)
}

/// The mode that SPP names.
#[tactic(auto, unfolding(spec_processor::specs::Traps::mode_at_return))]
fn mode_at_return(status: u64) -> Mode
    ensures { result ≡ mode_at_return status }
{
    if has_bit(status, SPP_BIT) {
        Mode::Kernel
    } else {
        Mode::User
    }
}

/// Where a guest's trap goes: to the base of `vstvec`, or for an interrupt, where its bit 0 is set, to the place of the
/// cause after it, modulo 2^64.
#[tactic(auto, using(laws_processor::proofs::RegisterBits::target_aligned), unfolding(spec_processor::specs::Traps::trap_target))]
pub fn target(csrs: &Csrs, cause: ExitCause) -> u64
    ensures value { result ≡ trap_target csrs.now.vstvec (is_interrupt cause) (guest_number cause) }
    ensures aligned { result % instruction_size ≡ 0 }
{
    let base = csrs.vstvec & !VECTOR_MODE;
    if cause.is_interrupt() && has_bit(csrs.vstvec, 0) {
        base.wrapping_add(cause.guest_number().wrapping_mul(INSTRUCTION_BYTES))
    } else {
        base
    }
}

/// Enters the guest's kernel from a mode by a trap at a pc. Gives where it goes on, in kernel mode.
#[tactic(auto, unfolding(spec_processor::specs::HypervisorRegisters::registers_at_trap))]
pub fn into_guest(csrs: &mut Csrs, from: Mode, cause: ExitCause, tval: u64, pc: u64) -> u64
    requires { pc % instruction_size ≡ 0 }
    ensures target { result ≡ trap_target csrs.old.vstvec (is_interrupt cause) (guest_number cause) }
    ensures aligned { result % instruction_size ≡ 0 }
    ensures registers { csrs.new ≡ registers_at_trap csrs.old from pc (is_interrupt cause) (guest_number cause) tval }
{
    csrs.vsstatus = status_at_trap(csrs.vsstatus, from);
    csrs.vsepc = pc;
    csrs.vscause = shown_cause(cause.is_interrupt(), cause.guest_number());
    csrs.vstval = tval;
    target(csrs, cause)
}

/// Leaves the fields of an exit for the hypervisor, and gives the exit. The guest's registers stay.
#[tactic(auto, unfolding(spec_processor::specs::HypervisorRegisters::registers_at_exit))]
#[inline(always)]
pub fn into_hypervisor(csrs: &mut Csrs, exit: Exit) -> Exit
    requires { exit.pc % instruction_size ≡ 0 }
    ensures exit { result ≡ exit }
    ensures registers { csrs.new ≡ registers_at_exit csrs.old exit }
{
    csrs.sepc = exit.pc;
    csrs.scause = shown_cause(exit.cause.is_interrupt(), exit.cause.exit_number());
    csrs.stval = exit.stval;
    csrs.htval = exit.htval;
    csrs.htinst = exit.htinst as u64;
    exit
}

/// Returns from the guest's trap handler, as SRET does. Gives the pc and the mode in which the hart goes on.
#[tactic(auto, unfolding(spec_processor::specs::HypervisorRegisters::registers_at_return))]
#[inline(always)]
pub fn return_to_guest(csrs: &mut Csrs) -> (u64, Mode)
    ensures pc { result.0 ≡ csrs.old.vsepc }
    ensures aligned { result.0 % instruction_size ≡ 0 }
    ensures mode { result.1 ≡ mode_at_return csrs.old.vsstatus }
    ensures registers { csrs.new ≡ registers_at_return csrs.old }
{
    let mode = mode_at_return(csrs.vsstatus);
    csrs.vsstatus = status_at_return(csrs.vsstatus);
    (csrs.vsepc, mode)
}
