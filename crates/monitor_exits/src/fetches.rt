// Refused fetches, and instructions that the hardware leaves to SecVisor.

ghost use Rattle.std.specs.Prelude.{◌≡◌, ◌||◌, Option};
ghost use Rattle.spec_processor.specs.declared.mode.Mode.{Mode as Privilege};
ghost use Rattle.spec_reference.specs.States.{Binding};
ghost use Rattle.spec_hardware.specs.Served.{raises, is_sret_word, is_fetch_fault, is_guest_fetch_fault, fetch_answer, entry_answer};
ghost use Rattle.spec_hardware.specs.Served.{exit_ram_gpa, virtual_answer};
ghost use Rattle.monitor_exits.specs.Possible.{IsPossible};
ghost use Rattle.monitor_exits.specs.Seen.{seen_on};

use crate::addresses::{gpa_in_ram, is_implicit};
use hart::Hart;
use host_mem::HostMem;
use spec_hardware::ExitAnswer;
use spec_processor::{Cause, Exit, ExitCause, INSTRUCTION_BYTES, Mode, SRET};

/// The guest has an exception, with the value that `stval` takes.
pub(crate) fn raises(cause: Cause, tval: u64) -> ExitAnswer
    ensures { result ≡ raises cause tval }
{
    ExitAnswer::Traps {
        cause: ExitCause::Exception(cause),
        tval,
    }
}

/// A refused fetch: kernel mode is left where the page isn't approved, and else the guest has an access fault.
#[tactic(auto, unfolding(spec_hardware::specs::Served::fetch_answer))]
pub(crate) fn fetch_answer(mem: &HostMem, mode: Mode, exit: &Exit) -> ExitAnswer
    ensures answer { result ≡ fetch_answer mem.now.ram mode exit.now }
    ensures possible { IsPossible mode result }
{
    if mode == Mode::User || is_implicit(exit) {
        return raises(Cause::InstrAccess, exit.stval);
    }
    match gpa_in_ram(mem, exit, INSTRUCTION_BYTES) {
        Some(gpa) => ExitAnswer::Demotes { gpa },
        None => raises(Cause::InstrAccess, exit.stval),
    }
}

/// A fetch was refused, in one stage or the other.
pub(crate) fn is_fetch(cause: ExitCause) -> bool
    ensures { result ≡ (is_fetch_fault cause || is_guest_fetch_fault cause) }
{
    matches!(
        cause,
        ExitCause::Exception(Cause::InstrPage | Cause::GuestFetch)
    )
}

// The address in RAM that a refused fetch led to, 0 where it led to none.
#[tactic(auto, unfolding(spec_hardware::specs::Served::exit_ram_gpa))]
fn exit_ram_gpa(mem: &HostMem, exit: &Exit) -> u64
    ensures { result ≡ exit_ram_gpa mem.now.ram exit.now }
{
    if exit.cause == ExitCause::Exception(Cause::InstrPage) {
        return 0;
    }
    if is_implicit(exit) {
        return 0;
    }
    match gpa_in_ram(mem, exit, INSTRUCTION_BYTES) {
        Some(gpa) => gpa,
        None => 0,
    }
}

/// A refused fetch in an entry: at the entry's address the hart is demoted, and at any other it leaves the entry, and attempts
/// the same turn again.
#[tactic(auto, unfolding(spec_hardware::specs::Served::entry_answer))]
pub(crate) fn entry_answer(mem: &HostMem, hart: &Hart, va: u64, exit: &Exit) -> ExitAnswer
    ensures answer { (mode : Privilege) (entry : Option Binding) → result ≡ entry_answer (seen_on mem.now.ram hart.now mode entry exit.now) va exit.now }
    ensures possible { (mode : Privilege) → IsPossible mode result }
{
    if hart.core.pc == va {
        let gpa = exit_ram_gpa(mem, exit);
        ExitAnswer::Demotes { gpa }
    } else {
        ExitAnswer::LeavesEntry
    }
}

// The low 32 bits of a word are those of SRET.
#[tactic(auto, using(crate::proofs::Sret::sret_tested))]
fn is_sret(word: u64) -> bool
    ensures { result ≡ is_sret_word word }
{
    word & 0xFFFF_FFFF == u64::from(SRET)
}

/// SRET in kernel mode, which SecVisor carries out, or an instruction that is illegal to the guest.
#[tactic(auto, unfolding(spec_hardware::specs::Served::virtual_answer))]
pub(crate) fn virtual_answer(mode: Mode, exit: &Exit) -> ExitAnswer
    ensures answer { result ≡ virtual_answer mode exit.now }
    ensures possible { IsPossible mode result }
{
    if mode == Mode::Kernel && is_sret(exit.stval) {
        ExitAnswer::Returns
    } else {
        raises(Cause::Illegal, exit.stval)
    }
}
