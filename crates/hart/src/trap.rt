// The two ways of a trap.

ghost use Rattle.std.specs.Prelude.{◌≡◌, ◌%◌};
ghost use Rattle.spec_processor.specs.Hardware.{raise, after_interrupt, leave, guest_trap, plain_exception};
ghost use Rattle.spec_processor.specs.Traps.{is_interrupt, guest_number};
ghost use Rattle.spec_processor.specs.declared.mode.Mode.TheVariants as Mode;
ghost use Rattle.hart.specs.Cores.{core_of, step_of};
ghost use Rattle.hart.specs.Conditions.{MayStep};
ghost use Rattle.spec_processor.specs.Bytes.{instruction_size};

use crate::hart::Core;
use csr_file::{into_guest, into_hypervisor};
use spec_processor::{Cause, Exception, Exit, ExitCause, HRegs, Interrupt, Mode, Outcome, has_bit};

/// An exception that is no guest-page fault.
pub(crate) fn plain_exception(cause: Cause, tval: u64) -> Exception
    ensures { result ≡ plain_exception cause tval }
{
    Exception {
        cause,
        tval,
        htval: 0,
        htinst: 0,
    }
}

/// An exception is taken by the guest's kernel where `hedeleg` has its bit, and else by the hypervisor.
#[tactic(auto, unfolding(spec_processor::specs::Hardware::raise))]
#[inline(always)]
pub(crate) fn raise(core: &mut Core, regs: &HRegs, exception: Exception) -> Outcome
    requires ready { MayStep core.old regs.now }
    ensures step { step_of core.new regs.now result ≡ raise (core_of core.old regs.now) exception }
    ensures pc { core.new.pc % instruction_size ≡ 0 }
{
    let cause = ExitCause::Exception(exception.cause);
    if has_bit(regs.hedeleg, exception.cause.number() as u8) {
        guest_trap(core, regs, cause, exception.tval)
    } else {
        let exit = Exit {
            cause,
            pc: core.pc,
            stval: exception.tval,
            htval: exception.htval,
            htinst: exception.htinst,
        };
        leave(core, regs, exit)
    }
}

/// An interrupt is taken by the guest's kernel where `hideleg` has its bit, and else by the hypervisor.
#[tactic(auto, unfolding(spec_processor::specs::Hardware::after_interrupt))]
#[inline(always)]
pub(crate) fn interrupt(core: &mut Core, regs: &HRegs, interrupt: Interrupt) -> Outcome
    requires ready { MayStep core.old regs.now }
    ensures step { step_of core.new regs.now result ≡ after_interrupt (core_of core.old regs.now) interrupt }
    ensures pc { core.new.pc % instruction_size ≡ 0 }
{
    let cause = ExitCause::Interrupt(interrupt);
    if has_bit(regs.hideleg, interrupt.virtual_place()) {
        guest_trap(core, regs, cause, 0)
    } else {
        let exit = Exit {
            cause,
            pc: core.pc,
            stval: 0,
            htval: 0,
            htinst: 0,
        };
        leave(core, regs, exit)
    }
}

// Only kernel mode has a trap delegated, so the mode stays.
#[tactic(auto, unfolding(spec_processor::specs::Hardware::guest_trap))]
#[inline(always)]
fn guest_trap(core: &mut Core, regs: &HRegs, cause: ExitCause, tval: u64) -> Outcome
    requires aligned { core.old.pc % instruction_size ≡ 0 }
    requires kernel { regs.now.mode ≡ Mode.Kernel }
    ensures step { step_of core.new regs.now result ≡ guest_trap (core_of core.old regs.now) (is_interrupt cause) (guest_number cause) tval }
    ensures pc { core.new.pc % instruction_size ≡ 0 }
{
    core.pc = into_guest(&mut core.csrs, regs.mode, cause, tval, core.pc);
    core.reservation = None;
    Outcome::GuestTrap
}

#[tactic(auto, unfolding(spec_processor::specs::Hardware::leave))]
#[inline(always)]
fn leave(core: &mut Core, regs: &HRegs, exit: Exit) -> Outcome
    requires aligned { core.old.pc % instruction_size ≡ 0 }
    requires exit { exit.pc % instruction_size ≡ 0 }
    ensures step { step_of core.new regs.now result ≡ leave (core_of core.old regs.now) exit }
    ensures pc { core.new.pc % instruction_size ≡ 0 }
{
    Outcome::Exit(into_hypervisor(&mut core.csrs, exit))
}
