// What SecVisor's answers make of one hart.

ghost use Rattle.std.specs.Prelude.{◌≡◌, ◌<◌, ◌%◌, true, false, None, OnOk, OnErr, IfErr};
ghost use Rattle.sv_types.specs.Policies.{Rules};
ghost use Rattle.sv_types.specs.declared.view.View.{View};
ghost use Rattle.spec_processor.specs.IntegerRegisters.{register_count};
ghost use Rattle.spec_processor.specs.Traps.{is_interrupt, guest_number, trap_target, mode_at_return};
ghost use Rattle.spec_processor.specs.declared.mode.Mode.TheVariants.{Kernel};
ghost use Rattle.spec_reference.specs.Trapping.{may_enter};
ghost use Rattle.spec_hardware.specs.HwHarts.{hw_at_trap, hw_at_return, hw_demoted, hw_outside, hw_passed, hw_with, hw_answered, hw_stayed};
ghost use Rattle.spec_hardware.specs.HwHarts.{hw_stopped, hw_started};
ghost use Rattle.page_guard.specs.Privileges.{mode_of, view_at_return};
ghost use Rattle.monitor_exits.specs.HwOfSlots.{hw_of};
ghost use Rattle.monitor_exits.specs.Trapped.{in_handler, back_from_handler};
ghost use Rattle.hart.specs.declared.hart.Hart.{Hart as Kept};
ghost use Rattle.spec_processor.specs.Bytes.{instruction_size};

use csr_file::{Csrs, into_guest, return_to_guest, target};
use hart::Hart;
use page_guard::{Entries, Forbidden, PrivilegeView};
use rv64_exec::Regs;
use spec_processor::{A0, A1, ExitCause, INSTRUCTION_BYTES, Mode};

/// A trap of the guest: its cause, and the value that `stval` takes.
#[derive(Clone, Copy, Drop)]
pub struct Trap {
    pub cause: ExitCause,
    pub tval: u64,
}

/// The hart comes to its guest's trap handler, on the kernel's side or in the entry that it is bound to. From user mode only a
/// permitted target is entered, and else the target is the answer, and hart and side stay as they were.
#[inline(always)]
pub(crate) fn take_trap(
    hart: &mut Hart,
    privilege: &mut PrivilegeView,
    entries: &Entries,
    trap: Trap,
) -> Result<(), Forbidden>
    requires { hart.old.core.pc % instruction_size ≡ 0 }
    ensures permitted { (rules : Rules) → rules.entries ≡ entries.now.entries →
        OnOk result
        (may_enter rules (mode_of privilege.old) (trap_target hart.old.core.csrs.vstvec (is_interrupt trap.cause) (guest_number trap.cause)) ≡ true) }
    ensures forbidden { (rules : Rules) → rules.entries ≡ entries.now.entries →
        OnErr result
        (may_enter rules (mode_of privilege.old) (trap_target hart.old.core.csrs.vstvec (is_interrupt trap.cause) (guest_number trap.cause)) ≡ false) }
    ensures hart { (rules : Rules) → rules.entries ≡ entries.now.entries → rules.bound ≡ entries.now.bound →
        OnOk result (hw_of hart.new privilege.new ≡
        hw_at_trap rules (is_interrupt trap.cause) (guest_number trap.cause) trap.tval (hw_of hart.old privilege.old)) }
    ensures kept { OnErr result (hw_of hart.new privilege.new ≡ hw_of hart.old privilege.old) }
    ensures target { IfErr result (λ forbidden. forbidden.target ≡ trap_target hart.old.core.csrs.vstvec (is_interrupt trap.cause) (guest_number trap.cause)) }
{
    let from = privilege.mode();
    let target = target(&hart.core.csrs, trap.cause);
    privilege.enter(entries, target)?;
    enter_handler(hart, from, trap);
    Ok(())
}

// The hart in its trap handler, which it came to from a mode.
#[inline(always)]
fn enter_handler(hart: &mut Hart, from: Mode, trap: Trap)
    requires { hart.old.core.pc % instruction_size ≡ 0 }
    ensures { hart.new ≡ in_handler hart.old from (is_interrupt trap.cause) (guest_number trap.cause) trap.tval }
{
    hart.core.pc = into_guest(
        &mut hart.core.csrs,
        from,
        trap.cause,
        trap.tval,
        hart.core.pc,
    );
    hart.core.reservation = None;
}

/// The hart returns from its trap, as its own registers say: in kernel mode SecVisor carries SRET out. A return to user mode
/// leaves the entry.
#[tactic(auto, using(crate::proofs::HartTraps::at_return, crate::proofs::HartTraps::mode_after))]
pub(crate) fn return_from_trap(hart: &mut Hart, privilege: &mut PrivilegeView)
    requires { mode_of privilege.old ≡ Kernel }
    ensures hart { hw_of hart.new privilege.new ≡ hw_at_return (hw_of hart.old privilege.old) }
    ensures mode { mode_of privilege.new ≡ mode_at_return hart.old.core.csrs.vsstatus }
{
    let to = leave_handler(hart);
    return_privilege(privilege, to);
}

// The side of a hart that returns to a mode.
fn return_privilege(privilege: &mut PrivilegeView, to: Mode)
    ensures { privilege.new ≡ view_at_return to privilege.old }
{
    match to {
        Mode::Kernel => {}
        Mode::User => privilege.leave(),
    }
}

// The hart after its return from a trap, and the mode that it returns to.
fn leave_handler(hart: &mut Hart) -> Mode
    ensures hart { hart.new ≡ back_from_handler hart.old }
    ensures mode { result ≡ mode_at_return hart.old.core.csrs.vsstatus }
{
    let (pc, to) = return_to_guest(&mut hart.core.csrs);
    hart.core.pc = pc;
    hart.core.reservation = None;
    to
}

/// The hart leaves kernel mode, and stays at its instruction.
#[tactic(auto, unfolding(spec_hardware::specs::HwHarts::hw_demoted))]
pub(crate) fn demote(hart: &mut Hart, privilege: &mut PrivilegeView)
    ensures hart { hw_of hart.new privilege.new ≡ hw_demoted (hw_of hart.old privilege.old) }
{
    privilege.leave();
    hart.core.reservation = None;
}

/// The hart goes on after its instruction.
#[tactic(auto, unfolding(spec_hardware::specs::HwHarts::hw_passed))]
pub(crate) fn pass(hart: &mut Hart)
    ensures hart { (view : View) → hw_of hart.new view ≡ hw_passed (hw_of hart.old view) }
{
    hart.core.pc = hart.core.pc.wrapping_add(INSTRUCTION_BYTES);
    hart.core.reservation = None;
}

/// The hart goes on after its instruction with one register set.
#[tactic(auto, unfolding(spec_hardware::specs::HwHarts::hw_with, spec_hardware::specs::HwHarts::hw_passed))]
pub fn set(hart: &mut Hart, rd: u8, value: u64)
    requires { rd < register_count }
    ensures hart { (view : View) → hw_of hart.new view ≡ hw_with rd value (hw_of hart.old view) }
{
    hart.core.regs.set(rd, value);
    pass(hart);
}

/// The hart goes on after its call with a0 and a1 set.
#[tactic(auto, unfolding(spec_hardware::specs::HwHarts::hw_answered, spec_hardware::specs::HwHarts::hw_passed))]
pub fn answer(hart: &mut Hart, a0: u64, a1: u64)
    ensures hart { (view : View) → hw_of hart.new view ≡ hw_answered a0 a1 (hw_of hart.old view) }
{
    hart.core.regs.set(A0, a0);
    hart.core.regs.set(A1, a1);
    pass(hart);
}

/// The hart stays at its instruction.
#[tactic(auto, unfolding(spec_hardware::specs::HwHarts::hw_stayed))]
pub fn stay(hart: &mut Hart)
    ensures hart { (view : View) → hw_of hart.new view ≡ hw_stayed (hw_of hart.old view) }
{
    hart.core.reservation = None;
}

/// The hart stops at its instruction, and leaves the entry that it is in.
#[tactic(auto, using(crate::proofs::HartTraps::at_stop))]
pub fn stop(hart: &mut Hart, privilege: &mut PrivilegeView)
    ensures hart { hw_of hart.new privilege.new ≡ hw_stopped (hw_of hart.old privilege.old) }
{
    privilege.widen();
    hart.core.reservation = None;
    hart.started = false;
}

/// The hart leaves its entry for all that kernel mode sees, and nothing else changes, so that it attempts the same turn again.
#[tactic(auto, using(crate::proofs::HartTraps::left_entry))]
pub(crate) fn send_again(privilege: &mut PrivilegeView)
    ensures { (hart : Kept) → hw_of hart privilege.new ≡ hw_outside (hw_of hart privilege.old) }
{
    privilege.widen();
}

/// Whatever it was, the hart begins in kernel mode at an address, with its number in a0, a value in a1, and all other
/// registers as at boot.
#[tactic(auto, unfolding(spec_hardware::specs::HwHarts::hw_started, spec_reference::specs::Calls::hart_at))]
pub fn start(hart: &mut Hart, privilege: &mut PrivilegeView, hart_index: u8, pc: u64, opaque: u64)
    ensures hart { hw_of hart.new privilege.new ≡ hw_started hart_index pc opaque (hw_of hart.old privilege.old) }
{
    *privilege = PrivilegeView::at_boot();
    hart.core.regs = Regs::new();
    hart.core.regs.set(A0, u64::from(hart_index));
    hart.core.regs.set(A1, opaque);
    hart.core.pc = pc;
    hart.core.csrs = Csrs::at_boot();
    hart.core.reservation = None;
    hart.started = true;
}
