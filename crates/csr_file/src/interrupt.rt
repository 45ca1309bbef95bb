// Which interrupt is taken.

ghost use Rattle.std.specs.Prelude.{◌≡◌};
ghost use Rattle.spec_processor.specs.HypervisorRegisters.{is_taken, pending};
ghost use Rattle.spec_processor.specs.Traps.{takes_interrupts};

use crate::csrs::Csrs;
use crate::masks::SIE_BIT;
use spec_processor::{HRegs, Interrupt, Lines, Mode, has_bit};

/// Whether a hart takes delegated interrupts: user mode always, kernel mode where SIE of `vsstatus` is set.
fn takes_interrupts(mode: Mode, vsstatus: u64) -> bool
    ensures { result ≡ takes_interrupts mode vsstatus }
{
    match mode {
        Mode::User => true,
        Mode::Kernel => has_bit(vsstatus, SIE_BIT),
    }
}

/// Whether an interrupt is taken: it is pending and enabled, and where it is delegated, the guest takes interrupts.
#[tactic(auto, unfolding(spec_processor::specs::HypervisorRegisters::is_taken))]
fn is_taken(csrs: &Csrs, regs: &HRegs, lines: &Lines, interrupt: Interrupt) -> bool
    ensures { result ≡ is_taken regs.now.hideleg regs.now.mode csrs.now lines.now interrupt }
{
    let place = interrupt.virtual_place();
    has_bit(csrs.hip(lines), place)
        && has_bit(csrs.hie, place)
        && (!has_bit(regs.hideleg, place) || takes_interrupts(regs.mode, csrs.vsstatus))
}

/// The interrupt that a hart takes before its next instruction, the first of external, software and timer. None exactly
/// where none is deliverable: one that is delegated waits until the guest takes interrupts, and one that isn't is taken
/// at once.
#[tactic(auto, unfolding(spec_processor::specs::HypervisorRegisters::pending))]
pub fn pending(csrs: &Csrs, regs: &HRegs, lines: &Lines) -> Option<Interrupt>
    ensures { result ≡ pending regs.now csrs.now lines.now }
{
    if csrs.hip(lines) & csrs.hie == 0 {
        return None;
    }
    if is_taken(csrs, regs, lines, Interrupt::External) {
        Some(Interrupt::External)
    } else if is_taken(csrs, regs, lines, Interrupt::Software) {
        Some(Interrupt::Software)
    } else if is_taken(csrs, regs, lines, Interrupt::Timer) {
        Some(Interrupt::Timer)
    } else {
        None
    }
}
