// The turn after a row, where its hart leaves the guest.

ghost use Rattle.std.specs.Prelude.{◌≡◌, ◌%◌, None};
ghost use Rattle.spec_processor.specs.Hardware.{exit_of, plain_exception};
ghost use Rattle.spec_processor.specs.HardwareAttempt.{after_word, attempt};
ghost use Rattle.spec_processor.specs.HypervisorRegisters.{pending, registers_at_exit};
ghost use Rattle.spec_processor.specs.Regions.{Region};
ghost use Rattle.spec_processor.specs.declared.lines.Lines.{Lines};
ghost use Rattle.hart.specs.Cores.{core_of};
ghost use Rattle.hart.specs.Conditions.{MayStep};
ghost use Rattle.hw_fast_path.specs.Ends.{is_left};
ghost use Rattle.hw_fast_path.specs.Quick.{Leads};
ghost use Rattle.hw_fast_path.specs.Batches.{LeavesBy};
ghost use Rattle.spec_processor.specs.Bytes.{instruction_size};

use crate::window::Window;
use hart::Core;
use host_mem::HostMem;
use spec_processor::{Cause, ECALL, HRegs, Mode, PAGE_BYTES, SRET, has_bit};

/// How a hart left the guest in the turn after a row.
#[derive(Clone, Copy, Drop)]
pub enum Leaving {
    /// It made no such turn.
    Stays,
    /// By ECALL in user mode.
    Calls,
    /// By SRET in kernel mode.
    Returns,
}

impl Leaving {
    /// It made that turn.
    #[inline(always)]
    pub fn is_left(self) -> bool
        ensures { result ≡ is_left self }
    {
        match self {
            Leaving::Stays => false,
            Leaving::Calls | Leaving::Returns => true,
        }
    }
}

// The fields of an exit at the pc, for the hypervisor. The guest's registers stay.
#[tactic(auto, unfolding(spec_processor::specs::HypervisorRegisters::registers_at_exit, spec_processor::specs::Traps::trap_cause))]
#[inline(always)]
fn note_exit(core: &mut Core, cause: Cause, stval: u64)
    requires aligned { core.old.pc % instruction_size ≡ 0 }
    ensures { core.new ≡ record core.old { csrs = registers_at_exit core.old.csrs (exit_of (plain_exception cause stval) core.old.pc) } }
{
    core.csrs.sepc = core.pc;
    core.csrs.scause = cause.number();
    core.csrs.stval = stval;
    core.csrs.htval = 0;
    core.csrs.htinst = 0;
}

/// The exit of an instruction's word, where it is one of the two.
#[inline(always)]
pub(crate) fn leave_by(core: &mut Core, regs: &HRegs, word: u32) -> Leaving
    requires ready { MayStep core.old regs.now }
    ensures comes { (r : Region) → (lines : Lines) →
        LeavesBy result (after_word r (core_of core.old regs.now) lines word) r (core_of core.old regs.now) (core_of core.new regs.now) }
    ensures pc { core.new.pc ≡ core.old.pc }
    ensures reservation { core.new.reservation ≡ core.old.reservation }
{
    match regs.mode {
        Mode::User => {
            if word != ECALL {
                return Leaving::Stays;
            }
            note_exit(core, Cause::UserCall, 0);
            Leaving::Calls
        }
        Mode::Kernel => {
            if word != SRET || has_bit(regs.hedeleg, Cause::Virtual.number() as u8) {
                return Leaving::Stays;
            }
            note_exit(core, Cause::Virtual, u64::from(SRET));
            Leaving::Returns
        }
    }
}

/// A turn of a hart that leaves the guest by ECALL in user mode or SRET in kernel mode, where its instruction lies in the
/// window's page. Any other isn't made.
#[inline(always)]
pub(crate) fn leave(core: &mut Core, regs: &HRegs, mem: &HostMem, window: Window) -> Leaving
    requires ready { MayStep core.old regs.now }
    requires leads { Leads mem.now (core_of core.old regs.now) window.page window.host }
    ensures comes { (lines : Lines) → pending regs.now core.old.csrs lines ≡ None →
        LeavesBy result (attempt mem.now (core_of core.old regs.now) lines) mem.now (core_of core.old regs.now) (core_of core.new regs.now) }
    ensures pc { core.new.pc ≡ core.old.pc }
    ensures reservation { core.new.reservation ≡ core.old.reservation }
{
    if core.pc / PAGE_BYTES != window.page {
        return Leaving::Stays;
    }
    let word = window.word(core, regs, mem);
    leave_by(core, regs, word)
}
