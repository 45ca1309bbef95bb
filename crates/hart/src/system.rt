// Register accesses and instructions of the system.

ghost use Rattle.std.specs.Prelude.{◌≡◌, ◌<◌, ◌%◌, if◌then◌else◌};
ghost use Rattle.spec_processor.specs.Requests.{csr_value};
ghost use Rattle.spec_processor.specs.Hardware.{plain_exception, raise};
ghost use Rattle.spec_processor.specs.HardwareAttempt.{illegal, virtual_instruction, csr_exception, csr_reached, csr_read, with_csr};
ghost use Rattle.spec_processor.specs.HardwareAttempt.{after_csr, after_supervisor_only, after_sret, call_cause};
ghost use Rattle.spec_processor.specs.IntegerRegisters.{register_count};
ghost use Rattle.hart.specs.Cores.{core_of, step_of};
ghost use Rattle.hart.specs.Conditions.{MayStep};
ghost use Rattle.spec_processor.specs.Bytes.{instruction_size};

use crate::hart::Core;
use crate::requests::{retire, retire_with};
use crate::trap::{plain_exception, raise};
use spec_processor::{Cause, Csr, CsrFault, CsrOp, Exception, HRegs, Lines, Mode, Outcome};

/// The exception of a word that isn't carried out.
pub(crate) fn illegal(word: u32) -> Exception
    ensures { result ≡ illegal word }
{
    plain_exception(Cause::Illegal, u64::from(word))
}

/// The exception of an instruction that supervisor mode without V would have.
pub(crate) fn virtual_instruction(word: u32) -> Exception
    ensures { result ≡ virtual_instruction word }
{
    plain_exception(Cause::Virtual, u64::from(word))
}

fn csr_exception(word: u32, fault: CsrFault) -> Exception
    ensures { result ≡ csr_exception word fault }
{
    match fault {
        CsrFault::Illegal => illegal(word),
        CsrFault::Virtual => virtual_instruction(word),
    }
}

/// The register that an access reaches, or the exception. An access that also writes is judged as a write.
#[tactic(auto, unfolding(spec_processor::specs::HardwareAttempt::csr_reached))]
pub(crate) fn csr_reached(
    core: &Core,
    regs: &HRegs,
    word: u32,
    number: u16,
    writes: bool,
) -> Result<Csr, Exception>
    ensures { result ≡ csr_reached (core_of core.now regs.now) word number writes }
{
    match core.csrs.access(regs.mode, number, writes) {
        Ok(csr) => Ok(csr),
        Err(fault) => Err(csr_exception(word, fault)),
    }
}

/// What an access makes of the old value and its operand.
#[tactic(auto, unfolding(spec_processor::specs::Requests::csr_value))]
pub fn csr_value(op: CsrOp, old: u64, operand: u64) -> u64
    ensures { result ≡ csr_value op old operand }
{
    match op {
        CsrOp::Csrrw | CsrOp::Csrrwi => operand,
        CsrOp::Csrrs | CsrOp::Csrrsi => old | operand,
        CsrOp::Csrrc | CsrOp::Csrrci => old & !operand,
    }
}

/// An access to a register: its old value is read, and the new one written where the access writes.
#[derive(Clone, Copy, Drop)]
pub(crate) struct CsrAccess {
    pub(crate) op: CsrOp,
    pub(crate) value: u64,
    pub(crate) writes: bool,
}

// Writes the register, where the access writes, and gives its old value.
fn exchange(core: &mut Core, regs: &HRegs, lines: &Lines, access: CsrAccess, csr: Csr) -> u64
    ensures value { result ≡ csr_read (core_of core.old regs.now) lines.now csr }
    ensures core { core_of core.new regs.now ≡
        (if access.writes then
        with_csr (core_of core.old regs.now) csr (csr_value access.op (csr_read (core_of core.old regs.now) lines.now csr) access.value) else
        core_of core.old regs.now) }
{
    let old = core.csrs.value(regs.hideleg, lines, csr);
    if access.writes {
        core.csrs
            .set(regs.hideleg, csr, csr_value(access.op, old, access.value));
    }
    old
}

/// An access to a register.
#[tactic(auto, unfolding(spec_processor::specs::HardwareAttempt::after_csr))]
#[inline(always)]
pub(crate) fn csr(
    core: &mut Core,
    regs: &HRegs,
    lines: &Lines,
    rd: u8,
    access: CsrAccess,
    reached: Result<Csr, Exception>,
) -> Outcome
    requires ready { MayStep core.old regs.now }
    requires register { rd < register_count }
    ensures step { step_of core.new regs.now result ≡ after_csr (core_of core.old regs.now) lines.now rd access.op access.value access.writes reached }
    ensures pc { core.new.pc % instruction_size ≡ 0 }
{
    match reached {
        Ok(csr) => {
            let old = exchange(core, regs, lines, access, csr);
            retire_with(core, rd, old, None)
        }
        Err(exception) => raise(core, regs, exception),
    }
}

/// An instruction of supervisor mode that changes the pc alone.
#[tactic(auto, unfolding(spec_processor::specs::HardwareAttempt::after_supervisor_only))]
#[inline(always)]
pub(crate) fn supervisor_only(core: &mut Core, regs: &HRegs, word: u32) -> Outcome
    requires ready { MayStep core.old regs.now }
    ensures step { step_of core.new regs.now result ≡ after_supervisor_only (core_of core.old regs.now) word regs.now.mode }
    ensures pc { core.new.pc % instruction_size ≡ 0 }
{
    match regs.mode {
        Mode::Kernel => retire(core, None),
        Mode::User => raise(core, regs, virtual_instruction(word)),
    }
}

/// SRET, which the hypervisor carries out: VTSR is set.
#[tactic(auto, using(crate::proofs::Returns::sret_raises))]
#[inline(always)]
pub(crate) fn sret(core: &mut Core, regs: &HRegs, word: u32) -> Outcome
    requires ready { MayStep core.old regs.now }
    ensures step { step_of core.new regs.now result ≡ after_sret (core_of core.old regs.now) word regs.now.mode }
    ensures pc { core.new.pc % instruction_size ≡ 0 }
{
    raise(core, regs, virtual_instruction(word))
}

/// ECALL.
#[inline(always)]
pub(crate) fn call(core: &mut Core, regs: &HRegs) -> Outcome
    requires ready { MayStep core.old regs.now }
    ensures step { step_of core.new regs.now result ≡ raise (core_of core.old regs.now) (plain_exception (call_cause regs.now.mode) 0) }
    ensures pc { core.new.pc % instruction_size ≡ 0 }
{
    let cause = match regs.mode {
        Mode::Kernel => Cause::GuestCall,
        Mode::User => Cause::UserCall,
    };
    raise(core, regs, plain_exception(cause, 0))
}
