// Accesses to supervisor registers that quick turns carry out.

ghost use Rattle.std.specs.Prelude.{◌≡◌, ◌<◌, ◌%◌, ℕ, false, if◌then◌else◌, IfSome, None, Ok};
ghost use Rattle.spec_processor.specs.Regions.{Region};
ghost use Rattle.spec_processor.specs.Requests.{csr_value};
ghost use Rattle.spec_processor.specs.Hardware.{with_region};
ghost use Rattle.spec_processor.specs.HardwareAttempt.{csr_reached, after_csr};
ghost use Rattle.spec_processor.specs.HypervisorRegisters.{HypervisorRegisters, csr_access, read_virtual, write_virtual};
ghost use Rattle.spec_processor.specs.IntegerRegisters.{register_count};
ghost use Rattle.spec_processor.specs.declared.lines.Lines.{Lines};
ghost use Rattle.hart.specs.Cores.{core_of};
ghost use Rattle.hart.specs.Conditions.{MayStep};
ghost use Rattle.hw_fast_path.specs.Quick.{Comes, SameCourse, Steers};
ghost use Rattle.spec_processor.specs.Bytes.{instruction_size};

use crate::tried::Tried;
use csr_file::Csrs;
use hart::{Core, csr_value};
use spec_processor::{Csr, CsrOp, HRegs, INSTRUCTION_BYTES, Lines, Mode};

// Some wires, for registers that are read without them.
const LOW: Lines = Lines {
    time: 0,
    external: false,
    timer: false,
};

// The value of a register that doesn't go by the wires, as the guest reads it.
#[tactic(auto, unfolding(spec_processor::specs::HypervisorRegisters::read_virtual))]
#[inline(always)]
fn kept_value(csrs: &Csrs, hideleg: u64, csr: Csr) -> Option<u64>
    ensures { (lines : Lines) → IfSome result (λ value. value ≡ read_virtual hideleg csrs.now lines csr) }
{
    match csr {
        Csr::Sip | Csr::Time => None,
        Csr::Sstatus
        | Csr::Sie
        | Csr::Stvec
        | Csr::Scounteren
        | Csr::Sscratch
        | Csr::Sepc
        | Csr::Scause
        | Csr::Stval
        | Csr::Satp => Some(csrs.value(hideleg, &LOW, csr)),
    }
}

// Writes a register. Answers whether interrupts are taken or addresses are translated by it.
#[tactic(auto, unfolding(spec_processor::specs::HypervisorRegisters::write_virtual))]
#[inline(always)]
fn write(csrs: &mut Csrs, hideleg: u64, csr: Csr, value: u64) -> bool
    ensures written { csrs.new ≡ write_virtual hideleg csrs.old csr value }
    ensures course { result ≡ false → SameCourse csrs.old csrs.new }
{
    csrs.set(hideleg, csr, value);
    match csr {
        Csr::Stvec | Csr::Scounteren | Csr::Sscratch | Csr::Sepc | Csr::Scause | Csr::Stval => {
            false
        }
        Csr::Sstatus | Csr::Sie | Csr::Satp | Csr::Sip | Csr::Time => true,
    }
}

/// An access to the register of a number: rd takes its old value, and the new one is written where the access writes.
#[derive(Clone, Copy, Drop)]
pub(crate) struct CsrAccess {
    pub(crate) rd: u8,
    pub(crate) number: u16,
    pub(crate) op: CsrOp,
    pub(crate) operand: u64,
    pub(crate) writes: bool,
}

// What an access read, and whether it wrote a register by which interrupts are taken or addresses are translated.
#[derive(Clone, Copy, Drop)]
struct Exchanged {
    old: u64,
    steers: bool,
}

// The old value of a register, and the new one written; none where that isn't done in a row.
#[inline(always)]
fn exchange(csrs: &mut Csrs, hideleg: u64, access: CsrAccess, csr: Csr) -> Option<Exchanged>
    ensures value { (lines : Lines) → IfSome result (λ done. done.old ≡ read_virtual hideleg csrs.old lines csr) }
    ensures written { (lines : Lines) →
        IfSome result (λ done. csrs.new ≡
        (if access.writes then write_virtual hideleg csrs.old csr (csr_value access.op (read_virtual hideleg csrs.old lines csr) access.operand) else
        csrs.old)) }
    ensures refused { result ≡ None → csrs.new ≡ csrs.old }
    ensures course { IfSome result (λ done. done.steers ≡ false → SameCourse csrs.old csrs.new) }
{
    let old = kept_value(csrs, hideleg, csr)?;
    if !access.writes {
        return Some(Exchanged { old, steers: false });
    }
    let steers = write(
        csrs,
        hideleg,
        csr,
        csr_value(access.op, old, access.operand),
    );
    Some(Exchanged { old, steers })
}

// An access to the register that its number names.
#[tactic(auto, unfolding(spec_processor::specs::HardwareAttempt::csr_reached, spec_processor::specs::HardwareAttempt::after_csr))]
#[inline(always)]
fn access_to(core: &mut Core, regs: &HRegs, access: CsrAccess, csr: Csr) -> Tried
    requires ready { MayStep core.old regs.now }
    requires free { core.old.reservation ≡ None }
    requires register { access.rd < register_count }
    requires reaches { csr_access regs.now.mode core.old.csrs access.number access.writes ≡ Ok csr }
    ensures comes { (r : Region) → (lines : Lines) → (word : ℕ) →
        Comes result
        (with_region r (after_csr (core_of core.old regs.now) lines access.rd access.op access.operand access.writes
        (csr_reached (core_of core.old regs.now) word access.number access.writes))) r r (core_of core.old regs.now) (core_of core.new regs.now) }
    ensures pc { core.new.pc % instruction_size ≡ 0 }
    ensures free { core.new.reservation ≡ None }
    ensures course { Steers result core.old.csrs core.new.csrs }
{
    let Some(done) = exchange(&mut core.csrs, regs.hideleg, access, csr) else {
        return Tried::Stopped;
    };
    core.regs.set(access.rd, done.old);
    core.pc = core.pc.wrapping_add(INSTRUCTION_BYTES);
    if done.steers {
        Tried::ContextChanged
    } else {
        Tried::Retired
    }
}

/// An access to a supervisor register, where the mode has it and its value doesn't go by the wires. It is a table of one line
/// for each register: after the one look at the number the register is known, so that nothing looks at it again.
#[tactic(auto, unfolding(spec_processor::specs::HypervisorRegisters::csr_access, spec_processor::specs::HypervisorRegisters::reached_csr))]
#[inline(always)]
pub(crate) fn csr(core: &mut Core, regs: &HRegs, access: CsrAccess) -> Tried
    requires ready { MayStep core.old regs.now }
    requires free { core.old.reservation ≡ None }
    requires register { access.rd < register_count }
    ensures comes { (r : Region) → (lines : Lines) → (word : ℕ) →
        Comes result
        (with_region r (after_csr (core_of core.old regs.now) lines access.rd access.op access.operand access.writes
        (csr_reached (core_of core.old regs.now) word access.number access.writes))) r r (core_of core.old regs.now) (core_of core.new regs.now) }
    ensures pc { core.new.pc % instruction_size ≡ 0 }
    ensures free { core.new.reservation ≡ None }
    ensures course { Steers result core.old.csrs core.new.csrs }
{
    // User mode has the time alone, which goes by the wires.
    if regs.mode != Mode::Kernel {
        return Tried::Stopped;
    }
    match Csr::from_number(access.number) {
        Some(Csr::Sstatus) => access_to(core, regs, access, Csr::Sstatus),
        Some(Csr::Sie) => access_to(core, regs, access, Csr::Sie),
        Some(Csr::Stvec) => access_to(core, regs, access, Csr::Stvec),
        Some(Csr::Scounteren) => access_to(core, regs, access, Csr::Scounteren),
        Some(Csr::Sscratch) => access_to(core, regs, access, Csr::Sscratch),
        Some(Csr::Sepc) => access_to(core, regs, access, Csr::Sepc),
        Some(Csr::Scause) => access_to(core, regs, access, Csr::Scause),
        Some(Csr::Stval) => access_to(core, regs, access, Csr::Stval),
        Some(Csr::Satp) => access_to(core, regs, access, Csr::Satp),
        Some(Csr::Sip | Csr::Time) | None => Tried::Stopped,
    }
}
