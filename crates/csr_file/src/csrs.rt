// The file of registers.

ghost use Rattle.std.specs.Prelude.{◌≡◌, ◌^◌, ◌<◌, true};
ghost use Rattle.std.specs.Result.{result_err};
ghost use Rattle.spec_processor.specs.HypervisorRegisters.{registers_at_boot, hip_value, at_guest_places, at_hypervisor_places};
ghost use Rattle.spec_processor.specs.HypervisorRegisters.{guest_alias, with_alias, is_hypervisor_number, refusal, csr_access};
ghost use Rattle.spec_processor.specs.HypervisorRegisters.{read_virtual, write_virtual, read_answer, after_write};
ghost use Rattle.spec_processor.specs.Registers.{legal_satp};

use crate::hypervisor::{
    HCOUNTEREN, HEDELEG, HGATP, HIDELEG, HIE, HIP, HSTATUS, HTINST, HTVAL, HVIP, VSATP, VSCAUSE,
    VSEPC, VSIE, VSIP, VSSCRATCH, VSSTATUS, VSTVAL, VSTVEC,
};
use crate::masks::{
    INTERRUPT_BITS, MISALIGNED, SATP_BITS, STATUS_BITS, TIME_ENABLE, TIME_ENABLE_BIT,
    TVEC_RESERVED, UXL, VIRTUAL_EXTERNAL, VIRTUAL_INTERRUPT_BITS, VIRTUAL_SOFTWARE, VIRTUAL_TIMER,
};
use spec_processor::{BARE, Csr, CsrFault, HRegs, Lines, Mode, ROOT_MODE_SHIFT, SV39, has_bit};
use std::marker::Model;

/// The registers of one hart: those of the virtual supervisor, `scounteren`, the interrupts, and, from `sepc` on, those
/// that an exit writes. Each holds only bits that may stand in it; bits 33 and 32 of `vsstatus` are kept as 0.
#[derive(Clone, Copy, Drop)]
pub struct Csrs {
    pub vsstatus: u64,
    pub vstvec: u64,
    pub vsscratch: u64,
    pub vsepc: u64,
    pub vscause: u64,
    pub vstval: u64,
    pub vsatp: u64,
    pub scounteren: u64,
    pub hie: u64,
    pub hvip: u64,
    pub sepc: u64,
    pub scause: u64,
    pub stval: u64,
    pub htval: u64,
    pub htinst: u64,
}

impl Model for Csrs {
    ghost use Rattle.spec_processor.specs.HypervisorRegisters.{HypervisorRegisters};

    ghost Value = { HypervisorRegisters };

    ghost use Rattle.csr_file.specs.View.{registers_of, fields_of, HoldsLegalBits};

    ghost view = { registers_of };

    ghost invariant = { HoldsLegalBits };

    ghost inverse = { fields_of };
}

/// Whether a number is one of the VS registers' or of the hypervisor's.
#[tactic(auto, unfolding(spec_processor::specs::HypervisorRegisters::is_hypervisor_number))]
fn is_hypervisor_number(number: u16) -> bool
    ensures { result ≡ is_hypervisor_number number }
{
    matches!(
        number,
        VSSTATUS
            | VSIE
            | VSTVEC
            | VSSCRATCH
            | VSEPC
            | VSCAUSE
            | VSTVAL
            | VSIP
            | VSATP
            | HSTATUS
            | HEDELEG
            | HIDELEG
            | HIE
            | HCOUNTEREN
            | HTVAL
            | HIP
            | HVIP
            | HTINST
            | HGATP
    )
}

/// Why an access to a supervisor register is refused.
fn refusal(mode: Mode, scounteren: u64, writes: bool, csr: Csr) -> Option<CsrFault>
    ensures { result ≡ refusal mode scounteren writes csr }
{
    match (csr, mode) {
        (Csr::Time, _) if writes => Some(CsrFault::Illegal),
        (Csr::Time, Mode::User) if !has_bit(scounteren, TIME_ENABLE_BIT) => Some(CsrFault::Virtual),
        (Csr::Time, _) | (_, Mode::Kernel) => None,
        (_, Mode::User) => Some(CsrFault::Virtual),
    }
}

/// A register of interrupts as the guest sees it.
#[tactic(auto, unfolding(spec_processor::specs::HypervisorRegisters::guest_alias))]
fn guest_alias(hideleg: u64, register: u64) -> u64
    ensures { result ≡ guest_alias hideleg register }
{
    at_guest_places(register & (hideleg & VIRTUAL_INTERRUPT_BITS))
}

/// Interrupts of `hie` and `hip` at their places in `sie` and `sip`.
#[inline(always)]
pub fn at_guest_places(bits: u64) -> u64
    ensures { result ≡ at_guest_places bits }
{
    bits >> 1
}

/// Interrupts of `sie` and `sip` at their places in `hie` and `hip`.
#[inline(always)]
pub fn at_hypervisor_places(bits: u64) -> u64
    requires { bits < 2 ^ 63 }
    ensures { result ≡ at_hypervisor_places bits }
{
    2 * bits
}

/// The register with the bits that `hideleg` has, of those given, written as the guest writes them.
#[tactic(auto, unfolding(spec_processor::specs::HypervisorRegisters::with_alias))]
fn with_alias(hideleg: u64, bits: u64, register: u64, value: u64) -> u64
    ensures { result ≡ with_alias hideleg bits register value }
{
    let delegated = hideleg & bits;
    let written = at_hypervisor_places(value & INTERRUPT_BITS);
    register & !delegated | written & delegated
}

/// What `satp` holds after a write: a mode that there isn't leaves it.
fn with_satp(old: u64, value: u64) -> u64
    ensures { result ≡ legal_satp old value }
{
    match value >> ROOT_MODE_SHIFT {
        BARE | SV39 => value & SATP_BITS,
        _ => old,
    }
}

impl Csrs {
    /// The file at boot: every register is 0.
    #[tactic(auto, unfolding(spec_processor::specs::HypervisorRegisters::registers_at_boot))]
    pub fn at_boot() -> Csrs
        ensures { result ≡ registers_at_boot }
    {
        Csrs {
            vsstatus: 0,
            vstvec: 0,
            vsscratch: 0,
            vsepc: 0,
            vscause: 0,
            vstval: 0,
            vsatp: 0,
            scounteren: 0,
            hie: 0,
            hvip: 0,
            sepc: 0,
            scause: 0,
            stval: 0,
            htval: 0,
            htinst: 0,
        }
    }

    /// The register that an access by a number reaches. An access that also writes is judged as a write. The fault is
    /// `Virtual` where supervisor mode without V would have the access, and else `Illegal`.
    #[tactic(auto, unfolding(spec_processor::specs::HypervisorRegisters::csr_access, spec_processor::specs::HypervisorRegisters::reached_csr))]
    #[inline(always)]
    pub fn access(&self, mode: Mode, number: u16, writes: bool) -> Result<Csr, CsrFault>
        ensures { result ≡ csr_access mode self.now number writes }
    {
        let Some(csr) = Csr::from_number(number) else {
            return Err(if is_hypervisor_number(number) {
                CsrFault::Virtual
            } else {
                CsrFault::Illegal
            });
        };
        match refusal(mode, self.scounteren, writes, csr) {
            Some(fault) => Err(fault),
            None => Ok(csr),
        }
    }

    /// The guest's interrupts that are pending, each one place higher than in `sip`: `hvip` ORed with the wires.
    #[tactic(auto, unfolding(spec_processor::specs::HypervisorRegisters::hip_value))]
    pub fn hip(&self, lines: &Lines) -> u64
        ensures { result ≡ hip_value self.now.hvip lines.now }
    {
        let timer = if lines.timer { VIRTUAL_TIMER } else { 0 };
        let external = if lines.external { VIRTUAL_EXTERNAL } else { 0 };
        self.hvip | (timer + external)
    }

    /// The value of a register that an access reaches, as the guest reads it.
    #[tactic(auto, unfolding(spec_processor::specs::HypervisorRegisters::read_virtual))]
    pub fn value(&self, hideleg: u64, lines: &Lines, csr: Csr) -> u64
        ensures { result ≡ read_virtual hideleg self.now lines.now csr }
    {
        match csr {
            Csr::Sstatus => self.vsstatus + UXL,
            Csr::Sie => guest_alias(hideleg, self.hie),
            Csr::Stvec => self.vstvec,
            Csr::Scounteren => self.scounteren,
            Csr::Sscratch => self.vsscratch,
            Csr::Sepc => self.vsepc,
            Csr::Scause => self.vscause,
            Csr::Stval => self.vstval,
            Csr::Sip => guest_alias(hideleg, self.hip(lines)),
            Csr::Satp => self.vsatp,
            Csr::Time => lines.time,
        }
    }

    /// Writes a register that an access reaches, as the guest writes it. No access writes the time.
    #[tactic(auto, unfolding(spec_processor::specs::HypervisorRegisters::write_virtual))]
    #[inline(always)]
    pub fn set(&mut self, hideleg: u64, csr: Csr, value: u64)
        ensures { self.new ≡ write_virtual hideleg self.old csr value }
    {
        match csr {
            Csr::Sstatus => self.vsstatus = value & STATUS_BITS,
            Csr::Sie => self.hie = with_alias(hideleg, VIRTUAL_INTERRUPT_BITS, self.hie, value),
            Csr::Stvec => self.vstvec = value & !TVEC_RESERVED,
            Csr::Scounteren => self.scounteren = value & TIME_ENABLE,
            Csr::Sscratch => self.vsscratch = value,
            Csr::Sepc => self.vsepc = value & !MISALIGNED,
            Csr::Scause => self.vscause = value,
            Csr::Stval => self.vstval = value,
            Csr::Sip => self.hvip = with_alias(hideleg, VIRTUAL_SOFTWARE, self.hvip, value),
            Csr::Satp => self.vsatp = with_satp(self.vsatp, value),
            Csr::Time => {}
        }
    }

    /// Reads the register of a number, as the guest's `csrr` reads it in a mode with V = 1. The fault is `Virtual`
    /// where supervisor mode without V would have the access, and else `Illegal`.
    #[tactic(auto, unfolding(spec_processor::specs::HypervisorRegisters::read_answer))]
    pub fn read(&self, regs: &HRegs, lines: &Lines, number: u16) -> Result<u64, CsrFault>
        ensures { result ≡ read_answer regs.now self.now lines.now number }
    {
        let csr = self.access(regs.mode, number, false)?;
        Ok(self.value(regs.hideleg, lines, csr))
    }

    /// Writes the register of a number, as the guest's `csrw` writes it in a mode with V = 1: the bits that may stand
    /// there, and nothing else of the file. The fault is as for `read`, and a write to the time is `Illegal`; then
    /// nothing changes.
    #[tactic(auto, unfolding(spec_processor::specs::HypervisorRegisters::after_write))]
    pub fn write(&mut self, regs: &HRegs, number: u16, value: u64) -> Result<(), CsrFault>
        ensures refused { result_err result ≡ result_err (csr_access regs.now.mode self.old number true) }
        ensures after { self.new ≡ after_write regs.now self.old number value }
    {
        let csr = self.access(regs.mode, number, true)?;
        self.set(regs.hideleg, csr, value);
        Ok(())
    }
}
