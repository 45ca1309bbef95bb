// A law of the registers: what the hardware shows a guest. A law takes no argument and does nothing; its clauses are the
// theorem.

ghost use Rattle.std.specs.Prelude.{◌≡◌, ℕ, Bool, true, Some};
ghost use Rattle.std.specs.Result.{result_ok};
ghost use Rattle.spec_processor.specs.Registers.{Supervisor, IsLegalSupervisor, guest_access, read_csr, write_csr};
ghost use Rattle.spec_processor.specs.Traps.{supervisor_at_trap, supervisor_at_return, deliverable};
ghost use Rattle.spec_processor.specs.HypervisorRegisters.{HypervisorRegisters, csr_access, read_virtual, write_virtual, registers_at_trap};
ghost use Rattle.spec_processor.specs.HypervisorRegisters.{registers_at_return, pending};
ghost use Rattle.spec_processor.specs.GuestView.{with_guest, hideleg_in};
ghost use Rattle.spec_processor.specs.declared.csr.Csr.{Csr};
ghost use Rattle.spec_processor.specs.declared.hregs.HRegs.{HRegs};
ghost use Rattle.spec_processor.specs.declared.lines.Lines.{Lines};
ghost use Rattle.spec_processor.specs.declared.mode.Mode.{Mode};

/// With V = 1 the hardware shows a guest its supervisor registers, where kernel mode has its interrupts delegated and
/// user mode has not. An access faults exactly where the guest's is refused, and else reaches the same register; its
/// reads and writes give the guest's values; so do a trap and its return; and the interrupt that is taken is the one that
/// the guest takes.
pub fn law_guest_view()
    ensures accesses { (mode : Mode) (c : HypervisorRegisters) (s : Supervisor) (number : ℕ) (writes : Bool) → guest_access mode s number writes ≡
        result_ok (csr_access mode (with_guest c s) number writes) }
    ensures reads { (mode : Mode) (c : HypervisorRegisters) (s : Supervisor) (lines : Lines) (number : ℕ) (writes : Bool) (csr : Csr) →
        IsLegalSupervisor s → guest_access mode s number writes ≡ Some csr → read_virtual (hideleg_in mode) (with_guest c s) lines csr ≡ read_csr s lines csr }
    ensures writes { (mode : Mode) (c : HypervisorRegisters) (s : Supervisor) (number : ℕ) (csr : Csr) (value : ℕ) → IsLegalSupervisor s →
        guest_access mode s number true ≡ Some csr → write_virtual (hideleg_in mode) (with_guest c s) csr value ≡ with_guest c (write_csr s csr value) }
    ensures traps { (c : HypervisorRegisters) (s : Supervisor) (from : Mode) (pc : ℕ) (interrupt : Bool) (cause tval : ℕ) →
        registers_at_trap (with_guest c s) from pc interrupt cause tval ≡ with_guest c (supervisor_at_trap s from pc interrupt cause tval) }
    ensures returns { (c : HypervisorRegisters) (s : Supervisor) → registers_at_return (with_guest c s) ≡ with_guest c (supervisor_at_return s) }
    ensures interrupts { (regs : HRegs) (c : HypervisorRegisters) (s : Supervisor) (lines : Lines) → regs.hideleg ≡ hideleg_in regs.mode →
        pending regs (with_guest c s) lines ≡ deliverable regs.mode s lines }
{}
