// The hypervisor's registers alongside each mode of a guest.

ghost use Rattle.std.specs.Prelude.{◌≡◌, ◌⊎◌};
ghost use Rattle.spec_processor.specs.Roots.{IsSv39x4};
ghost use Rattle.sv_types.specs.Views.{view_hgatp};
ghost use Rattle.sv_types.specs.declared.view.View.TheVariants.{Kernel, User};
ghost use Rattle.hart.specs.Conditions.{KeepsMode};

use csr_file::Csrs;
use spec_processor::{HRegs, Mode};

pub(crate) fn hypervisor_registers(mode: Mode) -> HRegs
    ensures mode { KeepsMode result }
    ensures second { IsSv39x4 result.hgatp }
    ensures root { (result.hgatp ≡ view_hgatp Kernel) ⊎ (result.hgatp ≡ view_hgatp User) }
{
    match mode {
        Mode::Kernel => HRegs {
            mode,
            hgatp: 0x8000_1000_0000_0000,
            hedeleg: 0xB1FF,
            hideleg: 0x444,
            vtsr: true,
        },
        Mode::User => HRegs {
            mode,
            hgatp: 0x8000_2000_0000_0004,
            hedeleg: 0,
            hideleg: 0,
            vtsr: true,
        },
    }
}

// Kernel mode's registers after these writes.
pub(crate) fn registers_after(writes: &[(u16, u64)]) -> Csrs {
    let mut csrs = Csrs::at_boot();
    let regs = hypervisor_registers(Mode::Kernel);
    for &(number, value) in writes {
        let _written = csrs.write(&regs, number, value);
    }
    csrs
}
