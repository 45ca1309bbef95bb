// The hart's state.

ghost use Rattle.std.specs.Prelude.{◌≡◌, replicate, None, false};
ghost use Rattle.spec_processor.specs.HypervisorRegisters.{registers_at_boot};
ghost use Rattle.spec_processor.specs.Requests.{touches, after_write};
ghost use Rattle.spec_processor.specs.IntegerRegisters.{register_count};

use csr_file::Csrs;
use rv64_exec::Regs;
use spec_processor::RESERVED_BYTES;

/// What an attempt sees and changes of a hart. Its reservation is the host place of the 8 aligned bytes; its mode is that of
/// its hypervisor registers.
#[derive(Drop)]
pub struct Core {
    pub regs: Regs,
    pub pc: u64,
    pub csrs: Csrs,
    pub reservation: Option<u64>,
}

impl Core {
    /// A core whose registers and pc are 0, without a reservation.
    pub fn at_boot() -> Core
        ensures { result ≡ record { regs = replicate register_count 0; pc = 0; csrs = registers_at_boot; reservation = None } }
    {
        Core {
            regs: Regs::new(),
            pc: 0,
            csrs: Csrs::at_boot(),
            reservation: None,
        }
    }

    /// Clears a reservation of which some bytes are among the `width` bytes from a host place on.
    #[tactic(auto, unfolding(spec_processor::specs::Requests::after_write))]
    pub fn forget(&mut self, hpa: u64, width: u64)
        ensures { self.new ≡ record self.old { reservation = after_write hpa width self.old.reservation } }
    {
        if let Some(reserved) = self.reservation {
            if touches(reserved, hpa, width) {
                self.reservation = None;
            }
        }
    }
}

/// A hart: what an attempt sees of it, and whether it makes any.
#[derive(Drop)]
pub struct Hart {
    pub core: Core,
    pub started: bool,
}

impl Hart {
    /// A stopped hart whose registers and pc are 0, without a reservation.
    pub fn at_boot() -> Hart
        ensures { result ≡
            record { core = record { regs = replicate register_count 0; pc = 0; csrs = registers_at_boot; reservation = None }; started = false } }
    {
        Hart {
            core: Core::at_boot(),
            started: false,
        }
    }
}

#[tactic(auto, unfolding(spec_processor::specs::Requests::touches))]
fn touches(reserved: u64, hpa: u64, width: u64) -> bool
    ensures { result ≡ touches reserved hpa width }
{
    if hpa < reserved {
        reserved - hpa < width
    } else {
        hpa - reserved < RESERVED_BYTES && width > 0
    }
}
