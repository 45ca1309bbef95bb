// The supervisor registers that a guest can name.

ghost use Rattle.std.specs.Prelude.{◌≡◌};
ghost use Rattle.spec_processor.specs.Registers.{csr_of_number, csr_number};

// The numbers of the registers. Privileged manual, "CSR Listing".
const SSTATUS: u16 = 0x100;

const SIE: u16 = 0x104;

const STVEC: u16 = 0x105;

const SCOUNTEREN: u16 = 0x106;

const SSCRATCH: u16 = 0x140;

const SEPC: u16 = 0x141;

const SCAUSE: u16 = 0x142;

const STVAL: u16 = 0x143;

const SIP: u16 = 0x144;

const SATP: u16 = 0x180;

const TIME: u16 = 0xC01;

/// A supervisor register of the register table in `specs/Registers.antt`, or the time.
#[derive(Clone, Copy, Drop)]
pub enum Csr {
    Sstatus,
    Sie,
    Stvec,
    Scounteren,
    Sscratch,
    Sepc,
    Scause,
    Stval,
    Sip,
    Satp,
    Time,
}

impl Csr {
    /// The number of a register, by the same listing.
    pub fn number(self) -> u16
        ensures { result ≡ csr_number self }
    {
        match self {
            Csr::Sstatus => SSTATUS,
            Csr::Sie => SIE,
            Csr::Stvec => STVEC,
            Csr::Scounteren => SCOUNTEREN,
            Csr::Sscratch => SSCRATCH,
            Csr::Sepc => SEPC,
            Csr::Scause => SCAUSE,
            Csr::Stval => STVAL,
            Csr::Sip => SIP,
            Csr::Satp => SATP,
            Csr::Time => TIME,
        }
    }

    /// The register of a number of 12 bits, by the Privileged manual's listing. None where no supervisor register of
    /// the table has that number.
    #[tactic(auto, unfolding(crate::specs::Registers::csr_of_number))]
    pub fn from_number(number: u16) -> Option<Csr>
        ensures { result ≡ csr_of_number number }
    {
        match number {
            SSTATUS => Some(Csr::Sstatus),
            SIE => Some(Csr::Sie),
            STVEC => Some(Csr::Stvec),
            SCOUNTEREN => Some(Csr::Scounteren),
            SSCRATCH => Some(Csr::Sscratch),
            SEPC => Some(Csr::Sepc),
            SCAUSE => Some(Csr::Scause),
            STVAL => Some(Csr::Stval),
            SIP => Some(Csr::Sip),
            SATP => Some(Csr::Satp),
            TIME => Some(Csr::Time),
            _ => None,
        }
    }
}

/// Why the hardware refuses an access to a register with V = 1.
#[derive(Clone, Copy, PartialEq, Eq, Drop)]
pub enum CsrFault {
    /// An illegal-instruction exception.
    Illegal,
    /// A virtual-instruction exception: supervisor mode without V would have the access.
    Virtual,
}
