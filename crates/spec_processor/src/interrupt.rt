// The interrupts of a guest.

ghost use Rattle.std.specs.Prelude.{◌≡◌};
ghost use Rattle.spec_processor.specs.Traps.{interrupt_number};
ghost use Rattle.spec_processor.specs.HypervisorRegisters.{virtual_number};

/// The places of the interrupts in `sip` and `sie`, which are their numbers.
pub const SOFTWARE_NUMBER: u64 = 1;

pub const TIMER_NUMBER: u64 = 5;

pub const EXTERNAL_NUMBER: u64 = 9;

/// An interrupt of the guest.
#[derive(Clone, Copy, PartialEq, Eq, Drop)]
pub enum Interrupt {
    External,
    Software,
    Timer,
}

impl Interrupt {
    /// The interrupt's number in `sip` and `sie`.
    pub fn number(self) -> u64
        ensures { result ≡ interrupt_number self }
    {
        match self {
            Interrupt::External => EXTERNAL_NUMBER,
            Interrupt::Software => SOFTWARE_NUMBER,
            Interrupt::Timer => TIMER_NUMBER,
        }
    }

    /// The interrupt's place in `hip`, `hie` and `hideleg`, which is one higher than the guest's.
    pub fn virtual_place(self) -> u8
        ensures { result ≡ virtual_number self }
    {
        self.number() as u8 + 1
    }
}
