// The codes that calls from kernel mode are answered with.

ghost use Rattle.std.specs.Prelude.{◌≡◌};
ghost use Rattle.sv_types.specs.SbiCodes.{code_number, code_word};

/// SecVisor's number, as an implementation of the SBI and as a maker of devices: the letters SEC, the first one highest.
pub const IMPLEMENTATION: u64 = 0x0053_4543;

/// How a call went. RISC-V SBI, "Binary Encoding"; what the codes of modules mean is this project's own.
#[derive(Clone, Copy, PartialEq, Eq, Drop)]
pub enum SbiCode {
    /// What was asked is done.
    Success,
    /// No byte of input waits.
    NoInput,
    /// What is asked for isn't offered: an extension, a function, a reboot.
    NotSupported,
    /// What is named isn't there: a hart, a module, a kind of reset, init text.
    InvalidParameter,
    /// A module's text isn't the one that the policy permits.
    RefusedByMeasure,
    /// An address is no permitted entry, or no place for a module.
    InvalidAddress,
    /// The hart is started, the module loaded, or the init text free already.
    Already,
    /// A load is under way.
    PendingLoad,
}

impl SbiCode {
    /// The code's number; it is negative where the call failed.
    pub fn number(self) -> i64
        ensures { result ≡ code_number self }
    {
        match self {
            SbiCode::Success => 0,
            SbiCode::NoInput => -1,
            SbiCode::NotSupported => -2,
            SbiCode::InvalidParameter => -3,
            SbiCode::RefusedByMeasure => -4,
            SbiCode::InvalidAddress => -5,
            SbiCode::Already => -6,
            SbiCode::PendingLoad => -7,
        }
    }

    /// The number as a register holds it, in two's complement.
    pub fn word(self) -> u64
        ensures { result ≡ code_word self }
    {
        self.number().cast_unsigned()
    }
}
