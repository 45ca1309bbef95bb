// The relocations of a module's text.

ghost use Rattle.std.specs.Prelude.{◌≡◌};
ghost use Rattle.sv_types.specs.RelocationKinds.{kind_number, kind_of};

/// How many values the low part of an address has, which stands in an instruction's immediate of 12 bits.
pub const LOW_VALUES: u64 = 1 << 12;

/// How a field of a module's text is relocated: the types of the RISC-V ELF psABI that a policy may name, without their
/// prefix `R_RISCV_`. S is the symbol's value, A the addend and P the field's place.
#[derive(Clone, Copy, PartialEq, Eq, Drop)]
pub enum RelocationKind {
    /// R_RISCV_64: S + A in 8 bytes of data.
    Word64,
    /// R_RISCV_BRANCH: S + A - P in a branch.
    Branch,
    /// R_RISCV_JAL: S + A - P in a jump.
    Jal,
    /// R_RISCV_PCREL_HI20: the high part of S + A - P.
    PcrelHi20,
    /// R_RISCV_PCREL_LO12_I: the low part of the value whose high part stands elsewhere, in a load or an addition.
    PcrelLo12I,
    /// R_RISCV_PCREL_LO12_S: the same, in a store.
    PcrelLo12S,
    /// R_RISCV_HI20: the high part of S + A.
    Hi20,
    /// R_RISCV_LO12_I: the low part of S + A, in a load or an addition.
    Lo12I,
    /// R_RISCV_LO12_S: the same, in a store.
    Lo12S,
}

const KINDS: [RelocationKind; 9] = [
    RelocationKind::Word64,
    RelocationKind::Branch,
    RelocationKind::Jal,
    RelocationKind::PcrelHi20,
    RelocationKind::PcrelLo12I,
    RelocationKind::PcrelLo12S,
    RelocationKind::Hi20,
    RelocationKind::Lo12I,
    RelocationKind::Lo12S,
];

impl RelocationKind {
    /// The kind's number in the RISC-V ELF psABI.
    pub fn number(self) -> u8
        ensures { result ≡ kind_number self }
    {
        match self {
            RelocationKind::Word64 => 2,
            RelocationKind::Branch => 16,
            RelocationKind::Jal => 17,
            RelocationKind::PcrelHi20 => 23,
            RelocationKind::PcrelLo12I => 24,
            RelocationKind::PcrelLo12S => 25,
            RelocationKind::Hi20 => 26,
            RelocationKind::Lo12I => 27,
            RelocationKind::Lo12S => 28,
        }
    }

    /// The kind of a number. None where it is none of a module's.
    pub fn of(number: u64) -> Option<RelocationKind>
        ensures { result ≡ kind_of number }
    {
        KINDS
            .iter()
            .copied()
            .find(|kind| u64::from(kind.number()) == number)
    }
}
