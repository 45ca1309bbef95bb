// What an instruction does to its hart, or asks of the rest of the machine.

use crate::instruction::{AmoOp, CsrOp};

/// The effect of an instruction, by the effect table in `specs/Effects.antt`. Widths are in bytes.
#[derive(Clone, Copy, Drop)]
pub enum Effect {
    /// A register and the next pc are set.
    Set {
        rd: u8,
        value: u64,
        next: u64,
    },
    /// A jump to an address that is no multiple of 4.
    MisalignedJump {
        target: u64,
    },
    /// A load, sign-extended where `signed` is set.
    Load {
        rd: u8,
        addr: u64,
        width: u8,
        signed: bool,
    },
    /// The `width` lowest bytes of a value are to be stored.
    Store {
        addr: u64,
        width: u8,
        value: u64,
    },
    /// A load that reserves its address.
    LoadReserved {
        rd: u8,
        addr: u64,
        width: u8,
    },
    /// A store that is carried out where the reservation stands.
    StoreConditional {
        rd: u8,
        addr: u64,
        width: u8,
        value: u64,
    },
    /// A load, and a store of what `op` makes of the loaded value and `value`.
    Amo {
        rd: u8,
        addr: u64,
        width: u8,
        op: AmoOp,
        value: u64,
    },
    /// An access to a control and status register, which is written where `writes` is set.
    Csr {
        rd: u8,
        number: u16,
        op: CsrOp,
        value: u64,
        writes: bool,
    },
    Ecall,
    Ebreak,
    Sret,
    Wfi,
    SfenceVma,
    Fence,
    Hyper,
}
