// The integer registers by their names in the calling convention. RISC-V ELF psABI, "Integer Register Convention".

/// How many integer registers there are.
pub const REGISTERS: usize = 32;

/// The register that is always 0.
pub const X0: u8 = 0;
/// Temporaries.
pub const T0: u8 = 5;

pub const T1: u8 = 6;

pub const T2: u8 = 7;

pub const T3: u8 = 28;

pub const T4: u8 = 29;
/// Registers that a call keeps.
pub const S0: u8 = 8;

pub const S1: u8 = 9;
/// The first argument of a call, and the first of what it returns.
pub const A0: u8 = 10;
/// The second argument, and the second of what is returned.
pub const A1: u8 = 11;
/// The third argument.
pub const A2: u8 = 12;
/// The fourth argument.
pub const A3: u8 = 13;
/// The function of a call from kernel mode.
pub const A6: u8 = 16;
/// The extension to which it belongs.
pub const A7: u8 = 17;
