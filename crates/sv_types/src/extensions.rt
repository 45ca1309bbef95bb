// The numbers of the extensions that kernel mode can call. RISC-V SBI, the chapters of its extensions.

/// Legacy: sets the timer.
pub const SET_TIMER_EXTENSION: u64 = 0;

/// Legacy: prints a byte.
pub const PUT_CHAR_EXTENSION: u64 = 1;

/// Legacy: takes a byte of input.
pub const GET_CHAR_EXTENSION: u64 = 2;

/// Legacy: shuts the machine down.
pub const SHUT_DOWN_EXTENSION: u64 = 8;

/// Base.
pub const BASE_EXTENSION: u64 = 0x10;

/// Timer.
pub const TIMER_EXTENSION: u64 = 0x5449_4D45;

/// Interrupts between harts.
pub const INTERRUPT_EXTENSION: u64 = 0x0073_5049;

/// Remote fences.
pub const FENCE_EXTENSION: u64 = 0x5246_4E43;

/// Hart state management.
pub const HART_STATE_EXTENSION: u64 = 0x0048_534D;

/// System reset.
pub const RESET_EXTENSION: u64 = 0x5352_5354;

/// Modules of the kernel, this project's own.
pub const MODULES_EXTENSION: u64 = 0x0853_4543;
