// Where the devices' registers lie.

/// The bytes that each device's registers have.
const DEVICE_BYTES: u64 = 0x1000;

/// Where the console's registers begin, as a guest-physical address.
pub const CONSOLE_BASE: u64 = 0x1000_0000;

/// Where the registers of the disk's device begin, after the console's.
pub const DISK_BASE: u64 = CONSOLE_BASE + DEVICE_BYTES;

/// Where they end.
pub const DISK_END: u64 = DISK_BASE + DEVICE_BYTES;
