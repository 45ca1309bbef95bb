// Sizes and limits that several layers name.

/// The bytes of a sector of a disk.
pub const SECTOR_BYTES: u64 = 512;

/// The most bytes that a device moves in a beat.
pub const BEAT_BYTES: u64 = 64;

/// The most bytes of a disk.
pub const MAX_DISK_BYTES: u64 = 64 << 20;

/// The most bytes of input that wait at the console.
pub const MAX_QUEUED: usize = 256;

/// The most bytes of the console that a journal has room for, until they are handed on.
pub const MAX_PRINTED: usize = 4096;

/// The most notes that a journal keeps.
pub const MAX_NOTES: usize = 4096;

/// The pages of RAM of a machine that is made from plain pages.
pub const FLAT_PAGES: usize = 16;

/// Where the kernel of such a machine may be entered alongside its begin, from the start of RAM on.
pub const FLAT_TRAP_OFFSET: u64 = 0x100;

/// The format of a policy that lists entries alone.
pub const PLAIN_FORMAT: u8 = 1;

/// The format of a policy that binds each entry to a guest-physical address.
pub const BOUND_FORMAT: u8 = 2;

/// The most permitted entries.
pub const MAX_ENTRIES: usize = 64;

/// The most harts of a machine.
pub const MAX_HARTS: u8 = 4;

/// The most events of a run.
pub const MAX_EVENTS: u64 = 1 << 32;

/// The base of a field that is relocated by its module's text.
pub const TEXT_BASE: u16 = 0;

/// The base of a field that is relocated by its module's data.
pub const DATA_BASE: u16 = 1;

/// The base of a field whose value is absolute.
pub const NO_BASE: u16 = 2;

/// The base of the first export.
pub const FIRST_EXPORT_BASE: u16 = 3;
