// Where guest RAM lies, and its pages.

ghost use Rattle.std.specs.Prelude.{◌≡◌, ◌+◌, ◌≤◌, ◌&&◌, IsTrue};
ghost use Rattle.spec_processor.specs.Bytes.{ram_base, ram_offset, page_of, is_in_ram};

/// Where guest RAM begins, as a guest-physical address.
pub const RAM_BASE: u64 = 0x8000_0000;

/// The bytes of a page.
pub const PAGE_BYTES: u64 = 4096;

/// The bytes of a page, as a length of what lies in memory.
pub const PAGE_SIZE: usize = PAGE_BYTES as usize;

/// The bytes of an entry of a translation table, as the width of an access.
pub const ENTRY_WIDTH: u8 = 8;

/// The bytes of an entry of a translation table.
pub const ENTRY_BYTES: u64 = ENTRY_WIDTH as u64;

/// The entries of a translation table.
pub const TABLE_ENTRIES: u64 = 512;

/// The levels of translation tables.
pub const TABLE_LEVELS: u32 = 3;

/// The bytes of a reservation, which begins at a multiple of them.
pub const RESERVED_BYTES: u64 = 8;

/// The place in RAM of a guest-physical address, in bytes from RAM's first; 0 below RAM.
pub fn ram_offset(gpa: u64) -> u64
    ensures { result ≡ ram_offset gpa }
{
    gpa.saturating_sub(RAM_BASE)
}

/// The number of the page of a guest-physical address, counted from RAM's first; 0 below RAM.
pub fn page_of(gpa: u64) -> u64
    ensures { result ≡ page_of gpa }
{
    ram_offset(gpa) / PAGE_BYTES
}

/// Whether so many bytes from a guest-physical address on all lie in RAM of `ram_bytes` bytes. No test wraps.
pub fn is_in_ram(gpa: u64, len: u64, ram_bytes: u64) -> bool
    ensures value { result ≡ is_in_ram gpa len ram_bytes }
    ensures begins { IsTrue result → ram_base ≤ gpa }
    ensures ends { IsTrue result → ram_offset gpa + len ≤ ram_bytes }
{
    gpa >= RAM_BASE && len <= ram_bytes && gpa - RAM_BASE <= ram_bytes - len
}
