// What a kernel image's program headers say.

/// A program header of an ELF-64 file. Addresses, places and sizes are in bytes.
#[derive(Clone, Copy, Drop)]
pub struct ProgramHeader {
    /// The kind of segment: 1 is loaded.
    pub kind: u32,
    /// Bit 0: executable. Bit 1: writable.
    pub flags: u32,
    /// Where the segment's bytes begin in the file.
    pub offset: u64,
    /// The virtual address.
    pub va: u64,
    /// The guest-physical address.
    pub gpa: u64,
    /// The size in the file.
    pub file_size: u64,
    /// The size in memory.
    pub memory_size: u64,
}
