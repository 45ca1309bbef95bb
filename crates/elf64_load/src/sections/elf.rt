//! The numbers of ELF-64 files by their names in the standard: offsets in bytes, sizes, kinds and flags. System V gABI,
//! "ELF Header", "Program Header", "Sections", "Symbol Table" and "Relocation"; RISC-V ELF psABI, "File Header" and
//! "Relocations".

// ---- the file's header

/// The bytes of the file's header.
pub const FILE_HEADER_BYTES: usize = 64;

/// Where the magic number stands.
pub const EI_MAG0: usize = 0;

/// Whether addresses have 32 or 64 bits.
pub const EI_CLASS: usize = 4;

/// Which byte of a number comes first.
pub const EI_DATA: usize = 5;

/// The version of the identification.
pub const EI_VERSION: usize = 6;

/// The kind of file.
pub const E_TYPE: usize = 16;

/// The processor.
pub const E_MACHINE: usize = 18;

/// The version of the file.
pub const E_VERSION: usize = 20;

/// The address at which the program begins.
pub const E_ENTRY: usize = 24;

/// Where the program headers begin.
pub const E_PHOFF: usize = 32;

/// Where the section headers begin.
pub const E_SHOFF: usize = 40;

/// The processor's flags.
pub const E_FLAGS: usize = 48;

/// The bytes of a program header.
pub const E_PHENTSIZE: usize = 54;

/// The number of program headers.
pub const E_PHNUM: usize = 56;

/// The bytes of a section header.
pub const E_SHENTSIZE: usize = 58;

/// The number of section headers.
pub const E_SHNUM: usize = 60;

/// The number of the section with the names of sections.
pub const E_SHSTRNDX: usize = 62;

/// The bytes 0x7F, E, L and F.
pub const ELF_MAGIC: u32 = 0x464C_457F;

/// Addresses of 64 bits.
pub const ELFCLASS64: u8 = 2;

/// The lowest byte comes first.
pub const ELFDATA2LSB: u8 = 1;

/// The version that there is.
pub const EV_CURRENT: u8 = 1;

/// A relocatable file.
pub const ET_REL: u16 = 1;

/// An executable file.
pub const ET_EXEC: u16 = 2;

/// RISC-V.
pub const EM_RISCV: u16 = 243;

/// The first flag that a file may have: those below it ask for compressed instructions, floats or fewer registers.
pub const EF_RISCV_TSO: u32 = 16;

// ---- program headers

/// The bytes of a program header.
pub const PROGRAM_HEADER_BYTES: usize = 56;

/// The kind of segment.
pub const P_TYPE: usize = 0;

/// Its flags.
pub const P_FLAGS: usize = 4;

/// Where its bytes stand in the file.
pub const P_OFFSET: usize = 8;

/// Its virtual address.
pub const P_VADDR: usize = 16;

/// Its physical address.
pub const P_PADDR: usize = 24;

/// Its size in the file.
pub const P_FILESZ: usize = 32;

/// Its size in memory.
pub const P_MEMSZ: usize = 40;

/// A segment that is loaded.
pub const PT_LOAD: u32 = 1;

/// The bit of PF_X: executable.
pub const PF_X_BIT: u8 = 0;

/// The bit of PF_W: writable.
pub const PF_W_BIT: u8 = 1;

/// The bit of PF_R: readable.
pub const PF_R_BIT: u8 = 2;

// ---- section headers

/// The bytes of a section header.
pub const SECTION_HEADER_BYTES: usize = 64;

/// Where the section's name stands among the names of sections.
pub const SH_NAME: usize = 0;

/// The kind of section.
pub const SH_TYPE: usize = 4;

/// Its flags.
pub const SH_FLAGS: usize = 8;

/// Where its bytes stand in the file.
pub const SH_OFFSET: usize = 24;

/// How many there are.
pub const SH_SIZE: usize = 32;

/// The number of a section that it is tied to.
pub const SH_LINK: usize = 40;

/// Another number, by its kind.
pub const SH_INFO: usize = 44;

/// Which multiples its address has to be.
pub const SH_ADDRALIGN: usize = 48;

/// The size of its entries.
pub const SH_ENTSIZE: usize = 56;

/// No section.
pub const SHT_NULL: u32 = 0;

/// What the program gives.
pub const SHT_PROGBITS: u32 = 1;

/// Symbols.
pub const SHT_SYMTAB: u32 = 2;

/// Names.
pub const SHT_STRTAB: u32 = 3;

/// Relocations with addends.
pub const SHT_RELA: u32 = 4;

/// Zeros that don't stand in the file.
pub const SHT_NOBITS: u32 = 8;

/// The bit of SHF_ALLOC: the section has memory.
pub const SHF_ALLOC_BIT: u8 = 1;

/// The bit of SHF_EXECINSTR: it holds instructions.
pub const SHF_EXECINSTR_BIT: u8 = 2;

// ---- symbols

/// The bytes of a symbol.
pub const SYMBOL_BYTES: usize = 24;

/// Where its name begins among the names.
pub const ST_NAME: usize = 0;

/// Its binding and its type.
pub const ST_INFO: usize = 4;

/// The section that defines it.
pub const ST_SHNDX: usize = 6;

/// Its value.
pub const ST_VALUE: usize = 8;

/// A global binding.
pub const STB_GLOBAL: u8 = 1;

/// No section defines it.
pub const SHN_UNDEF: u16 = 0;

/// The first of the numbers that stand for no section.
pub const SHN_LORESERVE: u16 = 0xFF00;

/// Its value is absolute.
pub const SHN_ABS: u16 = 0xFFF1;

// ---- relocations with addends

/// The bytes of a relocation.
pub const RELOCATION_BYTES: usize = 24;

/// The place of the field.
pub const R_OFFSET: usize = 0;

/// The kind of relocation.
pub const R_TYPE: usize = 8;

/// The number of the symbol.
pub const R_SYM: usize = 12;

/// The addend.
pub const R_ADDEND: usize = 16;

/// A call by an AUIPC and the JALR after it.
pub const R_RISCV_CALL: u32 = 18;

/// The same.
pub const R_RISCV_CALL_PLT: u32 = 19;

/// A linker may shorten the code.
pub const R_RISCV_RELAX: u32 = 51;
