// What kernel images and module objects share: the header of an ELF-64 file, its sections, its symbols and their names.

pub mod elf;
mod fields;
mod header;
mod names;
mod sections;
mod tables;

pub use fields::{byte, double, half, word};
pub use header::file_refusal;
pub use names::name_at;
pub use sections::{
    SectionHeader, part, part_in_file, push_zeros, section_headers, sections_in_file,
};
pub use tables::{Symbol, SymbolTables, symbol_at, symbol_count, symbol_tables};
