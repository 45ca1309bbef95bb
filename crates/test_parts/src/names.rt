// Names of addresses by a table of symbols, as they are printed.

use elf64_load::sections::SymbolTables;
use elf64_load::symbols::{location_of, location_text};
use std::alloc::{AllocError, Global};
use std::process::Abort;
use std::test::Fail;

/// Names that begin at 1, 7, 10, 16 and 22.
static STRINGS: [u8; 30] = *b"\0first\0$x\0inner\0local\0a\x1b\\b\0end";

/// Of each symbol where its name begins, with its type from bit 32 on and its section from bit 48 on; its value; and its size.
static SYMBOLS: [[u64; 3]; 9] = [
    [0, 0, 0],
    [7 | 1 << 48, 0x1008, 0],
    [16 | 1 << 48, 0x1000, 0],
    [1 | 0x12 << 32 | 1 << 48, 0x1000, 0x20],
    [10 | 1 << 48, 0x1010, 0],
    [16 | 1 << 32 | 1 << 48, 0x1014, 0],
    [16 | 2 << 32 | 0xFFF1 << 48, 0x1018, 0],
    [22 | 2 << 32 | 1 << 48, 0xFFFF_FFFF_FFFF_FF00, 0x1000],
    [27 | 2 << 32 | 1 << 48, 0x1020, 0],
];

fn symbol_bytes(alloc: Global) -> Result<Vec<u8>, AllocError> {
    let mut bytes = Vec::new(alloc);
    for word in SYMBOLS.as_flattened() {
        bytes.extend_from_slice(&word.to_le_bytes())?;
    }
    Ok(bytes)
}

/// Addresses with their names, which are empty where they have none.
static NAMES: [(u64, &str); 9] = [
    (0, ""),
    (0xFFF, ""),
    // the function comes before the label at its address, and mapping symbols are none
    (0x1000, "first+0x0"),
    (0x100C, "first+0xc"),
    (0x1010, "inner+0x0"),
    // neither an object nor an absolute value is near, and a name without an end is none
    (0x1028, "inner+0x18"),
    (0xFFFF_FFFF_FFFF_FEFF, "inner+0xffffffffffffeeef"),
    (0xFFFF_FFFF_FFFF_FF00, "a\\x1b\\x5cb+0x0"),
    (0xFFFF_FFFF_FFFF_FFFF, "a\\x1b\\x5cb+0xff"),
];

fn check_name(
    rt: &impl Abort,
    alloc: Global,
    tables: &SymbolTables,
    address: u64,
    name: &str,
) -> Result<(), AllocError> {
    let found = match location_of(tables, address) {
        Some(location) => location_text(alloc, &location)?,
        None => Vec::new(alloc),
    };
    assert!(rt; found.as_slice() == name.as_bytes(), "{address:x}");
    Ok(())
}

#[test]
fn names_of_addresses(rt: HostRuntime) -> Result<(), Fail> {
    let symbols = symbol_bytes(rt.alloc())?;
    let tables = SymbolTables {
        symbols: &symbols,
        strings: &STRINGS,
    };
    for &(address, name) in &NAMES {
        check_name(&rt, rt.alloc(), &tables, address, name)?;
    }
    Ok(())
}
