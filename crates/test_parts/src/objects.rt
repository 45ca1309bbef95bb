// An object that clang 14 made of `call print; ret` for RV64IMA without relaxation, and changed.

use elf64_reloc::*;
use std::alloc::{AllocError, Global};
use std::process::Abort;
use std::test::Fail;
use sv_types::{Export, Name, RelocationKind, Site};

/// A field: its place, its width in bytes and its value.
type Field = (u16, u8, u64);

/// A field of no bytes.
const NONE: Field = (0, 0, 0);

/// The bytes of the object.
const OBJECT_BYTES: usize = 512;

/// Its fields that aren't 0: the header; three instructions; the symbol; the relocation; the names; and the headers of
/// names, text, relocations and symbols.
static FIELDS: [Field; 46] = [
    (0, 4, 0x464C_457F),
    (4, 1, 2),
    (5, 1, 1),
    (6, 1, 1),
    (16, 2, 1),
    (18, 2, 243),
    (20, 4, 1),
    (40, 8, 0xC0),
    (52, 2, 64),
    (58, 2, 64),
    (60, 2, 5),
    (62, 2, 1),
    (0x40, 4, 0x97),
    (0x44, 4, 0x80E7),
    (0x48, 4, 0x8067),
    (0x68, 4, 12),
    (0x6C, 1, 0x10),
    (0x88, 4, 18),
    (0x8C, 4, 1),
    (0x98, 8, 0x742E_616C_6572_2E00),
    (0xA0, 8, 0x6E69_7270_0074_7865),
    (0xA8, 8, 0x6174_7274_732E_0074),
    (0xB0, 8, 0x6261_746D_7973_2E62),
    (0x104, 4, 3),
    (0x118, 8, 0x98),
    (0x120, 8, 0x22),
    (0x130, 8, 1),
    (0x144, 4, 1),
    (0x148, 8, 6),
    (0x158, 8, 0x40),
    (0x160, 8, 12),
    (0x170, 8, 4),
    (0x184, 4, 4),
    (0x188, 8, 0x40),
    (0x198, 8, 0x80),
    (0x1A0, 8, 0x18),
    (0x1A8, 4, 4),
    (0x1AC, 4, 2),
    (0x1B0, 8, 8),
    (0x1B8, 8, 0x18),
    (0x1C4, 4, 2),
    (0x1D8, 8, 0x50),
    (0x1E0, 8, 0x30),
    (0x1E8, 4, 1),
    (0x1F0, 8, 8),
    (0x1F8, 8, 0x18),
];

fn put(object: &mut [u8], field: Field) {
    let (place, width, value) = field;
    for (i, byte) in value.to_le_bytes().iter().enumerate() {
        if i < width as usize
            && let Some(slot) = object.get_mut(place as usize + i)
        {
            *slot = *byte;
        }
    }
}

fn object_with(alloc: Global, fields: &[Field]) -> Result<Vec<u8>, AllocError> {
    let mut object = vec![in alloc; 0; OBJECT_BYTES]?;
    for field in FIELDS.iter().chain(fields) {
        put(&mut object, *field);
    }
    Ok(object)
}

// What the kernel exports.
fn print_exported(rt: &impl Abort) -> [Export; 1] {
    let name = Name::new("print").expect(rt, "a name");
    [Export {
        name,
        addr: 0x8000_3010,
    }]
}

#[test]
fn a_call_has_two_sites(rt: HostRuntime) -> Result<(), Fail> {
    let object = object_with(rt.alloc(), &[])?;
    let module = read_module(rt.alloc(), &object, &print_exported(&rt))?;
    let high = Site {
        offset: 0,
        kind: RelocationKind::PcrelHi20,
        base: 3,
        addend: 0,
        anchor: 0,
    };
    let low = Site {
        offset: 4,
        kind: RelocationKind::PcrelLo12I,
        ..high
    };
    assert!(rt; module.sites.as_slice() == [high, low].as_slice());
    Ok(())
}

// Fields that are changed; the number that refuses the module for a kernel that exports `print`, and the place, where one is
// told.
type Row = ((Field, Field, Field), u8, &'static str);

static ROWS: [Row; 10] = [
    // section headers that wrap, a section that wraps, names in no section
    (((40, 8, u64::MAX - 63), NONE, NONE), 8, ""),
    (((0x158, 8, u64::MAX), NONE, NONE), 9, ""),
    (((0x1E8, 4, 5), NONE, NONE), 10, ""),
    // an alignment of 3
    (((0x140, 4, 6), (0x170, 8, 3), NONE), 11, "section .text"),
    // kinds that no module may have
    (
        ((0x140, 4, 6), (0x88, 4, 20), NONE),
        12,
        "section .text, offset 0x0, R_RISCV_GOT_HI20 (20), symbol print",
    ),
    (
        ((0x68, 4, 1), (0x88, 4, 99), NONE),
        12,
        "section 2, offset 0x0, relocation 99, symbol .rela.text",
    ),
    // a name that isn't exported, a common symbol, a name without an end
    (
        ((0x68, 4, 13), NONE, NONE),
        13,
        "section 2, offset 0x0, R_RISCV_CALL (18), symbol rint",
    ),
    (
        ((0x6E, 2, 0xFFF2), NONE, NONE),
        13,
        "section 2, offset 0x0, R_RISCV_CALL (18), symbol print",
    ),
    (
        ((0x120, 8, 16), NONE, NONE),
        13,
        "section 2, offset 0x0, R_RISCV_CALL (18)",
    ),
    // a call at the end, in a file without names of sections
    (
        ((0x140, 4, 6), (0x80, 8, 8), (62, 2, 9)),
        14,
        "section 2, offset 0x8, R_RISCV_CALL (18), symbol print",
    ),
];

// 0 where it isn't refused for a fault.
fn fault(alloc: Global, object: &[u8], exports: &[Export; 1]) -> u8 {
    match read_module(alloc, object, exports) {
        Err(RelocRefusal::Fault(fault)) => fault.number(),
        _ => 0,
    }
}

fn text_of(place: &Option<String>) -> &str {
    match place {
        Some(text) => text.as_str(),
        None => "",
    }
}

fn check_row(
    rt: &impl Abort,
    alloc: Global,
    exports: &[Export; 1],
    row: &Row,
) -> Result<(), AllocError> {
    let (first, second, third) = row.0;
    let object = object_with(alloc, &[first, second, third])?;
    let place = refused_place(alloc, &object, exports)?;
    let number = fault(alloc, &object, exports);
    let wanted = row.2;
    assert!(rt;
        number == row.1 && text_of(&place) == wanted,
        "{number} {wanted}"
    );
    Ok(())
}

#[test]
fn refused_objects(rt: HostRuntime) -> Result<(), Fail> {
    let exports = print_exported(&rt);
    for row in &ROWS {
        check_row(&rt, rt.alloc(), &exports, row)?;
    }
    Ok(())
}
