// The registers of a hart against rows of the register table.

use crate::modes::hypervisor_registers;
use csr_file::{CsrFault, Csrs};
use spec_processor::{Lines, Mode};

static LINES: Lines = Lines {
    time: 7000,
    external: true,
    timer: false,
};

const KERNEL: Mode = Mode::Kernel;

const USER: Mode = Mode::User;

const ONES: Option<u64> = Some(u64::MAX);

const ILLEGAL: Result<u64, CsrFault> = Err(CsrFault::Illegal);

const VIRTUAL: Result<u64, CsrFault> = Err(CsrFault::Virtual);

// A read in a mode, after a write if there is one, and its answer.
type Access = (Mode, u16, Option<u64>, Result<u64, CsrFault>);

static ACCESSES: [Access; 25] = [
    // Reads at boot.
    (KERNEL, 0x200, None, VIRTUAL),
    (KERNEL, 0x680, None, VIRTUAL),
    (KERNEL, 0xC00, None, ILLEGAL),
    (KERNEL, 0xC01, None, Ok(7000)),
    (KERNEL, 0x144, None, Ok(0x200)),
    (USER, 0x100, None, VIRTUAL),
    (USER, 0x604, None, VIRTUAL),
    (USER, 0x300, None, ILLEGAL),
    (USER, 0xC01, None, VIRTUAL),
    // Writes that are refused.
    (KERNEL, 0xC01, Some(1), ILLEGAL),
    (USER, 0xC01, Some(1), ILLEGAL),
    (USER, 0x180, Some(0), VIRTUAL),
    // The bits that may stand.
    (KERNEL, 0x100, ONES, Ok(0x2000C0122)),
    (KERNEL, 0x104, ONES, Ok(0x222)),
    (KERNEL, 0x105, ONES, Ok(0xFFFFFFFFFFFFFFFD)),
    (KERNEL, 0x106, ONES, Ok(2)),
    (KERNEL, 0x140, ONES, Ok(u64::MAX)),
    (KERNEL, 0x141, ONES, Ok(0xFFFFFFFFFFFFFFFC)),
    (KERNEL, 0x142, ONES, Ok(u64::MAX)),
    (KERNEL, 0x143, ONES, Ok(u64::MAX)),
    (KERNEL, 0x144, ONES, Ok(0x202)),
    (
        KERNEL,
        0x180,
        Some(0x8FFFFFFFFFFFFFFF),
        Ok(0x80000FFFFFFFFFFF),
    ),
    (
        KERNEL,
        0x180,
        Some(0x9000000000000000),
        Ok(0x80000FFFFFFFFFFF),
    ),
    (KERNEL, 0x180, Some(5), Ok(5)),
    // Time is let through by what was written into 0x106.
    (USER, 0xC01, None, Ok(7000)),
];

fn answer_to(csrs: &mut Csrs, row: &Access) -> Result<u64, CsrFault> {
    let (mode, number, written, _) = *row;
    let regs = hypervisor_registers(mode);
    if let Some(value) = written {
        csrs.write(&regs, number, value)?;
    }
    csrs.read(&regs, &LINES, number)
}

#[test]
fn accesses_one_after_another(rt: HostRuntime) {
    let mut csrs = Csrs::at_boot();
    for (number, row) in ACCESSES.iter().enumerate() {
        let answer = answer_to(&mut csrs, row);
        assert!(rt; answer == row.3, "row {number}");
    }
    assert_eq!(rt; (csrs.hie, csrs.hvip), (0x444, 4));
}
