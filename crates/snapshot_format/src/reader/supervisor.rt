// The bytes of a hart's supervisor registers.

ghost use Rattle.std.specs.Prelude.{◌≡◌, [], ◌==◌};
ghost use Rattle.spec_processor.specs.Registers.{legal_satp};
ghost use Rattle.snapshot_format.specs.Forms.{list_form, number, within};
ghost use Rattle.snapshot_format.specs.HartForms.{status};
ghost use Rattle.snapshot_format.specs.Reading.{Gives};
ghost use Rattle.snapshot_format.specs.Rows.{may_hold, register_after, status_of_row};

use crate::SnapRefusal;
use crate::reader::values::read_number;
use csr_file::{
    INTERRUPT_BITS, MISALIGNED, SATP_BITS, SOFTWARE_INTERRUPT, STATUS_BITS, TIME_ENABLE,
    TVEC_RESERVED,
};
use spec_processor::{BARE, ROOT_MODE_SHIFT, SV39};

/// The supervisor registers: sstatus, sie, stvec, scounteren, sscratch, sepc, scause, stval, sip and satp.
pub(crate) const SUPERVISOR: usize = 10;

// The places of those that may not hold every number.
const SSTATUS: usize = 0;

const SIE: usize = 1;

const STVEC: usize = 2;

const SCOUNTEREN: usize = 3;

const SEPC: usize = 5;

const SIP: usize = 8;

const SATP: usize = 9;

pub(crate) fn read_status(bytes: &[u8]) -> Result<([u64; SUPERVISOR], &[u8]), SnapRefusal>
    ensures { Gives (λ x. (status_of_row x.0, x.1.now)) result (status.taken bytes.now) }
{
    read_row(bytes)
}

fn read_row(bytes: &[u8]) -> Result<([u64; SUPERVISOR], &[u8]), SnapRefusal>
    ensures { Gives (λ x. (x.0, x.1.now)) result ((list_form register_after [] 10).taken bytes.now) }
{
    let mut row = [0; SUPERVISOR];
    let mut rest = bytes;
    'row: for i in 0..SUPERVISOR {
        let (n, after) = read_register(rest, i)?;
        row[i] = n;
        rest = after;
    }
    Ok((row, rest))
}

fn read_register(bytes: &[u8], place: usize) -> Result<(u64, &[u8]), SnapRefusal>
    ensures { Gives (λ x. (x.0, x.1.now)) result ((within (may_hold place) number).taken bytes.now) }
{
    let (n, rest) = read_number(bytes)?;
    if !may_hold(place, n) {
        return Err(SnapRefusal::OutOfRange);
    }
    Ok((n, rest))
}

// Whether the register at this place may hold a number. In sip the software interrupt may stand, or nothing.
fn may_hold(place: usize, n: u64) -> bool
    ensures { result ≡ may_hold place n }
{
    match place {
        SSTATUS => n & STATUS_BITS == n,
        SIE => n & INTERRUPT_BITS == n,
        STVEC => n & !TVEC_RESERVED == n,
        SCOUNTEREN => n & TIME_ENABLE == n,
        SEPC => n & !MISALIGNED == n,
        SIP => n == 0 || n == SOFTWARE_INTERRUPT,
        SATP => is_root(n),
        _ => true,
    }
}

// The modes are Bare and Sv39; the register never has another.
fn is_root(n: u64) -> bool
    ensures { result ≡ (legal_satp 0 n == n) }
{
    let mode = n >> ROOT_MODE_SHIFT;
    if mode == BARE || mode == SV39 {
        n & SATP_BITS == n
    } else {
        n == 0
    }
}
