// Which interrupt is taken, by delegation, mode and SIE; and a trap with its return.

use crate::modes::{hypervisor_registers, registers_after};
use csr_file::{Csrs, into_guest, pending, return_to_guest};
use spec_processor::{ExitCause, Interrupt, Lines, Mode};

// A mode, the registers sstatus, sie and sip, the external and the timer's wire, and the first interrupt that is taken.
type Waiting = (Mode, u64, u64, u64, bool, bool, Option<Interrupt>);

const TIMER: Option<Interrupt> = Some(Interrupt::Timer);

const SOFTWARE: Option<Interrupt> = Some(Interrupt::Software);

const EXTERNAL: Option<Interrupt> = Some(Interrupt::External);

static WAITING: [Waiting; 7] = [
    // Where only the timer is enabled and SIE isn't set, user mode takes it.
    (Mode::User, 0, 1 << 5, 0, false, true, TIMER),
    (Mode::User, 0, 1 << 5, 0, true, false, None),
    (Mode::Kernel, 0, 1 << 5, 0, false, true, None),
    (Mode::Kernel, 2, 0x222, 0, false, false, None),
    (Mode::Kernel, 2, 0x222, 0, false, true, TIMER),
    (Mode::Kernel, 2, 0x222, 2, false, true, SOFTWARE),
    (Mode::Kernel, 2, 0x222, 2, true, true, EXTERNAL),
];

fn first_taken(row: &Waiting) -> Option<Interrupt> {
    let (mode, status, enabled, software, external, timer, _) = *row;
    let csrs = registers_after(&[(0x100, status), (0x104, enabled), (0x144, software)]);
    let lines = Lines {
        time: 0,
        external,
        timer,
    };
    pending(&csrs, &hypervisor_registers(mode), &lines)
}

#[test]
fn the_first_that_is_deliverable(rt: HostRuntime) {
    for (number, row) in WAITING.iter().enumerate() {
        assert!(rt; first_taken(row) == row.6, "row {number}");
    }
}

#[test]
fn a_vectored_interrupt_and_its_return(rt: HostRuntime) {
    let mut csrs = registers_after(&[(0x100, 0xC0002), (0x105, 0x80001101)]);
    let timer = ExitCause::Interrupt(Interrupt::Timer);
    assert_eq!(rt;
        into_guest(&mut csrs, Mode::Kernel, timer, 7, 0x80001000),
        0x80001114
    );
    assert_eq!(rt;
        [csrs.vsstatus, csrs.vsepc, csrs.vscause, csrs.vstval],
        [0xC0120, 0x80001000, 0x8000000000000005, 7]
    );
    assert!(rt; return_to_guest(&mut csrs) == (0x80001000, Mode::Kernel));
    assert_eq!(rt; csrs.vsstatus, 0xC0022);
}
