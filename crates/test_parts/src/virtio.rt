// Requests over a disk of two sectors and nine pages of RAM, of which page 1 may not be written.
use dma_guard::{DiskPort, DmaGuard, DmaStep};
use host_mem::{HostMem, word_at};
use std::alloc::{AllocError, Global};
use std::process::Abort;
use std::test::Fail;
use virtio_blk::Virtio;

const STATUS: u64 = 0x070;

// Where the driver keeps the queue, a request's header, its result and its data.
const TABLE: u64 = 0x8000_2000;

const AVAILABLE: u64 = 0x8000_2400;

const USED: u64 = 0x8000_2800;

const HEADER: u64 = 0x8000_2C00;

const RESULT: u64 = 0x8000_2D00;

const DATA: u64 = 0x8000_8000;

// Stores by which a driver takes the feature, and gives a queue of 64 places.
static SET_UP: [(u64, u64); 11] = [
    (STATUS, 3),
    (0x024, 1),
    (0x020, 1),
    (STATUS, 11),
    (0x030, 0),
    (0x038, 64),
    (0x080, TABLE),
    (0x090, AVAILABLE),
    (0x0A0, USED),
    (0x044, 1),
    (STATUS, 15),
];

// Flags of a descriptor, in the second word of the two that it has: its length, its flags and the next one's place.
const NEXT: u64 = 1 << 32;

const WRITE: u64 = 2 << 32;

const INDIRECT: u64 = 4 << 32;

const PLACE: u64 = 1 << 48;

// An address in RAM and the word that is put there.
type Word = (u64, u64);

// The first sector is read into memory, by a chain that begins with the first descriptor.
static READ: [Word; 8] = [
    (RESULT, 0xAA),
    (TABLE, HEADER),
    (TABLE + 8, 16 | NEXT | PLACE),
    (TABLE + 16, DATA),
    (TABLE + 24, 512 | NEXT | WRITE | 2 * PLACE),
    (TABLE + 32, RESULT),
    (TABLE + 40, 1 | WRITE),
    (AVAILABLE, 1 << 16),
];

// Nothing is put outside RAM.
const NONE: Word = (0, 0);

// Words over those of the request; what the beat tells that follows so many others; and what is left: the status, the result's
// byte and the length in the used ring.
type Row = ((Word, Word, Word), usize, DmaStep, [u64; 3]);

const ENDED: DmaStep = DmaStep::Wrote {
    gpa: USED + 2,
    len: 2,
};

const PROTECTED: DmaStep = DmaStep::Denied { gpa: 0x8000_1000 };

const REFUSED: [u64; 3] = [15, 1, 1];

const BROKEN: [u64; 3] = [79, 0xAA, 0];

static ROWS: [Row; 17] = [
    // The first sector into memory, and the second one of memory.
    ((NONE, NONE, NONE), 12, ENDED, [15, 0, 513]),
    (
        (
            (HEADER, 1),
            (HEADER + 8, 1),
            (TABLE + 24, 512 | NEXT | 2 * PLACE),
        ),
        12,
        ENDED,
        [15, 0, 1],
    ),
    // The ninth move of data would be into the protected page.
    (
        (
            (TABLE + 16, 0x8000_0E00),
            (TABLE + 24, 1024 | NEXT | WRITE | 2 * PLACE),
            NONE,
        ),
        13,
        ENDED,
        [15, 1, 513],
    ),
    // The type isn't known.
    (((HEADER, 8), NONE, NONE), 4, ENDED, [15, 2, 1]),
    // No sectors, a part of one, sectors past the disk, data past RAM, flags that don't fit the type.
    (
        ((TABLE + 24, NEXT | WRITE | 2 * PLACE), NONE, NONE),
        4,
        ENDED,
        REFUSED,
    ),
    (
        ((TABLE + 24, 500 | NEXT | WRITE | 2 * PLACE), NONE, NONE),
        4,
        ENDED,
        REFUSED,
    ),
    (((HEADER + 8, 2), NONE, NONE), 4, ENDED, REFUSED),
    (((HEADER + 8, u64::MAX), NONE, NONE), 4, ENDED, REFUSED),
    (((TABLE + 16, 0x8000_8E01), NONE, NONE), 4, ENDED, REFUSED),
    (
        ((TABLE + 24, 512 | NEXT | 2 * PLACE), NONE, NONE),
        4,
        ENDED,
        REFUSED,
    ),
    (((HEADER, 1), NONE, NONE), 4, ENDED, REFUSED),
    // A descriptor that leads to itself, one past the table, a table of its own, a header past RAM.
    (
        ((TABLE + 24, 512 | NEXT | WRITE | PLACE), NONE, NONE),
        0,
        DmaStep::Range,
        BROKEN,
    ),
    (
        ((TABLE + 24, 512 | NEXT | WRITE | 64 * PLACE), NONE, NONE),
        0,
        DmaStep::Range,
        BROKEN,
    ),
    (
        (
            (TABLE + 24, 512 | NEXT | WRITE | INDIRECT | 2 * PLACE),
            NONE,
            NONE,
        ),
        0,
        DmaStep::Range,
        BROKEN,
    ),
    (
        ((TABLE, 0x8000_8FF8), NONE, NONE),
        0,
        DmaStep::Range,
        BROKEN,
    ),
    // The result would be written into the protected page.
    (
        ((TABLE + 32, 0x8000_1000), NONE, NONE),
        9,
        PROTECTED,
        BROKEN,
    ),
    // The index is more than the queue's places ahead.
    (
        ((AVAILABLE, 65 << 16), NONE, NONE),
        0,
        DmaStep::Range,
        BROKEN,
    ),
];

fn put_words(mem: &mut HostMem, words: &[Word]) {
    for &(gpa, word) in words {
        if let Some(place) = mem.place_in_ram(gpa, 8) {
            mem.copy_in(place, &word.to_le_bytes());
        }
    }
}

// Four bytes of RAM, 0 past it.
fn word(mem: &HostMem, gpa: u64) -> u64 {
    match mem.place_in_ram(gpa, 4) {
        Some(place) => word_at(mem.ram(), place, 4),
        None => 0,
    }
}

fn ready_device(alloc: Global) -> Result<Virtio, AllocError> {
    let mut device = Virtio::new(vec![in alloc; 7; 1024]?);
    for &(offset, value) in &SET_UP {
        device.store(offset, 4, value);
    }
    Ok(device)
}

// What the beat tells that follows so many others.
fn last_beat(device: &mut Virtio, guard: &DmaGuard, mem: &mut HostMem, beats: usize) -> DmaStep {
    for _ in 0..beats {
        device.beat(guard, mem);
    }
    device.beat(guard, mem)
}

fn check_row(
    rt: &impl Abort,
    device: &mut Virtio,
    guard: &DmaGuard,
    mem: &mut HostMem,
    number: usize,
    row: &Row,
) {
    let (first, second, third) = row.0;
    put_words(mem, &READ);
    put_words(mem, &[first, second, third]);
    let last = last_beat(device, guard, mem, row.1);
    let status = device.load(STATUS, 4).unwrap_or(0);
    let left = [status, word(mem, RESULT), word(mem, USED + 8)];
    assert!(rt; last == row.2 && left == row.3, "row {number}");
}

fn check_request(
    rt: &impl Abort,
    alloc: Global,
    number: usize,
    row: &Row,
) -> Result<(), AllocError> {
    let mut guard = DmaGuard::new(alloc, 9)?;
    guard.set(1, false);
    let mut mem = HostMem::new(alloc, 0, 9)?;
    let mut device = ready_device(alloc)?;
    check_row(rt, &mut device, &guard, &mut mem, number, row);
    Ok(())
}

#[test]
fn requests_and_their_ends(rt: HostRuntime) -> Result<(), Fail> {
    for (number, row) in ROWS.iter().enumerate() {
        check_request(&rt, rt.alloc(), number, row)?;
    }
    Ok(())
}
