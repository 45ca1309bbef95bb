// Standard output over writers that take little, or nothing.

use host_io::os_files::StdSink;
use host_io::{Sink, write_all};
use std::fmt::Display;
use std::io;
use std::io::ErrorKind;
use std::process::Abort;
use std::sync::atomic::{AtomicU64, Ordering};
use std::time::{Clock, Duration};

// A writer that takes at most `most` bytes a write, after so many writes have failed in this way. Its clock goes on by 600
// milliseconds whenever it is read.
#[derive(Drop)]
struct Writer {
    most: usize,
    failing: u64,
    fault: ErrorKind,
    writes: AtomicU64,
    taken: AtomicU64,
    ticks: AtomicU64,
    told: AtomicU64,
}

impl Print for Writer {
    fn print<D: Display + Drop>(&self, _value: D) -> io::Result<()> {
        Ok(())
    }

    fn println<D: Display + Drop>(&self, _value: D) -> io::Result<()> {
        Ok(())
    }

    fn write_all(&self, _bytes: &[u8]) -> io::Result<()> {
        Ok(())
    }

    fn write_some(&self, bytes: &[u8]) -> io::Result<usize> {
        let writes = self.writes.fetch_add(1, Ordering::SeqCst);
        if writes < self.failing {
            return Err(io::Error::from(self.fault));
        }
        let count = bytes.len().min(self.most);
        let _before = self.taken.fetch_add(count as u64, Ordering::SeqCst);
        Ok(count)
    }
}

impl Eprint for Writer {
    fn eprint<D: Display + Drop>(&self, _value: D) -> io::Result<()> {
        Ok(())
    }

    fn eprintln<D: Display + Drop>(&self, _value: D) -> io::Result<()> {
        let _before = self.told.fetch_add(1, Ordering::SeqCst);
        Ok(())
    }
}

impl Clock for Writer {
    fn monotonic(&self) -> io::Result<Duration> {
        let before = self.ticks.fetch_add(1, Ordering::SeqCst);
        Ok(Duration::from_millis(before.saturating_mul(600)))
    }

    fn since_1970(&self) -> io::Result<Duration> {
        Err(io::Error::from(ErrorKind::Unsupported))
    }
}

// A text that is written and then so many notes of progress, to a writer.
struct Row {
    most: usize,
    failing: u64,
    fault: ErrorKind,
    text: &'static str,
    is_watched: bool,
    notes: u64,
    // whether all is written, the bytes that were taken, and the lines that a person was told
    left: (bool, u64, u64),
}

const WRITES: Row = Row {
    most: 4,
    failing: 0,
    fault: ErrorKind::Interrupted,
    text: "seven b",
    is_watched: false,
    notes: 0,
    left: (true, 7, 0),
};

const WATCHED: Row = Row {
    text: "",
    is_watched: true,
    left: (true, 0, 0),
    ..WRITES
};

static ROWS: [Row; 10] = [
    // All bytes are written where a part is taken each time, and where writes are interrupted.
    Row { most: 2, ..WRITES },
    Row {
        failing: 3,
        ..WRITES
    },
    // Other writes are faults, which a person is told: one that fails, one of no byte, and one that is always interrupted.
    Row {
        failing: 1,
        fault: ErrorKind::BrokenPipe,
        left: (false, 0, 1),
        ..WRITES
    },
    Row {
        most: 0,
        left: (false, 0, 1),
        ..WRITES
    },
    Row {
        failing: u64::MAX,
        left: (false, 0, 1),
        ..WRITES
    },
    // Progress is told about once a second where it is watched, at the start of a line.
    Row {
        notes: 2,
        ..WATCHED
    },
    Row {
        notes: 5,
        left: (true, 0, 2),
        ..WATCHED
    },
    Row {
        notes: 9,
        is_watched: false,
        ..WATCHED
    },
    Row {
        text: "a",
        notes: 9,
        left: (true, 1, 0),
        ..WATCHED
    },
    Row {
        text: "b\n",
        notes: 3,
        left: (true, 2, 1),
        ..WATCHED
    },
];

// The progress of a run is told so many times.
fn note(out: &mut impl Sink, times: u64) {
    for events in 0..times {
        out.note_progress(events, events);
    }
}

// Whether all is written of a row.
fn writes(writer: &Writer, row: &Row) -> bool {
    let mut out = StdSink::new(writer, row.is_watched);
    let written = write_all(&mut out, row.text.as_bytes());
    note(&mut out, row.notes);
    written.is_ok()
}

fn check_row(rt: &impl Abort, number: usize, row: &Row) {
    let writer = Writer {
        most: row.most,
        failing: row.failing,
        fault: row.fault,
        writes: AtomicU64::new(0),
        taken: AtomicU64::new(0),
        ticks: AtomicU64::new(0),
        told: AtomicU64::new(0),
    };
    let is_written = writes(&writer, row);
    let taken = writer.taken.load(Ordering::SeqCst);
    let told = writer.told.load(Ordering::SeqCst);
    assert!(rt; (is_written, taken, told) == row.left, "row {number}");
}

#[test]
fn what_is_taken_and_told(rt: HostRuntime) {
    for (number, row) in ROWS.iter().enumerate() {
        check_row(&rt, number, row);
    }
}
