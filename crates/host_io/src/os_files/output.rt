// Standard output.
ghost use Rattle.std.specs.Prelude.{◌≡◌, ◌<◌, IfOk, length};
ghost use Rattle.host_io.specs.Held.{real_sink};
ghost use Rattle.std.specs.Io.{WritesAtMost};

use crate::os_files::progress::Watch;
use crate::{Failed, Sink};
use std::io;
use std::io::{ErrorKind, Write};
use std::time::Clock;

/// How often a write that was interrupted is tried.
const MAX_TRIES: u32 = 1000;

/// Standard output. Standard error says of a fault the system's error and, to a person, the progress of a run.
#[derive(Drop)]
pub struct StdSink<R: Print + Eprint + Clock + Drop> {
    rt: R,
    faults: u64,
    is_watched: bool,
    // What was written last ended a line, or nothing was written.
    is_at_line: bool,
    watch: Watch,
}

impl<R: Print + Eprint + Clock + Drop> StdSink<R> {
    /// No write has failed yet. Where it is watched, standard error says about once a second how far a run has come, where
    /// standard output isn't within a line.
    pub fn new(rt: R, is_watched: bool) -> StdSink<R>
        ensures { real_sink result.faults ≡ real_sink 0 }
    {
        StdSink {
            rt,
            faults: 0,
            is_watched,
            is_at_line: true,
            watch: Watch::new(),
        }
    }

    // A failure changes nothing.
    fn remark_fault(&self, error: &io::Error) {
        let _written = eprintln!(self.rt; "secvisor: standard output: {error}");
    }
}

impl<R: Print + Eprint + Clock + Drop> Sink for StdSink<R> {
    ghost state = { λ s. real_sink s.faults };

    fn write(&mut self, piece: &[u8]) -> Result<usize, Failed> {
        match write_some(&self.rt, piece) {
            Ok(count) => {
                self.is_at_line = is_at_line(self.is_at_line, &piece[..count]);
                Ok(count)
            }
            Err(error) => {
                self.remark_fault(&error);
                self.faults += 1;
                Err(Failed)
            }
        }
    }

    fn note_progress(&mut self, events: u64, turns: u64) {
        if !self.is_watched || !self.is_at_line {
            return;
        }
        if let Some(rate) = self.watch.rate(&self.rt, events, turns) {
            let _written = eprintln!(self.rt; "secvisor: {rate}");
        }
    }
}

// After these bytes, where it was so before them.
fn is_at_line(before: bool, bytes: &[u8]) -> bool {
    match bytes.last() {
        Some(last) => *last == b'\n',
        None => before,
    }
}

// Writes the first bytes of a piece, at least one of a piece that isn't empty. Where a signal interrupts the write it is
// tried again.
fn write_some<R: Print>(rt: &R, piece: &[u8]) -> io::Result<usize>
    ensures bound { WritesAtMost result piece.now }
    ensures progress { IfOk result (λ n. 0 < length piece.now → 0 < n) }
{
    for _ in 0..MAX_TRIES {
        match io::writer(rt).write(piece) {
            Ok(count) => {
                if count == 0 && !piece.is_empty() {
                    return Err(io::Error::from(ErrorKind::WriteZero));
                }
                return Ok(count);
            }
            Err(error) => {
                if error.kind() != ErrorKind::Interrupted {
                    return Err(error);
                }
            }
        }
    }
    Err(io::Error::from(ErrorKind::Interrupted))
}
