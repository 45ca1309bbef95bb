// Files of the operating system that have no end.

use crate::values::line_of;
use cli_dispatch::Host;
use host_io::MemSink;
use host_io::os_files::RealFiles;
use live_keys::{MemKeys, Still};
use secvisor_cli::Bench;
use std::io;
use std::io::Write;
use std::sync::Wait;
use std::thread::Threads;

// The most bytes that a call prints.
const ROOM: usize = 1000;

/// The words of a call over each of these files: one byte more than its limit is read.
pub static ENDLESS: [&str; 2] = [
    "flat /dev/zero af44e185b81d5c466478c3f650919766a7722b3b76f26f5f2a238cca2bf39858 5",
    "run image /dev/zero none none 5 none",
];

/// Prints what a call with these words says of a file without end.
pub fn refuse_endless<
    R: Threads + Wait + Sync + AllocGlobal + Print,
    H: std::rt::Files + AllocGlobal + Eprint + Drop,
>(rt: &R, host: H, words: &str) -> io::Result<()> {
    let line = line_of(rt.alloc(), words)?;
    let mut out = MemSink::new(rt.alloc(), ROOM, ROOM, &[])?;
    let mut files = RealFiles::new(host, false);
    let mut bench = Bench { machine: None };
    let mut keys = MemKeys::new(Vec::new(rt.alloc()), Vec::new(rt.alloc()));
    let called = Host {
        rt,
        alloc: rt.alloc(),
        pace: &Still,
    };
    let status = cli_dispatch::answer(&called, &line, &mut files, &mut keys, &mut out, &mut bench);
    println!(rt; "status {}", status.number())?;
    io::writer(rt).write_all(out.taken_bytes())
}
