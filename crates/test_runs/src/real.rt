// Calls over the files of the operating system, standard input and standard output, as the program makes them.

use cli_dispatch::Host;
use host_io::os_files::{RealFiles, StdSink};
use live_keys::{ReaderKeys, Still};
use secvisor_cli::Bench;
use std::alloc::{AllocError, Global};
use std::io;
use std::sync::Wait;
use std::thread::Threads;

/// Makes the call with these words, and prints its status. The runtime itself has no threads here, so they are handed in.
pub fn call_real<R: Threads + Wait + Sync>(
    rt: &HostRuntime,
    threads: &R,
    words: &str,
) -> io::Result<()> {
    println!(rt; "== {words}")?;
    let line = words_of(rt.alloc(), words)?;
    let mut files = RealFiles::new(rt.clone()?, false);
    let mut keys = ReaderKeys::new(rt.reader());
    let mut out = StdSink::new(rt.clone()?, false);
    let mut bench = Bench { machine: None };
    let host = Host {
        rt: threads,
        alloc: rt.alloc(),
        pace: &Still,
    };
    let status = cli_dispatch::answer(&host, &line, &mut files, &mut keys, &mut out, &mut bench);
    println!(rt; "status {}", status.number())
}

fn words_of(alloc: Global, words: &str) -> Result<Vec<String>, AllocError> {
    let mut line = Vec::new(alloc);
    for word in words.split_whitespace() {
        line.push(String::from_str(alloc, word)?)?;
    }
    Ok(line)
}
