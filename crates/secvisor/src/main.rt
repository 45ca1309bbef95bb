//! The program `secvisor`: its words, the files of the operating system, standard input and standard output.
#![tactic(auto)]

mod again;
mod version;
mod watching;

use again::PlainFiles;
use cli_diagnostics::{
    Ending, MostBytes, WordRemark, help, remark, script_remark, stop_remark, word_remark,
};
use cli_dispatch::{Host, answer};
use host_io::os_files::{Escaped, RealFiles, StdSink};
use live_keys::ReaderKeys;
use secvisor_cli::{
    Bench, MAX_DISK_BYTES, MAX_FLAT_BYTES, MAX_IMAGE_BYTES, MAX_OBJECT_BYTES, MAX_POLICY_BYTES,
    MAX_SCRIPT_BYTES, Status,
};
use snapshot_format::reader::MAX_SNAPSHOT_BYTES;
use std::alloc::AllocError;
use std::env;
use std::io::{ErrorKind, IsTerminal};
use std::process::ExitCode;
use std::thread::Threads;
use version::VERSION;
use watching::Watching;

// Every end has its status, out of memory before the program is called too.
fn main(rt: HostRuntime) -> ExitCode {
    let Ok(words) = words(&rt) else {
        return ExitCode::from(Status::Memory.number());
    };
    let Ok(reading) = rt.clone() else {
        return ExitCode::from(Status::Memory.number());
    };
    let Ok(printing) = rt.clone() else {
        return ExitCode::from(Status::Memory.number());
    };
    let Ok(counting) = rt.clone() else {
        return ExitCode::from(Status::Memory.number());
    };
    let is_watched = rt.stderr().is_terminal();
    if is_watched {
        explain_script(&rt, &words);
    }
    let watching = Watching::new(counting, is_watched);
    let mut files = RealFiles::new(reading, is_watched);
    let mut keys = ReaderKeys::new(rt.reader());
    let mut out = StdSink::new(printing, is_watched);
    let mut bench = Bench { machine: None };
    let host = Host {
        rt: &rt,
        alloc: rt.alloc(),
        pace: &watching,
    };
    let status = answer(&host, &words, &mut files, &mut keys, &mut out, &mut bench);
    watching.end();
    explain(&rt, &rt, &words, status);
    if is_watched {
        explain_ending(&rt, &words, &bench);
    }
    ExitCode::from(status.number())
}

/// The most bytes of each part, as the top call reads them.
const MAX_BYTES: MostBytes = MostBytes {
    flat: MAX_FLAT_BYTES,
    policy: MAX_POLICY_BYTES,
    image: MAX_IMAGE_BYTES,
    disk: MAX_DISK_BYTES,
    script: MAX_SCRIPT_BYTES,
    module: MAX_OBJECT_BYTES,
    snapshot: MAX_SNAPSHOT_BYTES,
};

// To a person, on standard error. A failure changes nothing.
#[inline(never)]
fn explain<R: Threads + Sync>(rt: &HostRuntime, threads: &R, words: &[String], status: Status) {
    match status {
        Status::Usage => explain_words(rt, words),
        Status::Refused => {
            let files = PlainFiles { rt };
            if let Some(said) = remark(threads, rt.alloc(), words, &files, &MAX_BYTES) {
                say(rt, said.as_str());
            }
        }
        Status::Memory => say(rt, "out of memory"),
        _ => {}
    }
}

// Of a name under which `live` saves its script that `run` takes for no file.
fn explain_script(rt: &HostRuntime, words: &[String]) {
    if let Some(said) = script_remark(words) {
        say(rt, said);
    }
}

// Of a run that a broken rule stopped what broke it, and else of the first module that was refused.
#[inline(never)]
fn explain_ending(rt: &HostRuntime, words: &[String], bench: &Bench) {
    if let Some(machine) = &bench.machine {
        let ending = Ending {
            verdict: machine.verdict(),
            notes: machine.journal(),
        };
        let files = PlainFiles { rt };
        if let Some(said) = stop_remark(rt.alloc(), words, &files, &MAX_BYTES, &ending) {
            say(rt, said.as_str());
        }
    }
}

// All of the help where it is asked for, and else what is wrong with which word.
fn explain_words(rt: &HostRuntime, words: &[String]) {
    match words {
        [] => explain_all(rt),
        [first, ..] => match first.as_str() {
            "help" | "--help" => explain_all(rt),
            "--version" => {
                let _written = eprint!(rt; "{}", VERSION);
            }
            _ => {
                if let Ok(said) = word_remark(rt.alloc(), words) {
                    explain_word(rt, &said);
                }
            }
        },
    }
}

fn explain_all(rt: &HostRuntime) {
    if let Ok(text) = help(rt.alloc()) {
        let _written = eprint!(rt; "{}", text.as_str());
    }
}

fn explain_word(rt: &HostRuntime, said: &WordRemark) {
    say(rt, said.what.as_str());
    say(rt, said.permitted.as_str());
    say(rt, said.usage.as_str());
}

// A line, in which control characters are escapes.
fn say(rt: &HostRuntime, text: &str) {
    let text = Escaped { text };
    let _written = eprintln!(rt; "secvisor: {text}");
}

// The words after the program's name. Where one is no UTF-8 text they are none, which are of no command. It is
// out of line for where that lays the loop over the events (docs/SPEED.md).
#[inline(never)]
fn words(rt: &HostRuntime) -> Result<Vec<String>, AllocError> {
    let mut words = Vec::new(rt.alloc());
    match env::args(rt) {
        Ok(all) => {
            for word in all.skip(1) {
                words.push(word)?;
            }
        }
        Err(error) => {
            if error.kind() == ErrorKind::OutOfMemory {
                return Err(AllocError);
            }
        }
    }
    Ok(words)
}
