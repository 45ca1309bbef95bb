// The guests of `guests/` and their policies. A line of `runs.txt` and of `policies.txt` is a name, and the words of a call
// of the program.

use crate::answers::answer;
use crate::folder::hold_named;
use crate::memory::Answer;
use crate::values::line_of;
use host_io::{MemFiles, MemSink};
use std::io::Write;
use std::rt::Files;
use std::sync::Wait;
use std::thread::Threads;
use std::{fs, io};

// The most files that a call reads and saves, and the most bytes of all of them.
const FILES: usize = 8;

const FILE_BYTES: usize = 65_536;

// The most bytes that a call prints.
const OUTPUT_BYTES: usize = 65_536;

// What a call left behind.
#[derive(Drop)]
struct Left {
    answer: Answer,
    files: MemFiles,
    out: MemSink,
}

// The call with these words, over the files that they name. The file that it is to make isn't there yet.
fn call<R: Threads + Wait + Sync + Files + AllocGlobal>(
    rt: &R,
    words: &[String],
    made: &str,
) -> io::Result<Left> {
    let alloc = rt.alloc();
    let mut files = MemFiles::new(alloc, &[], FILES, FILE_BYTES, &[], &[])?;
    hold_named(rt, words, made, &mut files)?;
    let mut out = MemSink::new(alloc, OUTPUT_BYTES, OUTPUT_BYTES, &[])?;
    let answer = answer(rt, alloc, words, &mut files, &mut out);
    Ok(Left { answer, files, out })
}

/// Prints of each guest of a list its name, the status of its run and all that the run prints.
pub fn run_guests<R: Threads + Wait + Sync + Files + AllocGlobal + Print>(
    rt: &R,
    list: &str,
) -> io::Result<()> {
    let text = fs::read_to_string(rt, list)?;
    for line in text.as_str().lines() {
        if let Some((name, words)) = named_words(line) {
            run_guest(rt, name, words)?;
        }
    }
    Ok(())
}

/// Says of each policy of a list whether it is what the call makes.
pub fn compare_policies<R: Threads + Wait + Sync + Files + AllocGlobal + Print>(
    rt: &R,
    list: &str,
) -> io::Result<()> {
    let text = fs::read_to_string(rt, list)?;
    for line in text.as_str().lines() {
        if let Some((name, words)) = named_words(line) {
            compare_policy(rt, name, words)?;
        }
    }
    Ok(())
}

fn run_guest<R: Threads + Wait + Sync + Files + AllocGlobal + Print>(
    rt: &R,
    name: &str,
    words: &str,
) -> io::Result<()> {
    let left = call_words(rt, name, words)?;
    print_run(rt, name, &left)
}

fn compare_policy<R: Threads + Wait + Sync + Files + AllocGlobal + Print>(
    rt: &R,
    name: &str,
    words: &str,
) -> io::Result<()> {
    let left = call_words(rt, name, words)?;
    print_comparison(rt, name, &left)
}

// The name at the start of a line, and the words after it. A remark has none.
fn named_words(line: &str) -> Option<(&str, &str)> {
    if line.starts_with('#') {
        None
    } else {
        line.split_once(' ')
    }
}

fn call_words<R: Threads + Wait + Sync + Files + AllocGlobal>(
    rt: &R,
    name: &str,
    words: &str,
) -> io::Result<Left> {
    let line = line_of(rt.alloc(), words)?;
    call(rt, &line, name)
}

fn print_run<R: Print>(rt: &R, name: &str, left: &Left) -> io::Result<()> {
    println!(rt; "guest {name} status {}", left.answer.status.number())?;
    io::writer(rt).write_all(left.out.taken_bytes())
}

// Whether the call left the very bytes under a name that lie there.
fn print_comparison<R: Files + AllocGlobal + Print>(
    rt: &R,
    name: &str,
    left: &Left,
) -> io::Result<()> {
    let stored = fs::read(rt, name)?;
    let verdict = if left.files.bytes(name) == Some(stored.as_slice()) {
        "ok"
    } else {
        "differs"
    };
    println!(rt; "policy {name} {verdict}")
}
