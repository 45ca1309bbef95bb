// Sessions of a debugger over the guests of `guests/`. A line of `sessions.txt` is a name, the words of a call, a bar, and what the
// debugger sends: payloads, each of which is put in a frame, and after an exclamation mark bytes as they are.

use crate::answers::answer_with;
use crate::folder::hold_named;
use crate::memory::Answer;
use crate::values::line_of;
use cli_dispatch::Host;
use gdb_protocol::push_frame;
use host_io::{MemFiles, MemSink};
use live_keys::{MemKeys, Still};
use std::alloc::{AllocError, Global};
use std::io::Write;
use std::rt::Files;
use std::sync::Wait;
use std::thread::Threads;
use std::{fs, io};

// The most files that a call reads, and the most bytes of all of them.
const FILES: usize = 8;

const FILE_BYTES: usize = 65_536;

// The most bytes that a session writes.
const ANSWER_BYTES: usize = 65_536;

/// Prints of each session of a list its name and status, and each answer on a line of its own.
pub fn run_sessions<R: Threads + Wait + Sync + Files + AllocGlobal + Print>(
    rt: &R,
    list: &str,
) -> io::Result<()> {
    let text = fs::read_to_string(rt, list)?;
    for line in text.as_str().lines() {
        if !line.starts_with('#') {
            run_session(rt, line)?;
        }
    }
    Ok(())
}

fn run_session<R: Threads + Wait + Sync + Files + AllocGlobal + Print>(
    rt: &R,
    line: &str,
) -> io::Result<()> {
    let (call, sent) = line.split_once(" | ").unwrap_or((line, ""));
    let (name, words) = call.split_once(' ').unwrap_or((call, ""));
    let words = line_of(rt.alloc(), words)?;
    let sent = bytes_sent(rt.alloc(), sent)?;
    let (answer, out) = serve(rt, &words, sent)?;
    println!(rt; "session {name} status {}", answer.status.number())?;
    print_answers(rt, out.taken_bytes())
}

// What a debugger sends.
fn bytes_sent(alloc: Global, sent: &str) -> Result<Vec<u8>, AllocError> {
    let mut bytes = Vec::new(alloc);
    for word in sent.split_whitespace() {
        match word.strip_prefix('!') {
            Some(plain) => bytes.extend_from_slice(plain.as_bytes())?,
            None => push_frame(&mut bytes, word.as_bytes())?,
        }
    }
    Ok(bytes)
}

// The call with these words, to which these bytes come in.
fn serve<R: Threads + Wait + Sync + Files + AllocGlobal>(
    rt: &R,
    words: &[String],
    sent: Vec<u8>,
) -> io::Result<(Answer, MemSink)> {
    let alloc = rt.alloc();
    let mut files = MemFiles::new(alloc, &[], FILES, FILE_BYTES, &[], &[])?;
    hold_named(rt, words, "", &mut files)?;
    let mut keys = MemKeys::new(sent, Vec::new(alloc));
    let mut out = MemSink::new(alloc, ANSWER_BYTES, ANSWER_BYTES, &[])?;
    let host = Host {
        rt,
        alloc,
        pace: &Still,
    };
    let answer = answer_with(&host, words, &mut files, &mut keys, &mut out);
    Ok((answer, out))
}

// A line ends after the checksum of each frame.
fn print_answers<R: Print>(rt: &R, bytes: &[u8]) -> io::Result<()> {
    let mut left = 0;
    for byte in bytes {
        io::writer(rt).write_all(&[*byte])?;
        if *byte == b'#' {
            left = 2;
        } else if left > 0 {
            left -= 1;
            if left == 0 {
                println!(rt)?;
            }
        }
    }
    if bytes.is_empty() || left > 0 || !is_at_end_of_frame(bytes) {
        println!(rt)?;
    }
    Ok(())
}

fn is_at_end_of_frame(bytes: &[u8]) -> bool {
    match bytes {
        [.., mark, _, _] => *mark == b'#',
        _ => false,
    }
}
