// Calls of the program, and what is printed of them.

use crate::answers::answer;
use crate::case::Case;
use crate::memory::{GOOD, Left, Outside, PRINTED_ROOM, hold, left_behind};
use crate::values::line_of;
use cli_diagnostics::{MostBytes, remark};
use host_io::MemSink;
use secvisor_cli::{
    MAX_DISK_BYTES, MAX_FLAT_BYTES, MAX_IMAGE_BYTES, MAX_OBJECT_BYTES, MAX_POLICY_BYTES,
    MAX_SCRIPT_BYTES, Status,
};
use snapshot_format::reader::MAX_SNAPSHOT_BYTES;
use std::alloc::{AllocError, Global};
use std::io;
use std::io::Write;
use std::sync::Wait;
use std::thread::Threads;

/// The words of a call. In them `{measure}` is the measure.
pub fn line(alloc: Global, case: &Case, words: &str) -> Result<Vec<String>, AllocError> {
    let words = words.replace(alloc, "{measure}", case.measure.as_str())?;
    line_of(alloc, words.as_str())
}

/// Makes the call with these words.
pub fn make_call<R: Threads + Wait + Sync>(
    rt: &R,
    alloc: Global,
    case: &Case,
    line: &[String],
    outside: Outside,
) -> Result<Left, AllocError> {
    let mut files = hold(alloc, &case.handed, outside)?;
    let mut out = MemSink::new(
        alloc,
        PRINTED_ROOM,
        outside.piece.max(1),
        &[outside.failing_write],
    )?;
    let answer = answer(rt, alloc, line, &mut files, &mut out);
    left_behind(alloc, answer, &files, &out)
}

// Prints the status of a call, how many bytes it printed, and what it saved.
fn print_status<R: Print>(rt: &R, case: &Case, left: &Left) -> io::Result<()> {
    let status = left.status.number();
    let printed = left.taken.len();
    let machine = if left.is_booted {
        "booted"
    } else {
        "not booted"
    };
    match &left.saved {
        Some(saved) => {
            let count = saved.len();
            let same = held_as(case, saved);
            println!(rt; "status {status}, {machine}, {printed} bytes printed, {count} saved{same}")
        }
        None => println!(rt; "status {status}, {machine}, {printed} bytes printed, nothing saved"),
    }
}

// Which of the files what was saved is.
fn held_as(case: &Case, saved: &[u8]) -> &'static str {
    if saved == case.handed.policy.as_slice() {
        " as in the policy"
    } else if saved == case.handed.disk.as_slice() {
        " as on the disk"
    } else {
        ""
    }
}

// The most bytes of each part, as the program has them.
const MAX_BYTES: MostBytes = MostBytes {
    flat: MAX_FLAT_BYTES,
    policy: MAX_POLICY_BYTES,
    image: MAX_IMAGE_BYTES,
    disk: MAX_DISK_BYTES,
    script: MAX_SCRIPT_BYTES,
    module: MAX_OBJECT_BYTES,
    snapshot: MAX_SNAPSHOT_BYTES,
};

/// Prints what a person at a terminal is told of the file that is refused of a command.
pub fn print_remark<R: Threads + Wait + Sync + AllocGlobal + Print>(
    rt: &R,
    case: &Case,
    words: &str,
) -> io::Result<()> {
    let line = line(rt.alloc(), case, words)?;
    match remark(rt, rt.alloc(), &line, case, &MAX_BYTES) {
        Some(said) => println!(rt; "remark: {said}"),
        None => println!(rt; "no remark"),
    }
}

/// Prints the words of a call and its status, and keeps what it saved.
pub fn tell<R: AllocGlobal + Print>(
    rt: &R,
    case: &mut Case,
    words: &str,
    left: &Left,
) -> io::Result<()> {
    println!(rt; "secvisor {words}")?;
    print_status(rt, case, left)?;
    if let Some(saved) = &left.saved {
        case.saved = saved.to_vec(rt.alloc())?;
    }
    Ok(())
}

// Makes a call, and tells of it.
fn call_and_tell<R: Threads + Wait + Sync + AllocGlobal + Print>(
    rt: &R,
    case: &mut Case,
    words: &str,
) -> io::Result<Left> {
    let line = line(rt.alloc(), case, words)?;
    let left = make_call(rt, rt.alloc(), case, &line, case.outside)?;
    tell(rt, case, words, &left)?;
    Ok(left)
}

/// Prints bytes as lines.
pub fn print_lines<R: Print>(rt: &R, bytes: &[u8]) -> io::Result<()> {
    io::writer(rt).write_all(bytes)?;
    if bytes.is_empty() || bytes.ends_with(b"\n") {
        Ok(())
    } else {
        println!(rt)
    }
}

/// Makes a call and prints its status alone.
pub fn count<R: Threads + Wait + Sync + AllocGlobal + Print>(
    rt: &R,
    case: &mut Case,
    words: &str,
) -> io::Result<()> {
    call_and_tell(rt, case, words)?;
    Ok(())
}

/// Makes a call, prints its status and all that it prints, and what a person is told where a file is refused.
pub fn print<R: Threads + Wait + Sync + AllocGlobal + Print>(
    rt: &R,
    case: &mut Case,
    words: &str,
) -> io::Result<()> {
    let left = call_and_tell(rt, case, words)?;
    print_lines(rt, &left.taken)?;
    if left.status == Status::Refused {
        print_remark(rt, case, words)
    } else {
        Ok(())
    }
}

/// Makes a call, prints its status and all that it prints, and says where that is other where the sink takes little at a time.
pub fn print_pieces<R: Threads + Wait + Sync + AllocGlobal + Print>(
    rt: &R,
    case: &mut Case,
    words: &str,
) -> io::Result<()> {
    let whole = call_and_tell(rt, case, words)?;
    print_lines(rt, &whole.taken)?;
    let line = line(rt.alloc(), case, words)?;
    compare(rt, case, &line, 1, &whole)?;
    compare(rt, case, &line, 7, &whole)
}

// Says where the call prints something else if the sink takes so many bytes at a time.
fn compare<R: Threads + Wait + Sync + AllocGlobal + Print>(
    rt: &R,
    case: &Case,
    line: &[String],
    piece: usize,
    whole: &Left,
) -> io::Result<()> {
    let left = make_call(rt, rt.alloc(), case, line, Outside { piece, ..GOOD })?;
    if is_same(&left, whole) {
        Ok(())
    } else {
        println!(rt; "other bytes in pieces of {piece}")
    }
}

/// Two calls end and print the same.
pub fn is_same(left: &Left, other: &Left) -> bool {
    left.status == other.status && left.taken.as_slice() == other.taken.as_slice()
}

/// Makes a call and prints its status; makes it over a sink that takes a byte at a time, each of whose writes fails in turn,
/// and says which of these faults doesn't end the call right there.
pub fn print_writes<R: Threads + Wait + Sync + AllocGlobal + Print>(
    rt: &R,
    case: &mut Case,
    words: &str,
) -> io::Result<()> {
    let whole = call_and_tell(rt, case, words)?;
    let line = line(rt.alloc(), case, words)?;
    for before in 0..whole.taken.len() {
        stop_after(rt, case, &line, &whole.taken[..before])?;
    }
    Ok(())
}

// Says where the call goes on when the write after these bytes fails.
fn stop_after<R: Threads + Wait + Sync + AllocGlobal + Print>(
    rt: &R,
    case: &Case,
    line: &[String],
    before: &[u8],
) -> io::Result<()> {
    let count = before.len();
    let outside = Outside {
        failing_write: (count as u64).saturating_add(1),
        piece: 1,
        ..GOOD
    };
    let left = make_call(rt, rt.alloc(), case, line, outside)?;
    if has_stopped(&left, before) {
        Ok(())
    } else {
        println!(rt; "goes on behind {count} bytes")
    }
}

// The call has ended with a write that failed after these bytes.
fn has_stopped(left: &Left, before: &[u8]) -> bool {
    left.status == Status::WriteFault
        && left.taken.as_slice() == before
        && left.is_booted
        && left.saved.is_none()
}
