// Live runs, whose keys a second thread reads.
ghost use Rattle.std.specs.Prelude.{◌≡◌, ◌<◌, ◌-◌, IfOk};
ghost use Rattle.spec_processor.specs.Counters.{CanCount};

use crate::answers::answer_with;
use crate::calls::{is_same, line, make_call, print_lines, tell};
use crate::case::Case;
use crate::memory::{GOOD, Left, PRINTED_ROOM, hold, left_behind};
use crate::values::{first_word, number};
use cli_dispatch::{Host, Progress};
use host_io::{Failed, MemFiles, MemSink};
use live_keys::{Keys, MemKeys, Pace, Still};
use std::alloc::{AllocError, Global};
use std::io;
use std::sync::Wait;
use std::sync::atomic::{AtomicU64, Ordering};
use std::thread::Threads;

// The live run of a case.
fn live<R: Threads + Wait + Sync, K: Keys + Send, P: Pace + Progress + Sync>(
    rt: &R,
    alloc: Global,
    case: &Case,
    line: &[String],
    keys: &mut K,
    pace: &P,
) -> Result<Left, AllocError>
    requires keys { CanCount (K.state keys.old).faults }
{
    let outside = case.outside;
    let mut files = hold(alloc, &case.handed, outside)?;
    let mut out = MemSink::new(
        alloc,
        PRINTED_ROOM,
        outside.piece.max(1),
        &[outside.failing_write],
    )?;
    let host = Host { rt, alloc, pace };
    let answer = answer_with(&host, line, &mut files, keys, &mut out);
    left_behind(alloc, answer, &files, &out)
}

// So many keys of one byte.
fn keys_of(alloc: Global, count: usize, failing: u64) -> Result<MemKeys, AllocError>
    ensures { IfOk result (λ k. k.faults ≡ 0) }
{
    let bytes = vec![in alloc; b'A'; count]?;
    Ok(MemKeys::new(bytes, [failing].to_vec(alloc)?))
}

// The live run of a case, in which so many keys are typed, and the read of one fails.
fn live_with_keys<R: Threads + Wait + Sync>(
    rt: &R,
    alloc: Global,
    case: &Case,
    line: &[String],
    count: usize,
    failing: u64,
) -> Result<Left, AllocError> {
    let mut keys = keys_of(alloc, count, failing)?;
    live(rt, alloc, case, line, &mut keys, &Still)
}

/// Makes a live call, after the number of keys that are typed and the number of the read that fails; prints its status and
/// all that it prints.
pub fn print_live<R: Threads + Wait + Sync + AllocGlobal + Print>(
    rt: &R,
    case: &mut Case,
    words: &str,
) -> io::Result<()> {
    let (count, words) = first_word(words);
    let (failing, words) = first_word(words);
    let line = line(rt.alloc(), case, words)?;
    let count = number(count) as usize;
    let left = live_with_keys(rt, rt.alloc(), case, &line, count, number(failing))?;
    tell(rt, case, words, &left)?;
    print_lines(rt, &left.taken)
}

// ---- two threads

// A thread that waits for one that the machine gives no time, as under a heavy load, waits a second or two at least.
const MAX_TURNS: u64 = 2_000_000_000;

const HELD_EVENT: u64 = 1000;

// How far each thread has come, and whether each waited with success.
#[derive(Drop)]
struct Gate {
    begun: AtomicU64,
    sent: AtomicU64,
    key_came: AtomicU64,
    event_came: AtomicU64,
}

// Waits for a number, and notes that it came.
fn wait(number: &AtomicU64, least: u64, came: &AtomicU64) {
    for _ in 0..MAX_TURNS {
        if number.load(Ordering::SeqCst) >= least {
            came.store(1, Ordering::SeqCst);
            return;
        }
    }
}

// Keys whose second byte waits until event 1,000 has begun.
#[derive(Drop)]
struct HeldKeys<'a> {
    inner: MemKeys,
    gate: &'a Gate,
    reads: u64,
}

impl Keys for HeldKeys<'_> {
    ghost state = { λ k. ⟦<MemKeys as Keys>⟧.state k.inner };

    fn next(&mut self) -> Result<Option<u8>, Failed> {
        if self.reads == 1 {
            wait(&self.gate.begun, HELD_EVENT, &self.gate.key_came);
        }
        self.reads = self.reads.saturating_add(1);
        self.inner.next()
    }
}

// Event 1,000 waits until a byte was sent.
#[derive(Drop)]
struct HeldPace<'a> {
    gate: &'a Gate,
}

impl Pace for HeldPace<'_> {
    fn note_sent(&self, count: u64) {
        self.gate.sent.store(count, Ordering::SeqCst);
    }

    fn begin(&self, event: u64) {
        self.gate.begun.store(event, Ordering::SeqCst);
        if event == HELD_EVENT {
            wait(&self.gate.sent, 1, &self.gate.event_came);
        }
    }
}

impl Progress for HeldPace<'_> {
    fn count_run(&self) {}
}

// How many events stand before the first key, in a script that has one.
fn events_before_a_key(script: &[u8]) -> u64 {
    let mut events = 0u64;
    if !script.starts_with(b"auto ") {
        return events;
    }
    for byte in script.iter().skip(5) {
        if !byte.is_ascii_digit() {
            return events;
        }
        let digit = byte.saturating_sub(b'0');
        events = events.saturating_mul(10).saturating_add(digit as u64);
    }
    events
}

// The live run of a case in which each thread waits for the other.
fn live_with_gate<R: Threads + Wait + Sync>(
    rt: &R,
    alloc: Global,
    case: &Case,
    line: &[String],
    gate: &Gate,
) -> Result<Left, AllocError> {
    let mut keys = HeldKeys {
        inner: keys_of(alloc, 2, 0)?,
        gate,
        reads: 0,
    };
    live(rt, alloc, case, line, &mut keys, &HeldPace { gate })
}

fn print_gate<R: Print>(rt: &R, gate: &Gate) -> io::Result<()> {
    let key = gate.key_came.load(Ordering::SeqCst);
    let event = gate.event_came.load(Ordering::SeqCst);
    println!(rt; "waited with success: keys {key}, events {event}")
}

/// Makes a live call with two keys. The second is read only once event 1,000 has begun, and that event waits for the first:
/// so a run that reads all keys before the events, or makes the events before the keys, waits in vain. Prints whether each
/// waited with success, and whether the first key is among the events so far. The script of the case is then what was saved.
pub fn print_held<R: Threads + Wait + Sync + AllocGlobal + Print>(
    rt: &R,
    case: &mut Case,
    words: &str,
) -> io::Result<()> {
    let left = live_held(rt, case, words)?;
    keep_script(rt.alloc(), case, &left)?;
    let is_early = events_before_a_key(&case.handed.script) <= HELD_EVENT;
    println!(rt; "the first key is among the events so far: {is_early}")?;
    print_again(rt, case, words, &left)
}

// The call behind its gate, whose waits are printed.
fn live_held<R: Threads + Wait + Sync + AllocGlobal + Print>(
    rt: &R,
    case: &Case,
    words: &str,
) -> io::Result<Left> {
    let gate = Gate {
        begun: AtomicU64::new(0),
        sent: AtomicU64::new(0),
        key_came: AtomicU64::new(0),
        event_came: AtomicU64::new(0),
    };
    let line = line(rt.alloc(), case, words)?;
    let left = live_with_gate(rt, rt.alloc(), case, &line, &gate)?;
    print_gate(rt, &gate)?;
    Ok(left)
}

fn keep_script(alloc: Global, case: &mut Case, left: &Left) -> Result<(), AllocError> {
    if let Some(saved) = &left.saved {
        case.handed.script = saved.to_vec(alloc)?;
    }
    Ok(())
}

// The words of the run that replays a live run: over the same image, policy and disk, with two keys more.
fn replaying(alloc: Global, words: &str) -> Result<String, AllocError> {
    let (live, words) = first_word(words);
    let (image, words) = first_word(words);
    let (policy, words) = first_word(words);
    let (disk, _) = first_word(words);
    let run = if live == "vlive" { "vrun" } else { "run" };
    format!(in alloc; "{run} {image} {policy} {disk} script 5002 none")
}

// Prints whether the run over what was saved prints the same.
fn print_again<R: Threads + Wait + Sync + AllocGlobal + Print>(
    rt: &R,
    case: &Case,
    words: &str,
    left: &Left,
) -> io::Result<()> {
    let words = replaying(rt.alloc(), words)?;
    let line = line(rt.alloc(), case, words.as_str())?;
    let again = make_call(rt, rt.alloc(), case, &line, GOOD)?;
    let is_same = is_same(&again, left);
    println!(rt; "its script is run with the same report: {is_same}")
}
