// Answers of packets that move nothing.
ghost use Rattle.std.specs.Prelude.{◌≡◌, ◌++◌, ◌-◌, OnOk, codes, is_some, string_bytes};
ghost use Rattle.gdb_protocol.specs.Digits.{byte_digits};
ghost use Rattle.debug_views.specs.Looks as look;
ghost use Rattle.debug_session.specs.Halts.{halt_value};
ghost use Rattle.debug_session.specs.Runs.{Run, state};
ghost use Rattle.debug_session.specs.Sessions as spec;

use crate::desk::Desk;
use crate::motion::{Change, meets_break};
use crate::target::Target;
use crate::watches::{Watch, watch_of};
use debug_views::description::{SUPPORTED, description};
use debug_views::{ERROR, hart_words, push_register, push_registers, push_seen_bytes};
use gdb_protocol::{Packet, Range, Stop, Thread, push_digits, push_part, push_stop};
use spec_processor::Lines;
use spec_reference::saved_machine::SavedHart;
use std::alloc::{AllocError, Global};
use sv_types::Verdict;

/// The answer to what is done.
pub(crate) const OK: &[u8] = b"OK";

// The most bytes of memory in an answer.
const MAX_BYTES: u64 = 8000;

/// Why a run stands where it does, and the hart that it is due to.
#[derive(Clone, Copy, Drop)]
pub struct Halt {
    pub stop: Stop,
    pub hart: u8,
}

/// The hart that a thread's number names. None where there is none.
pub(crate) fn hart_of(harts: u8, chosen: u8, thread: Thread) -> Option<u8>
    ensures { result ≡ spec.hart_of harts chosen thread }
{
    match thread {
        Thread::Any => Some(chosen),
        Thread::Number(number) => {
            if 0 < number && number <= u64::from(harts) {
                Some((number - 1) as u8)
            } else {
                None
            }
        }
    }
}

/// Why a run stands where it does.
#[tactic(auto, unfolding(crate::specs::Sessions::halt_of))]
pub(crate) fn halt_of<T: Target>(
    target: &T,
    change: Option<Change>,
    breaks: &[u64],
    hart: u8,
) -> Halt
    ensures { (run : Run) → T.stands target.now run → halt_value result ≡ spec.halt_of change breaks.now hart run }
{
    match target.verdict() {
        Verdict::Running => changed_halt(target, change, breaks, hart),
        Verdict::Shutdown => Halt {
            stop: Stop::End,
            hart,
        },
        Verdict::Stopped { hart: broke, .. } => Halt {
            stop: Stop::Fault,
            hart: broke,
        },
    }
}

// By a change of what is watched, where there is one.
fn changed_halt<T: Target>(target: &T, change: Option<Change>, breaks: &[u64], hart: u8) -> Halt
    ensures { (run : Run) → T.stands target.now run → halt_value result ≡ spec.changed_halt change breaks.now hart run }
{
    match change {
        Some(change) => Halt {
            stop: Stop::Write(change.address),
            hart: change.turn.unwrap_or(hart),
        },
        None => running_halt(target, breaks, hart),
    }
}

fn running_halt<T: Target>(target: &T, breaks: &[u64], hart: u8) -> Halt
    ensures { (run : Run) → T.stands target.now run → halt_value result ≡ spec.running_halt breaks.now hart run }
{
    if meets_break(target, breaks) {
        Halt {
            stop: Stop::Break,
            hart: target.next_turn().unwrap_or(hart),
        }
    } else {
        Halt {
            stop: Stop::Step,
            hart,
        }
    }
}

/// The number of a hart's thread: harts are numbered from 0 on, threads from 1 on.
pub(crate) fn thread_of_hart(hart: u8) -> u8
    ensures { result ≡ spec.thread_of_hart hart }
{
    hart.wrapping_add(1)
}

/// The reason of a halt is put at the end.
pub(crate) fn push_halt(out: &mut Vec<u8>, halt: Halt) -> Result<(), AllocError>
    ensures { OnOk result (out.new.items ≡ out.old.items ++ spec.halt_text (halt_value halt)) }
{
    push_stop(out, halt.stop, thread_of_hart(halt.hart))
}

fn push_thread(out: &mut Vec<u8>, hart: u8) -> Result<(), AllocError>
    ensures { OnOk result (out.new.items ≡ out.old.items ++ spec.thread_digits hart) }
{
    push_digits(out, &[thread_of_hart(hart)])
}

fn push_current(out: &mut Vec<u8>, hart: u8) -> Result<(), AllocError>
    ensures { OnOk result (out.new.items ≡ out.old.items ++ (codes "QC" ++ spec.thread_digits hart)) }
{
    out.extend_from_slice(b"QC")?;
    push_thread(out, hart)
}

// The threads from one on, a comma before each.
fn push_more_threads(out: &mut Vec<u8>, harts: u8) -> Result<(), AllocError>
    ensures { OnOk result (out.new.items ≡ out.old.items ++ spec.more_threads 1 (harts - 1)) }
{
    'harts: for hart in 1..harts {
        out.extend_from_slice(b",")?;
        push_thread(out, hart)?;
    }
    Ok(())
}

#[tactic(auto, unfolding(crate::specs::Sessions::threads_text))]
fn push_threads(out: &mut Vec<u8>, harts: u8) -> Result<(), AllocError>
    ensures { OnOk result (out.new.items ≡ out.old.items ++ spec.threads_text harts) }
{
    out.extend_from_slice(b"m")?;
    if harts == 0 {
        return Ok(());
    }
    push_thread(out, 0)?;
    push_more_threads(out, harts)
}

fn push_if(out: &mut Vec<u8>, is_done: bool) -> Result<(), AllocError>
    ensures { OnOk result (out.new.items ≡ out.old.items ++ spec.ok_or_error is_done) }
{
    if is_done {
        out.extend_from_slice(OK)
    } else {
        out.extend_from_slice(ERROR)
    }
}

fn push_all_registers(
    out: &mut Vec<u8>,
    hart: Option<SavedHart>,
    lines: Option<Lines>,
) -> Result<(), AllocError>
    ensures { OnOk result (out.new.items ≡ out.old.items ++ spec.of_wired_hart look.registers_text hart lines) }
{
    match (hart, lines) {
        (Some(hart), Some(lines)) => push_registers(out, &hart, lines),
        _ => out.extend_from_slice(ERROR),
    }
}

fn push_registers_of<T: Target>(out: &mut Vec<u8>, target: &T, hart: u8) -> Result<(), AllocError>
    ensures { OnOk result ((run : Run) → T.stands target.now run →
        out.new.items ≡ out.old.items ++ spec.of_wired_hart look.registers_text (spec.hart_at run hart) (spec.lines_of run hart)) }
{
    push_all_registers(out, target.hart(hart), target.lines(hart))
}

fn push_one_register(
    out: &mut Vec<u8>,
    hart: Option<SavedHart>,
    lines: Option<Lines>,
    number: u64,
) -> Result<(), AllocError>
    ensures { OnOk result (out.new.items ≡ out.old.items ++ spec.of_wired_hart (λ h l. look.register_text h l number) hart lines) }
{
    match (hart, lines) {
        (Some(hart), Some(lines)) => push_register(out, &hart, lines, number),
        _ => out.extend_from_slice(ERROR),
    }
}

fn push_bytes(out: &mut Vec<u8>, bytes: &[u8]) -> Result<(), AllocError>
    ensures { OnOk result (out.new.items ≡ out.old.items ++ spec.bytes_text bytes.now) }
{
    match bytes {
        [] => out.extend_from_slice(ERROR),
        _ => push_digits(out, bytes),
    }
}

#[tactic(auto, unfolding(crate::specs::Sessions::memory_text))]
fn push_memory(
    alloc: Global,
    out: &mut Vec<u8>,
    hart: Option<SavedHart>,
    ram: &[u8],
    range: Range,
) -> Result<(), AllocError>
    ensures { OnOk result (out.new.items ≡ out.old.items ++ spec.of_hart (spec.memory_text ram.now range) hart) }
{
    let Some(hart) = hart else {
        return out.extend_from_slice(ERROR);
    };
    let count = if range.length < MAX_BYTES {
        range.length
    } else {
        MAX_BYTES
    };
    let mut bytes = Vec::new(alloc);
    push_seen_bytes(&mut bytes, ram, hart.satp, range.start, count)?;
    push_bytes(out, &bytes)
}

fn push_words_about(
    alloc: Global,
    out: &mut Vec<u8>,
    hart: Option<SavedHart>,
) -> Result<(), AllocError>
    ensures { OnOk result (out.new.items ≡ out.old.items ++ spec.of_hart (λ h. byte_digits (look.hart_words h)) hart) }
{
    match hart {
        Some(hart) => {
            let words = hart_words(alloc, &hart)?;
            push_digits(out, words.as_str().as_bytes())
        }
        None => out.extend_from_slice(ERROR),
    }
}

// A text about a hart.
fn push_thread_text<T: Target>(
    alloc: Global,
    out: &mut Vec<u8>,
    target: &T,
    hart: Option<u8>,
) -> Result<(), AllocError>
    ensures { OnOk result ((run : Run) → T.stands target.now run →
        out.new.items ≡ out.old.items ++ spec.of_thread (λ h. spec.of_hart (λ g. byte_digits (look.hart_words g)) (spec.hart_at run h)) hart) }
{
    match hart {
        Some(hart) => push_words_about(alloc, out, target.hart(hart)),
        None => out.extend_from_slice(ERROR),
    }
}

/// The watch that is asked for, of the memory that the chosen hart sees.
pub(crate) fn watch_in<T: Target>(target: &T, desk: &Desk, range: Range) -> Option<Watch>
    ensures { (run : Run) → T.stands target.now run → result ≡ spec.watch_in run desk.now range }
{
    let hart = target.hart(desk.looks)?;
    watch_of(target.ram(), range, &hart)
}

// Answers about the harts of a run.
#[tactic(auto)]
fn push_about_run<T: Target>(
    alloc: Global,
    out: &mut Vec<u8>,
    target: &T,
    desk: &Desk,
    packet: Packet,
) -> Result<(), AllocError>
    ensures { OnOk result ((run : Run) → T.stands target.now run → out.new.items ≡ out.old.items ++ spec.reply_about run desk.now packet) }
{
    let harts = target.hart_count();
    match packet {
        Packet::StopReason => push_halt(out, halt_of(target, None, &desk.breaks, desk.looks)),
        Packet::Registers => push_registers_of(out, target, desk.looks),
        Packet::Register(number) => push_one_register(
            out,
            target.hart(desk.looks),
            target.lines(desk.looks),
            number,
        ),
        Packet::Memory(range) => push_memory(
            alloc,
            out,
            target.hart(desk.looks),
            target.ram(),
            range,
        ),
        Packet::Choose(thread) | Packet::IsAlive(thread) => {
            push_if(out, hart_of(harts, desk.looks, thread).is_some())
        }
        Packet::ChooseToMove(thread) => push_if(out, hart_of(harts, desk.moves, thread).is_some()),
        Packet::SetWatch(range) => push_if(out, watch_in(target, desk, range).is_some()),
        Packet::FirstThreads => push_threads(out, harts),
        Packet::ThreadText(thread) => {
            push_thread_text(alloc, out, target, hart_of(harts, desk.looks, thread))
        }
        _ => Ok(()),
    }
}

/// The answer of a packet that moves nothing is put at the end.
pub(crate) fn push_reply<T: Target>(
    alloc: Global,
    out: &mut Vec<u8>,
    target: &T,
    desk: &Desk,
    packet: Packet,
) -> Result<(), AllocError>
    ensures { OnOk result ((run : Run) → T.stands target.now run → out.new.items ≡ out.old.items ++ spec.reply run desk.now packet) }
{
    match packet {
        Packet::Malformed | Packet::Changes | Packet::Resume(_, _) => out.extend_from_slice(ERROR),
        Packet::Supported => out.extend_from_slice(SUPPORTED),
        Packet::Description(part) => push_part(out, description(), part),
        Packet::CurrentThread => push_current(out, desk.looks),
        Packet::NextThreads => out.extend_from_slice(b"l"),
        Packet::IsAttached => out.extend_from_slice(b"1"),
        Packet::StartNoAcks
        | Packet::SetBreak(_)
        | Packet::ClearBreak(_)
        | Packet::ClearWatch(_)
        | Packet::Detach => out.extend_from_slice(OK),
        Packet::MotionsAsked => out.extend_from_slice(b"vCont;c;C;s;S"),
        _ => push_about_run(alloc, out, target, desk, packet),
    }
}
