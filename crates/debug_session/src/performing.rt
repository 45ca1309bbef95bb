// What arrives is answered.
ghost use Rattle.std.specs.Prelude.{◌≡◌, ◌≤◌, ◌*◌, ◌++◌, ◌∷◌, [], OnOk, IfOk, unwrap_or, if◌then◌else◌, position, drop, take, length};
ghost use Rattle.gdb_protocol.specs.Answers.{console_text};
ghost use Rattle.gdb_protocol.specs.Framing.{frame};
ghost use Rattle.gdb_protocol.specs.Packets.{packet_of};
ghost use Rattle.gdb_protocol.specs.Words.{after as text_after, is_comma};
ghost use Rattle.debug_session.specs.Halts.{halt_value};
ghost use Rattle.debug_views.specs.Looks.{error_text};
ghost use Rattle.debug_session.specs.Performing.{Performs};
ghost use Rattle.debug_session.specs.Runs.{Run, ahead, behind};
ghost use Rattle.debug_session.specs.Sessions as spec;

use crate::desk::Desk;
use crate::host::Host;
use crate::motion::{Found, go_ahead, go_back, go_to};
use crate::questions::{Question, asked, asked_text};
use crate::replies::{Halt, halt_of, hart_of, push_halt, push_reply, watch_in};
use crate::target::Target;
use crate::watches::Watch;
use debug_views::ERROR;
use gdb_protocol::{
    Arrival, Motion, Packet, Stop, Thread, packet_of, push_console, push_digits, push_frame,
};
use std::alloc::{AllocError, Global};
use std::thread::Threads;

// The most bytes of text in an answer.
const MAX_TEXT: usize = 8000;

// ---- settings

fn choose(desk: &mut Desk, harts: u8, thread: Thread)
    ensures { desk.new ≡ record desk.old { looks = unwrap_or (spec.hart_of harts desk.old.looks thread) desk.old.looks } }
{
    if let Some(hart) = hart_of(harts, desk.looks, thread) {
        desk.look_at(hart);
    }
}

fn choose_to_move(desk: &mut Desk, harts: u8, thread: Thread)
    ensures { desk.new ≡ record desk.old { moves = unwrap_or (spec.hart_of harts desk.old.moves thread) desk.old.moves } }
{
    if let Some(hart) = hart_of(harts, desk.moves, thread) {
        desk.move_by(hart);
    }
}

// What is kept after a packet that moves nothing.
fn set<T: Target>(target: &T, desk: &mut Desk, packet: Packet) -> Result<(), AllocError>
    ensures { OnOk result ((run : Run) → T.stands target.now run → desk.new ≡ spec.desk_after run desk.old packet) }
{
    let harts = target.hart_count();
    match packet {
        Packet::Choose(thread) => choose(desk, harts, thread),
        Packet::ChooseToMove(thread) => choose_to_move(desk, harts, thread),
        Packet::SetBreak(place) => desk.set_break(place.start)?,
        Packet::ClearBreak(place) => desk.clear_break(place.start),
        Packet::SetWatch(range) => desk.set_watch(watch_in(target, desk, range))?,
        Packet::ClearWatch(range) => desk.clear_watch(range.start),
        Packet::StartNoAcks => desk.stop_acks(),
        Packet::Detach | Packet::Kill => desk.end(),
        _ => {}
    }
    Ok(())
}

// ---- motions

fn halt_back<T: Target>(target: &T, found: Option<Found>, breaks: &[u64], hart: u8) -> Halt
    ensures { (run : Run) → T.stands target.now run → halt_value result ≡ spec.halt_back found breaks.now hart run }
{
    match found {
        Some(found) => halt_of(target, found.change, breaks, hart),
        None => Halt {
            stop: Stop::Beginning,
            hart,
        },
    }
}

// Forwards.
fn move_ahead<T: Target>(
    alloc: Global,
    target: &mut T,
    breaks: &[u64],
    watches: &[Watch],
    steps: Option<u8>,
    hart: u8,
) -> Result<Halt, AllocError>
    ensures moved { OnOk result ((run : Run) → T.stands target.old run → T.stands target.new (ahead breaks.now watches.now steps run)) }
    ensures halt { IfOk result (λ halt. (run : Run) → T.stands target.old run →
        halt_value halt ≡ spec.halt_ahead breaks.now watches.now steps hart run) }
{
    let change = go_ahead(target, alloc, breaks, watches, steps)?;
    Ok(halt_of(target, change, breaks, hart))
}

// Backwards.
fn move_back<T: Target, R: Threads + Sync>(
    host: &Host<'_, R>,
    target: &mut T,
    breaks: &[u64],
    watches: &[Watch],
    steps: Option<u8>,
    hart: u8,
) -> Result<Halt, AllocError>
    ensures moved { OnOk result ((run : Run) → T.stands target.old run → T.stands target.new (behind breaks.now watches.now steps run)) }
    ensures halt { IfOk result (λ halt. (run : Run) → T.stands target.old run →
        halt_value halt ≡ spec.halt_behind breaks.now watches.now steps hart run) }
{
    let found = go_back(target, host, breaks, watches, steps)?;
    Ok(halt_back(target, found, breaks, hart))
}

// A run goes on by a hart, and halts.
fn move_run<T: Target, R: Threads + Sync>(
    host: &Host<'_, R>,
    target: &mut T,
    breaks: &[u64],
    watches: &[Watch],
    motion: Motion,
    hart: u8,
) -> Result<Halt, AllocError>
    ensures moved { OnOk result ((run : Run) → T.stands target.old run →
        T.stands target.new (spec.moved motion breaks.now watches.now hart run)) }
    ensures halt { IfOk result (λ halt. (run : Run) → T.stands target.old run →
        halt_value halt ≡ spec.halt_after motion breaks.now watches.now hart run) }
{
    match motion {
        Motion::Continue => move_ahead(host.alloc, target, breaks, watches, None, hart),
        Motion::Step => move_ahead(host.alloc, target, breaks, watches, Some(hart), hart),
        Motion::ContinueBack => move_back(host, target, breaks, watches, None, hart),
        Motion::StepBack => move_back(host, target, breaks, watches, Some(hart), hart),
    }
}

// ---- answers

// An answer is put at the end in its frame, and kept.
fn give(desk: &mut Desk, answer: Vec<u8>, out: &mut Vec<u8>) -> Result<(), AllocError>
    ensures bytes { OnOk result (out.new.items ≡ out.old.items ++ frame answer.items) }
    ensures desk { OnOk result (desk.new ≡ record desk.old { last = answer.items }) }
{
    push_frame(out, &answer)?;
    desk.remember(answer);
    Ok(())
}

fn give_error(alloc: Global, desk: &mut Desk, out: &mut Vec<u8>) -> Result<(), AllocError>
    ensures bytes { OnOk result (out.new.items ≡ out.old.items ++ spec.frames (error_text ∷ [])) }
    ensures desk { OnOk result (desk.new ≡ record desk.old { last = error_text }) }
{
    let answer = ERROR.to_vec(alloc)?;
    give(desk, answer, out)
}

// What the console printed beyond what was told.
fn tell_console(
    alloc: Global,
    told: usize,
    printed: &[u8],
    out: &mut Vec<u8>,
) -> Result<(), AllocError>
    ensures { OnOk result (out.new.items ≡ out.old.items ++ spec.frames (spec.told_now told printed.now)) }
{
    if told < printed.len() {
        let mut answer = Vec::new(alloc);
        push_console(&mut answer, &printed[told..])?;
        push_frame(out, &answer)?;
    }
    Ok(())
}

fn give_halt(
    alloc: Global,
    desk: &mut Desk,
    halt: Halt,
    out: &mut Vec<u8>,
) -> Result<(), AllocError>
    ensures bytes { OnOk result (out.new.items ≡ out.old.items ++ spec.frames (spec.halt_text (halt_value halt) ∷ [])) }
    ensures desk { OnOk result (desk.new ≡ record desk.old { last = spec.halt_text (halt_value halt) }) }
{
    let mut answer = Vec::new(alloc);
    push_halt(&mut answer, halt)?;
    give(desk, answer, out)
}

// ---- what arrives

// A run stands where it was moved to, and tells why.
fn stand<T: Target>(
    alloc: Global,
    target: &T,
    desk: &mut Desk,
    halt: Halt,
    out: &mut Vec<u8>,
) -> Result<(), AllocError>
    ensures { OnOk result ((run : Run) → T.stands target.now run →
        Performs T.stands (spec.halted_outcome run (halt_value halt) desk.old) out.old.items target.now desk.new out.new.items) }
{
    tell_console(alloc, desk.told, target.console(), out)?;
    desk.stand_at(halt.hart, target.console().len());
    give_halt(alloc, desk, halt, out)
}

fn answer_motion<T: Target, R: Threads + Sync>(
    host: &Host<'_, R>,
    target: &mut T,
    desk: &mut Desk,
    motion: Motion,
    hart: u8,
    out: &mut Vec<u8>,
) -> Result<(), AllocError>
    ensures { OnOk result ((run : Run) → T.stands target.old run →
        Performs T.stands (spec.motion_outcome motion hart run desk.old) out.old.items target.new desk.new out.new.items) }
{
    let halt = move_run(host, target, &desk.breaks, &desk.watches, motion, hart)?;
    stand(host.alloc, target, desk, halt, out)
}

fn answer_still<T: Target>(
    alloc: Global,
    target: &T,
    desk: &mut Desk,
    packet: Packet,
    out: &mut Vec<u8>,
) -> Result<(), AllocError>
    ensures { OnOk result ((run : Run) → T.stands target.now run →
        Performs T.stands (spec.still_outcome packet run desk.old) out.old.items target.now desk.new out.new.items) }
{
    let mut answer = Vec::new(alloc);
    push_reply(alloc, &mut answer, target, desk, packet)?;
    set(target, desk, packet)?;
    give(desk, answer, out)
}

fn answer_packet<T: Target, R: Threads + Sync>(
    host: &Host<'_, R>,
    target: &mut T,
    desk: &mut Desk,
    packet: Packet,
    out: &mut Vec<u8>,
) -> Result<(), AllocError>
    ensures { OnOk result ((run : Run) → T.stands target.old run →
        Performs T.stands (spec.by_packet packet run desk.old) out.old.items target.new desk.new out.new.items) }
{
    match packet {
        Packet::Resume(motion, thread) => {
            match hart_of(target.hart_count(), desk.moves, thread) {
                Some(hart) => answer_motion(host, target, desk, motion, hart, out),
                None => give_error(host.alloc, desk, out),
            }
        }
        Packet::Kill => {
            desk.end();
            Ok(())
        }
        _ => answer_still(host.alloc, target, desk, packet, out),
    }
}

// The run that a question is about.
fn move_to<T: Target, R: Threads + Sync>(
    host: &Host<'_, R>,
    target: &mut T,
    question: Question,
) -> Result<(), AllocError>
    ensures { OnOk result ((run : Run) → T.stands target.old run → T.stands target.new (spec.asked_run question run)) }
{
    match question {
        Question::At(number) => go_to(target, host, number),
        _ => Ok(()),
    }
}

// A part of a text is put at the end, as the console's.
fn push_part(alloc: Global, part: &[u8], out: &mut Vec<u8>) -> Result<(), AllocError>
    ensures { OnOk result (out.new.items ≡ out.old.items ++ frame (console_text part.now)) }
{
    let mut answer = Vec::new(alloc);
    push_console(&mut answer, part)?;
    push_frame(out, &answer)
}

// What stands in a text from a place on.
fn rest_at(text: &[u8], at: usize) -> &[u8]
    ensures { result.now ≡ drop at text.now }
{
    if at < text.len() { &text[at..] } else { &[] }
}

// As much of a text as an answer has.
fn first_part(text: &[u8]) -> &[u8]
    ensures { result.now ≡ take spec.max_text text.now }
{
    if MAX_TEXT < text.len() {
        &text[..MAX_TEXT]
    } else {
        text
    }
}

// How many parts of a text come before its answer.
fn parts_of(text: &[u8]) -> usize
    ensures value { result ≡ spec.parts_of text.now }
    ensures within { spec.max_text * result ≤ length text.now }
{
    text.len().saturating_sub(1) / MAX_TEXT
}

// So many parts of a text, one after the other.
fn push_parts(alloc: Global, text: &[u8], parts: usize, out: &mut Vec<u8>) -> Result<(), AllocError>
    requires { spec.max_text * parts ≤ length text.now }
    ensures { OnOk result (out.new.items ++ spec.frames (spec.text_answers 0 (drop (spec.max_text * parts) text.now))
        ≡ out.old.items ++ spec.frames (spec.text_answers parts text.now)) }
{
    'parts: for i in 0..parts {
        push_part(alloc, first_part(rest_at(text, MAX_TEXT * i)), out)?;
    }
    Ok(())
}

// Text in parts: the last one is the answer, those before it are the console's.
fn give_text(
    alloc: Global,
    desk: &mut Desk,
    text: &[u8],
    out: &mut Vec<u8>,
) -> Result<(), AllocError>
    ensures bytes { OnOk result (out.new.items ≡ out.old.items ++ spec.frames (spec.text_answers (spec.parts_of text.now) text.now)) }
    ensures desk { OnOk result (desk.new ≡ record desk.old { last = spec.last_of (spec.text_answers (spec.parts_of text.now) text.now) desk.old.last }) }
{
    let parts = parts_of(text);
    push_parts(alloc, text, parts, out)?;
    let mut answer = Vec::new(alloc);
    push_digits(&mut answer, rest_at(text, MAX_TEXT * parts))?;
    give(desk, answer, out)
}

// A question is answered by text.
fn answer_question<T: Target, R: Threads + Sync>(
    host: &Host<'_, R>,
    target: &mut T,
    desk: &mut Desk,
    question: Question,
    out: &mut Vec<u8>,
) -> Result<(), AllocError>
    ensures { OnOk result ((run : Run) → T.stands target.old run →
        Performs T.stands (spec.by_question question run desk.old) out.old.items target.new desk.new out.new.items) }
{
    move_to(host, target, question)?;
    let text = asked_text(host.alloc, target, question, desk.looks)?;
    give_text(host.alloc, desk, &text, out)
}

fn comma_in(payload: &[u8]) -> Option<usize>
    ensures { result ≡ position is_comma payload.now }
{
    payload.iter().position(|c| *c == b',')
}

// What stands after a comma.
fn after_comma(payload: &[u8]) -> &[u8]
    ensures { result.now ≡ text_after is_comma payload.now }
{
    match comma_in(payload) {
        Some(i) => &payload[i + 1..],
        None => &[],
    }
}

fn answer_payload<T: Target, R: Threads + Sync>(
    host: &Host<'_, R>,
    target: &mut T,
    desk: &mut Desk,
    payload: &[u8],
    out: &mut Vec<u8>,
) -> Result<(), AllocError>
    ensures { OnOk result ((run : Run) → T.stands target.old run →
        Performs T.stands (spec.by_payload (packet_of payload.now) payload.now run desk.old) out.old.items target.new desk.new out.new.items) }
{
    match packet_of(payload) {
        Packet::Command => {
            let question = asked(host.alloc, after_comma(payload))?;
            answer_question(host, target, desk, question, out)
        }
        packet => answer_packet(host, target, desk, packet, out),
    }
}

// The last answer is given once more.
fn give_again(alloc: Global, desk: &Desk, out: &mut Vec<u8>) -> Result<(), AllocError>
    ensures { OnOk result (out.new.items ≡ out.old.items ++ spec.frames (desk.now.last ∷ [])) }
{
    push_frame(out, &desk.last)
}

fn answer<T: Target, R: Threads + Sync>(
    host: &Host<'_, R>,
    target: &mut T,
    desk: &mut Desk,
    arrival: Arrival,
    payload: &[u8],
    out: &mut Vec<u8>,
) -> Result<(), AllocError>
    ensures { OnOk result ((run : Run) → T.stands target.old run →
        Performs T.stands (spec.by_arrival arrival payload.now run desk.old) out.old.items target.new desk.new out.new.items) }
{
    match arrival {
        Arrival::Packet => answer_payload(host, target, desk, payload, out),
        Arrival::Broken if desk.acks => Ok(()),
        Arrival::Broken | Arrival::TooLong => give_error(host.alloc, desk, out),
        Arrival::Interrupt => {
            let halt = halt_of(target, None, &desk.breaks, desk.looks);
            give_halt(host.alloc, desk, halt, out)
        }
        Arrival::Received => Ok(()),
        Arrival::Again => give_again(host.alloc, desk, out),
    }
}

// The acknowledgment of what arrived is put at the end.
fn acknowledge(out: &mut Vec<u8>, acks: bool, arrival: Arrival) -> Result<(), AllocError>
    ensures { OnOk result (out.new.items ≡ out.old.items ++ (if acks then spec.acknowledgment arrival else [])) }
{
    if !acks {
        return Ok(());
    }
    match arrival {
        Arrival::Packet | Arrival::TooLong => out.extend_from_slice(b"+"),
        Arrival::Broken => out.extend_from_slice(b"-"),
        Arrival::Interrupt | Arrival::Received | Arrival::Again => Ok(()),
    }
}

/// What arrived is acknowledged and answered.
pub(crate) fn take_arrival<T: Target, R: Threads + Sync>(
    host: &Host<'_, R>,
    target: &mut T,
    desk: &mut Desk,
    arrival: Arrival,
    payload: &[u8],
    out: &mut Vec<u8>,
) -> Result<(), AllocError>
    ensures { OnOk result ((run : Run) → T.stands target.old run →
        Performs T.stands (spec.by_arrival arrival payload.now run desk.old) (out.old.items ++ spec.acknowledged arrival desk.old) target.new desk.new
        out.new.items) }
{
    acknowledge(out, desk.acks, arrival)?;
    answer(host, target, desk, arrival, payload, out)
}
