// What each call is answered. Each function is the definition's line of the same name.

ghost use Rattle.std.specs.Prelude.{◌≡◌, ◌<◌, ◌≤◌, ℕ, length, slice_get, OnSome, false};
ghost use Rattle.sv_types.specs.Limits.{max_harts};
ghost use Rattle.spec_reference.specs.Calls.{Facts, first_input, base_call, timer_call, ipi_call, fence_call, start_other, status_of_hart};
ghost use Rattle.spec_reference.specs.Calls.{hart_call, shut_down, reset_call};
ghost use Rattle.spec_reference.specs.ModuleCalls.{answer_of};
ghost use Rattle.monitor_exits.specs.Asking.{is_about_modules};
ghost use Rattle.monitor_exits.specs.Known.{started_of, StartsOneOf};

use crate::calls::masks::mask_exists;
use crate::{Asked, HartSlot};
use page_guard::Entries;
use spec_reference::{Answer, Extension, Reply, SideEffect};
use sv_types::{IMPLEMENTATION, SbiCode};

/// SBI 1.0.
const SPECIFICATION: u64 = 0x0100_0000;

/// The version of this implementation.
const VERSION: u64 = 1;

// The functions of the base extension. From the vendor to the machine they tell who made it, which is nobody.

const GET_SPECIFICATION: u64 = 0;

const GET_IMPLEMENTATION: u64 = 1;

const GET_VERSION: u64 = 2;

const PROBE: u64 = 3;

const GET_VENDOR: u64 = 4;

const GET_MACHINE: u64 = 6;

// Those of the timer, of interrupts between harts, and of remote fences: FENCE.I and the two SFENCE.VMA, from 0 on.

const SET_TIMER: u64 = 0;

const SEND_IPI: u64 = 0;

const LAST_FENCE: u64 = 2;

// The functions of hart state management.

const START: u64 = 0;

const STOP: u64 = 1;

const STATUS: u64 = 2;

// That of reset, and its types: a shutdown, a cold and a warm reboot.

const SYSTEM_RESET: u64 = 0;

const SHUTDOWN: u64 = 0;

const LAST_RESET_TYPE: u64 = 2;

// The next byte of input, or the code for none.
#[tactic(auto, using(crate::proofs::Inputs::input_there, crate::proofs::Inputs::no_input_there))]
fn first_input(input: &[u8]) -> u64
    ensures { result ≡ first_input input.now }
{
    match input.first() {
        Some(byte) => u64::from(*byte),
        None => SbiCode::NoInput.word(),
    }
}

#[tactic(auto, unfolding(spec_reference::specs::Calls::base_call))]
fn base_call(asked: &Asked) -> Reply
    ensures { result ≡ base_call asked.now }
{
    match asked.function {
        GET_SPECIFICATION => Reply::of_value(SPECIFICATION),
        GET_IMPLEMENTATION => Reply::of_value(IMPLEMENTATION),
        GET_VERSION => Reply::of_value(VERSION),
        PROBE => Reply::of_value(u64::from(Extension::from_number(asked.a0).is_some())),
        GET_VENDOR..=GET_MACHINE => Reply::of_value(0),
        _ => Reply::of_code(SbiCode::NotSupported),
    }
}

#[tactic(auto, unfolding(spec_reference::specs::Calls::timer_call))]
fn timer_call(asked: &Asked) -> Answer
    ensures answer { result ≡ timer_call asked.now }
    ensures starts { (n : ℕ) → StartsOneOf n result.side_effect }
{
    if asked.function == SET_TIMER {
        Answer {
            reply: Reply::of_code(SbiCode::Success),
            side_effect: SideEffect::SetsTimer { at: asked.a0 },
        }
    } else {
        Answer::plain(Reply::of_code(SbiCode::NotSupported))
    }
}

#[tactic(auto, unfolding(spec_reference::specs::Calls::ipi_call))]
fn ipi_call(harts: u64, asked: &Asked) -> Answer
    ensures answer { (f : Facts) → length f.started ≡ harts → result ≡ ipi_call f asked.now }
    ensures starts { (n : ℕ) → StartsOneOf n result.side_effect }
{
    if asked.function != SEND_IPI {
        Answer::plain(Reply::of_code(SbiCode::NotSupported))
    } else if mask_exists(harts, asked.a0, asked.a1) {
        Answer {
            reply: Reply::of_code(SbiCode::Success),
            side_effect: SideEffect::SendsInterrupts {
                mask: asked.a0,
                base: asked.a1,
            },
        }
    } else {
        Answer::plain(Reply::of_code(SbiCode::InvalidParameter))
    }
}

#[tactic(auto, unfolding(spec_reference::specs::Calls::fence_call))]
fn fence_call(harts: u64, asked: &Asked) -> Reply
    ensures { (f : Facts) → length f.started ≡ harts → result ≡ fence_call f asked.now }
{
    if asked.function > LAST_FENCE {
        Reply::of_code(SbiCode::NotSupported)
    } else if mask_exists(harts, asked.a0, asked.a1) {
        Reply::of_code(SbiCode::Success)
    } else {
        Reply::of_code(SbiCode::InvalidParameter)
    }
}

// Whether a hart is started, if it is there.
#[tactic(auto, using(crate::proofs::Started::started_at))]
fn is_started(slots: &[HartSlot], hart: u64) -> Option<bool>
    ensures started { result ≡ slice_get (started_of slots.now) hart }
    ensures there { OnSome result (hart < length slots.now) }
{
    match slots.get(hart as usize) {
        None => None,
        Some(slot) => Some(slot.hart.started),
    }
}

#[tactic(auto, unfolding(spec_reference::specs::Calls::start_other))]
fn start_other(slots: &[HartSlot], entries: &Entries, asked: &Asked) -> Answer
    requires few { length slots.now ≤ max_harts }
    ensures answer { (f : Facts) → f.rules.entries ≡ entries.now.entries → result ≡ start_other f asked.now (slice_get (started_of slots.now) asked.now.a0) }
    ensures starts { StartsOneOf (length slots.now) result.side_effect }
{
    match is_started(slots, asked.a0) {
        None => Answer::plain(Reply::of_code(SbiCode::InvalidParameter)),
        Some(true) => Answer::plain(Reply::of_code(SbiCode::Already)),
        Some(false) => {
            if entries.permits(asked.a1) {
                Answer {
                    reply: Reply::of_code(SbiCode::Success),
                    side_effect: SideEffect::StartsHart {
                        other: asked.a0 as u8,
                        pc: asked.a1,
                        opaque: asked.a2,
                    },
                }
            } else {
                Answer::plain(Reply::of_code(SbiCode::InvalidAddress))
            }
        }
    }
}

fn status_of_hart(slots: &[HartSlot], asked: &Asked) -> Reply
    ensures { result ≡ status_of_hart (slice_get (started_of slots.now) asked.now.a0) }
{
    match is_started(slots, asked.a0) {
        None => Reply::of_code(SbiCode::InvalidParameter),
        Some(started) => Reply::of_value(u64::from(!started)),
    }
}

#[tactic(auto, unfolding(spec_reference::specs::Calls::hart_call))]
fn hart_call(slots: &[HartSlot], entries: &Entries, asked: &Asked) -> Answer
    requires few { length slots.now ≤ max_harts }
    ensures answer { (f : Facts) → f.rules.entries ≡ entries.now.entries → f.started ≡ started_of slots.now → result ≡ hart_call f asked.now }
    ensures starts { StartsOneOf (length slots.now) result.side_effect }
{
    match asked.function {
        START => start_other(slots, entries, asked),
        STOP => Answer::plain(Reply::Stops),
        STATUS => Answer::plain(status_of_hart(slots, asked)),
        _ => Answer::plain(Reply::of_code(SbiCode::NotSupported)),
    }
}

fn shut_down() -> Answer
    ensures { result ≡ shut_down }
{
    Answer {
        reply: Reply::Stays,
        side_effect: SideEffect::ShutsDown,
    }
}

#[tactic(auto, unfolding(spec_reference::specs::Calls::reset_call))]
fn reset_call(asked: &Asked) -> Answer
    ensures answer { result ≡ reset_call asked.now }
    ensures starts { (n : ℕ) → StartsOneOf n result.side_effect }
{
    if asked.function != SYSTEM_RESET {
        Answer::plain(Reply::of_code(SbiCode::NotSupported))
    } else if asked.a0 == SHUTDOWN {
        shut_down()
    } else if asked.a0 <= LAST_RESET_TYPE {
        Answer::plain(Reply::of_code(SbiCode::NotSupported))
    } else {
        Answer::plain(Reply::of_code(SbiCode::InvalidParameter))
    }
}

/// The answer to a call from kernel mode that isn't one about modules.
#[tactic(auto, using(crate::proofs::Started::started_number), unfolding(spec_reference::specs::ModuleCalls::call_answer_by))]
pub fn answer_of(slots: &[HartSlot], entries: &Entries, input: &[u8], asked: &Asked) -> Answer
    requires few { length slots.now ≤ max_harts }
    requires others { is_about_modules asked.now ≡ false }
    ensures answer { (f : Facts) → f.rules.entries ≡ entries.now.entries → f.started ≡ started_of slots.now → f.input ≡ input.now → result ≡
        answer_of f asked.now }
    ensures starts { StartsOneOf (length slots.now) result.side_effect }
{
    let harts = slots.len() as u64;
    match Extension::from_number(asked.extension) {
        None | Some(Extension::Modules) => Answer::plain(Reply::of_code(SbiCode::NotSupported)),
        Some(Extension::SetTimer) => Answer {
            reply: Reply::Gives { a0: 0 },
            side_effect: SideEffect::SetsTimer { at: asked.a0 },
        },
        Some(Extension::PutChar) => Answer {
            reply: Reply::Gives { a0: 0 },
            side_effect: SideEffect::Prints { value: asked.a0 },
        },
        Some(Extension::GetChar) => Answer {
            reply: Reply::Gives {
                a0: first_input(input),
            },
            side_effect: SideEffect::TakesInput,
        },
        Some(Extension::ShutDown) => shut_down(),
        Some(Extension::Base) => Answer::plain(base_call(asked)),
        Some(Extension::Timer) => timer_call(asked),
        Some(Extension::Interrupt) => ipi_call(harts, asked),
        Some(Extension::Fence) => Answer::plain(fence_call(harts, asked)),
        Some(Extension::HartState) => hart_call(slots, entries, asked),
        Some(Extension::Reset) => reset_call(asked),
    }
}
