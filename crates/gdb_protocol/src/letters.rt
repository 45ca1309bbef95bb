// Packets of one letter.
ghost use Rattle.std.specs.Prelude.{◌≡◌};
ghost use Rattle.gdb_protocol.specs.Digits.{number_of};
ghost use Rattle.gdb_protocol.specs.Packets as spec;
ghost use Rattle.gdb_protocol.specs.declared.packet.Packet.TheVariants as asks;

use crate::arguments::{alone, range_of, thread_of};
use crate::digits::number_of;
use crate::packet::{Motion, Packet, Thread};
use crate::words::cut;

// Hg and Hc.
#[tactic(auto, unfolding(crate::specs::Packets::choice_of))]
fn choice_of(text: &[u8]) -> Packet
    ensures { result ≡ spec.choice_of text.now }
{
    let Some((c, thread)) = text.split_first() else {
        return Packet::Malformed;
    };
    if *c != b'g' && *c != b'c' {
        return Packet::Malformed;
    }
    match thread_of(thread) {
        None => Packet::Malformed,
        Some(thread) if *c == b'g' => Packet::Choose(thread),
        Some(thread) => Packet::ChooseToMove(thread),
    }
}

#[tactic(auto, unfolding(crate::specs::Packets::point_of))]
fn set_point(text: &[u8]) -> Packet
    ensures { result ≡ spec.point_of asks.SetBreak asks.SetWatch text.now }
{
    let (kind, range) = cut(text, b',');
    if kind == b"0".as_slice() || kind == b"1".as_slice() {
        match range_of(range) {
            Some(range) => Packet::SetBreak(range),
            None => Packet::Malformed,
        }
    } else if kind == b"2".as_slice() {
        match range_of(range) {
            Some(range) => Packet::SetWatch(range),
            None => Packet::Malformed,
        }
    } else {
        Packet::Unknown
    }
}

#[tactic(auto, unfolding(crate::specs::Packets::point_of))]
fn clear_point(text: &[u8]) -> Packet
    ensures { result ≡ spec.point_of asks.ClearBreak asks.ClearWatch text.now }
{
    let (kind, range) = cut(text, b',');
    if kind == b"0".as_slice() || kind == b"1".as_slice() {
        match range_of(range) {
            Some(range) => Packet::ClearBreak(range),
            None => Packet::Malformed,
        }
    } else if kind == b"2".as_slice() {
        match range_of(range) {
            Some(range) => Packet::ClearWatch(range),
            None => Packet::Malformed,
        }
    } else {
        Packet::Unknown
    }
}

// With an address a run would go on elsewhere.
fn motion_here(motion: Motion, text: &[u8]) -> Packet
    ensures { result ≡ spec.motion_here motion text.now }
{
    match text {
        [] => Packet::Resume(motion, Thread::Any),
        _ => Packet::Changes,
    }
}

// bc and bs.
#[tactic(auto, unfolding(crate::specs::Packets::motion_back))]
fn motion_back(text: &[u8]) -> Packet
    ensures { result ≡ spec.motion_back text.now }
{
    if text == b"c".as_slice() {
        Packet::Resume(Motion::ContinueBack, Thread::Any)
    } else if text == b"s".as_slice() {
        Packet::Resume(Motion::StepBack, Thread::Any)
    } else {
        Packet::Unknown
    }
}

// A packet with a thread.
fn is_alive(text: &[u8]) -> Packet
    ensures { result ≡ spec.with_argument asks.IsAlive (spec.thread_of text.now) }
{
    match thread_of(text) {
        Some(thread) => Packet::IsAlive(thread),
        None => Packet::Malformed,
    }
}

fn register(text: &[u8]) -> Packet
    ensures { result ≡ spec.with_argument asks.Register (number_of text.now) }
{
    match number_of(text) {
        Some(number) => Packet::Register(number),
        None => Packet::Malformed,
    }
}

fn memory(text: &[u8]) -> Packet
    ensures { result ≡ spec.with_argument asks.Memory (spec.range_of text.now) }
{
    match range_of(text) {
        Some(range) => Packet::Memory(range),
        None => Packet::Malformed,
    }
}

// Packets that look at the machine.
#[tactic(auto, unfolding(crate::specs::Packets::looking))]
fn looking(c: u8, text: &[u8]) -> Packet
    ensures { result ≡ spec.looking c text.now }
{
    match c {
        b'?' => alone(Packet::StopReason, text),
        b'g' => alone(Packet::Registers, text),
        b'p' => register(text),
        b'm' => memory(text),
        b'H' => choice_of(text),
        b'T' => is_alive(text),
        _ => Packet::Unknown,
    }
}

/// A packet by its letter, and what stands after it.
#[tactic(auto, unfolding(crate::specs::Packets::moving))]
pub(crate) fn packet_of_letter(c: u8, text: &[u8]) -> Packet
    ensures { result ≡ spec.moving c text.now }
{
    match c {
        b'c' => motion_here(Motion::Continue, text),
        b's' => motion_here(Motion::Step, text),
        b'b' => motion_back(text),
        b'Z' => set_point(text),
        b'z' => clear_point(text),
        b'D' => Packet::Detach,
        b'k' => Packet::Kill,
        b'G' | b'P' | b'M' | b'X' => Packet::Changes,
        _ => looking(c, text),
    }
}
