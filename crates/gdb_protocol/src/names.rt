// Packets of several letters.
ghost use Rattle.std.specs.Prelude.{◌≡◌};
ghost use Rattle.gdb_protocol.specs.Packets as spec;
ghost use Rattle.gdb_protocol.specs.declared.packet.Packet.TheVariants as asks;

use crate::arguments::{action_thread, motion_of, range_of, thread_of};
use crate::letters::packet_of_letter;
use crate::packet::Packet;
use crate::words::{cut, cut_name};

#[tactic(auto, unfolding(crate::specs::Packets::part_of))]
fn part_of(text: &[u8]) -> Packet
    ensures { result ≡ spec.part_of text.now }
{
    let (action, rest) = cut(text, b':');
    let (annex, range) = cut(rest, b':');
    if action != b"read".as_slice() || annex != b"target.xml".as_slice() {
        return Packet::Malformed;
    }
    match range_of(range) {
        Some(range) => Packet::Description(range),
        None => Packet::Malformed,
    }
}

#[tactic(auto, unfolding(crate::specs::Packets::transfer_of))]
fn transfer_of(text: &[u8]) -> Packet
    ensures { result ≡ spec.transfer_of text.now }
{
    let (object, rest) = cut(text, b':');
    if object == b"features".as_slice() {
        part_of(rest)
    } else {
        Packet::Unknown
    }
}

#[tactic(auto, unfolding(crate::specs::Packets::action_of))]
fn action_of(text: &[u8]) -> Packet
    ensures { result ≡ spec.action_of text.now }
{
    let (action, _) = cut(text, b';');
    let (_, thread) = cut(action, b':');
    let Some(motion) = motion_of(text) else {
        return Packet::Malformed;
    };
    match action_thread(thread) {
        Some(thread) => Packet::Resume(motion, thread),
        None => Packet::Malformed,
    }
}

fn thread_text(text: &[u8]) -> Packet
    ensures { result ≡ spec.with_argument asks.ThreadText (spec.thread_of text.now) }
{
    match thread_of(text) {
        Some(thread) => Packet::ThreadText(thread),
        None => Packet::Malformed,
    }
}

#[tactic(auto, unfolding(crate::specs::Packets::named))]
fn named(name: &[u8], text: &[u8]) -> Packet
    ensures { result ≡ spec.named name.now text.now }
{
    if name == b"qSupported".as_slice() {
        Packet::Supported
    } else if name == b"QStartNoAckMode".as_slice() {
        Packet::StartNoAcks
    } else if name == b"qXfer".as_slice() {
        transfer_of(text)
    } else if name == b"qAttached".as_slice() {
        Packet::IsAttached
    } else if name == b"qC".as_slice() {
        Packet::CurrentThread
    } else if name == b"qfThreadInfo".as_slice() {
        Packet::FirstThreads
    } else if name == b"qsThreadInfo".as_slice() {
        Packet::NextThreads
    } else if name == b"qThreadExtraInfo".as_slice() {
        thread_text(text)
    } else if name == b"qRcmd".as_slice() {
        Packet::Command
    } else if name == b"vCont?".as_slice() {
        Packet::MotionsAsked
    } else if name == b"vCont".as_slice() {
        action_of(text)
    } else {
        Packet::Unknown
    }
}

/// What a packet asks for, by its payload.
#[tactic(auto, unfolding(crate::specs::Packets::packet_of))]
pub fn packet_of(payload: &[u8]) -> Packet
    ensures { result ≡ spec.packet_of payload.now }
{
    let Some((c, text)) = payload.split_first() else {
        return Packet::Unknown;
    };
    if *c == b'q' || *c == b'Q' || *c == b'v' {
        let (name, rest) = cut_name(payload);
        named(name, rest)
    } else {
        packet_of_letter(*c, text)
    }
}
