// The arguments of packets.
ghost use Rattle.std.specs.Prelude.{◌≡◌};
ghost use Rattle.gdb_protocol.specs.Packets as spec;

use crate::digits::number_of;
use crate::packet::{Motion, Packet, Range, Thread};
use crate::words::cut;

/// ADDRESS,LENGTH.
#[tactic(auto, unfolding(crate::specs::Packets::range_of))]
pub(crate) fn range_of(text: &[u8]) -> Option<Range>
    ensures { result ≡ spec.range_of text.now }
{
    let (start, length) = cut(text, b',');
    let start = number_of(start)?;
    let length = number_of(length)?;
    Some(Range { start, length })
}

/// A thread's number, where -1 and 0 are any thread.
#[tactic(auto, unfolding(crate::specs::Packets::thread_of))]
pub(crate) fn thread_of(text: &[u8]) -> Option<Thread>
    ensures { result ≡ spec.thread_of text.now }
{
    if text == b"-1".as_slice() {
        return Some(Thread::Any);
    }
    let number = number_of(text)?;
    if number == 0 {
        Some(Thread::Any)
    } else {
        Some(Thread::Number(number))
    }
}

/// The thread of an action, which may have none.
pub(crate) fn action_thread(text: &[u8]) -> Option<Thread>
    ensures { result ≡ spec.action_thread text.now }
{
    match text {
        [] => Some(Thread::Any),
        _ => thread_of(text),
    }
}

/// `c` and `s`, and with a signal `C` and `S`.
#[tactic(auto, unfolding(crate::specs::Packets::motion_of))]
pub(crate) fn motion_of(text: &[u8]) -> Option<Motion>
    ensures { result ≡ spec.motion_of text.now }
{
    match text {
        [] => None,
        [c, ..] => {
            if *c == b'c' || *c == b'C' {
                Some(Motion::Continue)
            } else if *c == b's' || *c == b'S' {
                Some(Motion::Step)
            } else {
                None
            }
        }
    }
}

/// A packet without arguments.
pub(crate) fn alone(packet: Packet, text: &[u8]) -> Packet
    ensures { result ≡ spec.alone packet text.now }
{
    match text {
        [] => packet,
        _ => Packet::Malformed,
    }
}
