// What gdb sends, by its manual and by a session that was recorded, and bytes that it never sends.
use gdb_protocol::{Motion, Packet, Range, Thread, packet_of, push_frame};
use std::test::Fail;

const WORD: Range = Range {
    start: 0x8000_0000,
    length: 4,
};

const PART: Range = Range {
    start: 0,
    length: 0xffb,
};

static PACKETS: [(&str, Packet); 21] = [
    ("qSupported:multiprocess+;hwbreak+", Packet::Supported),
    (
        "qXfer:features:read:target.xml:0,ffb",
        Packet::Description(PART),
    ),
    ("m80000000,4", Packet::Memory(WORD)),
    ("Hg-1", Packet::Choose(Thread::Any)),
    ("Hc2", Packet::ChooseToMove(Thread::Number(2))),
    (
        "vCont;s:1;c",
        Packet::Resume(Motion::Step, Thread::Number(1)),
    ),
    ("bc", Packet::Resume(Motion::ContinueBack, Thread::Any)),
    ("Z2,80000000,4", Packet::SetWatch(WORD)),
    ("z0,80000000,4", Packet::ClearBreak(WORD)),
    ("qThreadExtraInfo,2", Packet::ThreadText(Thread::Number(2))),
    ("qRcmd,776879", Packet::Command),
    ("", Packet::Unknown),
    ("vMustReplyEmpty", Packet::Unknown),
    ("m80000000", Packet::Malformed),
    ("m,", Packet::Malformed),
    ("m10000000000000000,1", Packet::Malformed),
    ("M80000000,1:00", Packet::Changes),
    ("c80000000", Packet::Changes),
    ("Z3,80000000,4", Packet::Unknown),
    ("Hx1", Packet::Malformed),
    ("vCont;t", Packet::Malformed),
];

#[test]
fn packets(rt: HostRuntime) {
    for &(text, packet) in &PACKETS {
        assert!(rt; packet_of(text.as_bytes()) == packet, "{text}");
    }
}

#[test]
fn frames(rt: HostRuntime) -> Result<(), Fail> {
    let mut out = Vec::new(rt.alloc());
    push_frame(&mut out, b"OK")?;
    push_frame(&mut out, b"a*}")?;
    assert!(rt; out.as_slice() == b"$OK#9a$a}\x0a}]#c2".as_slice());
    Ok(())
}
