// The bytes of a whole snapshot.

ghost use Rattle.std.specs.Prelude.{◌≡◌, ◌≤◌, true, Ok, IfOk};
ghost use Rattle.sv_types.specs.Limits.{max_harts};
ghost use Rattle.snapshot_format.specs.Snapshots.{Contents, magic_form, body, contents, header, snapshot, snapshot_read, whole_of};
ghost use Rattle.snapshot_format.specs.Reading.{Gives, Reads};
ghost use Rattle.snapshot_format.specs.Rows.{header_numbers};
ghost use Rattle.snapshot_format.specs.Views.{body_parts, header_view};

use crate::reader::devices::{Devices, read_bytes, read_devices};
use crate::reader::harts::read_harts;
use crate::reader::journal::{Recorded, read_journal};
use crate::reader::modules::{Gate, read_gate};
use crate::reader::pages::{Pages, read_pages};
use crate::reader::read_error::ReadError;
use crate::reader::row::{Range, read_row};
use crate::{
    BLOCK_MAGIC, MAGIC_BYTES, PortKind, SnapRefusal, Snapshot, VIRTIO_MAGIC, law_snapshot,
};
use policy_limits::{MAX_RAM_PAGES, MIN_RAM_PAGES};
use spec_processor::PAGE_BYTES;
use spec_reference::saved_machine::{Saved, SavedHart};
use std::alloc::Global;
use sv_types::{MAX_EVENTS, MAX_HARTS};

/// The most bytes that a snapshot has.
pub const MAX_SNAPSHOT_BYTES: usize = 1300 << 20;

/// The snapshot that some bytes are. What is read is encoded so, and each snapshot is read from its encoding; else the first
/// refusal from left to right is answered, or out of memory.
pub fn read(alloc: Global, bytes: &[u8]) -> Result<Snapshot, ReadError>
    ensures read { Reads contents result (snapshot_read bytes.now) }
    ensures encoded { IfOk result (λ s. bytes.now ≡ snapshot.encode (contents s)) }
    ensures has { IfOk result (λ s. snapshot.has (contents s) ≡ true) }
    ensures every { (s : Contents) → snapshot.has s ≡ true → bytes.now ≡ snapshot.encode s → Reads contents result (Ok s) }
{
    law_snapshot();
    read_all(alloc, bytes)
}

#[tactic(auto, unfolding(crate::specs::Snapshots::snapshot_read))]
fn read_all(alloc: Global, bytes: &[u8]) -> Result<Snapshot, ReadError>
    ensures { Reads contents result (snapshot_read bytes.now) }
{
    if bytes.len() > MAX_SNAPSHOT_BYTES {
        return Err(ReadError::Refused(SnapRefusal::TooLong));
    }
    let (snapshot, rest) = read_snapshot(alloc, bytes)?;
    if !rest.is_empty() {
        return Err(ReadError::Refused(SnapRefusal::OtherLength));
    }
    Ok(snapshot)
}

#[tactic(auto, unfolding(crate::specs::Snapshots::snapshot))]
fn read_snapshot(alloc: Global, bytes: &[u8]) -> Result<(Snapshot, &[u8]), ReadError>
    ensures { Reads (λ x. (contents x.0, x.1.now)) result (snapshot.taken bytes.now) }
{
    let (header, rest) = read_header(bytes)?;
    let (body, rest) = read_body(alloc, rest, header)?;
    Ok((put_together(header, body), rest))
}

fn put_together(header: Header, body: Body) -> Snapshot
    ensures { contents result ≡ whole_of (header_view header, body_parts body) }
{
    let Body {
        harts,
        pages: Pages { protection, text },
        gate: Gate {
            modules,
            retired,
            loading,
        },
        devices: Devices {
            console,
            port,
            disk,
        },
        recorded: Recorded {
            counts,
            notes,
            verdict,
        },
        ram,
    } = body;
    let machine = Saved {
        harts,
        ram,
        protection,
        modules,
        retired,
        loading,
        console,
        port,
        disk,
        time: header.time,
        counts,
        notes,
        verdict,
    };
    Snapshot {
        events: header.events,
        machine,
        text,
    }
}

/// The kind of the device, events, harts, pages of RAM and time.
#[derive(Clone, Copy, Drop)]
struct Header {
    kind: PortKind,
    events: u64,
    harts: u8,
    ram_pages: u32,
    time: u64,
}

#[tactic(auto, unfolding(crate::specs::Snapshots::header))]
fn read_header(bytes: &[u8]) -> Result<(Header, &[u8]), SnapRefusal>
    ensures range { IfOk result (λ x. x.0.harts ≤ max_harts) }
    ensures header { Gives (λ x. (header_view x.0, x.1.now)) result (header.taken bytes.now) }
{
    let (kind, rest) = read_magic(bytes)?;
    let (numbers, rest) = read_header_numbers(rest)?;
    Ok((
        Header {
            kind,
            events: numbers.events,
            harts: numbers.harts,
            ram_pages: numbers.ram_pages,
            time: numbers.time,
        },
        rest,
    ))
}

/// Events, harts, pages of RAM and time.
#[derive(Clone, Copy, Drop)]
struct HeaderNumbers {
    events: u64,
    harts: u8,
    ram_pages: u32,
    time: u64,
}

fn read_header_numbers(bytes: &[u8]) -> Result<(HeaderNumbers, &[u8]), SnapRefusal>
    ensures range { IfOk result (λ x. x.0.harts ≤ max_harts) }
    ensures numbers { Gives (λ x. ((x.0.events, (x.0.harts, (x.0.ram_pages, x.0.time))), x.1.now)) result (header_numbers.taken bytes.now) }
{
    let ranges = [
        Range::AtMost(MAX_EVENTS),
        Range::Between(1, u64::from(MAX_HARTS)),
        Range::Between(u64::from(MIN_RAM_PAGES), u64::from(MAX_RAM_PAGES)),
        Range::Any,
    ];
    let ([events, harts, ram_pages, time], rest) = read_row(bytes, ranges)?;
    Ok((
        HeaderNumbers {
            events,
            harts: harts as u8,
            ram_pages: ram_pages as u32,
            time,
        },
        rest,
    ))
}

#[tactic(auto, unfolding(crate::specs::Snapshots::magic_at))]
fn read_magic(bytes: &[u8]) -> Result<(PortKind, &[u8]), SnapRefusal>
    ensures { Gives (λ x. (x.0, x.1.now)) result (magic_form.taken bytes.now) }
{
    let Some((front, rest)) = bytes.split_first_chunk::<MAGIC_BYTES>() else {
        return Err(SnapRefusal::OtherLength);
    };
    if front == BLOCK_MAGIC {
        return Ok((PortKind::Block, rest));
    }
    if front == VIRTIO_MAGIC {
        return Ok((PortKind::Virtio, rest));
    }
    Err(SnapRefusal::OtherBeginning)
}

/// What stands after the header.
#[derive(Drop)]
struct Body {
    harts: Vec<SavedHart>,
    pages: Pages,
    gate: Gate,
    devices: Devices,
    recorded: Recorded,
    ram: Vec<u8>,
}

#[tactic(auto, unfolding(crate::specs::Snapshots::body))]
fn read_body(alloc: Global, bytes: &[u8], header: Header) -> Result<(Body, &[u8]), ReadError>
    requires { header.harts ≤ max_harts }
    ensures { Reads (λ x. (body_parts x.0, x.1.now)) result ((body (header_view header)).taken bytes.now) }
{
    let (harts, rest) = read_harts(alloc, bytes, header.ram_pages, header.harts)?;
    let (pages, rest) = read_pages(alloc, rest, header.ram_pages)?;
    let (gate, rest) = read_gate(alloc, rest, &harts)?;
    let (devices, rest) = read_devices(alloc, rest, header.kind)?;
    let (recorded, rest) = read_journal(alloc, rest, header.events, header.harts)?;
    let (ram, rest) = read_bytes(alloc, rest, PAGE_BYTES * u64::from(header.ram_pages))?;
    Ok((
        Body {
            harts,
            pages,
            gate,
            devices,
            recorded,
            ram,
        },
        rest,
    ))
}
