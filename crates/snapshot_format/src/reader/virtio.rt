// The bytes of the virtio block device.

ghost use Rattle.std.specs.Prelude.{◌≡◌, ◌+◌, ◌-◌, ◌*◌, ◌≤◌, nat_le, IfOk, length};
ghost use Rattle.sv_types.specs.Policies.{is_between};
ghost use Rattle.spec_reference.specs.VirtioChain.{between, least_parts, max_parts};
ghost use Rattle.spec_reference.specs.VirtioDevice.{max_places};
ghost use Rattle.spec_reference.specs.VirtioRequests.{bytes_in};
ghost use Rattle.spec_reference.specs.VirtioStores.{is_size, descriptors_alignment, available_alignment, used_alignment};
ghost use Rattle.snapshot_format.specs.Forms.{number, within};
ghost use Rattle.snapshot_format.specs.Reading.{Gives};
ghost use Rattle.snapshot_format.specs.VirtioForms.{accepted, aligned, descriptor, descriptors, holds_data, in_use};
ghost use Rattle.snapshot_format.specs.VirtioForms.{is_ring, may_be_made, may_be_moved, may_stand};
ghost use Rattle.snapshot_format.specs.VirtioForms.{place_reached, progress, queue, register, request_flag, request_form, request_under_way};
ghost use Rattle.snapshot_format.specs.VirtioForms.{result_form, result_of, ring_index, selection, virtio};

use crate::SnapRefusal;
use crate::reader::values::{read_at_most, read_flag, read_number};
use spec_processor::has_bit;
use sv_types::{
    MAX_VIRTIO_PARTS, SECTOR_BYTES, VirtioPart, VirtioRequest, VirtioResult, VirtioState,
};

/// The bit of the status that says that a reset is needed. Virtio 1.2, 2.1.
const NEEDS_RESET_BIT: u8 = 6;

/// The most places of a queue.
const MAX_PLACES: u32 = 64;

/// The fewest descriptors of a chain: the header and the result.
const LEAST_PARTS: u8 = 2;

/// The alignments of a queue's parts. Virtio 1.2, 2.7.
const DESCRIPTORS_ALIGN: u64 = 16;

const AVAILABLE_ALIGN: u64 = 2;

const USED_ALIGN: u64 = 4;

/// The moves after all data's.
const LAST_MOVES: u64 = 4;

#[tactic(auto, unfolding(crate::specs::VirtioForms::virtio))]
pub(crate) fn read_virtio(bytes: &[u8]) -> Result<(VirtioState, &[u8]), SnapRefusal>
    ensures { Gives (λ x. (x.0, x.1.now)) result (virtio.taken bytes.now) }
{
    let (selection, rest) = read_selection(bytes)?;
    let (ready, rest) = read_in_use(rest, selection.size)?;
    let (queue, rest) = read_queue(rest, ready)?;
    let (request, rest) = read_under_way(rest, queue.status)?;
    Ok((
        VirtioState {
            device_select: selection.device_select,
            driver_select: selection.driver_select,
            driver_low: selection.driver_low,
            driver_high: selection.driver_high,
            queue: selection.queue,
            size: selection.size,
            ready,
            interrupt: queue.interrupt,
            status: queue.status,
            descriptors: queue.descriptors,
            available: queue.available,
            used: queue.used,
            accepted: queue.accepted,
            request,
        },
        rest,
    ))
}

// ---- the registers

#[tactic(auto, unfolding(crate::specs::VirtioForms::register))]
fn read_register(bytes: &[u8]) -> Result<(u32, &[u8]), SnapRefusal>
    ensures { Gives (λ x. (x.0, x.1.now)) result (register.taken bytes.now) }
{
    let (n, rest) = read_number(bytes)?;
    if n >= 1 << 32 {
        return Err(SnapRefusal::OutOfRange);
    }
    Ok((n as u32, rest))
}

#[tactic(auto, unfolding(crate::specs::VirtioForms::ring_index))]
fn read_ring_index(bytes: &[u8]) -> Result<(u16, &[u8]), SnapRefusal>
    ensures { Gives (λ x. (x.0, x.1.now)) result (ring_index.taken bytes.now) }
{
    let (n, rest) = read_number(bytes)?;
    if n >= 1 << 16 {
        return Err(SnapRefusal::OutOfRange);
    }
    Ok((n as u16, rest))
}

/// Which features are read and written, those that were taken, the queue and its size.
#[derive(Clone, Copy, Drop)]
struct Selection {
    device_select: u32,
    driver_select: u32,
    driver_low: u32,
    driver_high: u32,
    queue: u32,
    size: u32,
}

#[tactic(auto, unfolding(crate::specs::VirtioForms::selection))]
fn read_selection(bytes: &[u8]) -> Result<(Selection, &[u8]), SnapRefusal>
    ensures { Gives (λ x. ((x.0.device_select, (x.0.driver_select, (x.0.driver_low, (x.0.driver_high, (x.0.queue, x.0.size))))), x.1.now)) result
        (selection.taken bytes.now) }
{
    let (device_select, rest) = read_register(bytes)?;
    let (driver_select, rest) = read_register(rest)?;
    let (driver_low, rest) = read_register(rest)?;
    let (driver_high, rest) = read_register(rest)?;
    let (queue, rest) = read_register(rest)?;
    let (size, rest) = read_register(rest)?;
    Ok((
        Selection {
            device_select,
            driver_select,
            driver_low,
            driver_high,
            queue,
            size,
        },
        rest,
    ))
}

// Whether the queue is in use, which then has a size.
#[tactic(auto, unfolding(crate::specs::VirtioForms::in_use))]
fn read_in_use(bytes: &[u8], size: u32) -> Result<(bool, &[u8]), SnapRefusal>
    ensures { Gives (λ x. (x.0, x.1.now)) result ((in_use size).taken bytes.now) }
{
    let (ready, rest) = read_flag(bytes)?;
    if ready && !is_size(size) {
        return Err(SnapRefusal::OutOfRange);
    }
    Ok((ready, rest))
}

fn is_size(size: u32) -> bool
    ensures { result ≡ is_size size }
{
    matches!(size, 1 | 2 | 4 | 8 | 16 | 32 | MAX_PLACES)
}

/// Interrupt, status, the parts of the queue, and the number of accepted requests.
#[derive(Clone, Copy, Drop)]
struct Queue {
    interrupt: u32,
    status: u32,
    descriptors: u64,
    available: u64,
    used: u64,
    accepted: u64,
}

#[tactic(auto, unfolding(crate::specs::VirtioForms::queue))]
fn read_queue(bytes: &[u8], ready: bool) -> Result<(Queue, &[u8]), SnapRefusal>
    ensures { Gives (λ x. ((x.0.interrupt, (x.0.status, (x.0.descriptors, (x.0.available, (x.0.used, x.0.accepted))))), x.1.now)) result
        ((queue ready).taken bytes.now) }
{
    let (interrupt, rest) = read_register(bytes)?;
    let (status, rest) = read_register(rest)?;
    let (descriptors, rest) = read_table(rest, ready)?;
    let (available, rest) = read_available_ring(rest, ready)?;
    let (used, rest) = read_used_ring(rest, ready)?;
    let (accepted, rest) = read_ring_index(rest)?;
    Ok((
        Queue {
            interrupt,
            status,
            descriptors,
            available,
            used,
            accepted: u64::from(accepted),
        },
        rest,
    ))
}

#[tactic(auto, unfolding(crate::specs::VirtioForms::aligned))]
fn read_table(bytes: &[u8], ready: bool) -> Result<(u64, &[u8]), SnapRefusal>
    ensures { Gives (λ x. (x.0, x.1.now)) result ((aligned ready descriptors_alignment).taken bytes.now) }
{
    let (n, rest) = read_number(bytes)?;
    if ready && n % DESCRIPTORS_ALIGN != 0 {
        return Err(SnapRefusal::OutOfRange);
    }
    Ok((n, rest))
}

#[tactic(auto, unfolding(crate::specs::VirtioForms::aligned))]
fn read_available_ring(bytes: &[u8], ready: bool) -> Result<(u64, &[u8]), SnapRefusal>
    ensures { Gives (λ x. (x.0, x.1.now)) result ((aligned ready available_alignment).taken bytes.now) }
{
    let (n, rest) = read_number(bytes)?;
    if ready && n % AVAILABLE_ALIGN != 0 {
        return Err(SnapRefusal::OutOfRange);
    }
    Ok((n, rest))
}

#[tactic(auto, unfolding(crate::specs::VirtioForms::aligned))]
fn read_used_ring(bytes: &[u8], ready: bool) -> Result<(u64, &[u8]), SnapRefusal>
    ensures { Gives (λ x. (x.0, x.1.now)) result ((aligned ready used_alignment).taken bytes.now) }
{
    let (n, rest) = read_number(bytes)?;
    if ready && n % USED_ALIGN != 0 {
        return Err(SnapRefusal::OutOfRange);
    }
    Ok((n, rest))
}

// ---- the request

// A request where the flag before it is 1. A device that needs a reset has none.
#[tactic(auto, unfolding(crate::specs::VirtioForms::request_under_way, crate::specs::VirtioForms::request_after))]
fn read_under_way(bytes: &[u8], status: u32) -> Result<(Option<VirtioRequest>, &[u8]), SnapRefusal>
    ensures { Gives (λ x. (x.0, x.1.now)) result ((request_under_way status).taken bytes.now) }
{
    let (is_under_way, rest) = read_request_flag(bytes, status)?;
    if !is_under_way {
        return Ok((None, rest));
    }
    let (request, rest) = read_request(rest)?;
    Ok((Some(request), rest))
}

#[tactic(auto, unfolding(crate::specs::VirtioForms::request_flag))]
fn read_request_flag(bytes: &[u8], status: u32) -> Result<(bool, &[u8]), SnapRefusal>
    ensures { Gives (λ x. (x.0, x.1.now)) result ((request_flag status).taken bytes.now) }
{
    let (is_under_way, rest) = read_flag(bytes)?;
    if is_under_way && has_bit(u64::from(status), NEEDS_RESET_BIT) {
        return Err(SnapRefusal::OutOfRange);
    }
    Ok((is_under_way, rest))
}

#[tactic(auto, unfolding(crate::specs::VirtioForms::request_form))]
fn read_request(bytes: &[u8]) -> Result<(VirtioRequest, &[u8]), SnapRefusal>
    ensures { Gives (λ x. (x.0, x.1.now)) result (request_form.taken bytes.now) }
{
    let (accepted, rest) = read_accepted(bytes)?;
    let (part, rest) = read_place(rest, accepted.count)?;
    let (parts, rest) = read_descriptors(rest, accepted.count, part)?;
    let (progress, rest) = read_progress(rest, accepted.count, part, &parts)?;
    Ok((
        VirtioRequest {
            head: accepted.head,
            sector: accepted.sector,
            size: accepted.size,
            used: accepted.used,
            count: accepted.count,
            parts,
            part,
            offset: progress.offset,
            tail: progress.tail,
            result: progress.result,
            written: progress.written,
        },
        rest,
    ))
}

/// Head, sector, the queue's size and used ring, and the number of descriptors.
#[derive(Clone, Copy, Drop)]
struct Accepted {
    head: u16,
    sector: u64,
    size: u32,
    used: u64,
    count: u8,
}

#[tactic(auto, unfolding(crate::specs::VirtioForms::accepted))]
fn read_accepted(bytes: &[u8]) -> Result<(Accepted, &[u8]), SnapRefusal>
    ensures few { IfOk result (λ x. x.0.count ≤ max_parts) }
    ensures accepted { Gives (λ x. ((x.0.head, (x.0.sector, (x.0.size, (x.0.used, x.0.count)))), x.1.now)) result (accepted.taken bytes.now) }
{
    let (head, rest) = read_ring_index(bytes)?;
    let (sector, rest) = read_number(rest)?;
    let (size, rest) = read_size(rest)?;
    let (used, rest) = read_ring(rest)?;
    let (count, rest) = read_count(rest)?;
    Ok((
        Accepted {
            head,
            sector,
            size,
            used,
            count,
        },
        rest,
    ))
}

fn read_size(bytes: &[u8]) -> Result<(u32, &[u8]), SnapRefusal>
    ensures { Gives (λ x. (x.0, x.1.now)) result ((within (is_between 1 max_places) number).taken bytes.now) }
{
    let (n, rest) = read_number(bytes)?;
    if n < 1 || n > u64::from(MAX_PLACES) {
        return Err(SnapRefusal::OutOfRange);
    }
    Ok((n as u32, rest))
}

fn read_ring(bytes: &[u8]) -> Result<(u64, &[u8]), SnapRefusal>
    ensures { Gives (λ x. (x.0, x.1.now)) result ((within is_ring number).taken bytes.now) }
{
    let (n, rest) = read_number(bytes)?;
    if n % USED_ALIGN != 0 || n >= 1 << 63 {
        return Err(SnapRefusal::OutOfRange);
    }
    Ok((n, rest))
}

fn read_count(bytes: &[u8]) -> Result<(u8, &[u8]), SnapRefusal>
    ensures few { IfOk result (λ x. x.0 ≤ max_parts) }
    ensures count { Gives (λ x. (x.0, x.1.now)) result ((within (is_between least_parts max_parts) number).taken bytes.now) }
{
    let (n, rest) = read_number(bytes)?;
    if n < u64::from(LEAST_PARTS) || n > MAX_VIRTIO_PARTS as u64 {
        return Err(SnapRefusal::OutOfRange);
    }
    Ok((n as u8, rest))
}

// The place in the chain that is reached.
#[tactic(auto, unfolding(crate::specs::VirtioForms::place_reached))]
fn read_place(bytes: &[u8], count: u8) -> Result<(u8, &[u8]), SnapRefusal>
    ensures { Gives (λ x. (x.0, x.1.now)) result ((place_reached count).taken bytes.now) }
{
    let (n, rest) = read_number(bytes)?;
    if n < 1 || n > u64::from(count.saturating_sub(1)) {
        return Err(SnapRefusal::OutOfRange);
    }
    Ok((n as u8, rest))
}

// ---- its chain

#[tactic(auto, unfolding(crate::specs::VirtioForms::descriptor))]
fn read_descriptor(bytes: &[u8]) -> Result<(VirtioPart, &[u8]), SnapRefusal>
    ensures { Gives (λ x. (x.0, x.1.now)) result (descriptor.taken bytes.now) }
{
    let (gpa, rest) = read_number(bytes)?;
    let (len, rest) = read_register(rest)?;
    let (write, rest) = read_flag(rest)?;
    Ok((VirtioPart { gpa, len, write }, rest))
}

// Whether a descriptor may stand at a place.
fn may_stand(count: u8, reached: u8, place: usize, part: &VirtioPart) -> bool
    ensures { result ≡ may_stand count reached place part.now }
{
    if place < usize::from(count) {
        let is_left = usize::from(reached) <= place && place < usize::from(count) - 1;
        !(is_left && part.len > 0) || part.gpa as u128 + (part.len as u128) < 1 << 63
    } else {
        part.gpa == 0 && part.len == 0 && !part.write
    }
}

fn read_next_descriptor(
    bytes: &[u8],
    count: u8,
    reached: u8,
    place: usize,
) -> Result<(VirtioPart, &[u8]), SnapRefusal>
    ensures { Gives (λ x. (x.0, x.1.now)) result ((within (may_stand count reached place) descriptor).taken bytes.now) }
{
    let (part, rest) = read_descriptor(bytes)?;
    if !may_stand(count, reached, place, &part) {
        return Err(SnapRefusal::OutOfRange);
    }
    Ok((part, rest))
}

fn read_descriptors(
    bytes: &[u8],
    count: u8,
    reached: u8,
) -> Result<([VirtioPart; MAX_VIRTIO_PARTS], &[u8]), SnapRefusal>
    ensures { Gives (λ x. (x.0, x.1.now)) result ((descriptors count reached).taken bytes.now) }
{
    let mut parts = no_parts();
    let mut rest = bytes;
    'parts: for i in 0..MAX_VIRTIO_PARTS {
        let (part, after) = read_next_descriptor(rest, count, reached, i)?;
        parts[i] = part;
        rest = after;
    }
    Ok((parts, rest))
}

fn no_parts() -> [VirtioPart; MAX_VIRTIO_PARTS]
    ensures { length result ≡ max_parts }
{
    [VirtioPart {
        gpa: 0,
        len: 0,
        write: false,
    }; MAX_VIRTIO_PARTS]
}

// ---- what is done of it

/// The bytes moved of the descriptor that is reached, the last moves that are made, the result, and the written bytes.
#[derive(Clone, Copy, Drop)]
struct Progress {
    offset: u32,
    tail: u8,
    result: VirtioResult,
    written: u32,
}

#[tactic(auto, unfolding(crate::specs::VirtioForms::progress))]
fn read_progress<'a>(
    bytes: &'a [u8],
    count: u8,
    reached: u8,
    parts: &[VirtioPart; MAX_VIRTIO_PARTS],
) -> Result<(Progress, &'a [u8]), SnapRefusal>
    requires { count ≤ max_parts }
    ensures { Gives (λ x. ((x.0.offset, (x.0.tail, (x.0.result, x.0.written))), x.1.now)) result ((progress count reached parts.now).taken bytes.now) }
{
    let (offset, rest) = read_offset(bytes, count, reached, parts)?;
    let (tail, rest) = read_tail(rest, count, reached)?;
    let (result, rest) = read_result(rest)?;
    let (written, rest) = read_register(rest)?;
    Ok((
        Progress {
            offset,
            tail,
            result,
            written,
        },
        rest,
    ))
}

fn read_offset<'a>(
    bytes: &'a [u8],
    count: u8,
    reached: u8,
    parts: &[VirtioPart; MAX_VIRTIO_PARTS],
) -> Result<(u32, &'a [u8]), SnapRefusal>
    requires { count ≤ max_parts }
    ensures { Gives (λ x. (x.0, x.1.now)) result ((within (may_be_moved count reached parts.now) register).taken bytes.now) }
{
    let (n, rest) = read_register(bytes)?;
    if !may_be_moved(count, reached, parts, n) {
        return Err(SnapRefusal::OutOfRange);
    }
    Ok((n, rest))
}

fn may_be_moved(count: u8, reached: u8, parts: &[VirtioPart; MAX_VIRTIO_PARTS], offset: u32) -> bool
    requires { count ≤ max_parts }
    ensures { result ≡ may_be_moved count reached parts.now offset }
{
    if reached < count.saturating_sub(1) {
        offset <= parts[usize::from(reached)].len
    } else {
        offset == 0
    }
}

fn read_tail(bytes: &[u8], count: u8, reached: u8) -> Result<(u8, &[u8]), SnapRefusal>
    ensures { Gives (λ x. (x.0, x.1.now)) result ((within (may_be_made count reached) number).taken bytes.now) }
{
    let (n, rest) = read_number(bytes)?;
    let most = if reached < count.saturating_sub(1) {
        0
    } else {
        LAST_MOVES
    };
    if n > most {
        return Err(SnapRefusal::OutOfRange);
    }
    Ok((n as u8, rest))
}

#[tactic(auto, unfolding(crate::specs::VirtioForms::result_form))]
fn read_result(bytes: &[u8]) -> Result<(VirtioResult, &[u8]), SnapRefusal>
    ensures { Gives (λ x. (x.0, x.1.now)) result (result_form.taken bytes.now) }
{
    let (n, rest) = read_at_most(bytes, VirtioResult::Unsupported.number())?;
    Ok((result_of(n), rest))
}

fn result_of(n: u64) -> VirtioResult
    ensures { result ≡ result_of n }
{
    if n == VirtioResult::Done.number() {
        VirtioResult::Done
    } else if n == VirtioResult::Failed.number() {
        VirtioResult::Failed
    } else {
        VirtioResult::Unsupported
    }
}

// ---- the disk

/// Whether the data of a request, of which some is left, lies on a disk of so many bytes.
pub(crate) fn holds_data(request: &Option<VirtioRequest>, size: u64) -> bool
    ensures { result ≡ holds_data request.now size }
{
    match request {
        None => true,
        Some(q) => q.part >= q.count.saturating_sub(1) || data_lies_on(q, size),
    }
}

fn data_lies_on(q: &VirtioRequest, size: u64) -> bool
    ensures { result ≡ nat_le (512 * q.now.sector + bytes_in (between q.now.parts 1 (q.now.count - 1))) size }
{
    let end = u128::from(SECTOR_BYTES) * u128::from(q.sector) + u128::from(bytes_in(data_of(q)));
    end <= u128::from(size)
}

// The descriptors between the header and the result.
fn data_of(q: &VirtioRequest) -> &[VirtioPart]
    ensures value { result.now ≡ between q.now.parts 1 (q.now.count - 1) }
    ensures few { length result.now ≤ max_parts }
{
    let data = &q.parts[1..];
    let most = usize::from(q.count).saturating_sub(2);
    if most < data.len() {
        &data[..most]
    } else {
        data
    }
}

fn bytes_in(parts: &[VirtioPart]) -> u64
    requires { length parts.now ≤ max_parts }
    ensures { result ≡ bytes_in parts.now }
{
    parts.iter().map(|part| u64::from(part.len)).sum()
}
