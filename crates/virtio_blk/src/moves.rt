// The moves that are left of a request, taken one by one.

ghost use Rattle.std.specs.Prelude.{◌≡◌, ℕ, ◌+◌, ◌-◌, ◌^◌, ◌<◌, ◌∷◌, ◌%◌, false, true, drop, IfSome, IsSome};
ghost use Rattle.spec_reference.specs.VirtioQueue.{used_gpa};
ghost use Rattle.spec_reference.specs.VirtioRequests.{piece_size, piece};
ghost use Rattle.spec_reference.specs.VirtioBeats.{is_last};
ghost use Rattle.spec_reference.specs.VirtioStates.{part_at, last_place, disk_offset, last_left, moves_left};
ghost use Rattle.virtio_blk.specs.Held.{IsPlaced, IsOnDisk, IsSame, CanBeMade, first_move, tail_moves};
ghost use Rattle.spec_reference.specs.VirtioDevice.{index_values};
ghost use Rattle.spec_reference.specs.VirtioStores.{used_alignment};

use crate::accept::{INDICES, RING_HEADER_BYTES, RING_INDEX_OFFSET, USED_ENTRY_BYTES};
use crate::requests::bytes_in;
use spec_processor::PAGE_BYTES;
use sv_types::{BEAT_BYTES, SECTOR_BYTES, VirtioMove, VirtioRequest};

/// Where the length stands in an entry of the used ring, after the head.
const USED_LENGTH_OFFSET: u64 = 4;

// Passes over parts of which nothing is left.
fn settle(q: &mut VirtioRequest)
    requires { IsPlaced q.old }
    ensures same { IsSame q.old q.new }
    ensures placed { IsPlaced q.new }
    ensures settled { q.new.part < last_place q.new → q.new.offset < (part_at q.new q.new.part).len }
{
    for index in q.part..q.count - 1 {
        if q.offset < q.parts[index as usize].len {
            return;
        }
        q.part = index + 1;
        q.offset = 0;
    }
}

// Where the next byte of data lies on the disk.
fn disk_offset(q: &VirtioRequest) -> u64
    requires placed { IsPlaced q.now }
    requires fits { disk_offset q.now < 2 ^ 64 }
    ensures { result ≡ disk_offset q.now }
{
    SECTOR_BYTES * q.sector + (bytes_in(&q.parts[1..q.part as usize]) + q.offset as u64)
}

// The size of the next piece.
fn piece_size(gpa: u64, len: u64) -> u64
    ensures { result ≡ piece_size gpa len }
{
    BEAT_BYTES.min((PAGE_BYTES - gpa % PAGE_BYTES).min(len))
}

// A piece of data.
fn piece(write: bool, gpa: u64, place: u64, size: u64) -> VirtioMove
    ensures { result ≡ piece write gpa place size }
{
    if write {
        VirtioMove::ToMemory { gpa, place, size }
    } else {
        VirtioMove::ToDisk { gpa, place, size }
    }
}

// The next piece of data, of which there is one.
fn take_data(q: &mut VirtioRequest) -> VirtioMove
    requires placed { IsPlaced q.old }
    requires on_disk { IsOnDisk (2 ^ 63) q.old }
    requires before { q.old.part < last_place q.old }
    requires some { q.old.offset < (part_at q.old q.old.part).len }
    ensures moves { (accepted : ℕ) → moves_left accepted q.old ≡ result ∷ moves_left accepted q.new }
    ensures placed { IsPlaced q.new }
    ensures disk { (disk_size : ℕ) → IsOnDisk disk_size q.old → IsOnDisk disk_size q.new }
    ensures made { (disk_size : ℕ) → IsOnDisk disk_size q.old → CanBeMade disk_size result }
    ensures first { q.new.tail ≡ 0 }
    ensures others { q.new ≡ record q.old { offset = q.new.offset } }
{
    let part = q.parts[q.part as usize];
    let gpa = part.gpa + q.offset as u64;
    let place = disk_offset(q);
    let size = piece_size(gpa, (part.len - q.offset) as u64);
    q.offset += size as u32;
    piece(part.write, gpa, place, size)
}

// The address of the used ring's place for a request.
fn used_entry(q: &VirtioRequest, accepted: u64) -> u64
    requires placed { IsPlaced q.now }
    requires accepted { accepted < index_values }
    ensures value { result ≡ used_gpa q.now.used q.now.size accepted }
    ensures aligned { result % used_alignment ≡ 0 }
    ensures small { result < 2 ^ 63 + 1024 }
{
    q.used
        + RING_HEADER_BYTES
        + USED_ENTRY_BYTES * ((accepted + (INDICES - 1)) % INDICES % q.size as u64)
}

// The next of the last moves, if there is one.
#[tactic(auto, using(crate::proofs::Places::first_at, sv_types::proofs::InPages::word_in_page))]
fn last_move(q: &VirtioRequest, accepted: u64) -> Option<VirtioMove>
    requires placed { IsPlaced q.now }
    requires accepted { accepted < index_values }
    ensures first { result ≡ first_move (last_left accepted q.now) }
    ensures more { IsSome result → q.now.tail < tail_moves }
    ensures made { (disk_size : ℕ) → IfSome result (CanBeMade disk_size) }
    ensures last { IfSome result (λ move. is_last move ≡ true) }
{
    let entry = used_entry(q, accepted);
    match q.tail {
        0 => Some(VirtioMove::PutResult {
            gpa: q.parts[q.count as usize - 1].gpa,
        }),
        1 => Some(VirtioMove::PutHead {
            gpa: entry,
            head: q.head,
        }),
        2 => Some(VirtioMove::PutLength {
            gpa: entry + USED_LENGTH_OFFSET,
        }),
        3 => Some(VirtioMove::PutIndex {
            gpa: q.used + RING_INDEX_OFFSET,
            index: accepted as u16,
        }),
        _ => None,
    }
}

// The next move after all data, if there is one.
fn take_last(q: &mut VirtioRequest, accepted: u64) -> Option<VirtioMove>
    requires placed { IsPlaced q.old }
    requires ends { q.old.part ≡ last_place q.old }
    requires accepted { accepted < index_values }
    ensures first { result ≡ first_move (last_left accepted q.old) }
    ensures rest { last_left accepted q.new ≡ drop 1 (last_left accepted q.old) }
    ensures placed { IsPlaced q.new }
    ensures made { (disk_size : ℕ) → IfSome result (CanBeMade disk_size) }
    ensures last { IfSome result (λ move. is_last move ≡ true) }
    ensures others { q.new ≡ record q.old { tail = q.new.tail } }
{
    let next = last_move(q, accepted)?;
    q.tail += 1;
    Some(next)
}

/// The next move of a request, if there is one, which is taken from those that are left.
pub fn take_move(q: &mut VirtioRequest, accepted: u64) -> Option<VirtioMove>
    requires placed { IsPlaced q.old }
    requires on_disk { IsOnDisk (2 ^ 63) q.old }
    requires accepted { accepted < index_values }
    ensures first { result ≡ first_move (moves_left accepted q.old) }
    ensures rest { moves_left accepted q.new ≡ drop 1 (moves_left accepted q.old) }
    ensures placed { IsPlaced q.new }
    ensures disk { (disk_size : ℕ) → IsOnDisk disk_size q.old → IsOnDisk disk_size q.new }
    ensures made { (disk_size : ℕ) → IsOnDisk disk_size q.old → IfSome result (CanBeMade disk_size) }
    ensures data_first { IfSome result (λ move. is_last move ≡ false → q.new.tail ≡ 0) }
    ensures others { q.new ≡ record q.old { part = q.new.part; offset = q.new.offset; tail = q.new.tail } }
{
    settle(q);
    if q.part < q.count - 1 {
        Some(take_data(q))
    } else {
        take_last(q, accepted)
    }
}
