// Beats: the moves of the request under way.

ghost use Rattle.std.specs.Prelude.{◌≡◌, ℕ, ◌+◌, ◌%◌, ◌^◌, ◌≤◌, false, true, IsTrue, length, Some};
ghost use Rattle.spec_reference.specs.VirtioQueue.{used_word_size, ring_index_size};
ghost use Rattle.spec_processor.specs.Bytes.{page_size, overwrite, low_bytes};
ghost use Rattle.spec_reference.specs.BlockDisk.{beat_size};
ghost use Rattle.spec_reference.specs.Disk.{is_writable};
ghost use Rattle.spec_reference.specs.Move.{OutsideRam};
ghost use Rattle.dma_guard.specs.Transfers.{beat_of, after_move};
ghost use Rattle.spec_reference.specs.VirtioBeats.{broken_beat, last_moves_alone, with_written, with_request, finish_request, is_last};
ghost use Rattle.spec_reference.specs.VirtioBeats.{make, make_first, to_memory, to_disk, put_last, is_live, virtio_beat};
ghost use Rattle.spec_reference.specs.VirtioDevice.{is_broken};
ghost use Rattle.spec_reference.specs.VirtioStates.{request_of, moves_left};
ghost use Rattle.virtio_blk.specs.Held.{IsPlaced, IsOnDisk, CanBeMade, device_of};

use crate::Virtio;
use crate::bus::NEEDS_RESET;
use crate::moves::take_move;
use crate::requests::lies_in_ram;
use dma_guard::{DmaGuard, DmaRefused, DmaStep};
use host_mem::{HostMem, put_word};
use spec_processor::{has_bit, ram_offset};
use sv_types::{VirtioMove, VirtioRequest, VirtioResult};

/// The place of the status bit that says that the driver is ready.
const DRIVER_OK_BIT: u8 = 2;

/// Interrupts: a request is done, and the device's state has changed.
const REQUEST_DONE: u32 = 1;

const STATE_CHANGED: u32 = 2;

// The request after a move that wrote so many bytes into memory.
#[tactic(auto, unfolding(spec_reference::specs::VirtioStates::moves_left))]
fn with_written(request: &VirtioRequest, size: u64) -> VirtioRequest
    requires small { size ≤ beat_size }
    ensures request { (accepted : ℕ) → request_of accepted result ≡ with_written (request_of accepted request.now) size }
    ensures others { result ≡ record request.now { written = result.written } }
{
    VirtioRequest {
        written: request.written.wrapping_add(size as u32),
        ..*request
    }
}

// The request after its data was refused.
fn without_data(request: &VirtioRequest) -> VirtioRequest
    requires placed { IsPlaced request.now }
    requires first { request.now.tail ≡ 0 }
    ensures request { (accepted : ℕ) → request_of accepted result ≡ last_moves_alone (request_of accepted request.now) }
    ensures placed { IsPlaced result }
    ensures on_disk { (disk_size : ℕ) → IsOnDisk disk_size result }
{
    VirtioRequest {
        part: request.count - 1,
        offset: 0,
        result: VirtioResult::Failed,
        ..*request
    }
}

// The low bytes of a value, the lowest first.
#[tactic(auto, unfolding(spec_processor::specs::Bytes::overwrite))]
fn low_1(value: u64) -> [u8; 1]
    ensures { result ≡ low_bytes 1 value }
{
    let mut bytes = [0];
    put_word(&mut bytes, 0, 1, value);
    bytes
}

#[tactic(auto, unfolding(spec_processor::specs::Bytes::overwrite))]
fn low_2(value: u64) -> [u8; 2]
    ensures { result ≡ low_bytes 2 value }
{
    let mut bytes = [0; 2];
    put_word(&mut bytes, 0, 2, value);
    bytes
}

#[tactic(auto, unfolding(spec_processor::specs::Bytes::overwrite))]
fn low_4(value: u64) -> [u8; 4]
    ensures { result ≡ low_bytes 4 value }
{
    let mut bytes = [0; 4];
    put_word(&mut bytes, 0, 4, value);
    bytes
}

// Data that one move takes: its guest-physical address, its place on the disk, and how many bytes it has.
#[derive(Clone, Copy, Drop)]
struct Piece {
    gpa: u64,
    place: u64,
    size: u64,
}

impl Virtio {
    fn is_live(&self) -> bool
        ensures value { result ≡ is_live (device_of self.now) }
        ensures ready { IsTrue result → self.now.state.ready ≡ true }
        ensures whole { IsTrue result → is_broken (device_of self.now) ≡ false }
    {
        has_bit(self.state.status as u64, DRIVER_OK_BIT) && self.state.ready && !self.is_broken()
    }

    // The device is broken until its reset.
    pub(crate) fn break_down(&mut self)
        ensures { device_of self.new ≡ (broken_beat (device_of self.old) OutsideRam).device }
    {
        self.state.status |= NEEDS_RESET;
        self.state.interrupt |= STATE_CHANGED;
        self.state.request = None;
    }

    // The request goes on.
    fn keep(&mut self, request: VirtioRequest)
        requires placed { IsPlaced request }
        requires on_disk { IsOnDisk (length self.old.bytes) request }
        requires whole { is_broken (device_of self.old) ≡ false }
        ensures { self.new ≡ record self.old { state = record self.old.state { request = Some request } } }
    {
        self.state.request = Some(request);
    }

    // The request is done.
    fn finish(&mut self)
        ensures { device_of self.new ≡ finish_request (device_of self.old) }
    {
        self.state.request = None;
        self.state.interrupt |= REQUEST_DONE;
    }

    // Bytes of the disk go into memory.
    #[tactic(auto, unfolding(crate::proofs::MoveForms::data_written))]
    fn to_memory(
        &mut self,
        request: &VirtioRequest,
        piece: Piece,
        guard: &DmaGuard,
        mem: &mut HostMem,
    ) -> DmaStep
        requires small { piece.size ≤ beat_size }
        requires one_page { piece.gpa % page_size + piece.size ≤ page_size }
        requires inside { piece.place + piece.size ≤ length self.old.bytes }
        requires placed { IsPlaced request.now }
        requires on_disk { IsOnDisk (length self.old.bytes) request.now }
        requires whole { is_broken (device_of self.old) ≡ false }
        requires first { request.now.tail ≡ 0 }
        ensures device { device_of self.new ≡
            (to_memory (device_of self.old) (request_of self.old.state.accepted request.now) piece.gpa piece.place piece.size mem.old.ram
            (is_writable guard.now)).device }
        ensures told { result ≡
            beat_of (to_memory (device_of self.old) (request_of self.old.state.accepted request.now) piece.gpa piece.place piece.size mem.old.ram
            (is_writable guard.now)).move }
        ensures memory { mem.new ≡
            after_move mem.old (to_memory (device_of self.old) (request_of self.old.state.accepted request.now) piece.gpa piece.place piece.size mem.old.ram
            (is_writable guard.now)).move }
    {
        let Piece { gpa, place, size } = piece;
        let from = place as usize;
        match guard.write(mem, gpa, &self.bytes[from..from + size as usize]) {
            Ok(()) => {
                self.keep(with_written(request, size));
                DmaStep::Wrote {
                    gpa,
                    len: size as u32,
                }
            }
            Err(DmaRefused::Protected { page: _ }) => {
                self.keep(without_data(request));
                DmaStep::Denied { gpa }
            }
            Err(DmaRefused::OutOfRam) => {
                self.break_down();
                DmaStep::Range
            }
        }
    }

    // One of the last moves writes its bytes, and the request goes on; or it breaks the device.
    #[tactic(auto, unfolding(crate::proofs::MoveForms::last_written))]
    fn put_last(
        &mut self,
        request: &VirtioRequest,
        gpa: u64,
        bytes: &[u8],
        guard: &DmaGuard,
        mem: &mut HostMem,
    ) -> DmaStep
        requires small { length bytes.now ≤ used_word_size }
        requires one_page { gpa % page_size + length bytes.now ≤ page_size }
        requires placed { IsPlaced request.now }
        requires on_disk { IsOnDisk (length self.old.bytes) request.now }
        requires whole { is_broken (device_of self.old) ≡ false }
        ensures device { device_of self.new ≡
            (put_last (device_of self.old) (with_request (device_of self.old) (request_of self.old.state.accepted request.now)) gpa bytes.now
            mem.old.ram (is_writable guard.now)).device }
        ensures told { result ≡
            beat_of (put_last (device_of self.old) (with_request (device_of self.old) (request_of self.old.state.accepted request.now)) gpa bytes.now
            mem.old.ram (is_writable guard.now)).move }
        ensures memory { mem.new ≡
            after_move mem.old (put_last (device_of self.old) (with_request (device_of self.old) (request_of self.old.state.accepted request.now))
            gpa bytes.now mem.old.ram (is_writable guard.now)).move }
    {
        match guard.write(mem, gpa, bytes) {
            Ok(()) => {
                self.keep(*request);
                DmaStep::Wrote {
                    gpa,
                    len: bytes.len() as u32,
                }
            }
            Err(DmaRefused::Protected { page: _ }) => {
                self.break_down();
                DmaStep::Denied { gpa }
            }
            Err(DmaRefused::OutOfRam) => {
                self.break_down();
                DmaStep::Range
            }
        }
    }

    // The used ring's index is the last move: the request is done, or the device is broken.
    #[tactic(auto, unfolding(crate::proofs::MoveForms::last_written))]
    fn put_index(
        &mut self,
        gpa: u64,
        bytes: &[u8; 2],
        guard: &DmaGuard,
        mem: &mut HostMem,
    ) -> DmaStep
        requires one_page { gpa % page_size + ring_index_size ≤ page_size }
        ensures device { device_of self.new ≡
            (put_last (device_of self.old) (finish_request (device_of self.old)) gpa bytes.now mem.old.ram (is_writable guard.now)).device }
        ensures told { result ≡
            beat_of (put_last (device_of self.old) (finish_request (device_of self.old)) gpa bytes.now mem.old.ram (is_writable guard.now)).move }
        ensures memory { mem.new ≡
            after_move mem.old (put_last (device_of self.old) (finish_request (device_of self.old)) gpa bytes.now mem.old.ram (is_writable guard.now)).move }
    {
        match guard.write(mem, gpa, bytes) {
            Ok(()) => {
                self.finish();
                DmaStep::Wrote {
                    gpa,
                    len: bytes.len() as u32,
                }
            }
            Err(DmaRefused::Protected { page: _ }) => {
                self.break_down();
                DmaStep::Denied { gpa }
            }
            Err(DmaRefused::OutOfRam) => {
                self.break_down();
                DmaStep::Range
            }
        }
    }

    // Bytes go onto the disk, from a place on.
    fn keep_bytes(&mut self, place: usize, bytes: &[u8])
        requires { place + length bytes.now ≤ length self.old.bytes }
        ensures value { self.new ≡ record self.old { bytes = overwrite self.old.bytes place bytes.now } }
        ensures size { length self.new.bytes ≡ length self.old.bytes }
    {
        self.bytes[place..place + bytes.len()].copy_from_slice(bytes);
    }

    // Bytes of memory go onto the disk. Every page of RAM may be read.
    #[tactic(auto, unfolding(spec_reference::specs::VirtioBeats::to_disk))]
    fn to_disk(
        &mut self,
        request: &VirtioRequest,
        gpa: u64,
        place: u64,
        size: u64,
        mem: &HostMem,
    ) -> DmaStep
        requires inside { place + size ≤ length self.old.bytes }
        requires placed { IsPlaced request.now }
        requires on_disk { IsOnDisk (length self.old.bytes) request.now }
        requires whole { is_broken (device_of self.old) ≡ false }
        ensures device { device_of self.new ≡
            (to_disk (device_of self.old) (request_of self.old.state.accepted request.now) gpa place size mem.now.ram).device }
        ensures told { result ≡ beat_of (to_disk (device_of self.old) (request_of self.old.state.accepted request.now) gpa place size mem.now.ram).move }
        ensures memory { after_move mem.now (to_disk (device_of self.old) (request_of self.old.state.accepted request.now) gpa place size
            mem.now.ram).move ≡ mem.now }
    {
        let ram = mem.ram();
        if !lies_in_ram(ram, gpa, size) {
            self.break_down();
            return DmaStep::Range;
        }
        let at = ram_offset(gpa) as usize;
        self.keep_bytes(place as usize, &ram[at..at + size as usize]);
        self.keep(*request);
        DmaStep::Read { gpa }
    }

    // One move of a request, which has the others left.
    #[tactic(auto, unfolding(spec_reference::specs::VirtioBeats::make))]
    fn make(
        &mut self,
        request: &VirtioRequest,
        next: VirtioMove,
        guard: &DmaGuard,
        mem: &mut HostMem,
    ) -> DmaStep
        requires placed { IsPlaced request.now }
        requires on_disk { IsOnDisk (length self.old.bytes) request.now }
        requires whole { is_broken (device_of self.old) ≡ false }
        requires made { CanBeMade (length self.old.bytes) next }
        requires data_first { is_last next ≡ false → request.now.tail ≡ 0 }
        ensures device { device_of self.new ≡
            (make (device_of self.old) (request_of self.old.state.accepted request.now) next mem.old.ram (is_writable guard.now)).device }
        ensures told { result ≡
            beat_of (make (device_of self.old) (request_of self.old.state.accepted request.now) next mem.old.ram (is_writable guard.now)).move }
        ensures memory { mem.new ≡
            after_move mem.old (make (device_of self.old) (request_of self.old.state.accepted request.now) next mem.old.ram (is_writable guard.now)).move }
    {
        match next {
            VirtioMove::ToMemory { gpa, place, size } => {
                self.to_memory(request, Piece { gpa, place, size }, guard, mem)
            }
            VirtioMove::ToDisk { gpa, place, size } => {
                self.to_disk(request, gpa, place, size, mem)
            }
            VirtioMove::PutResult { gpa } => {
                self.put_last(request, gpa, &low_1(request.result.number()), guard, mem)
            }
            VirtioMove::PutHead { gpa, head } => {
                self.put_last(request, gpa, &low_4(head as u64), guard, mem)
            }
            VirtioMove::PutLength { gpa } => {
                self.put_last(request, gpa, &low_4(request.written as u64 + 1), guard, mem)
            }
            VirtioMove::PutIndex { gpa, index } => {
                self.put_index(gpa, &low_2(index as u64), guard, mem)
            }
        }
    }

    // The next move of the request under way.
    fn go_on(&mut self, mut request: VirtioRequest, guard: &DmaGuard, mem: &mut HostMem) -> DmaStep
        requires placed { IsPlaced request }
        requires on_disk { IsOnDisk (length self.old.bytes) request }
        requires whole { is_broken (device_of self.old) ≡ false }
        requires fits { IsOnDisk (2 ^ 63) request }
        requires under_way { self.old.state.request ≡ Some request }
        ensures device { device_of self.new ≡
            (make_first (device_of self.old) (request_of self.old.state.accepted request) (moves_left self.old.state.accepted request) mem.old.ram
            (is_writable guard.now)).device }
        ensures told { result ≡
            beat_of (make_first (device_of self.old) (request_of self.old.state.accepted request) (moves_left self.old.state.accepted request)
            mem.old.ram (is_writable guard.now)).move }
        ensures memory { mem.new ≡
            after_move mem.old (make_first (device_of self.old) (request_of self.old.state.accepted request)
            (moves_left self.old.state.accepted request) mem.old.ram (is_writable guard.now)).move }
    {
        let Some(next) = take_move(&mut request, self.state.accepted) else {
            return DmaStep::Idle;
        };
        self.make(&request, next, guard, mem)
    }

    /// One beat: a move of the request under way, or a look for the next one. It writes RAM through the guard alone.
    #[tactic(auto, unfolding(spec_reference::specs::VirtioBeats::virtio_beat))]
    pub(crate) fn make_beat(&mut self, guard: &DmaGuard, mem: &mut HostMem) -> DmaStep
        ensures device { device_of self.new ≡ (virtio_beat (device_of self.old) mem.old.ram (is_writable guard.now)).device }
        ensures told { result ≡ beat_of (virtio_beat (device_of self.old) mem.old.ram (is_writable guard.now)).move }
        ensures memory { mem.new ≡ after_move mem.old (virtio_beat (device_of self.old) mem.old.ram (is_writable guard.now)).move }
    {
        if !self.is_live() {
            return DmaStep::Idle;
        }
        match self.state.request {
            None => self.look(mem),
            Some(request) => self.go_on(request, guard, mem),
        }
    }
}
