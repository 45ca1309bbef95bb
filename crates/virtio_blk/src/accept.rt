// The next request: a look into the queue, and the chain that is accepted.

ghost use Rattle.std.specs.Prelude.{◌≡◌, ℕ, ◌++◌, ◌+◌, ◌-◌, ◌*◌, ◌%◌, ◌<◌, ◌≤◌, ◌^◌, IsTrue, true, false, length, replicate};
ghost use Rattle.spec_processor.specs.Bytes.{ram_offset};
ghost use Rattle.spec_reference.specs.VirtioStores.{is_size, used_alignment};
ghost use Rattle.spec_processor.specs.Regions.{Region};
ghost use Rattle.dma_guard.specs.Transfers.{beat_of, after_move};
ghost use Rattle.spec_reference.specs.VirtioQueue.{rings_in_ram, available_index, next_head};
ghost use Rattle.spec_reference.specs.VirtioChain.{no_part, data_of, result_of, chain, max_parts};
ghost use Rattle.spec_reference.specs.VirtioRequests.{type_of, sector_of, result_by, moves_by, last_moves};
ghost use Rattle.spec_reference.specs.VirtioBeats.{accept_request, accept, look};
ghost use Rattle.spec_reference.specs.VirtioStates.{request_of};
ghost use Rattle.virtio_blk.specs.Held.{HaveRings, HasHeader, IsPlaced, IsOnDisk, device_of, padded_parts, new_of};
ghost use Rattle.spec_reference.specs.VirtioDevice.{index_values, is_broken};

use crate::Virtio;
use crate::chain::{DESCRIPTOR_BYTES, read_chain};
use crate::requests::{is_good_chain, lies_in_ram, result_by};
use dma_guard::DmaStep;
use host_mem::{HostMem, word_at};
use spec_processor::ram_offset;
use sv_types::{MAX_VIRTIO_PARTS, VirtioPart, VirtioRequest};

/// Where a request's header has its sector.
const SECTOR_OFFSET: usize = 8;
/// An index of a ring, and a head, is a number of 16 bits.
pub(crate) const INDICES: u64 = 1 << 16;
/// The flags and the index of a ring. Virtio 1.2, 2.7.6 and 2.7.8.
pub(crate) const RING_HEADER_BYTES: u64 = 4;
/// Where the index stands in a ring, after the flags.
pub(crate) const RING_INDEX_OFFSET: u64 = 2;
/// The bytes of that index.
pub(crate) const RING_INDEX_WIDTH: u8 = 2;
/// A head in the available ring.
pub(crate) const AVAILABLE_ENTRY_BYTES: u64 = 2;
/// A head and a length in the used ring.
pub(crate) const USED_ENTRY_BYTES: u64 = 8;

// So many parts as a chain may have, all of them empty.
fn empty_parts() -> [VirtioPart; MAX_VIRTIO_PARTS]
    ensures { result ≡ replicate max_parts no_part }
{
    [VirtioPart {
        gpa: 0,
        len: 0,
        write: false,
    }; MAX_VIRTIO_PARTS]
}

// The parts of a chain, with empty ones after them.
fn padded_parts(parts: &[VirtioPart]) -> [VirtioPart; MAX_VIRTIO_PARTS]
    requires { length parts.now ≤ max_parts }
    ensures { result ≡ padded_parts parts.now }
{
    let mut all = empty_parts();
    all[..parts.len()].copy_from_slice(parts);
    all
}

// The request that a chain asks for.
fn new_request(
    ram: &[u8],
    disk_size: usize,
    used: u64,
    size: u32,
    head: u64,
    parts: &[VirtioPart],
) -> VirtioRequest
    requires header { HasHeader ram.now parts.now }
    requires most { length parts.now ≤ max_parts }
    requires head { head < index_values }
    ensures { result ≡
        new_of head (sector_of ram.now parts.now) size used (result_by ram.now disk_size (type_of ram.now parts.now) (sector_of ram.now parts.now)
        (data_of parts.now)) parts.now }
{
    let last = parts.len() - 1;
    let header = ram_offset(parts[0].gpa) as usize;
    let sector = word_at(ram, header + SECTOR_OFFSET, 8);
    let result = result_by(
        ram,
        disk_size,
        word_at(ram, header, 4),
        sector,
        &parts[1..last],
    );
    VirtioRequest {
        head: head as u16,
        sector,
        size,
        used,
        count: parts.len() as u8,
        parts: padded_parts(parts),
        part: if result.is_done() { 1 } else { last as u8 },
        offset: 0,
        tail: 0,
        result,
        written: 0,
    }
}

// The request that a chain asks for, in its chain and on the disk.
fn next_request(
    ram: &[u8],
    disk_size: usize,
    used: u64,
    size: u32,
    head: u64,
    parts: &[VirtioPart],
) -> VirtioRequest
    requires header { HasHeader ram.now parts.now }
    requires most { length parts.now ≤ max_parts }
    requires head { head < index_values }
    requires size { is_size size ≡ true }
    requires aligned { used % used_alignment ≡ 0 }
    requires used { used < 2 ^ 63 }
    requires small { length ram.now < 2 ^ 62 }
    ensures request { (accepted : ℕ) → request_of accepted result ≡
        record {
          moves = moves_by (result_by ram.now disk_size (type_of ram.now parts.now) (sector_of ram.now parts.now) (data_of parts.now))
              (sector_of ram.now parts.now) (data_of parts.now) ++ last_moves (result_of parts.now).gpa used size head accepted;
          result = result_by ram.now disk_size (type_of ram.now parts.now) (sector_of ram.now parts.now) (data_of parts.now);
          written = 0;
        } }
    ensures placed { IsPlaced result }
    ensures on_disk { IsOnDisk disk_size result }
{
    new_request(ram, disk_size, used, size, head, parts)
}

impl Virtio {
    // Whether the three parts of the queue lie in RAM.
    #[tactic(auto, unfolding(spec_reference::specs::VirtioQueue::rings_in_ram))]
    fn rings_in_ram(&self, ram: &[u8]) -> bool
        ensures value { result ≡ rings_in_ram (device_of self.now) ram.now }
        ensures rings { IsTrue result → HaveRings (device_of self.now) ram.now }
    {
        let size = self.state.size as u64;
        lies_in_ram(ram, self.state.descriptors, DESCRIPTOR_BYTES as u64 * size)
            && lies_in_ram(
                ram,
                self.state.available,
                RING_HEADER_BYTES + AVAILABLE_ENTRY_BYTES * size,
            )
            && lies_in_ram(
                ram,
                self.state.used,
                RING_HEADER_BYTES + USED_ENTRY_BYTES * size,
            )
    }

    // The index of the available ring.
    fn available_index(&self, ram: &[u8]) -> u64
        requires { HaveRings (device_of self.now) ram.now }
        ensures value { result ≡ available_index (device_of self.now) ram.now }
        ensures small { result < index_values }
    {
        word_at(
            ram,
            ram_offset(self.state.available) as usize + RING_INDEX_OFFSET as usize,
            RING_INDEX_WIDTH,
        )
    }

    // The head that stands where the next request is expected.
    fn next_head(&self, ram: &[u8]) -> u64
        requires rings { HaveRings (device_of self.now) ram.now }
        requires some { 1 ≤ self.now.state.size }
        ensures value { result ≡ next_head (device_of self.now) ram.now }
        ensures small { result < index_values }
    {
        let place = (self.state.accepted % self.state.size as u64) as usize;
        word_at(
            ram,
            ram_offset(self.state.available) as usize
                + RING_HEADER_BYTES as usize
                + AVAILABLE_ENTRY_BYTES as usize * place,
            AVAILABLE_ENTRY_BYTES as u8,
        )
    }

    // How many requests wait.
    fn waiting_count(&self, index: u64) -> u64
        requires { index < index_values }
        ensures { result ≡ (index + index_values - self.now.state.accepted) % index_values }
    {
        (index + INDICES - self.state.accepted) % INDICES
    }

    // The device accepts the request that a chain asks for.
    #[tactic(auto, unfolding(spec_reference::specs::VirtioBeats::accept_request))]
    fn begin(&mut self, ram: &[u8], head: u64, parts: &[VirtioPart])
        requires header { HasHeader ram.now parts.now }
        requires most { length parts.now ≤ max_parts }
        requires head { head < index_values }
        requires ready { self.old.state.ready ≡ true }
        requires whole { is_broken (device_of self.old) ≡ false }
        requires rings { HaveRings (device_of self.old) ram.now }
        requires small { length ram.now < 2 ^ 62 }
        ensures { device_of self.new ≡ accept_request (device_of self.old) ram.now head parts.now }
    {
        let state = &self.state;
        let request = next_request(ram, self.bytes.len(), state.used, state.size, head, parts);
        self.state.accepted = (self.state.accepted + 1) % INDICES;
        self.state.request = Some(request);
    }

    // The chain that begins at a head is accepted, where it is a request's; else the device breaks.
    #[tactic(auto, unfolding(spec_reference::specs::VirtioBeats::accept))]
    fn accept(&mut self, ram: &[u8], head: u64) -> DmaStep
        requires head { head < index_values }
        requires ready { self.old.state.ready ≡ true }
        requires whole { is_broken (device_of self.old) ≡ false }
        requires rings { HaveRings (device_of self.old) ram.now }
        requires small { length ram.now < 2 ^ 62 }
        ensures device { device_of self.new ≡
            (accept (device_of self.old) ram.now head (chain max_parts ram.now (ram_offset self.old.state.descriptors) self.old.state.size head)).device }
        ensures told { result ≡
            beat_of (accept (device_of self.old) ram.now head (chain max_parts ram.now (ram_offset self.old.state.descriptors) self.old.state.size head)).move }
        ensures still { (region : Region) →
            after_move region
            (accept (device_of self.old) ram.now head (chain max_parts ram.now (ram_offset self.old.state.descriptors) self.old.state.size
            head)).move ≡ region }
    {
        let table = ram_offset(self.state.descriptors) as usize;
        let Some(parts) = read_chain(ram, table, self.state.size as u64, head) else {
            self.break_down();
            return DmaStep::Range;
        };
        let parts = parts.as_slice();
        if !is_good_chain(ram, parts) {
            self.break_down();
            return DmaStep::Range;
        }
        self.begin(ram, head, parts);
        DmaStep::Idle
    }

    /// A look for the next request, while none is under way.
    #[tactic(auto, unfolding(spec_reference::specs::VirtioBeats::look))]
    pub(crate) fn look(&mut self, mem: &HostMem) -> DmaStep
        requires ready { self.old.state.ready ≡ true }
        requires whole { is_broken (device_of self.old) ≡ false }
        ensures device { device_of self.new ≡ (look (device_of self.old) mem.now.ram).device }
        ensures told { result ≡ beat_of (look (device_of self.old) mem.now.ram).move }
        ensures still { (region : Region) → after_move region (look (device_of self.old) mem.now.ram).move ≡ region }
    {
        // RAM's size is known after this call.
        let _pages = mem.ram_pages();
        let ram = mem.ram();
        if !self.rings_in_ram(ram) {
            self.break_down();
            return DmaStep::Range;
        }
        let index = self.available_index(ram);
        if index == self.state.accepted {
            return DmaStep::Idle;
        }
        if self.waiting_count(index) > self.state.size as u64 {
            self.break_down();
            return DmaStep::Range;
        }
        let head = self.next_head(ram);
        self.accept(ram, head)
    }
}
