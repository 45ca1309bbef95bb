// A block device: a disk in memory, after five registers, that moves 64 bytes in each beat of a transfer.

ghost use Rattle.std.specs.Prelude.{◌≡◌, ◌+◌, ◌%◌, ◌^◌, ◌<◌, ◌≤◌, Some, length, true, false};
ghost use Rattle.spec_processor.specs.Bytes.{overwrite};
ghost use Rattle.spec_reference.specs.BlockDisk.{is_busy, can_begin, block_ended, block_told, block_stored, block_after_beat, beat_gpa};
ghost use Rattle.spec_reference.specs.BlockDisk.{beat_place, beat_size, beats_done, is_under_way, sector_size};
ghost use Rattle.spec_reference.specs.Disk.{is_writable};
ghost use Rattle.spec_reference.specs.States.{BlockDisk};
ghost use Rattle.sv_types.specs.declared.block.BlockCommand.TheVariants.{DiskToMemory, MemoryToDisk};
ghost use Rattle.sv_types.specs.declared.block.BlockStatus.TheVariants.{Busy};
ghost use Rattle.dma_guard.specs.Transfers.{beat_of, after_move};
ghost use Rattle.hw_devices.specs.BlockRegisters.{IsSound, idle_disk, register_named, width_of, beat_to_memory, beat_to_disk};

mod registers;

use crate::block::registers::{Register, register_at};
use dma_guard::{DiskPort, DmaGuard, DmaRefused, DmaStep};
use host_mem::HostMem;
use std::marker::Model;
use sv_types::{BEAT_BYTES, BlockCommand, BlockState, BlockStatus, SECTOR_BYTES};

/// The bytes of a beat, as a length.
const BEAT_LENGTH: usize = BEAT_BYTES as usize;

/// A block device with its disk. Contracts see its registers, its transfer and the bytes of the disk.
#[derive(Drop)]
pub struct Block {
    block: BlockState,
    bytes: Vec<u8>,
}

impl Model for Block {
    ghost use Rattle.spec_reference.specs.States.{BlockDevice};

    ghost Value = { BlockDevice };

    ghost use Rattle.std.specs.Prelude.{◌≡◌};
    ghost use Rattle.hw_devices.specs.BlockRegisters.{IsSound};

    ghost view = { λ b. record { block = b.block; bytes = b.bytes.items } };

    ghost invariant = { λ b. IsSound (record { block = b.block; bytes = b.bytes.items }) };
}

impl Block {
    /// An idle device with a disk, in whole sectors.
    pub fn new(disk: Vec<u8>) -> Block
        requires sectors { length disk.items % sector_size ≡ 0 }
        ensures { result ≡ idle_disk disk.items }
    {
        Block {
            block: BlockState {
                sector: 0,
                gpa: 0,
                count: 0,
                status: BlockStatus::Idle,
            },
            bytes: disk,
        }
    }

    /// A device with a disk, as its registers and its transfer say. A transfer under way begins at a multiple of a beat's
    /// bytes, has beats left, and lies on the disk.
    pub fn from_state(state: BlockState, disk: Vec<u8>) -> Block
        requires sound { IsSound (record { block = state; bytes = disk.items }) }
        ensures { result ≡ record { block = state; bytes = disk.items } }
    {
        Block {
            block: state,
            bytes: disk,
        }
    }

    /// The registers and the transfer.
    pub fn state(&self) -> BlockState
        ensures value { result ≡ self.now.block }
        ensures sound { IsSound self.now }
    {
        self.block
    }

    fn is_busy(&self) -> bool
        ensures { result ≡ is_busy self.now.block }
    {
        matches!(self.block.status, BlockStatus::Busy { .. })
    }

    // There are sectors, all on the disk, and the address is a multiple of a beat's bytes. No test wraps.
    fn can_begin(&self) -> bool
        ensures { result ≡ can_begin self.now.block (length self.now.bytes) }
    {
        let end = self.block.sector as u128 + self.block.count as u128;
        0 < self.block.count
            && SECTOR_BYTES as u128 * end <= self.bytes.len() as u128
            && self.block.gpa % BEAT_BYTES == 0
    }

    // No transfer is under way any more.
    fn end(&mut self, status: BlockStatus)
        requires { is_under_way status ≡ false }
        ensures { self.new ≡ record self.old { block = block_ended self.old.block status } }
    {
        self.block.status = status;
    }

    fn begin(&mut self, command: BlockCommand)
        requires { is_busy self.old.block ≡ false }
        ensures { self.new ≡ record self.old { block = block_told self.old.block (length self.old.bytes) (Some command) } }
    {
        if self.can_begin() {
            self.block.status = BlockStatus::Busy { command, done: 0 };
        } else {
            self.end(BlockStatus::OutOfRange);
        }
    }

    // A store into a register while no transfer is under way.
    fn put(&mut self, register: Register, value: u64)
        requires idle { is_busy self.old.block ≡ false }
        requires fits { value < 256 ^ width_of register }
        ensures { self.new ≡ record self.old { block = block_stored self.old.block (length self.old.bytes) (register_named register) value } }
    {
        match register {
            Register::Sector => self.block.sector = value,
            Register::Address => self.block.gpa = value,
            Register::Count => self.block.count = value as u32,
            Register::Command => {
                if let Some(command) = BlockCommand::of(value) {
                    self.begin(command);
                }
            }
            Register::Status => self.end(BlockStatus::Idle),
        }
    }

    // A beat of the disk's bytes into memory.
    #[tactic(auto, unfolding(dma_guard::specs::Transfers::write_answer, dma_guard::specs::Transfers::after_write))]
    fn write_memory(&mut self, guard: &DmaGuard, mem: &mut HostMem, done: u64, gpa: u64) -> DmaStep
        requires busy { self.old.block.status ≡ Busy DiskToMemory done }
        requires gpa { gpa ≡ beat_gpa self.old.block }
        ensures device { self.new ≡ (beat_to_memory self.old mem.old.ram (is_writable guard.now)).device }
        ensures told { result ≡ beat_of (beat_to_memory self.old mem.old.ram (is_writable guard.now)).move }
        ensures memory { mem.new ≡ after_move mem.old (beat_to_memory self.old mem.old.ram (is_writable guard.now)).move }
    {
        let place = self.beat_place(done);
        match guard.write(mem, gpa, &self.bytes[place..place + BEAT_LENGTH]) {
            Ok(()) => {
                self.advance(BlockCommand::DiskToMemory, done);
                DmaStep::Wrote {
                    gpa,
                    len: BEAT_LENGTH as u32,
                }
            }
            Err(DmaRefused::Protected { page: _ }) => {
                self.end(BlockStatus::Denied);
                DmaStep::Denied { gpa }
            }
            Err(DmaRefused::OutOfRam) => {
                self.end(BlockStatus::OutOfRange);
                DmaStep::Range
            }
        }
    }

    // A beat of memory's bytes onto the disk.
    #[tactic(auto, unfolding(dma_guard::specs::Transfers::read_answer, dma_guard::specs::Transfers::after_read))]
    fn read_memory(&mut self, guard: &DmaGuard, mem: &HostMem, done: u64, gpa: u64) -> DmaStep
        requires busy { self.old.block.status ≡ Busy MemoryToDisk done }
        requires gpa { gpa ≡ beat_gpa self.old.block }
        ensures device { self.new ≡ (beat_to_disk self.old mem.now.ram).device }
        ensures told { result ≡ beat_of (beat_to_disk self.old mem.now.ram).move }
    {
        let mut bytes = [0; BEAT_LENGTH];
        match guard.read(mem, gpa, &mut bytes) {
            Ok(()) => {
                self.keep(done, &bytes);
                self.advance(BlockCommand::MemoryToDisk, done);
                DmaStep::Read { gpa }
            }
            Err(_) => {
                self.end(BlockStatus::OutOfRange);
                DmaStep::Range
            }
        }
    }

    // The bytes of a beat go onto the disk.
    fn keep(&mut self, done: u64, bytes: &[u8; BEAT_LENGTH])
        requires { self.old.block.status ≡ Busy MemoryToDisk done }
        ensures { self.new ≡ record self.old { bytes = overwrite self.old.bytes (beat_place self.old.block) bytes.now } }
    {
        let place = self.beat_place(done);
        self.bytes[place..place + BEAT_LENGTH].copy_from_slice(bytes);
    }

    // Where the next beat goes on the disk, after so many.
    fn beat_place(&self, done: u64) -> usize
        requires busy { is_busy self.now.block ≡ true }
        requires done { done ≡ beats_done self.now.block.status }
        ensures place { result ≡ beat_place self.now.block }
        ensures inside { result + beat_size ≤ length self.now.bytes }
    {
        (SECTOR_BYTES * self.block.sector + BEAT_BYTES * done) as usize
    }

    // One beat is done after so many; the last one ends the transfer.
    fn advance(&mut self, command: BlockCommand, done: u64)
        requires { self.old.block.status ≡ Busy command done }
        ensures { self.new ≡ record self.old { block = block_after_beat self.old.block } }
    {
        let whole = SECTOR_BYTES * self.block.count as u64;
        let done = done + 1;
        if BEAT_BYTES * done == whole {
            self.end(BlockStatus::Done);
        } else {
            self.block.status = BlockStatus::Busy { command, done };
        }
    }
}

impl DiskPort for Block {
    ghost state = { λ b. BlockDisk b };

    #[tactic(auto, unfolding(spec_reference::specs::Disk::disk_load, spec_reference::specs::BlockDisk::block_load))]
    fn load(&self, offset: u64, width: u8) -> Option<u64> {
        match register_at(offset, width)? {
            Register::Sector => Some(self.block.sector),
            Register::Address => Some(self.block.gpa),
            Register::Count => Some(self.block.count as u64),
            Register::Command => Some(0),
            Register::Status => Some(self.block.status.number() as u64),
        }
    }

    #[tactic(auto, unfolding(spec_reference::specs::Disk::disk_store, spec_reference::specs::BlockDisk::block_store))]
    fn store(&mut self, offset: u64, width: u8, value: u64) -> bool {
        let Some(register) = register_at(offset, width) else {
            return false;
        };
        if self.is_busy() {
            return true;
        }
        self.put(register, low_bytes(register, value));
        true
    }

    #[tactic(auto, unfolding(spec_reference::specs::Disk::disk_beat, spec_reference::specs::BlockDisk::block_beat))]
    fn beat(&mut self, guard: &DmaGuard, mem: &mut HostMem) -> DmaStep {
        let BlockStatus::Busy { command, done } = self.block.status else {
            return DmaStep::Idle;
        };
        let _ram_pages = mem.ram_pages();
        let Some(gpa) = self.block.gpa.checked_add(BEAT_BYTES * done) else {
            self.end(BlockStatus::OutOfRange);
            return DmaStep::Range;
        };
        match command {
            BlockCommand::DiskToMemory => self.write_memory(guard, mem, done, gpa),
            BlockCommand::MemoryToDisk => self.read_memory(guard, mem, done, gpa),
        }
    }

    #[tactic(auto, unfolding(spec_reference::specs::Disk::disk_line, spec_reference::specs::BlockDisk::block_line))]
    fn line(&self) -> bool {
        matches!(
            self.block.status,
            BlockStatus::Done | BlockStatus::Denied | BlockStatus::OutOfRange
        )
    }

    #[tactic(auto, unfolding(spec_reference::specs::Disk::disk_bytes))]
    fn disk(&self) -> &[u8] {
        &self.bytes
    }
}

// The low bytes of a value, as many as a register has.
fn low_bytes(register: Register, value: u64) -> u64
    ensures value { result ≡ value % 256 ^ width_of register }
    ensures fits { result < 256 ^ width_of register }
{
    match register {
        Register::Sector | Register::Address => value,
        Register::Count | Register::Command | Register::Status => value % (1 << 32),
    }
}
