// Bytes of input, and what a guest loads and stores.

ghost use Rattle.std.specs.Prelude.{◌≡◌, ◌≤◌, [], length, slice_get};
ghost use Rattle.sv_types.specs.Console.{max_queued, has_room, after_key, without_first, console_line, register_value, console_load, after_load, stored_byte};
ghost use Rattle.sv_types.specs.Console.ConsoleRegister.{Status};

use std::marker::Model;
use sv_types::MAX_QUEUED;

/// The offsets of the registers, which are one byte wide.
const DATA: u64 = 0;

const STATUS: u64 = 5;

/// The line status: the console can print (bits 5 and 6), and input is there (bit 0).
const CAN_PRINT: u64 = 0x60;

const HAS_INPUT: u64 = 0x01;

/// A queue of at most 256 bytes of input, seen as the list of these bytes.
#[derive(Drop)]
pub struct Console {
    // The bytes that wait come first, the next one at place 0.
    bytes: [u8; MAX_QUEUED],
    count: usize,
}

impl Model for Console {
    ghost use Rattle.std.specs.Prelude.{List, ℕ};

    ghost Value = { List ℕ };

    ghost use Rattle.std.specs.Prelude.{◌≤◌, take};
    ghost use Rattle.sv_types.specs.Console.{max_queued};

    ghost view = { λ c. take c.count c.bytes };

    ghost invariant = { λ c. c.count ≤ max_queued };
}

impl Console {
    /// A console without input.
    pub fn new() -> Console
        ensures { result ≡ [] }
    {
        Console {
            bytes: [0; MAX_QUEUED],
            count: 0,
        }
    }

    /// Takes a byte of input. False where the queue is full, and then the byte is dropped.
    pub fn key(&mut self, byte: u8) -> bool
        ensures taken { result ≡ has_room self.old }
        ensures queue { self.new ≡ after_key self.old byte }
        ensures bound { length self.new ≤ max_queued }
    {
        if self.count == MAX_QUEUED {
            return false;
        }
        self.bytes[self.count] = byte;
        self.count += 1;
        true
    }

    /// The next byte of input, which leaves the queue.
    pub fn take(&mut self) -> Option<u8>
        ensures byte { result ≡ slice_get self.old 0 }
        ensures queue { self.new ≡ without_first self.old }
    {
        let byte = *self.queue().first()?;
        self.bytes.copy_within(1.., 0);
        self.count -= 1;
        Some(byte)
    }

    /// Whether input is there, which sets the interrupt line.
    pub fn line(&self) -> bool
        ensures { result ≡ console_line self.now }
    {
        self.count > 0
    }

    /// The bytes that wait, the next one first.
    pub fn queue(&self) -> &[u8]
        ensures { result.now ≡ self.now }
    {
        &self.bytes[..self.count]
    }

    fn status(&self) -> u64
        ensures { result ≡ register_value self.now Status }
    {
        if self.line() {
            CAN_PRINT | HAS_INPUT
        } else {
            CAN_PRINT
        }
    }

    /// A load of `width` bytes at an offset. None where no register has that offset and width. A load of the data takes
    /// the first byte of the queue, and gives 0 where there is none.
    #[tactic(auto, unfolding(sv_types::specs::Console::loaded_register))]
    pub fn load(&mut self, offset: u64, width: u8) -> Option<u64>
        ensures value { result ≡ console_load self.old offset width }
        ensures queue { self.new ≡ after_load self.old offset width }
    {
        if width != 1 {
            return None;
        }
        match offset {
            DATA => Some(self.take().map_or(0, u64::from)),
            STATUS => Some(self.status()),
            _ => None,
        }
    }

    /// A store of `width` bytes at an offset: the byte that it prints. None where no register has that offset and width.
    pub fn store(&mut self, offset: u64, width: u8, value: u64) -> Option<u8>
        ensures printed { result ≡ stored_byte offset width value }
        ensures queue { self.new ≡ self.old }
    {
        if offset == DATA && width == 1 {
            Some((value % 256) as u8)
        } else {
            None
        }
    }
}
