// A sink in memory.
ghost use Rattle.std.specs.Prelude.{◌≡◌, ◌<◌, ◌≤◌, ◌+◌, ◌-◌, ◌++◌, take, OnOk, OnErr, ◌↔◌, ◌⊎◌, min, [], IfOk, IsErr, IsTrue, length, vec_len, vec_capacity};
ghost use Rattle.host_io.specs.Held.{memory_sink, is_to_fail};
ghost use Rattle.spec_processor.specs.Counters.{CanCount, next_count};

use crate::calls::{call_number, is_to_fail};
use crate::{Failed, Sink};
use std::alloc::{AllocError, Global};

/// A sink in memory, with the writes that are to fail. It takes all its room when it is made.
#[derive(Drop)]
pub struct MemSink {
    bytes: Vec<u8>,
    room: usize,
    piece: usize,
    failing: Vec<u64>,
    writes: u64,
    faults: u64,
    ghost some: { 0 < piece },
    ghost within: { vec_len bytes ≤ room },
    ghost reserved: { room ≤ vec_capacity bytes },
}

impl MemSink {
    /// A sink with room for `room` bytes in all, which takes at most `piece` bytes a write. The writes of the given
    /// numbers, counted from 1, fail, and so does one beyond the room.
    pub fn new(
        alloc: Global,
        room: usize,
        piece: usize,
        failing: &[u64],
    ) -> Result<MemSink, AllocError>
        requires { 0 < piece }
        ensures taken { IfOk result (λ s. memory_sink s.bytes.items s.faults ≡ memory_sink [] 0) }
        ensures limits { IfOk result (λ s. (s.room ≡ room) × (s.piece ≡ piece)) }
        ensures failing { IfOk result (λ s. (s.failing.items ≡ failing.now) × (s.writes ≡ 0)) }
    {
        Ok(MemSink {
            bytes: Vec::with_capacity(alloc, room)?,
            room,
            piece,
            failing: failing.to_vec(alloc)?,
            writes: 0,
            faults: 0,
        })
    }

    /// The bytes taken so far.
    pub fn taken_bytes(&self) -> &[u8]
        ensures { result.now ≡ self.now.bytes.items }
    {
        &self.bytes
    }
}

impl Sink for MemSink {
    ghost state = { λ s. memory_sink s.bytes.items s.faults };

    fn write(&mut self, piece: &[u8]) -> Result<usize, Failed>
        requires count { CanCount self.old.faults }
        ensures took { IfOk result (λ n. self.new.bytes.items ≡ self.old.bytes.items ++ take n piece.now) }
        ensures within { IfOk result (λ n. n ≤ length piece.now) }
        ensures progress { IfOk result (λ n. 0 < length piece.now → 0 < n) }
        ensures no_fault { OnOk result (self.new.faults ≡ self.old.faults) }
        ensures failed { OnErr result ((self.new.bytes.items ≡ self.old.bytes.items) × (self.new.faults ≡ self.old.faults + 1)) }
        // Of a piece the first bytes are taken, as many as a write takes.
        ensures count { IfOk result (λ n. n ≡ min (length piece.now) self.old.piece) }
        // A write fails exactly where its number is listed, or the room is exceeded.
        ensures fails { IsErr result ↔ (IsTrue (is_to_fail self.old.failing.items self.old.writes)
            ⊎ (self.old.room < vec_len self.old.bytes + min (length piece.now) self.old.piece)) }
        ensures counted { self.new.writes ≡ next_count self.old.writes }
        ensures limits { (self.new.room ≡ self.old.room) × (self.new.piece ≡ self.old.piece) }
        ensures failing { self.new.failing ≡ self.old.failing }
    {
        let is_to_fail = is_to_fail(&self.failing, self.writes);
        self.writes = call_number(self.writes);
        let count = piece.len().min(self.piece);
        if is_to_fail || self.room - self.bytes.len() < count {
            self.faults += 1;
            return Err(Failed);
        }
        if self.bytes.extend_from_slice(&piece[..count]).is_err() {
            unreachable!();
        }
        Ok(count)
    }
}
