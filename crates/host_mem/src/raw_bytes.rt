// One allocation of raw bytes: all zeros at first, lent as a slice, freed at its end.

ghost use Rattle.std.specs.Prelude.{◌≡◌, ◌<◌, ◌^◌, IfOk, replicate};
ghost use Rattle.std.specs.Borrow.{sem};

mod memory;

use crate::raw_bytes::memory::Room;
use std::alloc::{AllocError, Global};
use std::marker::Model;

// A crate can name raw bytes in a contract only if the types of their fields are exported.
#[doc(hidden)]
pub use memory::{Bytes, Right};

/// One block of memory from the allocator, which contracts see as the list of its bytes.
pub struct RawBytes {
    bytes: Bytes,
    right: Right<Global>,
    alloc: Global,
}

impl Model for RawBytes {
    ghost use Rattle.std.specs.Prelude.{ℕ, List};
    ghost use Rattle.std.specs.Coded.{coded_list, coded_ℕ};

    ghost Value = { List ℕ };

    ghost coded = { coded_list coded_ℕ };

    ghost use Rattle.std.specs.Prelude.{◌≡◌};

    ghost view = { λ r. r.bytes.items };

    ghost invariant = { λ r. (r.right.alloc ≡ r.alloc) × (r.right.at ≡ r.bytes.at) × (r.right.size ≡ r.bytes.size) };
}

impl RawBytes {
    ghost use Rattle.host_mem.specs.LendsAll.{lends_all};

    /// `size` zeros. Fails where memory runs out, and above `isize::MAX`.
    pub fn zeroed(alloc: Global, size: usize) -> Result<RawBytes, AllocError>
        ensures zeros { IfOk result (λ r. r ≡ replicate size 0) }
        ensures small { IfOk result (λ _. size < 2 ^ 63) }
    {
        if size > isize::MAX as usize {
            return Err(AllocError);
        }
        let Some((room, right)) = Room::new(&alloc, size) else {
            return Err(AllocError);
        };
        Ok(RawBytes {
            bytes: room.zeroed(),
            right,
            alloc,
        })
    }

    /// The bytes.
    pub fn as_slice(&self) -> &[u8]
        ensures { result.now ≡ self.now }
    {
        self.bytes.as_slice()
    }

    /// The bytes, to be written.
    pub fn as_mut_slice(&mut self) -> &mut [u8]
        ensures* writes_back { sem 𝓛 (lends_all self.entry result) }
        ensures value { result.now ≡ self.old }
    {
        self.bytes.as_mut_slice()
    }
}

impl Drop for RawBytes {
    fn drop(self) {
        let RawBytes {
            bytes,
            right,
            alloc,
        } = self;
        bytes.free(right, &alloc);
    }
}
