// The bytes behind a raw pointer. Only the functions of this file touch it.
ghost use Rattle.std.specs.Prelude.{◌≡◌, ℕ, ◌^◌, ◌<◌, List, replicate, IfSome};
ghost use Rattle.std.specs.Borrow.{sem};
ghost use denote.RawPtr.{Ptr};
ghost use Rattle.host_mem.specs.Ownership.{bytes_type, room_of, bytes_at, bytes_lent};

use std::alloc::Allocator;
use std::marker::{Model, PhantomData, Send};
use std::slice;

// Room for `size` bytes, in which nothing lies.
pub(crate) struct Room {
    pub(crate) at: *mut u8,
    pub(crate) size: usize,
    ghost fits: { size < 2 ^ 63 },
}

impl Model for Room {
    ghost also_owns = { λ r. room_of r.at r.size };
}

/// The `size` bytes at `at`.
pub struct Bytes {
    pub(crate) at: *mut u8,
    pub(crate) size: usize,
    ghost items: { List ℕ },
    ghost fits: { size < 2 ^ 63 },
}

impl Model for Bytes {
    ghost also_owns = { λ b. bytes_at b.at b.size b.items };

    ghost also_shares = { λ b _ κ. bytes_lent b.at b.size b.items κ };
}

unsafe impl Send for Bytes {}

/// The right to give `size` bytes at `at` back to `alloc`.
pub struct Right<A: Allocator> {
    by: PhantomData<A>,
    ghost alloc: { A },
    ghost at: { Ptr },
    ghost size: { ℕ },
}

impl<A: Allocator> Model for Right<A> {
    ghost also_owns = { λ r. A.dealloc_token r.alloc (bytes_type r.size) r.at };
}

unsafe impl<A: Allocator + Send> Send for Right<A> {}

impl Room {
    pub(crate) fn new<A: Allocator>(alloc: &A, size: usize) -> Option<(Room, Right<A>)>
        requires { size < 2 ^ 63 }
        ensures { IfSome result (λ r. (r.0.size ≡ size) × (r.1.size ≡ size) × (r.1.at ≡ r.0.at) × (r.1.alloc ≡ alloc.now)) }
    {
        match alloc.allocate(size, 1) {
            Ok(at) => {
                let by = PhantomData;
                Some((Room { at, size }, Right { by }))
            }
            Err(_) => None,
        }
    }

    pub(crate) fn zeroed(self) -> Bytes
        ensures bytes { result.items ≡ replicate self.size 0 }
        ensures place { (result.at ≡ self.at) × (result.size ≡ self.size) }
    {
        let Room { at, size } = self;
        let mut i = 0;
        while i < size {
            unsafe {
                at.add(i).write(0);
            }
            i += 1;
        }
        Bytes { at, size }
    }
}

impl Bytes {
    ghost use Rattle.host_mem.specs.Lends.{lends_bytes};

    pub(crate) fn as_slice(&self) -> &[u8]
        ensures { result.now ≡ self.now.items }
    {
        unsafe { slice::from_raw_parts(self.at, self.size) }
    }

    pub(crate) fn as_mut_slice(&mut self) -> &mut [u8]
        ensures* writes_back { sem 𝓛 (lends_bytes self.entry result) }
        ensures value { result.now ≡ self.old.items }
    {
        unsafe { slice::from_raw_parts_mut(self.at, self.size) }
    }

    pub(crate) fn free<A: Allocator>(self, right: Right<A>, alloc: &A)
        requires { (right.alloc ≡ alloc.now) × (right.at ≡ self.at) × (right.size ≡ self.size) }
    {
        let Bytes { at, size } = self;
        let Right { by: _ } = right;
        unsafe { alloc.deallocate(at, size, 1) }
    }
}
