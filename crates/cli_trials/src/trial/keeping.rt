// Memory that a run after another takes again.

use std::alloc::{AllocError, Global};

// More bytes than a machine has besides its RAM.
const MACHINE_BYTES: usize = 8 << 20;

// Not joined with its caller, so that the memory is really asked for.
#[inline(never)]
fn block(alloc: Global) -> Result<Vec<u8>, AllocError> {
    Vec::with_capacity(alloc, MACHINE_BYTES)
}

/// Is called before many runs, each of which has a machine of its own: a block as large as a machine is asked for and given back.
/// From then on the C library keeps the memory of a run for the next one, where it would give it back to the system (glibc keeps
/// twice as much as the largest block that was given back to the system, up to 32 MiB). Out of memory nothing changes.
pub fn keep_memory(alloc: Global) {
    match block(alloc) {
        Ok(_) => {}
        Err(_) => {}
    }
}
