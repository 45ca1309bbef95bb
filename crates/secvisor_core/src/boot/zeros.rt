// Zeros to copy from.

ghost use Rattle.std.specs.Prelude.{◌≡◌, ◌≤◌, replicate, IfOk};
ghost use Rattle.spec_processor.specs.Bytes.{page_size};

use spec_processor::PAGE_SIZE;
use std::alloc::{AllocError, Global};

/// As many zeros as a page has bytes.
#[derive(Drop)]
pub struct Zeros {
    bytes: Vec<u8>,
    ghost zeros: { bytes.items ≡ replicate page_size 0 },
}

impl Zeros {
    pub fn new(alloc: Global) -> Result<Zeros, AllocError> {
        let bytes = zeros_of(alloc, PAGE_SIZE)?;
        Ok(Zeros { bytes })
    }

    /// So many of them.
    pub fn first(&self, count: usize) -> &[u8]
        requires { count ≤ page_size }
        ensures { result.now ≡ replicate count 0 }
    {
        &self.bytes[..count]
    }
}

// So many zeros.
fn zeros_of(alloc: Global, count: usize) -> Result<Vec<u8>, AllocError>
    ensures { IfOk result (λ zeros. zeros.items ≡ replicate count 0) }
{
    vec![in alloc; 0; count]
}
