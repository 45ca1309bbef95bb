//! The measure of whole pages: the SHA-256 of the pages' SHA-256 digests, one after the other. Chunks of 64 pages are
//! digested side by side, each in a thread of its own where one can be made.
#![tactic(auto)]

ghost use Rattle.std.specs.Prelude.{◌≡◌, ◌*◌, ◌%◌, ◌<◌, length, IfOk};
ghost use Rattle.spec_processor.specs.Bytes.{page_size};
ghost use Rattle.sv_types.specs.Measure.{digests_of};
ghost use Rattle.sv_types.specs.Measure as spec;

pub mod fields;
mod meter;

pub use meter::{Meter, Silent};
use sha2::{Digest as _, Sha256};
use spec_processor::PAGE_SIZE;
use std::alloc::{AllocError, Global};
use std::thread;
use std::thread::Threads;
use sv_types::Digest;

/// The pages of a chunk.
const CHUNK_PAGES: usize = 64;

const CHUNK_BYTES: usize = CHUNK_PAGES * PAGE_SIZE;

/// The measure of pages, which lie one after the other, with the same meter. Out of memory is the one refusal.
pub fn measure<R: Threads + Sync, M: Meter + Sync>(
    rt: &R,
    alloc: Global,
    pages: &[u8],
    meter: &M,
) -> Result<Digest, AllocError>
    requires whole_pages { length pages.now % page_size ≡ 0 }
    ensures { IfOk result (λ digest. digest ≡ spec.measure pages.now) }
{
    let digests = digest_chunks(rt, alloc, pages, meter)?;
    Ok(join_digests(&digests))
}

/// The digest of one page.
pub fn page_digest(page: &[u8]) -> Digest
    ensures { result ≡ spec.page_digest page.now }
{
    Sha256::digest(page)
}

/// The digest of pages whose digests are given, in the order of the pages.
pub fn join_digests(digests: &[Digest]) -> Digest
    ensures { result ≡ spec.joined_digests digests.now }
{
    let mut hasher = Sha256::new();
    for digest in digests {
        hasher.update(digest);
    }
    hasher.finalize()
}

/// The digests of pages, which lie one after the other, in their order. The meter sees each chunk of 64 pages, of which the
/// last may be shorter. Out of memory is the one refusal.
pub fn digest_chunks<R: Threads + Sync, M: Meter + Sync>(
    rt: &R,
    alloc: Global,
    pages: &[u8],
    meter: &M,
) -> Result<Vec<Digest>, AllocError>
    requires whole_pages { length pages.now % page_size ≡ 0 }
    ensures { IfOk result (λ digests. digests.items ≡ digests_of pages.now) }
{
    let chunks = thread::map_chunks(
        rt,
        alloc,
        pages,
        CHUNK_BYTES,
        &|start, chunk| digest_chunk(alloc, start / CHUNK_BYTES, chunk, meter),
    )?;
    let mut digests = Vec::with_capacity(alloc, pages.len() / PAGE_SIZE)?;
    for chunk in &chunks {
        let Ok(chunk) = chunk else {
            return Err(AllocError);
        };
        digests.extend_from_slice(chunk)?;
    }
    Ok(digests)
}

// The digests of the pages of one chunk, between the meter's two calls.
fn digest_chunk<M: Meter>(
    alloc: Global,
    number: usize,
    pages: &[u8],
    meter: &M,
) -> Result<Vec<Digest>, AllocError>
    requires whole_pages { length pages.now % page_size ≡ 0 }
    ensures { IfOk result (λ digests. digests.items ≡ digests_of pages.now) }
{
    meter.begin(number);
    let digests = digest_pages(alloc, pages)?;
    meter.end(number, pages, &digests);
    Ok(digests)
}

fn digest_pages(alloc: Global, pages: &[u8]) -> Result<Vec<Digest>, AllocError>
    requires whole_pages { length pages.now % page_size ≡ 0 }
    ensures { IfOk result (λ digests. digests.items ≡ digests_of pages.now) }
{
    let count = pages.len() / PAGE_SIZE;
    let mut digests = Vec::with_capacity(alloc, count)?;
    'pages: for i in 0..count {
        digests.push(page_digest(&pages[PAGE_SIZE * i..PAGE_SIZE * (i + 1)]))?;
    }
    Ok(digests)
}
