// Rows: measures of numbered pages, and a meter that sees two chunks at once.
ghost use Rattle.std.specs.Prelude.{◌≡◌, ◌*◌, ◌<◌, IfOk, vec_len};
ghost use Rattle.spec_processor.specs.Bytes.{page_size};

use page_measure::{Meter, Silent, measure};
use spec_processor::PAGE_SIZE;
use std::alloc::{AllocError, Global};
use std::process::Abort;
use std::sync::atomic::{AtomicBool, Ordering};
use std::test::Fail;
use std::thread::{self, Threads};
use sv_types::Digest;

fn number(bytes: &mut [u8]) {
    for (i, byte) in bytes.iter_mut().enumerate() {
        *byte = (i % 251) as u8;
    }
}

// Pages whose byte i is i mod 251.
fn numbered_pages(alloc: Global, count: usize) -> Result<Vec<u8>, AllocError>
    requires { count < 256 }
    ensures { IfOk result (λ pages. vec_len pages ≡ page_size * count) }
{
    let mut pages = vec![in alloc; 0; PAGE_SIZE * count]?;
    number(&mut pages);
    Ok(pages)
}

// So many numbered pages, and their measure.
static MEASURES: [(u8, &str); 5] = [
    (
        0,
        "e3b0c44298fc1c149afbf4c8996fb92427ae41e4649b934ca495991b7852b855",
    ),
    (
        1,
        "848eb1ae67312dbe55f4751dfd0da669e0a532ee704ddbee62ce3e1025295888",
    ),
    (
        64,
        "7bb6a4575eb6225bb921cd108eefcd93e118b91508a565f83b001f0d4a5cf944",
    ),
    (
        65,
        "fccfcd7308b0ca0e2321a867c1ab348ed62dd94ad2c0c1e61f5f1d646ada2133",
    ),
    (
        200,
        "f3007098b3852a1e82ca79af4f33a796639b14661ee05c928fb898603ec4baf8",
    ),
];

/// A digest of so many parts is the one of these digits.
pub(crate) fn check_digest(
    rt: &impl Abort,
    alloc: Global,
    count: u64,
    found: Digest,
    digits: &str,
) -> Result<(), AllocError> {
    let text = hex::encode(alloc, found)?;
    assert!(rt; text.as_str() == digits, "of {count}");
    Ok(())
}

// Each measure is that of Python's hashlib.
#[test]
fn measures_of_numbered_pages(rt: HostRuntime) -> Result<(), Fail> {
    for &(count, digits) in &MEASURES {
        let pages = numbered_pages(rt.alloc(), count as usize)?;
        let found = measure(&rt, rt.alloc(), &pages, &Silent)?;
        check_digest(&rt, rt.alloc(), u64::from(count), found, digits)?;
    }
    Ok(())
}

// Holds chunk 0 until chunk 1 has begun, for a bounded time.
#[derive(Drop)]
struct Waits {
    second_began: AtomicBool,
    seen_together: AtomicBool,
}

impl Meter for Waits {
    fn begin(&self, chunk: usize) {
        if chunk == 1 {
            self.second_began.store(true, Ordering::SeqCst);
        }
        if chunk == 0 {
            for _ in 0..10_000_000 {
                if self.second_began.load(Ordering::SeqCst) {
                    self.seen_together.store(true, Ordering::SeqCst);
                    break;
                }
                thread::yield_now();
            }
        }
    }

    fn end(&self, _chunk: usize, _pages: &[u8], _digests: &[[u8; 32]]) {}
}

// Two chunks are digested side by side: one thread alone would leave chunk 0 before chunk 1 begins.
#[test]
fn two_chunks_side_by_side(rt: HostRuntime) -> Result<(), Fail> {
    let meter = Waits {
        second_began: AtomicBool::new(false),
        seen_together: AtomicBool::new(false),
    };
    let pages = numbered_pages(rt.alloc(), 128)?;
    measure(&rt, rt.alloc(), &pages, &meter)?;
    assert!(rt; meter.seen_together.load(Ordering::SeqCst));
    Ok(())
}
