// The guest for some numbers of calls.

use crate::measures::check_digest;
use guest_gen::generate;
use page_measure::page_digest;
use std::test::Fail;

// Calls, and the digests of the file and of its text.
static GUESTS: [(u64, &str, &str); 4] = [
    (
        1,
        "2ee0e92d6d722941a5917d5d363d63ec35de78327d5f743aa21c0a8f430cf5d9",
        "959c319a537dc5aebac4224823c8255b841fcb5ccdc09de21cdb4ec2235c85de",
    ),
    (
        10,
        "aaeb1d162abba12f1c7c20fddc9b0fe8b7d06c3449b69b086f322fcb8ba9e418",
        "d4f51c377f677df9207628708ab229d1b69fedd1148d89be211bd719ec10e9db",
    ),
    (
        2048,
        "ae9e571169c125d2dc422793a9a821640b4b564bade8597d45152b6bb9c2076a",
        "e41e81f99e03ecb636c867d4d776fee61017811fc0216b38ee842d910670cfae",
    ),
    (
        1_000_000,
        "0163416cabee69371acacc54070e7dfd8184c3d0a49e94dba5618f7240f4b1f2",
        "57fb70a6f6c01ee29327f83b8df159df361eff85356e1990db18e87afbe03a9c",
    ),
];

// The words are those of LLVM's assembler, and the digests those of Python's hashlib.
#[test]
fn files_and_measures(rt: HostRuntime) -> Result<(), Fail> {
    let alloc = rt.alloc();
    for &(calls, digest, measure) in &GUESTS {
        let (file, policy) = generate(alloc, calls.clamp(1, 1_000_000))?;
        check_digest(&rt, alloc, calls, page_digest(&file), digest)?;
        check_digest(&rt, alloc, calls, policy.kernel, measure)?;
    }
    Ok(())
}
