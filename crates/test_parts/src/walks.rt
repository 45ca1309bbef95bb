// Walks from a root of four pages, with one page of RAM after it.

ghost use Rattle.std.specs.Prelude.{◌≡◌, ◌%◌};
ghost use Rattle.spec_processor.specs.Bytes.{page_size};

use host_mem::HostMem;
use spec_processor::Access;
use std::alloc::{AllocError, Global};
use std::process::Abort;
use sv39_walk::walk_g;

// `hgatp` with mode 8 and the root at host place 0
const HGATP: u64 = 0x8000_0000_0000_0000;

// Entry 2 of the root, an address that is loaded from, and where it leads: a leaf of one gibibyte, where user mode may.
static WALKS: [(u64, u64, Option<u64>); 3] = [
    (0xDF, 0x8000_0123, Some(0x123)),
    (0xDF, 0x4000_0000, None),
    (0xCF, 0x8000_0123, None),
];

// The size is a parameter, so that no contract here lists its zeros.
fn check_walk(
    rt: &impl Abort,
    alloc: Global,
    table_bytes: usize,
    walk: (u64, u64, Option<u64>),
) -> Result<(), AllocError>
    requires { table_bytes % page_size ≡ 0 }
{
    let (entry, gpa, wanted) = walk;
    let mut mem = HostMem::new(alloc, table_bytes, 1)?;
    assert!(rt; mem.table_bytes() > 16);
    mem.write(16, 8, entry);
    assert!(rt; walk_g(&mem, HGATP, gpa, Access::Load).ok() == wanted);
    Ok(())
}

#[test]
fn a_leaf_maps_where_user_mode_may(rt: HostRuntime) -> Result<(), AllocError> {
    for walk in &WALKS {
        check_walk(&rt, rt.alloc(), 0x4000, *walk)?;
    }
    Ok(())
}
