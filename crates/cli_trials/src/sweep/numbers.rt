// Numbers that follow one another.
ghost use Rattle.std.specs.Prelude.{◌≡◌, ◌+◌, ◌^◌, ◌≤◌, ◌<◌, IfOk};
ghost use Rattle.sv_types.specs.ApprovedPages.{numbers_from};

use std::alloc::{AllocError, Global};
use std::thread::{Threads, available_parallelism};

/// So many numbers, from the first on.
pub(crate) fn numbers_from(alloc: Global, first: u64, count: usize) -> Result<Vec<u64>, AllocError>
    requires { first + count ≤ 2 ^ 64 }
    ensures { IfOk result (λ numbers. numbers.items ≡ numbers_from first count) }
{
    let mut numbers = Vec::with_capacity(alloc, count)?;
    'numbers: for i in 0..count {
        numbers.push(first + i as u64)?;
    }
    Ok(numbers)
}

/// How many of so many numbers a thread takes, so that each processor has one thread.
pub(crate) fn numbers_each<R: Threads>(rt: &R, count: usize) -> usize
    ensures { 0 < result }
{
    let threads = match available_parallelism(rt) {
        Ok(processors) => processors.get(),
        Err(_) => 1,
    };
    (count / threads).saturating_add(1)
}
