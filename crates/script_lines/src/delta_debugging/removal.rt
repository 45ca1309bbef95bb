// One trial: some items taken away.
ghost use Rattle.std.specs.Prelude.{◌≡◌, ◌≤◌, ◌<◌, ◌+◌, ◌-◌, length, true, IfOk, OnOk, vec_len, if◌then◌else◌};
ghost use Rattle.script_lines.specs.Minimal.{IsReduced, without};

use crate::delta_debugging::stops::Stops;
use std::alloc::{AllocError, Global};
use std::thread::Threads;

// The items without those from one place up to another.
fn without<T: Copy + Drop>(
    alloc: Global,
    items: &[T],
    from: usize,
    to: usize,
) -> Result<Vec<T>, AllocError>
    requires order { from ≤ to }
    requires within { to ≤ length items.now }
    ensures { IfOk result (λ rest. rest.items ≡ without items.now from to) }
{
    let mut rest = Vec::with_capacity(alloc, items.len() - (to - from))?;
    rest.extend_from_slice(&items[..from])?;
    rest.extend_from_slice(&items[to..])?;
    Ok(rest)
}

/// Takes the items from one place up to another away, where it stops so without them. Answers whether it does, by one run.
pub(crate) fn try_without<R: Threads + Sync, T: Copy + Drop, S: Stops<T>>(
    rt: &R,
    alloc: Global,
    test: &mut S,
    items: &mut Vec<T>,
    from: usize,
    to: usize,
) -> Result<bool, AllocError>
    requires order { from ≤ to }
    requires within { to ≤ vec_len items.old }
    requires stops { S.stops test.old items.old.items ≡ true }
    requires left { 0 < S.left test.old }
    ensures reduced { IsReduced (S.stops test.old) items.old.items items.new.items }
    ensures same { S.stops test.new ≡ S.stops test.old }
    ensures runs { S.left test.new ≤ S.left test.old }
    ensures run { OnOk result (S.left test.old ≡ S.left test.new + 1) }
    ensures answer { IfOk result (λ gone. gone ≡ S.stops test.old (without items.old.items from to)) }
    ensures items { IfOk result (λ gone. items.new.items ≡ (if gone then without items.old.items from to else items.old.items)) }
{
    let rest = without(alloc, items, from, to)?;
    let gone = test.stops_so(rt, &rest)?;
    if gone {
        *items = rest;
    }
    Ok(gone)
}
