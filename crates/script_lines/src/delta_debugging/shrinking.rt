// Items taken away, in ever smaller pieces.
ghost use Rattle.std.specs.Prelude.{◌≡◌, ◌≤◌, ◌<◌, true, false, IfOk};
ghost use Rattle.script_lines.specs.Minimal.{IsReduced, IsOneMinimal};
ghost use Rattle.script_lines.specs.declared.delta_debugging.shrinking.Round.TheVariants.{Same, Fewer, NoRunsLeft};

use crate::delta_debugging::removal::try_without;
use crate::delta_debugging::stops::Stops;
use std::alloc::{AllocError, Global};
use std::thread::Threads;

/// How a round over all items went.
#[derive(Clone, Copy, PartialEq, Eq, Drop)]
enum Round {
    /// No item was taken away.
    Same,
    /// Some were.
    Fewer,
    /// The runs didn't suffice for the whole round.
    NoRunsLeft,
}

// Tries each piece of so many items, from the first on. What can be spared is taken away at once.
fn take_pieces<R: Threads + Sync, T: Copy + Drop, S: Stops<T>>(
    rt: &R,
    alloc: Global,
    test: &mut S,
    items: &mut Vec<T>,
    size: usize,
) -> Result<(), AllocError>
    requires size { 0 < size }
    requires stops { S.stops test.old items.old.items ≡ true }
    ensures reduced { IsReduced (S.stops test.old) items.old.items items.new.items }
    ensures same { S.stops test.new ≡ S.stops test.old }
    ensures runs { S.left test.new ≤ S.left test.old }
{
    let mut from = 0;
    'pieces: while from < items.len() && test.runs_left() > 0 {
        let to = from + size.min(items.len() - from);
        if !try_without(rt, alloc, test, items, from, to)? {
            from = to;
        }
    }
    Ok(())
}

// Tries each item alone, from the first on.
fn take_single_items<R: Threads + Sync, T: Copy + Drop, S: Stops<T>>(
    rt: &R,
    alloc: Global,
    test: &mut S,
    items: &mut Vec<T>,
) -> Result<Round, AllocError>
    requires stops { S.stops test.old items.old.items ≡ true }
    ensures reduced { IsReduced (S.stops test.old) items.old.items items.new.items }
    ensures minimal { IfOk result (λ round. round ≡ Same → IsOneMinimal (S.stops test.old) items.new.items) }
    ensures same { S.stops test.new ≡ S.stops test.old }
    ensures runs { S.left test.new ≤ S.left test.old }
    ensures used { IfOk result (λ round. round ≡ Fewer → S.left test.new < S.left test.old) }
    ensures spent { IfOk result (λ round. round ≡ NoRunsLeft → S.left test.new ≡ 0) }
{
    let mut round = Round::Same;
    let mut at = 0;
    'items: while at < items.len() {
        if test.runs_left() == 0 {
            return Ok(Round::NoRunsLeft);
        }
        if try_without(rt, alloc, test, items, at, at + 1)? {
            round = Round::Fewer;
        } else {
            at += 1;
        }
    }
    Ok(round)
}

/// Takes items away while it still stops so: halves of the list first, then ever smaller pieces, at last single items. True where the
/// runs that the test has left sufficed: then it stops so no more without any one of the items that are left. False where they are used
/// up, each for a trial. Out of memory it keeps what was reached.
pub fn minimize<R: Threads + Sync, T: Copy + Drop, S: Stops<T>>(
    rt: &R,
    alloc: Global,
    test: &mut S,
    items: &mut Vec<T>,
) -> Result<bool, AllocError>
    requires stops { S.stops test.old items.old.items ≡ true }
    ensures reduced { IsReduced (S.stops test.old) items.old.items items.new.items }
    ensures minimal { IfOk result (λ minimal. minimal ≡ true → IsOneMinimal (S.stops test.old) items.new.items) }
    ensures spent { IfOk result (λ minimal. minimal ≡ false → S.left test.new ≡ 0) }
    ensures same { S.stops test.new ≡ S.stops test.old }
    ensures runs { S.left test.new ≤ S.left test.old }
{
    let mut size = items.len() / 2;
    'sizes: while size > 1 {
        take_pieces(rt, alloc, test, items, size)?;
        size /= 2;
    }
    'rounds: while test.runs_left() > 0 {
        match take_single_items(rt, alloc, test, items)? {
            Round::Same => return Ok(true),
            Round::Fewer => {}
            Round::NoRunsLeft => return Ok(false),
        }
    }
    Ok(false)
}
