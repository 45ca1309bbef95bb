// Lines made fewer, and their counts smaller.
ghost use Rattle.std.specs.Prelude.{◌≡◌, ◌≤◌, ◌<◌, true, false, IfOk};
ghost use Rattle.script_lines.specs.Minimal.{IsOneMinimal};

use crate::delta_debugging::{Stops, minimize};
use crate::listing::{Kind, halved, joined, lines_without};
use script::EventRun;
use std::alloc::{AllocError, Global};
use std::thread::Threads;

// How many lines there are, and how many events.
fn size_of_lines(lines: &[EventRun]) -> (usize, u64) {
    let mut events: u64 = 0;
    for line in lines {
        events = events.saturating_add(line.count);
    }
    (lines.len(), events)
}

fn is_smaller(lines: &[EventRun], other: &[EventRun]) -> bool {
    let (count, events) = size_of_lines(lines);
    let (other_count, other_events) = size_of_lines(other);
    count < other_count || events < other_events
}

// Whether a run stops so under these lines, where one is left.
fn try_lines<R: Threads + Sync, S: Stops<EventRun>>(
    rt: &R,
    test: &mut S,
    lines: &[EventRun],
) -> Result<bool, AllocError>
    ensures stops { IfOk result (λ answer. answer ≡ true → S.stops test.old lines.now ≡ true) }
    ensures same { S.stops test.new ≡ S.stops test.old }
    ensures runs { S.left test.new ≤ S.left test.old }
    ensures used { IfOk result (λ answer. answer ≡ true → S.left test.new < S.left test.old) }
{
    if test.runs_left() == 0 {
        return Ok(false);
    }
    test.stops_so(rt, lines)
}

// Tries to do without all lines of a kind, and joins what then stands together.
fn spare_kind<R: Threads + Sync, S: Stops<EventRun>>(
    rt: &R,
    alloc: Global,
    test: &mut S,
    lines: &mut Vec<EventRun>,
    kind: Kind,
) -> Result<(), AllocError>
    requires stops { S.stops test.old lines.old.items ≡ true }
    ensures stops { S.stops test.old lines.new.items ≡ true }
    ensures same { S.stops test.new ≡ S.stops test.old }
    ensures runs { S.left test.new ≤ S.left test.old }
{
    let others = lines_without(alloc, lines, kind)?;
    if try_lines(rt, test, &others)? {
        *lines = others;
    }
    Ok(())
}

// Tries to do with halves of some lines, and joins what then stands together. False where that makes nothing smaller: then the
// lines stay as they are.
fn spare_halves<R: Threads + Sync, S: Stops<EventRun>>(
    rt: &R,
    alloc: Global,
    test: &mut S,
    lines: &mut Vec<EventRun>,
) -> Result<bool, AllocError>
    requires stops { S.stops test.old lines.old.items ≡ true }
    ensures stops { S.stops test.old lines.new.items ≡ true }
    ensures same { IfOk result (λ spared. spared ≡ false → lines.new.items ≡ lines.old.items) }
    ensures test { S.stops test.new ≡ S.stops test.old }
    ensures runs { S.left test.new ≤ S.left test.old }
    ensures used { IfOk result (λ spared. spared ≡ true → S.left test.new < S.left test.old) }
{
    let mut halves = halved(alloc, lines)?;
    if !try_lines(rt, test, &halves)? {
        return Ok(false);
    }
    minimize(rt, alloc, test, &mut halves)?;
    let joined = joined(alloc, &halves)?;
    if !is_smaller(&joined, lines) || !try_lines(rt, test, &joined)? {
        return Ok(false);
    }
    *lines = joined;
    Ok(true)
}

/// Takes all ticks away, all beats, lines, and halves of their counts, while a run stops so under those that are left, by the runs
/// that the test has left. True where the runs sufficed: then it stops so no more without any one of the lines. False where they are used up. Out of
/// memory it keeps what was reached.
pub fn shrink_lines<R: Threads + Sync, S: Stops<EventRun>>(
    rt: &R,
    alloc: Global,
    test: &mut S,
    lines: &mut Vec<EventRun>,
) -> Result<bool, AllocError>
    requires stops { S.stops test.old lines.old.items ≡ true }
    ensures stops { S.stops test.old lines.new.items ≡ true }
    ensures minimal { IfOk result (λ minimal. minimal ≡ true → IsOneMinimal (S.stops test.old) lines.new.items) }
    ensures spent { IfOk result (λ minimal. minimal ≡ false → S.left test.new ≡ 0) }
    ensures same { S.stops test.new ≡ S.stops test.old }
    ensures runs { S.left test.new ≤ S.left test.old }
{
    spare_kind(rt, alloc, test, lines, Kind::Ticks)?;
    spare_kind(rt, alloc, test, lines, Kind::Beats)?;
    'rounds: while test.runs_left() > 0 {
        if !minimize(rt, alloc, test, lines)? {
            return Ok(false);
        }
        if !spare_halves(rt, alloc, test, lines)? {
            return Ok(true);
        }
    }
    Ok(false)
}
