// How a run goes on.
ghost use Rattle.std.specs.Prelude.{◌≡◌, ◌<◌, ◌≤◌, ◌+◌, ◌*◌, ◌/◌, ◌^◌, ◌||◌, [], None, OnOk, IfOk, is_some, length, option_map, unwrap_or};
ghost use Rattle.spec_reference.specs.States.{has_number};
ghost use Rattle.debug_session.specs.Rows.{is_free};
ghost use Rattle.debug_session.specs.Runs as spec;

use crate::host::Host;
use crate::target::Target;
use crate::watches::{Watch, all_watched, first_changed};
use std::alloc::{AllocError, Global};
use std::thread::Threads;
use sv_types::Verdict;

/// A change of what is watched by an event: the address of the watch, and the hart whose turn the event is.
#[derive(Clone, Copy, Debug, PartialEq, Eq, Drop)]
pub struct Change {
    pub address: u64,
    pub turn: Option<u8>,
}

/// A place to go back to: the number of events that are made there, and what the next one changes of what is watched.
#[derive(Clone, Copy, Debug, PartialEq, Eq, Drop)]
pub struct Found {
    pub made: u64,
    pub change: Option<Change>,
}

pub(crate) fn has_number(numbers: &[u64], number: u64) -> bool
    ensures { result ≡ has_number numbers.now number }
{
    numbers.iter().any(|n| *n == number)
}

// The hart whose turn is next is about to fetch at a break.
#[tactic(auto, unfolding(crate::specs::Runs::meets_break))]
pub(crate) fn meets_break<T: Target>(target: &T, breaks: &[u64]) -> bool
    ensures { (run : spec.Run) → T.stands target.now run → result ≡ spec.meets_break breaks.now run }
{
    if breaks.is_empty() {
        return false;
    }
    let Some(hart) = target.next_turn() else {
        return false;
    };
    match target.fetch_place(hart) {
        Some(pc) => has_number(breaks, pc),
        None => false,
    }
}

fn is_step(steps: Option<u8>, turn: Option<u8>) -> bool
    ensures { result ≡ spec.is_step steps turn }
{
    match (steps, turn) {
        (Some(hart), Some(turn)) => turn == hart,
        _ => false,
    }
}

fn is_running(verdict: Verdict) -> bool
    ensures { result ≡ spec.is_running verdict }
{
    match verdict {
        Verdict::Running => true,
        Verdict::Shutdown | Verdict::Stopped { .. } => false,
    }
}

// A run halts here after an event.
fn halts<T: Target>(
    target: &T,
    breaks: &[u64],
    steps: Option<u8>,
    turn: Option<u8>,
    change: Option<Change>,
) -> bool
    ensures { (run : spec.Run) → T.stands target.now run → result ≡ spec.halts breaks.now steps turn change run }
{
    change.is_some()
        || !is_running(target.verdict())
        || is_step(steps, turn)
        || meets_break(target, breaks)
}

fn change_of(turn: Option<u8>, address: Option<u64>) -> Option<Change>
    ensures { result ≡ spec.change_of turn address }
{
    match address {
        Some(address) => Some(Change { address, turn }),
        None => None,
    }
}

// Makes one event more.
fn advance<T: Target>(target: &mut T) -> Result<(), AllocError>
    ensures { OnOk result ((run : spec.Run) → T.stands target.old run → run.made < length run.events →
        T.stands target.new (spec.after run (run.made + 1))) }
{
    target.advance_row(1)?;
    Ok(())
}

// Makes one event more, and answers what it changed of what is watched.
#[inline(always)]
fn advance_watching<T: Target>(
    target: &mut T,
    alloc: Global,
    watches: &[Watch],
) -> Result<Option<Change>, AllocError>
    ensures moved { OnOk result ((run : spec.Run) → T.stands target.old run → run.made < length run.events →
        T.stands target.new (spec.after run (run.made + 1))) }
    ensures change { IfOk result (λ change. (run : spec.Run) → T.stands target.old run → run.made < length run.events →
        change ≡ spec.change_at watches.now run run.made) }
{
    if watches.is_empty() {
        advance(target)?;
        return Ok(None);
    }
    advance_comparing(target, alloc, watches)
}

// The same, by the watched words before it and after it.
#[tactic(auto, unfolding(crate::specs::Runs::change_at))]
fn advance_comparing<T: Target>(
    target: &mut T,
    alloc: Global,
    watches: &[Watch],
) -> Result<Option<Change>, AllocError>
    ensures moved { OnOk result ((run : spec.Run) → T.stands target.old run → run.made < length run.events →
        T.stands target.new (spec.after run (run.made + 1))) }
    ensures change { IfOk result (λ change. (run : spec.Run) → T.stands target.old run → run.made < length run.events →
        change ≡ spec.change_at watches.now run run.made) }
{
    let turn = target.next_turn();
    let before = all_watched(alloc, watches, target.ram())?;
    advance(target)?;
    Ok(change_of(turn, first_changed(watches, &before, target.ram())))
}

// The same, event by event.
fn go_by_events<T: Target>(
    target: &mut T,
    alloc: Global,
    breaks: &[u64],
    watches: &[Watch],
    steps: Option<u8>,
) -> Result<Option<Change>, AllocError>
    ensures moved { OnOk result ((run : spec.Run) → T.stands target.old run → T.stands target.new (spec.ahead breaks.now watches.now steps run)) }
    ensures change { IfOk result (λ change. (run : spec.Run) → T.stands target.old run →
        change ≡ spec.last_change watches.now run (spec.ahead breaks.now watches.now steps run).made) }
{
    let most = target.most_left();
    let mut change = None;
    'events: for _ in 0..most {
        if !target.is_left() {
            return Ok(change);
        }
        let turn = target.next_turn();
        change = advance_watching(target, alloc, watches)?;
        if halts(target, breaks, steps, turn, change) {
            return Ok(change);
        }
    }
    Ok(change)
}

// All events that are left are made, up to the run's end.
fn finish<T: Target>(target: &mut T) -> Result<(), AllocError>
    ensures { OnOk result ((run : spec.Run) → T.stands target.old run → T.stands target.new (spec.ahead [] [] None run)) }
{
    let most = target.most_left();
    'rows: for _ in 0..most {
        if !target.is_left() {
            return Ok(());
        }
        target.advance_row(u64::MAX)?;
        if !is_running(target.verdict()) {
            return Ok(());
        }
    }
    Ok(())
}

// Nothing is looked at on the way.
fn is_free(breaks: &[u64], watches: &[Watch], steps: Option<u8>) -> bool
    ensures { result ≡ is_free breaks.now watches.now steps }
{
    breaks.is_empty() && watches.is_empty() && steps.is_none()
}

/// A run goes on to where it halts. Answers what the last event changed of what is watched.
pub(crate) fn go_ahead<T: Target>(
    target: &mut T,
    alloc: Global,
    breaks: &[u64],
    watches: &[Watch],
    steps: Option<u8>,
) -> Result<Option<Change>, AllocError>
    ensures moved { OnOk result ((run : spec.Run) → T.stands target.old run → T.stands target.new (spec.ahead breaks.now watches.now steps run)) }
    ensures change { IfOk result (λ change. (run : spec.Run) → T.stands target.old run →
        change ≡ spec.last_change watches.now run (spec.ahead breaks.now watches.now steps run).made) }
{
    if is_free(breaks, watches, steps) {
        finish(target)?;
        return Ok(None);
    }
    go_by_events(target, alloc, breaks, watches, steps)
}

// On up to so many events, or to the last one.
fn advance_up_to<T: Target>(target: &mut T, number: u64) -> Result<(), AllocError>
    ensures { OnOk result ((run : spec.Run) → T.stands target.old run → run.made ≤ number → T.stands target.new (spec.at_event number run)) }
{
    let made = target.events_made();
    let count = number.saturating_sub(made);
    'events: for _ in 0..count {
        if !target.is_left() {
            return Ok(());
        }
        advance(target)?;
    }
    Ok(())
}

/// A run goes to the state after so many events, or after its last one.
pub(crate) fn go_to<T: Target, R: Threads + Sync>(
    target: &mut T,
    host: &Host<'_, R>,
    number: u64,
) -> Result<(), AllocError>
    ensures { OnOk result ((run : spec.Run) → T.stands target.old run → T.stands target.new (spec.at_event number run)) }
{
    target.rewind(host.rt, host.alloc, number)?;
    advance_up_to(target, number)
}

fn is_hit(is_met: bool, change: Option<Change>) -> bool
    ensures { result ≡ (is_met || is_some change) }
{
    is_met || change.is_some()
}

// So many events more are made.
fn advance_by<T: Target>(target: &mut T, count: u64) -> Result<(), AllocError>
    ensures { OnOk result ((run : spec.Run) → T.stands target.old run → run.made + count ≤ length run.events →
        T.stands target.new (spec.after run (run.made + count))) }
{
    let mut left = count;
    'rows: for _ in 0..count {
        if left == 0 {
            return Ok(());
        }
        let made = target.advance_row(left)?;
        left -= made;
    }
    Ok(())
}

fn number_of(found: Option<Found>) -> u64
    ensures { result ≡ spec.number_in found }
{
    match found {
        Some(found) => found.made,
        None => 0,
    }
}

/// At most so many states are kept on the way of a search.
const MOST_KEPT: u64 = 8;

/// There are at least so many events from one state that is kept to the next.
const LEAST_DISTANCE: u64 = 1 << 20;

/// So many bytes of RAM are copied in about the time of one event.
const BYTES_AN_EVENT: u64 = 64;

// How many events there are from one state that is kept to the next, in a search over so many: few states are kept, seldom, and
// what a copy of RAM costs is small beside the events.
fn distance_of(count: u64, ram_bytes: usize) -> u64
    ensures few { count < 8 * result }
    ensures seldom { 2 ^ 20 ≤ result }
    ensures small { ram_bytes / 64 ≤ result }
{
    let few = count / MOST_KEPT + 1;
    let small = ram_bytes as u64 / BYTES_AN_EVENT;
    few.max(LEAST_DISTANCE).max(small)
}

// The state after n events is kept where it is the next one to keep.
#[inline(always)]
fn keep_at<T: Target>(
    target: &mut T,
    alloc: Global,
    n: u64,
    next: &mut u64,
    distance: u64,
    last: u64,
)
    ensures { (run : spec.Run) → T.stands target.old run → T.stands target.new run }
{
    if n == *next {
        target.keep(alloc, last);
        *next = n.saturating_add(distance);
    }
}

// The last place before so many events at which a break is met or the next event changes what is watched, from the first event on.
// These events are made, and some states on the way are kept.
fn last_hit<T: Target>(
    target: &mut T,
    alloc: Global,
    breaks: &[u64],
    watches: &[Watch],
    count: u64,
) -> Result<Option<Found>, AllocError>
    ensures found { IfOk result (λ found. (run : spec.Run) → T.stands target.old (spec.after run 0) → count ≤ length run.events →
        found ≡ option_map (spec.found_at watches.now run) (spec.last_below (spec.is_target breaks.now watches.now None run) count)) }
    ensures moved { OnOk result ((run : spec.Run) → T.stands target.old (spec.after run 0) → count ≤ length run.events →
        T.stands target.new (spec.after run count)) }
{
    let mut last = None;
    let distance = distance_of(count, target.ram().len());
    let mut next = distance;
    'events: for n in 0..count {
        keep_at(target, alloc, n, &mut next, distance, number_of(last));
        let is_met = meets_break(target, breaks);
        let change = advance_watching(target, alloc, watches)?;
        if is_hit(is_met, change) {
            last = Some(Found { made: n, change });
        }
    }
    Ok(last)
}

// A run goes back to the state after so many events.
fn return_to<T: Target, R: Threads + Sync>(
    target: &mut T,
    host: &Host<'_, R>,
    count: u64,
) -> Result<(), AllocError>
    ensures { OnOk result ((run : spec.Run) → T.stands target.old run → count ≤ length run.events → T.stands target.new (spec.after run count)) }
{
    let made = target.rewind(host.rt, host.alloc, count)?;
    advance_by(target, count - made)
}

// Back to the last place at which a break is met or a watched word is about to change. The run is made once up to where it was, to
// find that place, and then again from the last state before it that was kept on the way.
#[tactic(auto, unfolding(crate::specs::Runs::behind, crate::specs::Runs::back_number, crate::specs::Runs::found_behind))]
fn go_to_hit<T: Target, R: Threads + Sync>(
    target: &mut T,
    host: &Host<'_, R>,
    breaks: &[u64],
    watches: &[Watch],
) -> Result<Option<Found>, AllocError>
    ensures moved { OnOk result ((run : spec.Run) → T.stands target.old run → T.stands target.new (spec.behind breaks.now watches.now None run)) }
    ensures found { IfOk result (λ found. (run : spec.Run) → T.stands target.old run → found ≡ spec.found_behind breaks.now watches.now None run) }
{
    let made = target.events_made();
    target.restart(host.rt, host.alloc)?;
    let found = last_hit(target, host.alloc, breaks, watches, made)?;
    return_to(target, host, number_of(found))?;
    Ok(found)
}

fn found_turn(number: Option<u64>) -> Option<Found>
    ensures { result ≡ option_map spec.found_turn number }
{
    match number {
        Some(made) => Some(Found { made, change: None }),
        None => None,
    }
}

// One turn of a hart back. The order of events tells where that was, so the run is made once at most, up to there.
fn step_back<T: Target, R: Threads + Sync>(
    target: &mut T,
    host: &Host<'_, R>,
    hart: u8,
) -> Result<Option<Found>, AllocError>
    ensures moved { OnOk result ((run : spec.Run) → T.stands target.old run →
        T.stands target.new (spec.after run (unwrap_or (spec.last_turn hart run) 0))) }
    ensures found { IfOk result (λ found. (run : spec.Run) → T.stands target.old run → found ≡ option_map spec.found_turn (spec.last_turn hart run)) }
{
    let number = target.last_turn(host.alloc, hart)?;
    return_to(target, host, number.unwrap_or(0))?;
    Ok(found_turn(number))
}

/// A run goes back to the last place before, and says what is found there; else it begins anew.
pub(crate) fn go_back<T: Target, R: Threads + Sync>(
    target: &mut T,
    host: &Host<'_, R>,
    breaks: &[u64],
    watches: &[Watch],
    steps: Option<u8>,
) -> Result<Option<Found>, AllocError>
    ensures moved { OnOk result ((run : spec.Run) → T.stands target.old run → T.stands target.new (spec.behind breaks.now watches.now steps run)) }
    ensures found { IfOk result (λ found. (run : spec.Run) → T.stands target.old run → found ≡ spec.found_behind breaks.now watches.now steps run) }
{
    match steps {
        Some(hart) => step_back(target, host, hart),
        None => go_to_hit(target, host, breaks, watches),
    }
}
