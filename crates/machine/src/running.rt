// A machine's run, with its console.
ghost use Rattle.std.specs.Prelude.{◌≡◌, ◌+◌, ◌<◌, ◌≤◌, ◌^◌, length, true, false, IsTrue, IsFalse, OnOk, OnErr};
ghost use Rattle.sv_types.specs.Limits.{max_printed};
ghost use Rattle.sv_types.specs.Schedule.{first_events};
ghost use Rattle.spec_hardware.specs.Reaches.{Cleared};
ghost use Rattle.host_io.specs.Outside.{BreaksOff, MayWrite};
ghost use Rattle.machine.specs.Drawing.{count_left, events_with, is_used_up};
ghost use Rattle.machine.specs.Console.{flush_is_due, Flushed, HasRunAll, MayRun, RunBrokeFromStart};

use crate::drawing::Drawing;
use crate::machine::Machine;
use host_io::{Failed, Sink, write_all};
use script::{EventSource, Script, Source};
use sv_types::{MAX_PRINTED, Verdict};

/// Whether the console's bytes are to be written now: the last of them is a line feed, or 4,096 of them stand.
#[inline(always)]
fn flush_is_due(printed: &[u8]) -> bool
    ensures { result ≡ flush_is_due printed.now }
{
    match printed.last() {
        None => false,
        Some(&last) => last == b'\n' || printed.len() == MAX_PRINTED,
    }
}

/// Writes the console's bytes where they are due.
#[tactic(auto, using(crate::proofs::Standing::flushed_all, crate::proofs::Standing::flushed_none, crate::proofs::Standing::cleared_none))]
#[inline(always)]
pub fn flush_due<O: Sink>(machine: &mut Machine, out: &mut O) -> Result<(), Failed>
    requires sink { MayWrite (O.state out.old) }
    requires room { length machine.old.journal.printed ≤ max_printed }
    ensures flushed { OnOk result (Flushed machine.old machine.new (O.state out.old) (O.state out.new)) }
    ensures cleared { Cleared machine.old machine.new }
    ensures room { OnOk result (length machine.new.journal.printed < max_printed) }
    ensures rest { OnOk result (IsFalse (flush_is_due machine.new.journal.printed)) }
    ensures machine { OnErr result (machine.new ≡ machine.old) }
    ensures due { OnErr result (IsTrue (flush_is_due machine.old.journal.printed)) }
    ensures failed { OnErr result (BreaksOff (O.state out.old) (O.state out.new) machine.old.journal.printed) }
{
    if flush_is_due(machine.printed()) {
        write_all(out, machine.printed())?;
        machine.clear_printed();
    }
    Ok(())
}

// So many events are made before the sink is told how far a run has come.
const TOLD_EVERY: u64 = 1 << 20;

// The sink is told.
#[inline(never)]
fn tell<O: Sink>(machine: &Machine, out: &mut O)
    ensures { O.state out.new ≡ O.state out.old }
{
    let counts = machine.counts();
    let others = counts
        .beats
        .saturating_add(counts.keys)
        .saturating_add(counts.ticks);
    out.note_progress(counts.turns.saturating_add(others), counts.turns);
}

/// The events that are left of a run: those that are made before the sink is told the next time, and those after them.
#[derive(Clone, Copy, Drop)]
pub struct Left {
    pub now: u64,
    pub later: u64,
}

impl Left {
    /// So many.
    #[inline(always)]
    pub fn of(events: u64) -> Left
        ensures all { result.now + result.later ≡ events }
        ensures some { 0 < events → 0 < result.now }
        ensures none { result.now ≡ 0 → result.later ≡ 0 }
    {
        let now = events.min(TOLD_EVERY);
        Left {
            now,
            later: events - now,
        }
    }

    /// Whether some are left. The sink is told where its time has come.
    #[inline(always)]
    pub fn goes_on<O: Sink>(&mut self, machine: &Machine, out: &mut O) -> bool
        requires { self.old.now + self.old.later < 2 ^ 64 }
        ensures all { self.new.now + self.new.later ≡ self.old.now + self.old.later }
        ensures some { result ≡ true → 0 < self.new.now }
        ensures none { result ≡ false → self.new.now + self.new.later ≡ 0 }
        ensures sink { O.state out.new ≡ O.state out.old }
    {
        if self.now > 0 {
            return true;
        }
        if self.later == 0 {
            return false;
        }
        tell(machine, out);
        *self = Left::of(self.later);
        true
    }
}

// Goes on to the events after those that were to be drawn first, once these are made; then the sink is told. Answers how many
// are left after those that are to be drawn now.
#[inline(always)]
fn draw_on<S: EventSource, O: Sink>(
    machine: &Machine,
    drawing: &mut Drawing<S>,
    later: u64,
    out: &mut O,
) -> u64
    requires { count_left drawing.old + later < 2 ^ 64 }
    ensures left { events_with result S.schedule drawing.new ≡ events_with later S.schedule drawing.old }
    ensures count { count_left drawing.new + result ≡ count_left drawing.old + later }
    ensures some { is_used_up drawing.new ≡ true → result ≡ 0 }
    ensures sink { O.state out.new ≡ O.state out.old }
{
    if !drawing.is_used_up() {
        return later;
    }
    if later == 0 {
        return 0;
    }
    tell(machine, out);
    let left = Left::of(later);
    drawing.ask(left.now);
    left.later
}

// Runs a machine over the first events of a source, of which equal ones come in rows.
#[inline(never)]
fn run_in_batches<S: EventSource + Drop, O: Sink>(
    machine: &mut Machine,
    source: S,
    events: u64,
    out: &mut O,
) -> Result<(), Failed>
    requires { MayRun machine.old events (O.state out.old) }
    ensures all { OnOk result (HasRunAll machine.old (first_events events (S.schedule source)) machine.new (O.state out.old) (O.state out.new)) }
    ensures some { OnErr result (RunBrokeFromStart machine.old (first_events events (S.schedule source)) machine.new (O.state out.old) (O.state out.new)) }
{
    let left = Left::of(events);
    let mut drawing = Drawing::new(source, left.now);
    let mut later = left.later;
    'events: while let Some(batch) = drawing.draw() {
        if machine.verdict() != Verdict::Running {
            return Ok(());
        }
        let made = machine.repeat(batch.event, batch.count);
        drawing.count_down(made);
        flush_due(machine, out)?;
        later = draw_on(machine, &mut drawing, later, out);
    }
    Ok(())
}

// The same for a source whose equal events seldom come in a row: they are made one by one, and nothing counts a row.
#[inline(never)]
fn run_one_by_one<S: EventSource + Drop, O: Sink>(
    machine: &mut Machine,
    source: S,
    events: u64,
    out: &mut O,
) -> Result<(), Failed>
    requires { MayRun machine.old events (O.state out.old) }
    ensures all { OnOk result (HasRunAll machine.old (first_events events (S.schedule source)) machine.new (O.state out.old) (O.state out.new)) }
    ensures some { OnErr result (RunBrokeFromStart machine.old (first_events events (S.schedule source)) machine.new (O.state out.old) (O.state out.new)) }
{
    let mut source = source;
    let mut left = Left::of(events);
    'events: while left.goes_on(machine, out) {
        if machine.verdict() != Verdict::Running {
            return Ok(());
        }
        let Some(event) = source.draw_one() else {
            return Ok(());
        };
        machine.repeat(event, 1);
        left.now -= 1;
        flush_due(machine, out)?;
    }
    Ok(())
}

/// Runs a machine of which nothing is printed yet over the first events of a script, up to its verdict, and writes its console
/// at each line feed and whenever 4,096 bytes stand. Where a write fails it stands after some of the events.
///
/// Each kind of source has a loop of its own, which doesn't ask for it again.
pub fn run<O: Sink>(
    machine: &mut Machine,
    script: Script,
    events: u64,
    out: &mut O,
) -> Result<(), Failed>
    requires { MayRun machine.old events (O.state out.old) }
    ensures all { OnOk result (HasRunAll machine.old (first_events events script) machine.new (O.state out.old) (O.state out.new)) }
    ensures some { OnErr result (RunBrokeFromStart machine.old (first_events events script) machine.new (O.state out.old) (O.state out.new)) }
{
    match script.into_source() {
        Source::Listed(listed) => run_in_batches(machine, listed, events, out),
        Source::Weave(weave) => run_in_batches(machine, weave, events, out),
        Source::Rounds(rounds) => {
            if rounds.is_of_several() {
                run_one_by_one(machine, rounds, events, out)
            } else {
                run_in_batches(machine, rounds, events, out)
            }
        }
        Source::Auto(auto) => {
            if auto.is_of_several() {
                run_one_by_one(machine, auto, events, out)
            } else {
                run_in_batches(machine, auto, events, out)
            }
        }
        Source::Bursts(bursts) => run_in_batches(machine, bursts, events, out),
    }
}
