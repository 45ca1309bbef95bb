// A machine's survey, with its console.
ghost use Rattle.std.specs.Prelude.{◌≡◌, ◌+◌, ◌<◌, ◌≤◌, ◌^◌, ◌-◌, [], length, true, false, IfOk, OnOk, OnErr};
ghost use Rattle.sv_types.specs.Limits.{max_notes, max_printed};
ghost use Rattle.sv_types.specs.Schedule.{first_events};
ghost use Rattle.laws_simulation.specs.HwPassing.{hw_passed_over};
ghost use Rattle.laws_simulation.specs.Passes.{pass_of};
ghost use Rattle.spec_reference.specs.Counting.{CountsAtMost};
ghost use Rattle.spec_reference.specs.States.{State};
ghost use Rattle.spec_hardware.specs.StandsFor.{StandsFor};
ghost use Rattle.host_io.specs.Outside.{BreaksOff, MayWrite};
ghost use Rattle.machine.specs.Console.{Flushed};
ghost use Rattle.machine.specs.Drawing.{count_left, events_with, is_used_up};
ghost use Rattle.machine.specs.Limits.{max_counts};
ghost use Rattle.machine.specs.Standing.{HasState};
ghost use Rattle.report.specs.Views.{loads_view, writes_view};
ghost use Rattle.cli_survey.specs.Advances.{BreaksAtOne, BreaksInRows, BreaksWhile, GoesByOne, GoesByRow, GoesByRows, GoesWhile};
ghost use Rattle.cli_survey.specs.Advances.{IsOneMade, IsRowTold, MayGoOn, MayMakeRow, MayTend};
ghost use Rattle.cli_survey.specs.Refusals.{refusals, with_loads};
ghost use Rattle.cli_survey.specs.Surveys.{MaySurvey, SurveyedFromStart, has_room, is_clear, is_running, is_turn, with_passes};

use crate::looking::look;
use crate::noting::make_noted;
use crate::rows::make_row;
use host_io::{Failed, Sink, Trouble};
use machine::{Drawing, Left, Machine, Notes, flush_due};
use report::findings::{Found, NotesFound, Occurrence, Writes, add_write};
use script::{EventRun, EventSource, Script, Source};
use std::alloc::{AllocError, Global};
use sv_types::{Event, MAX_NOTES, Rule, Verdict};

// A write that stopped the machine is passed over, and kept.
#[inline(never)]
fn pass_write(machine: &mut Machine, writes: &mut Writes) -> Result<(), AllocError>
    ensures passed { machine.new ≡ hw_passed_over machine.old }
    ensures kept { OnOk result (writes_view writes.new ≡ with_passes (writes_view writes.old) (pass_of machine.old.journal.verdict)) }
{
    let verdict = machine.verdict();
    machine.pass_over();
    add_stop(writes, verdict)
}

#[tactic(auto, unfolding(laws_simulation::specs::Passes::pass_of))]
fn add_stop(writes: &mut Writes, verdict: Verdict) -> Result<(), AllocError>
    ensures { OnOk result (writes_view writes.new ≡ with_passes (writes_view writes.old) (pass_of verdict)) }
{
    match verdict {
        Verdict::Stopped {
            rule: Rule::Write { pc, gpa },
            hart,
            turn,
        } => {
            let write = Occurrence {
                key: pc,
                address: gpa,
                hart,
                turn,
            };
            add_write(writes, &write)
        }
        Verdict::Stopped {
            rule: Rule::Entry { .. },
            ..
        }
        | Verdict::Running
        | Verdict::Shutdown => Ok(()),
    }
}

#[inline(always)]
fn is_running(verdict: Verdict) -> bool
    ensures { result ≡ is_running verdict }
{
    match verdict {
        Verdict::Running => true,
        Verdict::Shutdown | Verdict::Stopped { .. } => false,
    }
}

// Whether the machine would keep one note more.
#[inline(always)]
fn has_room(machine: &Machine) -> bool
    ensures { result ≡ has_room machine.now }
{
    machine.journal().len() < MAX_NOTES
}

// Whether the machine runs, and no load is under way.
#[inline(always)]
fn is_clear(machine: &Machine) -> bool
    ensures { result ≡ is_clear machine.now }
{
    is_running(machine.verdict()) && !machine.is_loading()
}

// The first event of a row is made where its note would be kept, and else some of them with their notes set apart.
#[inline(always)]
fn make_tended(
    machine: &mut Machine,
    row: &EventRun,
    alloc: Global,
    noted: &mut Option<NotesFound>,
    spare: &mut Notes,
) -> Result<u64, AllocError>
    requires row { MayMakeRow machine.old row.now.count }
    requires kept { length machine.old.journal.notes ≤ max_notes }
    requires spare { spare.old ≡ [] }
    ensures row { IfOk result (λ n. IsRowTold machine.old row.now.event row.now.count n machine.new noted.old noted.new) }
    ensures spare { spare.new ≡ [] }
    ensures same { OnErr result (machine.new ≡ machine.old) }
{
    if has_room(machine) {
        machine.step(row.event);
        return Ok(1);
    }
    make_noted(machine, row, alloc, noted, spare)
}

// A load that the first event of a row refuses is kept, and the event is made, or some of them are. Answers how many.
#[inline(never)]
fn look_and_make(
    machine: &mut Machine,
    row: &EventRun,
    found: &mut Found,
    spare: &mut Notes,
) -> Result<u64, AllocError>
    requires row { MayMakeRow machine.old row.now.count }
    requires kept { length machine.old.journal.notes ≤ max_notes }
    requires spare { spare.old ≡ [] }
    ensures looked { OnOk result ((r : State) → StandsFor machine.old r →
        loads_view found.new.loads ≡ with_loads (loads_view found.old.loads) (refusals r row.now.event)) }
    ensures row { IfOk result (λ n. IsRowTold machine.old row.now.event row.now.count n machine.new found.old.noted found.new.noted) }
    ensures writes { found.new.writes ≡ found.old.writes }
    ensures spare { spare.new ≡ [] }
    ensures same { OnErr result (machine.new ≡ machine.old) }
{
    look(machine, row.event, &mut found.loads)?;
    let alloc = *found.writes.findings.allocator();
    make_tended(machine, row, alloc, &mut found.noted, spare)
}

// A write that stopped the machine is passed over, and a load that the next event refuses is kept; then the event is made. Answers
// whether it was: the machine may have ended, and the source may be at its end.
#[inline(always)]
fn tend_one<S: EventSource>(
    machine: &mut Machine,
    source: &mut S,
    found: &mut Found,
    spare: &mut Notes,
) -> Result<bool, AllocError>
    requires may { MayTend machine.old 0 }
    requires spare { spare.old ≡ [] }
    ensures went { IfOk result (GoesByOne (S.schedule source.old) (S.schedule source.new) machine.old found.old machine.new found.new) }
    ensures spare { spare.new ≡ [] }
    ensures want { OnErr result (machine.new ≡ hw_passed_over machine.old) }
{
    pass_write(machine, &mut found.writes)?;
    if !is_running(machine.verdict()) {
        return Ok(false);
    }
    let Some(event) = source.draw_one() else {
        return Ok(false);
    };
    look_and_make(machine, &EventRun::once(event), found, spare)?;
    Ok(true)
}

// The same of a row of equal events, of which some are made.
#[inline(always)]
fn tend_row<S: EventSource>(
    machine: &mut Machine,
    drawing: &mut Drawing<S>,
    found: &mut Found,
    spare: &mut Notes,
) -> Result<bool, AllocError>
    requires may { MayTend machine.old (count_left drawing.old) }
    requires spare { spare.old ≡ [] }
    ensures went { IfOk result (GoesByRow S.schedule drawing.old drawing.new machine.old found.old machine.new found.new) }
    ensures spare { spare.new ≡ [] }
    ensures want { OnErr result (machine.new ≡ hw_passed_over machine.old) }
{
    pass_write(machine, &mut found.writes)?;
    if !is_running(machine.verdict()) {
        return Ok(false);
    }
    let Some(batch) = drawing.draw() else {
        return Ok(false);
    };
    let tended = look_and_make(machine, &batch, found, spare)?;
    drawing.count_down(tended);
    Ok(true)
}

// Writes the console's bytes where they are due. Where that fails the machine stands behind a pass.
#[inline(always)]
fn flush_or_pass<O: Sink>(machine: &mut Machine, out: &mut O) -> Result<(), Failed>
    requires sink { MayWrite (O.state out.old) }
    requires room { length machine.old.journal.printed ≤ max_printed }
    ensures flushed { OnOk result (Flushed machine.old machine.new (O.state out.old) (O.state out.new)) }
    ensures room { OnOk result (length machine.new.journal.printed < max_printed) }
    ensures passed { OnErr result (machine.new ≡ hw_passed_over machine.old) }
    ensures failed { OnErr result (BreaksOff (O.state out.old) (O.state out.new) machine.old.journal.printed) }
{
    match flush_due(machine, out) {
        Ok(()) => Ok(()),
        Err(failed) => {
            machine.pass_over();
            Err(failed)
        }
    }
}

#[inline(always)]
fn is_turn(event: Event) -> bool
    ensures { result ≡ is_turn event }
{
    match event {
        Event::Turn(_) => true,
        Event::Beat | Event::Key(_) | Event::Tick(_) | Event::Poke { gpa: _, value: _ } => false,
    }
}

// The same after equal events of a clear machine: after others than turns none are due. Answers whether it is clear still.
#[inline(always)]
fn flush_after<O: Sink>(machine: &mut Machine, event: Event, out: &mut O) -> Result<bool, Failed>
    requires sink { MayWrite (O.state out.old) }
    requires room { length machine.old.journal.printed ≤ max_printed }
    requires quiet { is_turn event ≡ false → length machine.old.journal.printed < max_printed }
    requires clear { is_turn event ≡ false → is_clear machine.old ≡ true }
    ensures clear { IfOk result (λ on. on ≡ is_clear machine.new) }
    ensures flushed { OnOk result (Flushed machine.old machine.new (O.state out.old) (O.state out.new)) }
    ensures room { OnOk result (length machine.new.journal.printed < max_printed) }
    ensures passed { OnErr result (machine.new ≡ hw_passed_over machine.old) }
    ensures failed { OnErr result (BreaksOff (O.state out.old) (O.state out.new) machine.old.journal.printed) }
{
    if !is_turn(event) {
        return Ok(true);
    }
    flush_or_pass(machine, out)?;
    Ok(is_clear(machine))
}

// So many events of these may be made before there is no room for a note of each.
#[inline(always)]
fn room_for(machine: &Machine, events: u64) -> u64
    requires { length machine.now.journal.notes ≤ max_notes }
    ensures most { result ≤ events }
    ensures fits { length machine.now.journal.notes + result ≤ max_notes }
{
    events.min((MAX_NOTES - machine.journal().len()) as u64)
}

// Rows of equal events, up to where something is to be seen to or none is to be made now; none where a note of each might not be
// kept. Answers whether the source may have more.
#[inline(never)]
fn make_rows<S: EventSource, O: Sink>(
    machine: &mut Machine,
    drawing: &mut Drawing<S>,
    out: &mut O,
) -> Result<bool, Failed>
    requires { MayGoOn machine.old (count_left drawing.old) (O.state out.old) }
    ensures went { IfOk result (GoesByRows S.schedule drawing.old drawing.new machine.old machine.new (O.state out.old) (O.state out.new)) }
    ensures broke { OnErr result (BreaksInRows S.schedule drawing.old machine.old machine.new (O.state out.old) (O.state out.new)) }
{
    let left = drawing.count_left();
    if room_for(machine, left) < left {
        return Ok(true);
    }
    if !is_clear(machine) {
        return Ok(true);
    }
    'events: while !drawing.is_used_up() {
        let Some(batch) = drawing.draw() else {
            return Ok(false);
        };
        let made = make_row::<S>(machine, batch.event, batch.count);
        drawing.count_down(made);
        let clear = flush_after(machine, batch.event, out)?;
        if !clear {
            return Ok(true);
        }
    }
    Ok(true)
}

// So many of these events are drawn at once: those of which each note is kept, or as many as the notes that are set apart.
fn drawn_at_once(machine: &Machine, events: u64) -> u64
    requires { length machine.now.journal.notes ≤ max_notes }
    ensures most { result ≤ events }
    ensures some { 0 < events → 0 < result }
{
    let room = room_for(machine, events);
    if room == 0 {
        return events.min(MAX_NOTES as u64);
    }
    room
}

// Whether events are left. Where none is at hand more are drawn.
#[inline(always)]
fn has_more<S: EventSource, O: Sink>(
    machine: &Machine,
    drawing: &mut Drawing<S>,
    left: &mut Left,
    out: &mut O,
) -> bool
    requires kept { length machine.now.journal.notes ≤ max_notes }
    requires few { count_left drawing.old + (left.old.now + left.old.later) < 2 ^ 64 }
    ensures all { events_with (left.new.now + left.new.later) S.schedule drawing.new ≡ events_with (left.old.now + left.old.later) S.schedule drawing.old }
    ensures count { count_left drawing.new + (left.new.now + left.new.later) ≡ count_left drawing.old + (left.old.now + left.old.later) }
    ensures some { result ≡ true → is_used_up drawing.new ≡ false }
    ensures none { result ≡ false → count_left drawing.old + (left.old.now + left.old.later) ≡ 0 }
    ensures sink { O.state out.new ≡ O.state out.old }
{
    if !drawing.is_used_up() {
        return true;
    }
    if !left.goes_on(machine, out) {
        return false;
    }
    let more = drawn_at_once(machine, left.now);
    drawing.ask(more);
    left.now -= more;
    true
}

// Surveys a machine over the first events of a source, of which equal ones come in rows: again and again one event is made, or
// some equal ones, with all that may be to be seen to, and then those before which nothing is.
#[inline(never)]
fn survey_in_batches<S: EventSource + Drop, O: Sink>(
    machine: &mut Machine,
    source: S,
    events: u64,
    found: &mut Found,
    out: &mut O,
) -> Result<(), Trouble>
    requires { MaySurvey machine.old events found.old (O.state out.old) }
    ensures { SurveyedFromStart machine.old (first_events events (S.schedule source)) machine.new found.new (O.state out.old) (O.state out.new) result }
{
    let mut spare = Notes::new(*found.writes.findings.allocator())?;
    let mut drawing = Drawing::new(source, 0);
    let mut left = Left::of(events);
    'parts: while has_more(machine, &mut drawing, &mut left, out) {
        let on = tend_row(machine, &mut drawing, found, &mut spare)?;
        if !on {
            return Ok(());
        }
        flush_or_pass(machine, out)?;
        let more = make_rows(machine, &mut drawing, out)?;
        if !more {
            return Ok(());
        }
    }
    pass_write(machine, &mut found.writes)?;
    Ok(())
}

// An event, and the console written where it is due. After a turn of a stopped hart none is.
#[inline(always)]
fn make_one<O: Sink>(machine: &mut Machine, event: Event, out: &mut O) -> Result<(), Failed>
    requires sink { MayWrite (O.state out.old) }
    requires has { HasState machine.old }
    requires room { length machine.old.journal.printed < max_printed }
    requires counts { CountsAtMost (max_counts - 1) machine.old.journal.counts }
    ensures made { OnOk result (IsOneMade machine.old event machine.new (O.state out.old) (O.state out.new)) }
    ensures broke { OnErr result (BreaksAtOne machine.old event machine.new (O.state out.old) (O.state out.new)) }
{
    if machine.idles(event) {
        return Ok(());
    }
    machine.repeat(event, 1);
    flush_or_pass(machine, out)?;
    Ok(())
}

// Events one by one, up to where something may be to be seen to; none where a note of it might not be kept. Answers how many are left
// of them, and none where the source is at its end.
#[inline(always)]
fn make_events<S: EventSource, O: Sink>(
    machine: &mut Machine,
    source: &mut S,
    events: u64,
    out: &mut O,
) -> Result<Option<u64>, Failed>
    requires { MayGoOn machine.old events (O.state out.old) }
    ensures went { IfOk result (GoesWhile (S.schedule source.old) (S.schedule source.new) events machine.old machine.new (O.state out.old) (O.state out.new)) }
    ensures broke { OnErr result (BreaksWhile (S.schedule source.old) events machine.old machine.new (O.state out.old) (O.state out.new)) }
{
    let mut fit = room_for(machine, events);
    let rest = events - fit;
    'events: while fit > 0 {
        if !is_clear(machine) {
            return Ok(Some(fit + rest));
        }
        let Some(event) = source.draw_one() else {
            return Ok(None);
        };
        fit -= 1;
        make_one(machine, event, out)?;
    }
    Ok(Some(fit + rest))
}

// The same for a source whose equal events seldom come in a row: they are made one by one, and nothing counts a row.
#[inline(never)]
fn survey_one_by_one<S: EventSource + Drop, O: Sink>(
    machine: &mut Machine,
    source: S,
    events: u64,
    found: &mut Found,
    out: &mut O,
) -> Result<(), Trouble>
    requires { MaySurvey machine.old events found.old (O.state out.old) }
    ensures { SurveyedFromStart machine.old (first_events events (S.schedule source)) machine.new found.new (O.state out.old) (O.state out.new) result }
{
    let mut spare = Notes::new(*found.writes.findings.allocator())?;
    let mut source = source;
    let mut left = Left::of(events);
    'parts: while left.goes_on(machine, out) {
        let on = tend_one(machine, &mut source, found, &mut spare)?;
        if !on {
            return Ok(());
        }
        left.now -= 1;
        flush_or_pass(machine, out)?;
        let Some(rest) = make_events(machine, &mut source, left.now, out)? else {
            return Ok(());
        };
        left.now = rest;
    }
    pass_write(machine, &mut found.writes)?;
    Ok(())
}

/// Surveys a running machine of which nothing is printed yet over the first events of a script: it runs up to its verdict, and
/// passes over each write that would stop it, which is kept; so is each load that is refused, with what is wrong with its text, and
/// what is found by its notes once the machine doesn't keep them all. The console is written at each line feed and whenever 4,096 bytes
/// stand. Where a write fails or memory runs out the machine stands after some of the events.
///
/// Each kind of source has a loop of its own, which doesn't ask for it again.
pub(crate) fn survey<O: Sink>(
    machine: &mut Machine,
    script: Script,
    events: u64,
    found: &mut Found,
    out: &mut O,
) -> Result<(), Trouble>
    requires { MaySurvey machine.old events found.old (O.state out.old) }
    ensures { SurveyedFromStart machine.old (first_events events script) machine.new found.new (O.state out.old) (O.state out.new) result }
{
    match script.into_source() {
        Source::Listed(listed) => survey_in_batches(machine, listed, events, found, out),
        Source::Weave(weave) => survey_in_batches(machine, weave, events, found, out),
        Source::Rounds(rounds) => {
            if rounds.is_of_several() {
                survey_one_by_one(machine, rounds, events, found, out)
            } else {
                survey_in_batches(machine, rounds, events, found, out)
            }
        }
        Source::Auto(auto) => {
            if auto.is_of_several() {
                survey_one_by_one(machine, auto, events, found, out)
            } else {
                survey_in_batches(machine, auto, events, found, out)
            }
        }
        Source::Bursts(bursts) => survey_in_batches(machine, bursts, events, found, out),
    }
}
