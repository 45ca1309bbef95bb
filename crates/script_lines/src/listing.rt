// Lines out of events, and out of other lines. None of it changes the events.
ghost use Rattle.std.specs.Prelude.{◌≡◌, ◌++◌, ◌∷◌, [], IfOk, OnOk, replicate};
ghost use Rattle.sv_types.specs.Schedule.{first_events};
ghost use Rattle.script_lines.specs.Lines.{events_of, Joins};

use script::{EventRun, Script};
use std::alloc::{AllocError, Global};
use sv_types::Event;

// Whether a line may say how often its event comes.
fn is_counted(event: Event) -> bool {
    match event {
        Event::Turn(_) | Event::Beat => true,
        Event::Key(_) | Event::Tick(_) | Event::Poke { .. } => false,
    }
}

// The line that says both, where there is one.
fn join(first: EventRun, second: EventRun) -> Option<EventRun>
    ensures { Joins first second result }
{
    if first.event != second.event || !is_counted(first.event) {
        return None;
    }
    Some(EventRun {
        event: first.event,
        count: first.count.checked_add(second.count)?,
    })
}

// A line more, which is joined with the last one where it may be.
fn push_line(lines: &mut Vec<EventRun>, line: EventRun) -> Result<(), AllocError>
    ensures { OnOk result (events_of lines.new.items ≡ events_of lines.old.items ++ replicate line.count line.event) }
{
    let Some(last) = lines.pop() else {
        lines.push(line)?;
        return Ok(());
    };
    match join(last, line) {
        Some(both) => lines.push(both)?,
        None => {
            lines.push(last)?;
            lines.push(line)?;
        }
    }
    Ok(())
}

/// The first events of a script, as lines.
pub fn write_out(alloc: Global, script: Script, events: u64) -> Result<Vec<EventRun>, AllocError>
    ensures { IfOk result (λ lines. events_of lines.items ≡ first_events events script) }
{
    let mut script = script;
    let mut lines = Vec::new(alloc);
    let mut left = events;
    'events: while left > 0 {
        let Some(event) = script.next() else {
            return Ok(lines);
        };
        push_line(&mut lines, EventRun::once(event))?;
        left -= 1;
    }
    Ok(lines)
}

/// The same events with fewer lines: neighbours that are one event are joined.
pub fn joined(alloc: Global, lines: &[EventRun]) -> Result<Vec<EventRun>, AllocError>
    ensures { IfOk result (λ joined. events_of joined.items ≡ events_of lines.now) }
{
    let mut joined = Vec::new(alloc);
    for line in lines {
        push_line(&mut joined, *line)?;
    }
    Ok(joined)
}

// A line, in two halves where it comes twice or more.
fn push_halves(halves: &mut Vec<EventRun>, line: EventRun) -> Result<(), AllocError>
    ensures { OnOk result (events_of halves.new.items ≡ events_of halves.old.items ++ replicate line.count line.event) }
{
    if line.count < 2 {
        halves.push(line)?;
        return Ok(());
    }
    let half = line.count / 2;
    halves.push(EventRun {
        event: line.event,
        count: half,
    })?;
    halves.push(EventRun {
        event: line.event,
        count: line.count - half,
    })?;
    Ok(())
}

/// The same events, each line in two halves where it comes twice or more.
pub fn halved(alloc: Global, lines: &[EventRun]) -> Result<Vec<EventRun>, AllocError>
    ensures { IfOk result (λ halves. events_of halves.items ≡ events_of lines.now) }
{
    let mut halves = Vec::new(alloc);
    for line in lines {
        push_halves(&mut halves, *line)?;
    }
    Ok(halves)
}

/// What stands among the turns.
#[derive(Clone, Copy, Debug, PartialEq, Eq, Drop)]
pub(crate) enum Kind {
    Beats,
    Ticks,
}

fn is_of_kind(event: Event, kind: Kind) -> bool {
    match event {
        Event::Beat => kind == Kind::Beats,
        Event::Tick(_) => kind == Kind::Ticks,
        Event::Turn(_) | Event::Key(_) | Event::Poke { .. } => false,
    }
}

/// The lines that aren't of a kind, those that then stand together joined.
pub(crate) fn lines_without(
    alloc: Global,
    lines: &[EventRun],
    kind: Kind,
) -> Result<Vec<EventRun>, AllocError> {
    let mut others = Vec::new(alloc);
    for line in lines {
        if !is_of_kind(line.event, kind) {
            push_line(&mut others, *line)?;
        }
    }
    Ok(others)
}
