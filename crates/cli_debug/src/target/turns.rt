// The turns of a hart by the order of events alone.
ghost use Rattle.std.specs.Prelude.{◌≡◌, ◌<◌, ◌≤◌, Some, length};
ghost use Rattle.sv_types.specs.Schedule.{first_events};
ghost use Rattle.debug_session.specs.Runs.{last_below};
ghost use Rattle.cli_debug.specs.Turns as spec;

use crate::target::stepping::{after_row, draw};
use script::Script;
use sv_types::Event;

fn is_turn(event: Event, hart: u8) -> bool
    ensures { result ≡ spec.is_turn hart (Some event) }
{
    match event {
        Event::Turn(turn) => turn == hart,
        Event::Beat | Event::Key(_) | Event::Tick(_) | Event::Poke { .. } => false,
    }
}

// The last turn after some more equal events, by their number.
fn later_turn(last: Option<u64>, event: Event, hart: u8, seen: u64) -> Option<u64>
    requires { 0 < seen }
    ensures { result ≡ spec.later_turn last event hart seen }
{
    if is_turn(event, hart) {
        Some(seen - 1)
    } else {
        last
    }
}

/// The number of events before a hart's last turn among the first so many of a script that makes at most `events`. None where it
/// has none.
pub(crate) fn last_turn_in(script: &mut Script, events: u64, hart: u8, made: u64) -> Option<u64>
    ensures { made ≤ length (first_events events script.old) →
        result ≡ last_below (spec.turns_at (first_events events script.old) hart) made }
{
    let (first, rest) = draw(script, events);
    let mut next = first;
    let mut left = rest;
    let mut seen = 0;
    let mut last = None;
    'rows: for _ in 0..made {
        let Some(row) = next else {
            return last;
        };
        if seen == made {
            return last;
        }
        let count = row.count.min(made - seen);
        seen += count;
        last = later_turn(last, row.event, hart, seen);
        after_row(script, &mut next, &mut left, row, count);
    }
    last
}
