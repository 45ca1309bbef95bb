// Events that are drawn, and the runs in which events come.

use script::{EventRun, Script, auto, read, rounds, weave};
use std::process::Abort;
use std::test::Fail;
use sv_types::Event;

static DRAWN_AFTER_0: [Event; 9] = [
    Event::Turn(2),
    Event::Turn(1),
    Event::Turn(2),
    Event::Turn(1),
    Event::Turn(2),
    Event::Turn(2),
    Event::Turn(0),
    Event::Turn(2),
    Event::Turn(1),
];

static DRAWN_FOR_ONE: [Event; 9] = [Event::Turn(0); 9];

static DRAWN_AFTER_12345: [Event; 9] = [
    Event::Turn(0),
    Event::Turn(2),
    Event::Beat,
    Event::Beat,
    Event::Turn(2),
    Event::Turn(0),
    Event::Beat,
    Event::Turn(0),
    Event::Beat,
];

static DRAWN_AFTER_MOST: [Event; 9] = [
    Event::Turn(1),
    Event::Turn(3),
    Event::Turn(3),
    Event::Turn(1),
    Event::Tick(16),
    Event::Turn(2),
    Event::Turn(3),
    Event::Turn(3),
    Event::Turn(1),
];

fn check_drawn(rt: &impl Abort, mut script: Script, wanted: &[Event]) {
    for event in wanted {
        assert_eq!(rt; script.next(), Some(*event));
    }
}

// The drawn events are those of an independent program.
#[test]
fn drawn_events(rt: HostRuntime) {
    check_drawn(&rt, auto(0, 4), &DRAWN_AFTER_0);
    check_drawn(&rt, auto(0, 1), &DRAWN_FOR_ONE);
    check_drawn(&rt, auto(12345, 3), &DRAWN_AFTER_12345);
    check_drawn(&rt, auto(u64::MAX, 4), &DRAWN_AFTER_MOST);
}

// The most events that are asked for, and the run that comes: its event, and how often.
type Run = (u64, Event, u64);

static OF_TEXT: [Run; 5] = [
    (3, Event::Turn(1), 3),
    (3, Event::Turn(1), 2),
    (u64::MAX, Event::Beat, 1 << 32),
    (3, Event::Turn(2), 1),
    (3, Event::Turn(1), 1),
];

static OF_ONE_HART: [Run; 1] = [(1000, Event::Turn(0), 1000)];

static OF_TWO_HARTS: [Run; 2] = [(1000, Event::Turn(0), 1), (1000, Event::Turn(1), 1)];

static OF_A_WEAVE: [Run; 3] = [
    (2, Event::Turn(0), 2),
    (9, Event::Turn(0), 5),
    (9, Event::Beat, 1),
];

fn check_runs(rt: &impl Abort, mut script: Script, runs: &[Run]) {
    for &(most, event, count) in runs {
        let wanted = EventRun { event, count };
        assert_eq!(rt; script.next_run(most.max(1)), Some(wanted));
    }
}

// A run ends where its line does, where its schedule goes on with another event, or at the number that is asked for.
#[test]
fn runs_of_scripts(rt: HostRuntime) -> Result<(), Fail> {
    let text = read(rt.alloc(), b"turn 1 5\nbeat 4294967296\nauto 2", 4)?;
    check_runs(&rt, text, &OF_TEXT);
    check_runs(&rt, rounds(1), &OF_ONE_HART);
    check_runs(&rt, rounds(2), &OF_TWO_HARTS);
    check_runs(&rt, weave(), &OF_A_WEAVE);
    Ok(())
}
