// The end of a run.
ghost use Rattle.std.specs.Prelude.{◌≡◌, ◌≤◌};
ghost use Rattle.sv_types.specs.Limits.{max_events};
ghost use Rattle.sv_types.specs.Schedule.{first_events};
ghost use Rattle.spec_reference.specs.Run.{run};
ghost use Rattle.spec_reference.specs.States.{State};
ghost use Rattle.spec_hardware.specs.Reaches.{IsNew};
ghost use Rattle.script_lines.specs.Tallies.{outcome_of};
ghost use Rattle.cli_trials.specs.Trials.{IsBooted};

use crate::trial::silent::Silent;
use machine::{Machine, run};
use script::Script;
use script_lines::tally::Outcome;
use sv_types::Counts;

/// How a run ends, and how many events it made.
#[derive(Clone, Copy, Drop)]
pub struct Ending {
    pub outcome: Outcome,
    pub events: u64,
}

// The events that were made.
fn events_made(counts: Counts) -> u64 {
    counts
        .turns
        .saturating_add(counts.beats)
        .saturating_add(counts.keys)
        .saturating_add(counts.ticks)
}

/// How a machine's run over the first events of a script ends.
pub(crate) fn end_of_run(machine: Machine, script: Script, events: u64) -> Ending
    requires booted { IsBooted machine }
    requires few { events ≤ max_events }
    ensures { (start : State) → IsNew machine start → result.outcome ≡ outcome_of (run start (first_events events script)).journal.verdict }
{
    let mut machine = machine;
    let mut out = Silent;
    match run(&mut machine, script, events, &mut out) {
        Ok(()) => {}
        Err(_) => unreachable!(),
    }
    Ending {
        outcome: Outcome::of(machine.verdict()),
        events: events_made(machine.counts()),
    }
}
