// A run that stops, made small.
ghost use Rattle.std.specs.Prelude.{◌≡◌, ◌≤◌, ◌<◌, ◌+◌, ◌%◌, IfOk, IsErrOf, true, false, length};
ghost use Rattle.sv_types.specs.Limits.{max_events};
ghost use Rattle.spec_reference.specs.BlockDisk.{sector_size};
ghost use Rattle.cli_trials.specs.Trials.{boots, is_unread, text_outcome};
ghost use Rattle.cli_trials.specs.Shrinking.{IsShrunk, IsSmall};

use crate::shrink::trial::Trial;
use crate::trial::{NoOutcome, Order, RunFiles, keep_memory, script_of_order, try_order};
use script::EventRun;
use script_lines::delta_debugging::Stops;
use script_lines::{script_text, shrink_lines, write_out};
use std::alloc::Global;
use std::thread::Threads;

/// The most runs by which a script is made small.
pub const MAX_RUNS: u64 = 10_000;

// The run of the order itself, before those of lines.
const FIRST_RUN: u64 = 1;

/// A small script.
#[derive(Drop)]
pub struct Script {
    pub text: String,
    pub lines: Vec<EventRun>,
    /// The lines up to the stop, before any was taken away.
    pub lines_before: usize,
    /// How many runs were made, that of the order among them.
    pub runs: u64,
    /// The runs sufficed: without any one of its lines it doesn't stop so. Else all were used up.
    pub minimal: bool,
}

/// What came of a run.
#[derive(Drop)]
pub enum Shrunk {
    /// The run doesn't stop.
    NothingStopped,
    Made(Script),
}

/// Makes the run of an order small: its events up to the stop are written out as lines, of which as many as can be are taken away,
/// and halves of their counts.
#[tactic(auto, using(crate::proofs::Booting::refused_policy_first))]
pub fn shrink<R: Threads + Sync>(
    rt: &R,
    alloc: Global,
    files: &RunFiles<'_>,
    order: &Order<'_>,
    events: u64,
) -> Result<Shrunk, NoOutcome>
    requires sectors { length files.now.disk.now % sector_size ≡ 0 }
    requires few { events ≤ max_events }
    ensures small { IfOk result (IsShrunk files.now events order.now) }
    ensures unread { IsErrOf result NoOutcome.Script → is_unread files.now.policy.now order.now ≡ true }
    ensures refused { IsErrOf result NoOutcome.Refused → boots files.now ≡ false }
    ensures first { IsErrOf result NoOutcome.Refused → is_unread files.now.policy.now order.now ≡ false }
{
    keep_memory(alloc);
    let ending = try_order(rt, alloc, files, order, events)?;
    if !ending.outcome.is_stop() {
        return Ok(Shrunk::NothingStopped);
    }
    let script = script_of_order(alloc, files.policy, order)?;
    let Ok(lines) = write_out(alloc, script, ending.events) else {
        return Err(NoOutcome::Memory);
    };
    let mut trial = Trial {
        alloc,
        files: *files,
        events,
        wanted: ending.outcome,
        runs_left: MAX_RUNS - FIRST_RUN,
    };
    let script = shrink_by(rt, alloc, &mut trial, lines)?;
    Ok(Shrunk::Made(script))
}

// Makes lines small that stop as a trial wants. Each run of lines is one of the trial's.
fn shrink_by<R: Threads + Sync>(
    rt: &R,
    alloc: Global,
    trial: &mut Trial<'_>,
    lines: Vec<EventRun>,
) -> Result<Script, NoOutcome>
    requires some { 0 < trial.old.runs_left }
    requires most { trial.old.runs_left ≤ MAX_RUNS }
    ensures small { IfOk result (IsSmall trial.old.wanted (text_outcome trial.old.files trial.old.events)) }
    ensures runs { IfOk result (λ script. script.runs + trial.new.runs_left ≡ MAX_RUNS) }
    ensures refused { IsErrOf result NoOutcome.Refused → ⊥ }
    ensures other { IsErrOf result NoOutcome.Script → ⊥ }
{
    let mut lines = lines;
    let lines_before = lines.len();
    match trial.stops_so(rt, &lines) {
        Ok(true) => {}
        // The lines are the events of the run, so that they stop as it does.
        Ok(false) | Err(_) => return Err(NoOutcome::Memory),
    }
    let Ok(minimal) = shrink_lines(rt, alloc, trial, &mut lines) else {
        return Err(NoOutcome::Memory);
    };
    let Ok(text) = script_text(alloc, &lines) else {
        return Err(NoOutcome::Memory);
    };
    Ok(Script {
        text,
        lines,
        lines_before,
        runs: MAX_RUNS - trial.runs_left,
        minimal,
    })
}
