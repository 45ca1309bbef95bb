// The lines of a sweep.
ghost use Rattle.std.specs.Prelude.{◌≡◌, IfOk, flat_map, string_bytes};
ghost use Rattle.script_lines.specs.TallyLines as spec;

use crate::tally::outcome::Outcome;
use crate::tally::stops::{first_stops, stops_of};
use crate::tally::tally::{Tallies, Tally, tally_of};
use std::alloc::{AllocError, Global};
use sv_types::Status;
use text_numbers::address_text;

#[tactic(auto, unfolding(crate::specs::TallyLines::runs_text))]
fn runs_text(alloc: Global, tally: Tally) -> Result<String, AllocError>
    ensures { IfOk result (λ t. string_bytes t ≡ spec.runs_text tally) }
{
    let runs = tally.runs;
    let first = tally.first;
    if runs == 0 {
        format!(in alloc; "{runs} first none")
    } else {
        format!(in alloc; "{runs} first {first}")
    }
}

#[tactic(auto, unfolding(crate::specs::TallyLines::shut_down_line))]
fn shut_down_line(alloc: Global, tally: Tally) -> Result<String, AllocError>
    ensures { IfOk result (λ t. string_bytes t ≡ spec.shut_down_line tally) }
{
    let runs = runs_text(alloc, tally)?;
    format!(in alloc; "shutdown {runs}\n")
}

#[tactic(auto, unfolding(crate::specs::TallyLines::ended_line))]
fn ended_line(alloc: Global, tally: Tally) -> Result<String, AllocError>
    ensures { IfOk result (λ t. string_bytes t ≡ spec.ended_line tally) }
{
    let runs = runs_text(alloc, tally)?;
    format!(in alloc; "ended {runs}\n")
}

#[tactic(auto, unfolding(crate::specs::TallyLines::count_line))]
fn count_line(alloc: Global, count: usize) -> Result<String, AllocError>
    ensures { IfOk result (λ t. string_bytes t ≡ spec.count_line count) }
{
    format!(in alloc; "stops {count}\n")
}

#[tactic(auto, unfolding(crate::specs::TallyLines::stop_line))]
fn entry_line(alloc: Global, target: u64, tally: Tally) -> Result<String, AllocError>
    ensures { IfOk result (λ t. string_bytes t ≡ spec.stop_line (Outcome.Entry target, tally)) }
{
    let target = address_text(alloc, target)?;
    let runs = runs_text(alloc, tally)?;
    format!(in alloc; "stopped entry target {target} {runs}\n")
}

#[tactic(auto, unfolding(crate::specs::TallyLines::stop_line))]
fn write_line(alloc: Global, pc: u64, gpa: u64, tally: Tally) -> Result<String, AllocError>
    ensures { IfOk result (λ t. string_bytes t ≡ spec.stop_line (Outcome.Write pc gpa, tally)) }
{
    let pc = address_text(alloc, pc)?;
    let gpa = address_text(alloc, gpa)?;
    let runs = runs_text(alloc, tally)?;
    format!(in alloc; "stopped write pc {pc} gpa {gpa} {runs}\n")
}

// The line of a way to stop.
#[tactic(auto, unfolding(crate::specs::TallyLines::stop_line))]
fn stop_line(alloc: Global, stop: (Outcome, Tally)) -> Result<String, AllocError>
    ensures { IfOk result (λ t. string_bytes t ≡ spec.stop_line stop) }
{
    match stop.0 {
        Outcome::Entry { target } => entry_line(alloc, target, stop.1),
        Outcome::Write { pc, gpa } => write_line(alloc, pc, gpa, stop.1),
        Outcome::ShutDown | Outcome::Ended => Ok(String::new(alloc)),
    }
}

fn stop_lines(alloc: Global, stops: &[(Outcome, Tally)]) -> Result<String, AllocError>
    ensures { IfOk result (λ t. string_bytes t ≡ flat_map spec.stop_line stops.now) }
{
    let mut text = String::new(alloc);
    for stop in stops {
        text.push_str(stop_line(alloc, *stop)?.as_str())?;
    }
    Ok(text)
}

/// The lines of a sweep: the runs that shut down, the number of ways to stop, the first 64 of these, and the runs that ended.
#[tactic(auto, unfolding(crate::specs::TallyLines::sweep_text))]
pub fn sweep_text(alloc: Global, tallies: &Tallies) -> Result<String, AllocError>
    ensures { IfOk result (λ t. string_bytes t ≡ spec.sweep_text tallies.now.entries) }
{
    let stops = stops_of(alloc, tallies)?;
    let first = shut_down_line(alloc, tally_of(tallies, Outcome::ShutDown))?;
    let count = count_line(alloc, stops.len())?;
    let lines = stop_lines(alloc, first_stops(&stops))?;
    let last = ended_line(alloc, tally_of(tallies, Outcome::Ended))?;
    format!(in alloc; "{first}{count}{lines}{last}")
}

/// The status of a sweep: stopped where one run did, done where all shut down, else ended.
pub fn sweep_status(alloc: Global, tallies: &Tallies) -> Result<Status, AllocError>
    ensures { IfOk result (λ status. status ≡ spec.sweep_status tallies.now.entries) }
{
    let stops = stops_of(alloc, tallies)?;
    if !stops.is_empty() {
        return Ok(Status::Stopped);
    }
    if tally_of(tallies, Outcome::Ended).runs == 0 {
        return Ok(Status::Done);
    }
    Ok(Status::Ended)
}
