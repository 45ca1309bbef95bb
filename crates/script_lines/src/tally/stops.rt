// The ways to stop that came.
ghost use Rattle.std.specs.Prelude.{◌≡◌, ◌++◌, ◌∷◌, [], IfOk, OnOk, slice_get, take};
ghost use Rattle.script_lines.specs.TallyLines.{stops_of, max_stop_lines};

use crate::tally::outcome::Outcome;
use crate::tally::tally::{Tallies, Tally};
use std::alloc::{AllocError, Global};

/// The most ways to stop that have a line.
const MAX_STOP_LINES: usize = 64;

// An entry by its place.
fn entry_at(tallies: &Tallies, place: usize) -> Option<(Outcome, Tally)>
    ensures { result ≡ slice_get tallies.now.entries place }
{
    let (outcome, tally) = tallies.get_index(place)?;
    Some((*outcome, *tally))
}

// An entry more, where it is of a way to stop.
fn push_stop(stops: &mut Vec<(Outcome, Tally)>, entry: (Outcome, Tally)) -> Result<(), AllocError>
    ensures { OnOk result (stops.new.items ≡ stops.old.items ++ stops_of (entry ∷ [])) }
{
    if entry.0.is_stop() {
        stops.push(entry)?;
    }
    Ok(())
}

/// The entries of the ways to stop, in their order.
pub(crate) fn stops_of(
    alloc: Global,
    tallies: &Tallies,
) -> Result<Vec<(Outcome, Tally)>, AllocError>
    ensures { IfOk result (λ stops. stops.items ≡ stops_of tallies.now.entries) }
{
    let mut stops = Vec::new(alloc);
    for place in 0..tallies.len() {
        let Some(entry) = entry_at(tallies, place) else {
            return Ok(stops);
        };
        push_stop(&mut stops, entry)?;
    }
    Ok(stops)
}

/// Those that have a line.
pub(crate) fn first_stops(stops: &[(Outcome, Tally)]) -> &[(Outcome, Tally)]
    ensures { result.now ≡ take max_stop_lines stops.now }
{
    &stops[..stops.len().min(MAX_STOP_LINES)]
}
