// The counting.
ghost use Rattle.std.specs.Prelude.{◌≡◌, ◌+◌, ◌^◌, ◌<◌, ◌≤◌, ◌-◌, length, IfOk, OnOk, Some};
ghost use Rattle.script_lines.specs.Tallies.{tallies_of, tally_in, with_run, same};
ghost use Rattle.indexmap.specs.IndexMap.{insert_entry};

use crate::tally::outcome::Outcome;
use indexmap::IndexMap;
use std::alloc::{AllocError, Global};

/// The runs that ended in one way: how many, and the least of their numbers.
#[derive(Clone, Copy, Debug, Drop)]
pub struct Tally {
    pub runs: u64,
    pub first: u64,
}

/// Each way to end that came, in the order of the least numbers, with its runs.
pub type Tallies = IndexMap<Outcome, Tally>;

/// The ways in which runs ended whose numbers follow one another, from `first` on. Out of memory is the one refusal.
pub fn tally_runs(alloc: Global, first: u64, outcomes: &[Outcome]) -> Result<Tallies, AllocError>
    requires { first + length outcomes.now ≤ 2 ^ 64 }
    ensures { IfOk result (λ tallies. tallies.entries ≡ tallies_of first outcomes.now) }
{
    let mut tallies = IndexMap::new(alloc);
    'runs: for i in 0..outcomes.len() {
        count_run(&mut tallies, outcomes[i], first + i as u64)?;
    }
    Ok(tallies)
}

// One run more ended so.
fn count_run(tallies: &mut Tallies, outcome: Outcome, number: u64) -> Result<(), AllocError>
    requires few { (tally_in outcome tallies.old.entries).runs < 2 ^ 64 - 1 }
    ensures { OnOk result (tallies.new.entries ≡ insert_entry same tallies.old.entries outcome (with_run number (tally_in outcome tallies.old.entries))) }
{
    let tally = tally_of(tallies, outcome);
    tallies.insert(outcome, add_run(tally, number))?;
    Ok(())
}

// The runs that ended so.
pub(crate) fn tally_of(tallies: &Tallies, outcome: Outcome) -> Tally
    ensures { result ≡ tally_in outcome tallies.now.entries }
{
    match tallies.get(&outcome) {
        Some(tally) => *tally,
        None => Tally { runs: 0, first: 0 },
    }
}

fn add_run(tally: Tally, number: u64) -> Tally
    requires few { tally.runs < 2 ^ 64 - 1 }
    ensures { result ≡ with_run number tally }
{
    if tally.runs == 0 {
        return Tally {
            runs: 1,
            first: number,
        };
    }
    Tally {
        runs: tally.runs + 1,
        first: tally.first,
    }
}
