// The lines of the counts.
ghost use Rattle.std.specs.Prelude.{◌≡◌, IfOk, string_bytes};
ghost use Rattle.sv_types.specs.Output as spec;

use std::alloc::{AllocError, Global};
use sv_types::Counts;

#[tactic(auto, unfolding(sv_types::specs::Output::notes_line))]
pub fn notes_line(alloc: Global, counts: &Counts) -> Result<String, AllocError>
    ensures { IfOk result (λ t. string_bytes t ≡ spec.notes_line counts.now) }
{
    let notes = counts.notes;
    format!(in alloc; "notes {notes}\n")
}

#[tactic(auto, unfolding(sv_types::specs::Output::events_line))]
pub fn events_line(alloc: Global, counts: &Counts) -> Result<String, AllocError>
    ensures { IfOk result (λ t. string_bytes t ≡ spec.events_line counts.now) }
{
    let turns = counts.turns;
    let beats = counts.beats;
    let keys = counts.keys;
    let ticks = counts.ticks;
    format!(in alloc; "turns {turns} beats {beats} keys {keys} ticks {ticks}\n")
}

#[tactic(auto, unfolding(sv_types::specs::Output::retired_line))]
pub fn retired_line(alloc: Global, counts: &Counts) -> Result<String, AllocError>
    ensures { IfOk result (λ t. string_bytes t ≡ spec.retired_line counts.now) }
{
    let retired = counts.retired;
    let traps = counts.traps;
    let enters = counts.enters;
    let leaves = counts.leaves;
    let demotes = counts.demotes;
    format!(in alloc;
        "retired {retired} traps {traps} enters {enters} leaves {leaves} demotes {demotes}\n"
    )
}

#[tactic(auto, unfolding(sv_types::specs::Output::denied_line))]
pub fn denied_line(alloc: Global, counts: &Counts) -> Result<String, AllocError>
    ensures { IfOk result (λ t. string_bytes t ≡ spec.denied_line counts.now) }
{
    let denied = counts.denied;
    let dropped = counts.dropped;
    let loads = counts.loads;
    let unloads = counts.unloads;
    let refused = counts.refused;
    format!(in alloc;
        "denied {denied} dropped {dropped} loads {loads} unloads {unloads} refused {refused}\n"
    )
}
