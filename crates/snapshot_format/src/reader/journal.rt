// The bytes of what a machine recorded: its counts, notes and verdict.

ghost use Rattle.snapshot_format.specs.JournalForms.{journal};
ghost use Rattle.snapshot_format.specs.Reading.{Reads};
ghost use Rattle.snapshot_format.specs.Views.{recorded_parts};

use crate::reader::counts::read_counts;
use crate::reader::notes::read_notes;
use crate::reader::read_error::ReadError;
use crate::reader::verdict::read_verdict;
use std::alloc::Global;
use sv_types::{Counts, Note, Verdict};

/// What a machine recorded.
#[derive(Drop)]
pub(crate) struct Recorded {
    pub(crate) counts: Counts,
    pub(crate) notes: Vec<Note>,
    pub(crate) verdict: Verdict,
}

#[tactic(auto, unfolding(crate::specs::JournalForms::journal))]
pub(crate) fn read_journal(
    alloc: Global,
    bytes: &[u8],
    events: u64,
    harts: u8,
) -> Result<(Recorded, &[u8]), ReadError>
    ensures { Reads (λ x. (recorded_parts x.0, x.1.now)) result ((journal events harts).taken bytes.now) }
{
    let (counts, rest) = read_counts(bytes, events)?;
    let (notes, rest) = read_notes(alloc, rest, harts, counts.notes)?;
    let (verdict, rest) = read_verdict(rest, harts)?;
    Ok((
        Recorded {
            counts,
            notes,
            verdict,
        },
        rest,
    ))
}
