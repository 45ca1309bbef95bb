// The bytes of counts.

ghost use Rattle.std.specs.Prelude.{◌≡◌, []};
ghost use Rattle.snapshot_format.specs.Forms.{list_form};
ghost use Rattle.snapshot_format.specs.JournalForms.{count, counts};
ghost use Rattle.snapshot_format.specs.Reading.{Gives};
ghost use Rattle.snapshot_format.specs.Rows.{counts_of_row};

use crate::SnapRefusal;
use crate::reader::values::read_at_most;
use sv_types::Counts;

/// The numbers of `Counts`.
const COUNTS: usize = 15;

pub(crate) fn read_counts(bytes: &[u8], events: u64) -> Result<(Counts, &[u8]), SnapRefusal>
    ensures { Gives (λ x. (x.0, x.1.now)) result ((counts events).taken bytes.now) }
{
    let (row, rest) = read_row(bytes, events)?;
    Ok((counts_of_row(row), rest))
}

// The counts, from their numbers in the order in which these are encoded.
fn counts_of_row(row: [u64; COUNTS]) -> Counts
    ensures { result ≡ counts_of_row row }
{
    let [
        turns,
        beats,
        keys,
        ticks,
        retired,
        traps,
        enters,
        leaves,
        demotes,
        denied,
        dropped,
        loads,
        unloads,
        refused,
        notes,
    ] = row;
    Counts {
        turns,
        beats,
        keys,
        ticks,
        retired,
        traps,
        enters,
        leaves,
        demotes,
        denied,
        dropped,
        loads,
        unloads,
        refused,
        notes,
    }
}

fn read_row(bytes: &[u8], events: u64) -> Result<([u64; COUNTS], &[u8]), SnapRefusal>
    ensures { Gives (λ x. (x.0, x.1.now)) result ((list_form (λ before. count events) [] 15).taken bytes.now) }
{
    let mut row = [0; COUNTS];
    let mut rest = bytes;
    'row: for i in 0..COUNTS {
        let (n, after) = read_count(rest, events)?;
        row[i] = n;
        rest = after;
    }
    Ok((row, rest))
}

#[tactic(auto, unfolding(crate::specs::JournalForms::count))]
fn read_count(bytes: &[u8], events: u64) -> Result<(u64, &[u8]), SnapRefusal>
    ensures { Gives (λ x. (x.0, x.1.now)) result ((count events).taken bytes.now) }
{
    read_at_most(bytes, events)
}
