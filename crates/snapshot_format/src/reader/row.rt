// The bytes of numbers that stand one after the other, each in a range of its own.

ghost use Rattle.std.specs.Prelude.{◌≡◌};
ghost use Rattle.snapshot_format.specs.Reading.{Gives};
ghost use Rattle.snapshot_format.specs.Rows.{is_within, ranged, row_taken};

use crate::SnapRefusal;
use crate::reader::pages::is_above;
use crate::reader::values::read_number;
use spec_processor::{INSTRUCTION_BYTES, PAGE_BYTES};

/// The numbers that may stand at a place.
#[derive(Clone, Copy, Drop)]
pub(crate) enum Range {
    Any,
    AtMost(u64),
    Below(u64),
    Between(u64, u64),
    Above(Option<u64>),
    /// Where an instruction may lie.
    InstructionPlace,
    /// Where a page begins.
    PageStart,
}

impl Range {
    fn has(self, n: u64) -> bool
        ensures { result ≡ is_within self n }
    {
        match self {
            Range::Any => true,
            Range::AtMost(most) => n <= most,
            Range::Below(end) => n < end,
            Range::Between(low, high) => low <= n && n <= high,
            Range::Above(last) => is_above(last, n),
            Range::InstructionPlace => n % INSTRUCTION_BYTES == 0,
            Range::PageStart => n % PAGE_BYTES == 0,
        }
    }
}

/// A number in each range.
pub(crate) fn read_row<const N: usize>(
    bytes: &[u8],
    ranges: [Range; N],
) -> Result<([u64; N], &[u8]), SnapRefusal>
    ensures { Gives (λ x. (x.0, x.1.now)) result (row_taken ranges.entry bytes.now) }
{
    let mut row = [0; N];
    let mut rest = bytes;
    'row: for i in 0..N {
        let (n, after) = read_within(rest, ranges[i])?;
        row[i] = n;
        rest = after;
    }
    Ok((row, rest))
}

fn read_within(bytes: &[u8], range: Range) -> Result<(u64, &[u8]), SnapRefusal>
    ensures { Gives (λ x. (x.0, x.1.now)) result ((ranged range).taken bytes.now) }
{
    let (n, rest) = read_number(bytes)?;
    if !range.has(n) {
        return Err(SnapRefusal::OutOfRange);
    }
    Ok((n, rest))
}
