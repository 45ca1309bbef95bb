// The bytes of the verdict: a kind, and the fields of each.

ghost use Rattle.snapshot_format.specs.JournalForms.{stopped_entry, stopped_write, verdict, verdict_after};
ghost use Rattle.snapshot_format.specs.Reading.{Gives};

use crate::SnapRefusal;
use crate::reader::row::{Range, read_row};
use crate::reader::values::read_at_most;
use crate::verdict_kind::{RUNNING, SHUTDOWN, STOPPED_ENTRY, STOPPED_WRITE};
use sv_types::{Rule, Verdict};

#[tactic(auto, unfolding(crate::specs::JournalForms::verdict))]
pub(crate) fn read_verdict(bytes: &[u8], harts: u8) -> Result<(Verdict, &[u8]), SnapRefusal>
    ensures { Gives (λ x. (x.0, x.1.now)) result ((verdict harts).taken bytes.now) }
{
    let (kind, rest) = read_at_most(bytes, STOPPED_WRITE)?;
    read_verdict_after(rest, harts, kind)
}

// The fields after a kind.
#[tactic(auto, unfolding(crate::specs::JournalForms::verdict_after))]
fn read_verdict_after(bytes: &[u8], harts: u8, kind: u64) -> Result<(Verdict, &[u8]), SnapRefusal>
    ensures { Gives (λ x. (x.0, x.1.now)) result ((verdict_after harts kind).taken bytes.now) }
{
    if kind == RUNNING {
        Ok((Verdict::Running, bytes))
    } else if kind == SHUTDOWN {
        Ok((Verdict::Shutdown, bytes))
    } else if kind == STOPPED_ENTRY {
        read_stopped_entry(bytes, harts)
    } else {
        read_stopped_write(bytes, harts)
    }
}

fn read_stopped_entry(bytes: &[u8], harts: u8) -> Result<(Verdict, &[u8]), SnapRefusal>
    ensures { Gives (λ x. (x.0, x.1.now)) result ((stopped_entry harts).taken bytes.now) }
{
    let ranges = [Range::Any, Range::Below(u64::from(harts)), Range::Any];
    let ([target, hart, turn], rest) = read_row(bytes, ranges)?;
    let stopped = Verdict::Stopped {
        rule: Rule::Entry { target },
        hart: hart as u8,
        turn,
    };
    Ok((stopped, rest))
}

fn read_stopped_write(bytes: &[u8], harts: u8) -> Result<(Verdict, &[u8]), SnapRefusal>
    ensures { Gives (λ x. (x.0, x.1.now)) result ((stopped_write harts).taken bytes.now) }
{
    let ranges = [
        Range::InstructionPlace,
        Range::Any,
        Range::Below(u64::from(harts)),
        Range::Any,
    ];
    let ([pc, gpa, hart, turn], rest) = read_row(bytes, ranges)?;
    let stopped = Verdict::Stopped {
        rule: Rule::Write { pc, gpa },
        hart: hart as u8,
        turn,
    };
    Ok((stopped, rest))
}
