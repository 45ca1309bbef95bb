// The bytes of the block device.

ghost use Rattle.std.specs.Prelude.{◌≡◌, ◌<◌, ◌==◌, ◌^◌};
ghost use Rattle.sv_types.specs.declared.port.PortState.{PortState};
ghost use Rattle.snapshot_format.specs.Reading.{Gives};
ghost use Rattle.snapshot_format.specs.DeviceForms.{block, busy, goes_with, has_beats, lies_on, standing_status, status_of, transfer};

use crate::SnapRefusal;
use crate::reader::row::{Range, read_row};
use crate::reader::values::{read_at_most, read_number};
use sv_types::{BEAT_BYTES, BlockCommand, BlockState, BlockStatus, SECTOR_BYTES};

pub(crate) fn read_block(bytes: &[u8]) -> Result<(BlockState, &[u8]), SnapRefusal>
    ensures { Gives (λ x. (x.0, x.1.now)) result (block.taken bytes.now) }
{
    let ranges = [Range::Any, Range::Any, Range::Below(1 << 32)];
    let ([sector, gpa, count], rest) = read_row(bytes, ranges)?;
    let (status, rest) = read_standing(rest, gpa, count)?;
    Ok((
        BlockState {
            sector,
            gpa,
            count: count as u32,
            status,
        },
        rest,
    ))
}

// How the device stands, from its three numbers.
#[tactic(auto, unfolding(crate::specs::DeviceForms::standing_status))]
fn read_standing(bytes: &[u8], gpa: u64, count: u64) -> Result<(BlockStatus, &[u8]), SnapRefusal>
    requires { count < 2 ^ 32 }
    ensures { Gives (λ x. (x.0, x.1.now)) result ((standing_status gpa count).taken bytes.now) }
{
    let (transfer, rest) = read_transfer(bytes, gpa, count)?;
    Ok((transfer.status(), rest))
}

/// Command, status, and the beats that are done.
#[derive(Clone, Copy, Drop)]
struct Transfer {
    command: u64,
    status: u64,
    done: u64,
}

impl Transfer {
    fn status(self) -> BlockStatus
        ensures { result ≡ status_of (self.command, (self.status, self.done)) }
    {
        if let Some(command) = BlockCommand::of(self.command) {
            BlockStatus::Busy {
                command,
                done: self.done,
            }
        } else if self.status == u64::from(BlockStatus::Done.number()) {
            BlockStatus::Done
        } else if self.status == u64::from(BlockStatus::Denied.number()) {
            BlockStatus::Denied
        } else if self.status == u64::from(BlockStatus::OutOfRange.number()) {
            BlockStatus::OutOfRange
        } else {
            BlockStatus::Idle
        }
    }
}

#[tactic(auto, unfolding(crate::specs::DeviceForms::transfer))]
fn read_transfer(bytes: &[u8], gpa: u64, count: u64) -> Result<(Transfer, &[u8]), SnapRefusal>
    requires { count < 2 ^ 32 }
    ensures { Gives (λ x. ((x.0.command, (x.0.status, x.0.done)), x.1.now)) result ((transfer gpa count).taken bytes.now) }
{
    let most = u64::from(BlockCommand::MemoryToDisk.number());
    let (command, rest) = read_at_most(bytes, most)?;
    let (status, rest) = read_number(rest)?;
    if !goes_with(gpa, count, command, status) {
        return Err(SnapRefusal::OutOfRange);
    }
    let (done, rest) = read_number(rest)?;
    if !has_beats(count, status, done) {
        return Err(SnapRefusal::OutOfRange);
    }
    Ok((
        Transfer {
            command,
            status,
            done,
        },
        rest,
    ))
}

// The status of a transfer under way has one number, whichever transfer it is.
fn is_busy(status: u64) -> bool
    ensures { result ≡ (status == busy) }
{
    let busy = BlockStatus::Busy {
        command: BlockCommand::DiskToMemory,
        done: 0,
    };
    status == u64::from(busy.number())
}

// A transfer under way has a command that was taken, and beats left; else there is neither.
fn goes_with(gpa: u64, count: u64, command: u64, status: u64) -> bool
    ensures { result ≡ goes_with gpa count command status }
{
    if is_busy(status) {
        BlockCommand::of(command).is_some() && 0 < count && gpa % BEAT_BYTES == 0
    } else {
        status <= u64::from(BlockStatus::OutOfRange.number()) && command == 0
    }
}

fn has_beats(count: u64, status: u64, done: u64) -> bool
    requires { count < 2 ^ 32 }
    ensures { result ≡ has_beats count status done }
{
    if is_busy(status) {
        done < SECTOR_BYTES / BEAT_BYTES * count
    } else {
        done == 0
    }
}

/// Whether the sectors of a transfer under way lie on a disk of so many bytes.
pub(crate) fn lies_on(state: &BlockState, size: u64) -> bool
    ensures { result ≡ lies_on (PortState.Block state.now) size }
{
    if !matches!(state.status, BlockStatus::Busy { .. }) {
        return true;
    }
    match state.sector.checked_add(u64::from(state.count)) {
        None => false,
        Some(end) => end <= size / SECTOR_BYTES,
    }
}
