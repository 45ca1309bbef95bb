// The bytes of the block device.

ghost use Rattle.std.specs.Prelude.{◌≡◌, ◌++◌, true, OnOk};
ghost use Rattle.spec_reference.specs.BlockDisk.{beats_done};
ghost use Rattle.snapshot_format.specs.DeviceForms.{block, command_under_way};
ghost use Rattle.snapshot_format.specs.Typed.{is_typed_block};

use crate::writer::values::write_number;
use std::alloc::AllocError;
use sv_types::{BlockState, BlockStatus};

// The number of the command of a transfer under way, 0 where there is none.
fn command_under_way(status: BlockStatus) -> u64
    ensures { result ≡ command_under_way status }
{
    match status {
        BlockStatus::Busy { command, done: _ } => u64::from(command.number()),
        BlockStatus::Idle | BlockStatus::Done | BlockStatus::Denied | BlockStatus::OutOfRange => 0,
    }
}

// The beats that are done of a transfer under way, 0 where there is none.
fn beats_done(status: BlockStatus) -> u64
    ensures { result ≡ beats_done status }
{
    match status {
        BlockStatus::Busy { command: _, done } => done,
        BlockStatus::Idle | BlockStatus::Done | BlockStatus::Denied | BlockStatus::OutOfRange => 0,
    }
}

#[tactic(auto, unfolding(crate::specs::DeviceForms::block, crate::specs::DeviceForms::standing_status, crate::specs::DeviceForms::transfer))]
pub(crate) fn write_block(out: &mut Vec<u8>, state: &BlockState) -> Result<(), AllocError>
    ensures encoded { OnOk result (out.new.items ≡ out.old.items ++ block.encode state.now) }
    ensures typed { OnOk result (is_typed_block state.now ≡ true) }
{
    write_number(out, state.sector)?;
    write_number(out, state.gpa)?;
    write_number(out, u64::from(state.count))?;
    write_number(out, command_under_way(state.status))?;
    write_number(out, u64::from(state.status.number()))?;
    write_number(out, beats_done(state.status))
}
