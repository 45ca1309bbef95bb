// The lines of devices.
ghost use Rattle.std.specs.Prelude.{◌≡◌, IfOk, string_bytes};
ghost use Rattle.cli_snap.specs.DeviceTexts as spec;

use std::alloc::{AllocError, Global};
use sv_types::{BlockCommand, BlockState, BlockStatus, PortState, VirtioState};
use text_numbers::address_text;

#[tactic(auto, unfolding(crate::specs::DeviceTexts::console_line))]
pub fn console_line(alloc: Global, input: &[u8]) -> Result<String, AllocError>
    ensures { IfOk result (λ t. string_bytes t ≡ spec.console_line input.now) }
{
    let waiting = input.len();
    format!(in alloc; "console {waiting}\n")
}

#[tactic(auto, unfolding(crate::specs::DeviceTexts::disk_line))]
pub fn disk_line(alloc: Global, bytes: &[u8]) -> Result<String, AllocError>
    ensures { IfOk result (λ t. string_bytes t ≡ spec.disk_line bytes.now) }
{
    let length = bytes.len();
    format!(in alloc; "disk {length}\n")
}

pub fn port_line(alloc: Global, port: &PortState) -> Result<String, AllocError>
    ensures { IfOk result (λ t. string_bytes t ≡ spec.port_line port.now) }
{
    match port {
        PortState::Block(block) => block_line(alloc, block),
        PortState::Virtio(virtio) => virtio_line(alloc, virtio),
    }
}

#[tactic(auto, unfolding(crate::specs::DeviceTexts::block_line))]
fn block_line(alloc: Global, block: &BlockState) -> Result<String, AllocError>
    ensures { IfOk result (λ t. string_bytes t ≡ spec.block_line block.now) }
{
    let sector = block.sector;
    let gpa = address_text(alloc, block.gpa)?;
    let count = block.count;
    let status = status_text(alloc, block.status)?;
    format!(in alloc; "block sector {sector} gpa {gpa} count {count} {status}\n")
}

#[tactic(auto, unfolding(crate::specs::DeviceTexts::status_text))]
fn status_text(alloc: Global, status: BlockStatus) -> Result<String, AllocError>
    ensures { IfOk result (λ t. string_bytes t ≡ spec.status_text status) }
{
    match status {
        BlockStatus::Idle => String::from_str(alloc, "idle"),
        BlockStatus::Busy { command, done } => {
            let command = command_name(command);
            format!(in alloc; "busy {command} beats {done}")
        }
        BlockStatus::Done => String::from_str(alloc, "done"),
        BlockStatus::Denied => String::from_str(alloc, "denied"),
        BlockStatus::OutOfRange => String::from_str(alloc, "range"),
    }
}

fn command_name(command: BlockCommand) -> &'static str
    ensures { result.now ≡ spec.command_name command }
{
    match command {
        BlockCommand::DiskToMemory => "read",
        BlockCommand::MemoryToDisk => "write",
    }
}

#[tactic(auto, unfolding(crate::specs::DeviceTexts::virtio_line))]
fn virtio_line(alloc: Global, virtio: &VirtioState) -> Result<String, AllocError>
    ensures { IfOk result (λ t. string_bytes t ≡ spec.virtio_line virtio.now) }
{
    let status = virtio.status;
    let accepted = virtio.accepted;
    format!(in alloc; "virtio status {status} accepted {accepted}\n")
}
