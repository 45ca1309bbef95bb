// The bytes of the devices: the console's input, the device that the disk is behind, and the disk.

ghost use Rattle.std.specs.Prelude.{◌≡◌};
ghost use Rattle.snapshot_format.specs.Forms.{plain};
ghost use Rattle.snapshot_format.specs.DeviceForms.{console, devices, disk, holds_disk, lies_on, port};
ghost use Rattle.snapshot_format.specs.Reading.{Gives, Reads};
ghost use Rattle.snapshot_format.specs.Views.{devices_parts};

use crate::reader::block::{lies_on, read_block};
use crate::reader::read_error::ReadError;
use crate::reader::values::{read_at_most, read_number, read_plain};
use crate::reader::virtio::{holds_data, read_virtio};
use crate::{PortKind, SnapRefusal};
use std::alloc::Global;
use sv_types::{MAX_DISK_BYTES, MAX_QUEUED, PortState, SECTOR_BYTES};

/// The console's input, the device that the disk is behind, and the disk.
#[derive(Drop)]
pub(crate) struct Devices {
    pub(crate) console: Vec<u8>,
    pub(crate) port: PortState,
    pub(crate) disk: Vec<u8>,
}

#[tactic(auto, unfolding(crate::specs::DeviceForms::devices))]
pub(crate) fn read_devices(
    alloc: Global,
    bytes: &[u8],
    kind: PortKind,
) -> Result<(Devices, &[u8]), ReadError>
    ensures { Reads (λ x. (devices_parts x.0, x.1.now)) result ((devices kind).taken bytes.now) }
{
    let (console, rest) = read_console(alloc, bytes)?;
    let (port, rest) = read_port(rest, kind)?;
    let (disk, rest) = read_disk(alloc, rest, &port)?;
    Ok((
        Devices {
            console,
            port,
            disk,
        },
        rest,
    ))
}

// The device of a kind.
#[tactic(auto, unfolding(crate::specs::DeviceForms::port))]
fn read_port(bytes: &[u8], kind: PortKind) -> Result<(PortState, &[u8]), SnapRefusal>
    ensures { Gives (λ x. (x.0, x.1.now)) result ((port kind).taken bytes.now) }
{
    match kind {
        PortKind::Block => {
            let (block, rest) = read_block(bytes)?;
            Ok((PortState::Block(block), rest))
        }
        PortKind::Virtio => {
            let (virtio, rest) = read_virtio(bytes)?;
            Ok((PortState::Virtio(virtio), rest))
        }
    }
}

// Whether what a device has under way lies on a disk of so many bytes.
fn lies_on_disk(port: &PortState, size: u64) -> bool
    ensures { result ≡ lies_on port.now size }
{
    match port {
        PortState::Block(block) => lies_on(block, size),
        PortState::Virtio(virtio) => holds_data(&virtio.request, size),
    }
}

// Whether a disk of so many bytes is whole sectors, and holds what its device has under way.
fn holds_disk(port: &PortState, size: u64) -> bool
    ensures { result ≡ holds_disk port.now size }
{
    size <= MAX_DISK_BYTES && size % SECTOR_BYTES == 0 && lies_on_disk(port, size)
}

#[tactic(auto, unfolding(crate::specs::DeviceForms::console))]
fn read_console(alloc: Global, bytes: &[u8]) -> Result<(Vec<u8>, &[u8]), ReadError>
    ensures { Reads (λ x. (x.0.items, x.1.now)) result (console.taken bytes.now) }
{
    let (count, rest) = read_at_most(bytes, MAX_QUEUED as u64)?;
    read_bytes(alloc, rest, count)
}

#[tactic(auto, unfolding(crate::specs::DeviceForms::disk))]
fn read_disk<'a>(
    alloc: Global,
    bytes: &'a [u8],
    port: &PortState,
) -> Result<(Vec<u8>, &'a [u8]), ReadError>
    ensures { Reads (λ x. (x.0.items, x.1.now)) result ((disk port.now).taken bytes.now) }
{
    let (size, rest) = read_number(bytes)?;
    if !holds_disk(port, size) {
        return Err(ReadError::Refused(SnapRefusal::OutOfRange));
    }
    read_bytes(alloc, rest, size)
}

/// So many bytes as they are.
pub(crate) fn read_bytes(
    alloc: Global,
    bytes: &[u8],
    count: u64,
) -> Result<(Vec<u8>, &[u8]), ReadError>
    ensures { Reads (λ x. (x.0.items, x.1.now)) result ((plain count).taken bytes.now) }
{
    let (content, rest) = read_plain(bytes, count)?;
    Ok((content.to_vec(alloc)?, rest))
}
