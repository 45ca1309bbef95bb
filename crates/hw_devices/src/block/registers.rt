// The registers, by their offsets and widths.
ghost use Rattle.std.specs.Prelude.{◌≡◌, IfSome, option_map};
ghost use Rattle.spec_reference.specs.BlockDisk.{block_register};
ghost use Rattle.hw_devices.specs.BlockRegisters.{register_named, width_of};

use sv_types::{BLOCK_ADDRESS, BLOCK_COMMAND, BLOCK_COUNT, BLOCK_SECTOR, BLOCK_STATUS};

/// A register of the device.
#[derive(Clone, Copy, Debug, Drop)]
pub enum Register {
    /// The first sector of a transfer.
    Sector,
    /// The guest-physical address of a transfer.
    Address,
    /// The number of sectors of a transfer.
    Count,
    /// Begins a transfer; it reads as 0.
    Command,
    /// How the last transfer ended, or that one is under way.
    Status,
}

/// The register that has this offset and width in bytes, if there is one.
#[tactic(auto, unfolding(spec_reference::specs::BlockDisk::block_register))]
pub fn register_at(offset: u64, width: u8) -> Option<Register>
    ensures register { option_map register_named result ≡ block_register offset width }
    ensures width { IfSome result (λ r. width ≡ width_of r) }
{
    if offset == BLOCK_SECTOR && width == 8 {
        Some(Register::Sector)
    } else if offset == BLOCK_ADDRESS && width == 8 {
        Some(Register::Address)
    } else if offset == BLOCK_COUNT && width == 4 {
        Some(Register::Count)
    } else if offset == BLOCK_COMMAND && width == 4 {
        Some(Register::Command)
    } else if offset == BLOCK_STATUS && width == 4 {
        Some(Register::Status)
    } else {
        None
    }
}
