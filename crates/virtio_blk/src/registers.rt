// The registers, by their offsets.

ghost use Rattle.std.specs.Prelude.{◌≡◌};
ghost use Rattle.spec_reference.specs.VirtioRegisters.{register_named, register_at};

use sv_types::VirtioRegister;

/// The register that has this offset and width in bytes, if there is one.
#[tactic(auto, unfolding(spec_reference::specs::VirtioRegisters::register_at))]
pub fn register_at(offset: u64, width: u8) -> Option<VirtioRegister>
    ensures { result ≡ register_at offset width }
{
    if width == 4 {
        register_named(offset)
    } else {
        None
    }
}

// The register at an offset.
#[tactic(auto, unfolding(spec_reference::specs::VirtioRegisters::register_named))]
fn register_named(offset: u64) -> Option<VirtioRegister>
    ensures { result ≡ register_named offset }
{
    match offset {
        0x000 => Some(VirtioRegister::MagicValue),
        0x004 => Some(VirtioRegister::Version),
        0x008 => Some(VirtioRegister::DeviceId),
        0x00C => Some(VirtioRegister::VendorId),
        0x010 => Some(VirtioRegister::DeviceFeatures),
        0x014 => Some(VirtioRegister::DeviceFeaturesSelect),
        0x020 => Some(VirtioRegister::DriverFeatures),
        0x024 => Some(VirtioRegister::DriverFeaturesSelect),
        0x030 => Some(VirtioRegister::QueueSelect),
        0x034 => Some(VirtioRegister::QueueSizeMax),
        0x038 => Some(VirtioRegister::QueueSize),
        0x044 => Some(VirtioRegister::QueueReady),
        0x050 => Some(VirtioRegister::QueueNotify),
        0x060 => Some(VirtioRegister::InterruptStatus),
        0x064 => Some(VirtioRegister::InterruptAcknowledge),
        0x070 => Some(VirtioRegister::Status),
        0x080 => Some(VirtioRegister::DescriptorsLow),
        0x084 => Some(VirtioRegister::DescriptorsHigh),
        0x090 => Some(VirtioRegister::AvailableLow),
        0x094 => Some(VirtioRegister::AvailableHigh),
        0x0A0 => Some(VirtioRegister::UsedLow),
        0x0A4 => Some(VirtioRegister::UsedHigh),
        0x0FC => Some(VirtioRegister::ConfigGeneration),
        0x100 => Some(VirtioRegister::CapacityLow),
        0x104 => Some(VirtioRegister::CapacityHigh),
        _ => None,
    }
}
