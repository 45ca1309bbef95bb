// What registers read, and what stores into them do.

ghost use Rattle.std.specs.Prelude.{◌≡◌, ◌+◌, ◌-◌, ◌*◌, ◌/◌, ◌%◌, ◌<◌, length};
ghost use Rattle.spec_reference.specs.BlockDisk.{sector_size};
ghost use Rattle.spec_reference.specs.VirtioDevice.{is_broken, is_selected};
ghost use Rattle.spec_reference.specs.VirtioRegisters.{register_value};
ghost use Rattle.spec_reference.specs.VirtioStores.{reset, with_features, kept_status, with_status, can_set, can_be_used, with_ready};
ghost use Rattle.spec_reference.specs.VirtioStores.{with_size, with_descriptors, with_available, with_used, with_low, with_high, put};
ghost use Rattle.virtio_blk.specs.Held.{IsSound, device_of, state_at_reset};

use crate::Virtio;
use spec_processor::has_bit;
use sv_types::{IMPLEMENTATION, SECTOR_BYTES, VirtioRegister, VirtioState};

/// What tells that this is a virtio device: "virt".
const MAGIC_VALUE: u64 = 0x7472_6976;
/// The version of the registers. Virtio 1.2, 4.2.2.
const MMIO_VERSION: u64 = 2;
/// The number of a block device. Virtio 1.2, 5.2.1.
const BLOCK_DEVICE: u64 = 2;
/// The selector of features 32 to 63, and the one among them that is offered.
const HIGH_FEATURES: u32 = 1;

const VERSION_1: u32 = 1;
/// The most places of the queue.
const MAX_PLACES: u64 = 64;

const MAX_SIZE: u32 = MAX_PLACES as u32;
/// The alignment of the table of descriptors. Virtio 1.2, 2.7.
const DESCRIPTORS_ALIGN: u64 = 16;
/// The alignment of the available ring.
const AVAILABLE_ALIGN: u64 = 2;
/// The alignment of the used ring.
const USED_ALIGN: u64 = 4;

/// Bits of the status: the features fit, and a reset is needed. The places of two others.
const FEATURES_OK: u32 = 8;

const NEEDS_RESET_BIT: u8 = 6;

pub const NEEDS_RESET: u32 = 1 << NEEDS_RESET_BIT;

/// A device after a reset.
#[tactic(auto, unfolding(crate::specs::Held::state_at_reset))]
fn at_reset() -> VirtioState
    ensures { result ≡ state_at_reset }
{
    VirtioState {
        device_select: 0,
        driver_select: 0,
        driver_low: 0,
        driver_high: 0,
        queue: 0,
        size: 0,
        ready: false,
        interrupt: 0,
        status: 0,
        descriptors: 0,
        available: 0,
        used: 0,
        accepted: 0,
        request: None,
    }
}

impl Virtio {
    /// A device after a reset, with a disk in whole sectors.
    #[tactic(auto, unfolding(crate::specs::Held::state_at_reset, spec_reference::specs::VirtioStores::reset))]
    pub fn new(disk: Vec<u8>) -> Virtio
        requires sectors { length disk.items % sector_size ≡ 0 }
        ensures { device_of result ≡ reset disk.items }
    {
        Virtio {
            state: at_reset(),
            bytes: disk,
        }
    }

    /// A device with a disk, as its registers and its request say.
    pub fn from_state(state: VirtioState, disk: Vec<u8>) -> Virtio
        requires sound { IsSound (record { state = state; bytes = disk.items }) }
        ensures { result ≡ record { state = state; bytes = disk.items } }
    {
        Virtio { state, bytes: disk }
    }

    /// The registers and the request under way.
    pub fn state(&self) -> VirtioState
        ensures value { result ≡ self.now.state }
        ensures sound { IsSound self.now }
    {
        self.state
    }

    fn is_selected(&self) -> bool
        ensures { result ≡ is_selected (device_of self.now) }
    {
        self.state.queue == 0
    }

    pub(crate) fn is_broken(&self) -> bool
        ensures { result ≡ is_broken (device_of self.now) }
    {
        has_bit(self.state.status as u64, NEEDS_RESET_BIT)
    }

    fn sectors(&self) -> u64
        ensures { result ≡ length self.now.bytes / sector_size }
    {
        self.bytes.len() as u64 / SECTOR_BYTES
    }

    /// What a register reads.
    #[tactic(auto, unfolding(spec_reference::specs::VirtioRegisters::register_value))]
    pub(crate) fn read(&self, register: VirtioRegister) -> u64
        ensures { result ≡ register_value (device_of self.now) register }
    {
        match register {
            VirtioRegister::MagicValue => MAGIC_VALUE,
            VirtioRegister::Version => MMIO_VERSION,
            VirtioRegister::DeviceId => BLOCK_DEVICE,
            VirtioRegister::VendorId => IMPLEMENTATION,
            VirtioRegister::DeviceFeatures => {
                if self.state.device_select == HIGH_FEATURES {
                    VERSION_1 as u64
                } else {
                    0
                }
            },
            VirtioRegister::QueueSizeMax => { if self.is_selected() { MAX_PLACES } else { 0 } }
            VirtioRegister::QueueReady => u64::from(self.is_selected() && self.state.ready),
            VirtioRegister::InterruptStatus => self.state.interrupt as u64,
            VirtioRegister::Status => self.state.status as u64,
            VirtioRegister::CapacityLow => self.sectors() % (1 << 32),
            VirtioRegister::CapacityHigh => self.sectors() / (1 << 32),
            VirtioRegister::DeviceFeaturesSelect
            | VirtioRegister::DriverFeatures
            | VirtioRegister::DriverFeaturesSelect
            | VirtioRegister::QueueSelect
            | VirtioRegister::QueueSize
            | VirtioRegister::QueueNotify
            | VirtioRegister::InterruptAcknowledge
            | VirtioRegister::DescriptorsLow
            | VirtioRegister::DescriptorsHigh
            | VirtioRegister::AvailableLow
            | VirtioRegister::AvailableHigh
            | VirtioRegister::UsedLow
            | VirtioRegister::UsedHigh
            | VirtioRegister::ConfigGeneration => 0,
        }
    }

    // The queue's size and places may be set.
    fn can_set(&self) -> bool
        ensures { result ≡ can_set (device_of self.now) }
    {
        self.is_selected() && !self.state.ready
    }

    #[tactic(auto, unfolding(spec_reference::specs::VirtioStores::with_features))]
    fn put_features(&mut self, value: u32)
        ensures { device_of self.new ≡ with_features (device_of self.old) value }
    {
        match self.state.driver_select {
            0 => self.state.driver_low = value,
            HIGH_FEATURES => self.state.driver_high = value,
            _ => {}
        }
    }

    // What the status keeps of a value other than 0.
    #[tactic(auto, unfolding(spec_reference::specs::VirtioStores::kept_status))]
    fn kept_status(&self, value: u32) -> u32
        ensures { result ≡ kept_status (device_of self.now) value }
    {
        let takes = self.state.driver_low == 0 && self.state.driver_high == VERSION_1;
        let judged = if takes { value } else { value & !FEATURES_OK };
        if self.is_broken() {
            judged | NEEDS_RESET
        } else {
            judged & !NEEDS_RESET
        }
    }

    #[tactic(auto, unfolding(spec_reference::specs::VirtioStores::with_status, spec_reference::specs::VirtioStores::reset, crate::specs::Held::state_at_reset))]
    fn put_status(&mut self, value: u32)
        ensures { device_of self.new ≡ with_status (device_of self.old) value }
    {
        if value == 0 {
            self.state = at_reset();
        } else {
            self.state.status = self.kept_status(value);
        }
    }

    // The queue may be used: its size is a power of two, and its parts are aligned.
    fn can_be_used(&self) -> bool
        ensures { result ≡ can_be_used (device_of self.now) }
    {
        matches!(self.state.size, 1 | 2 | 4 | 8 | 16 | 32 | MAX_SIZE)
            && self.state.descriptors % DESCRIPTORS_ALIGN == 0
            && self.state.available % AVAILABLE_ALIGN == 0
            && self.state.used % USED_ALIGN == 0
    }

    #[tactic(auto, unfolding(spec_reference::specs::VirtioStores::with_ready))]
    fn put_ready(&mut self, value: u32)
        ensures { device_of self.new ≡ with_ready (device_of self.old) value }
    {
        if self.is_selected() {
            self.state.ready = value == 1 && (self.state.ready || self.can_be_used());
        }
    }

    #[tactic(auto, unfolding(spec_reference::specs::VirtioStores::with_size))]
    fn put_size(&mut self, value: u32)
        ensures { device_of self.new ≡ with_size (device_of self.old) value }
    {
        if self.can_set() {
            self.state.size = value;
        }
    }

    #[tactic(auto, unfolding(spec_reference::specs::VirtioStores::with_descriptors))]
    fn put_descriptors(&mut self, address: u64)
        ensures { device_of self.new ≡ with_descriptors (device_of self.old) address }
    {
        if self.can_set() {
            self.state.descriptors = address;
        }
    }

    #[tactic(auto, unfolding(spec_reference::specs::VirtioStores::with_available))]
    fn put_available(&mut self, address: u64)
        ensures { device_of self.new ≡ with_available (device_of self.old) address }
    {
        if self.can_set() {
            self.state.available = address;
        }
    }

    #[tactic(auto, unfolding(spec_reference::specs::VirtioStores::with_used))]
    fn put_used(&mut self, address: u64)
        ensures { device_of self.new ≡ with_used (device_of self.old) address }
    {
        if self.can_set() {
            self.state.used = address;
        }
    }

    /// A store into a register.
    #[tactic(auto, unfolding(spec_reference::specs::VirtioStores::put))]
    pub(crate) fn put(&mut self, register: VirtioRegister, value: u32)
        ensures { device_of self.new ≡ put (device_of self.old) register value }
    {
        match register {
            VirtioRegister::DeviceFeaturesSelect => self.state.device_select = value,
            VirtioRegister::DriverFeatures => self.put_features(value),
            VirtioRegister::DriverFeaturesSelect => self.state.driver_select = value,
            VirtioRegister::QueueSelect => self.state.queue = value,
            VirtioRegister::QueueSize => self.put_size(value),
            VirtioRegister::QueueReady => self.put_ready(value),
            VirtioRegister::InterruptAcknowledge => self.state.interrupt &= !value,
            VirtioRegister::Status => self.put_status(value),
            VirtioRegister::DescriptorsLow => self.put_descriptors(with_low(
                self.state.descriptors,
                value,
            )),
            VirtioRegister::DescriptorsHigh => self.put_descriptors(with_high(
                self.state.descriptors,
                value,
            )),
            VirtioRegister::AvailableLow => self.put_available(with_low(
                self.state.available,
                value,
            )),
            VirtioRegister::AvailableHigh => self.put_available(with_high(
                self.state.available,
                value,
            )),
            VirtioRegister::UsedLow => self.put_used(with_low(self.state.used, value)),
            VirtioRegister::UsedHigh => self.put_used(with_high(self.state.used, value)),
            VirtioRegister::MagicValue
            | VirtioRegister::Version
            | VirtioRegister::DeviceId
            | VirtioRegister::VendorId
            | VirtioRegister::DeviceFeatures
            | VirtioRegister::QueueSizeMax
            | VirtioRegister::QueueNotify
            | VirtioRegister::InterruptStatus
            | VirtioRegister::ConfigGeneration
            | VirtioRegister::CapacityLow
            | VirtioRegister::CapacityHigh => {}
        }
    }
}

// An address with its lower 32 bits written.
fn with_low(address: u64, value: u32) -> u64
    ensures { result ≡ with_low address value }
{
    (1 << 32) * (address / (1 << 32)) + value as u64
}

// An address with its upper 32 bits written.
fn with_high(address: u64, value: u32) -> u64
    ensures { result ≡ with_high address value }
{
    (1 << 32) * value as u64 + address % (1 << 32)
}
