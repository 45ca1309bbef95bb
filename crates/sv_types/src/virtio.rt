// The virtio block device's registers, the request under way, and its moves, as plain data.

ghost use Rattle.std.specs.Prelude.{◌≡◌};
ghost use Rattle.sv_types.specs.VirtioResults.{result_number, is_done};

/// The most descriptors of a chain: the header, 32 of data, and the result.
pub const MAX_VIRTIO_PARTS: usize = 34;

/// What one descriptor of a chain says: so many bytes at a guest-physical address, and whether the device writes them.
#[derive(Clone, Copy, Default, Drop)]
pub struct VirtioPart {
    pub gpa: u64,
    pub len: u32,
    pub write: bool,
}

/// A descriptor of the queue's table.
#[derive(Clone, Copy, Drop)]
pub struct VirtioDescriptor {
    /// What it says.
    pub part: VirtioPart,
    /// Whether another one follows, and its place in the table.
    pub goes_on: bool,
    pub next: u64,
    /// Whether it has a table of its own.
    pub is_indirect: bool,
}

/// What a request came to, as the device tells the driver. VIRTIO 1.2, "Device Operation" of the block device.
#[derive(Clone, Copy, Drop)]
pub enum VirtioResult {
    /// Its data was moved.
    Done,
    /// Its data can't be moved, or may not be.
    Failed,
    /// It is of a type that isn't known.
    Unsupported,
}

impl VirtioResult {
    /// The number that stands in the result's byte.
    pub fn number(self) -> u64
        ensures { result ≡ result_number self }
    {
        match self {
            VirtioResult::Done => 0,
            VirtioResult::Failed => 1,
            VirtioResult::Unsupported => 2,
        }
    }

    /// The data can be moved, as far as the request was judged.
    pub fn is_done(self) -> bool
        ensures { result ≡ is_done self }
    {
        matches!(self, VirtioResult::Done)
    }
}

/// A request that was accepted and whose moves aren't all made.
#[derive(Clone, Copy, Drop)]
pub struct VirtioRequest {
    /// The chain's first descriptor.
    pub head: u16,
    /// The first sector, of 512 bytes.
    pub sector: u64,
    /// The queue's size and the used ring's address, as they were at the beat that accepted the request.
    pub size: u32,
    pub used: u64,
    /// The number of descriptors in the chain.
    pub count: u8,
    /// What they say: the header, the data, the result. Places from the count on are 0.
    pub parts: [VirtioPart; MAX_VIRTIO_PARTS],
    /// The place reached: a descriptor, and the bytes of it that are moved.
    pub part: u8,
    pub offset: u32,
    /// How many of the last four moves are made.
    pub tail: u8,
    pub result: VirtioResult,
    /// The bytes that data moves wrote into memory, modulo 2^32.
    pub written: u32,
}

/// The registers as the driver wrote them, the number of accepted requests, and the request under way.
#[derive(Clone, Copy, Drop)]
pub struct VirtioState {
    pub device_select: u32,
    pub driver_select: u32,
    /// The features that the driver took, bits 0 to 31 and 32 to 63.
    pub driver_low: u32,
    pub driver_high: u32,
    pub queue: u32,
    pub size: u32,
    pub ready: bool,
    pub interrupt: u32,
    pub status: u32,
    /// The guest-physical addresses of the descriptors, the available ring and the used ring.
    pub descriptors: u64,
    pub available: u64,
    pub used: u64,
    /// Modulo 65,536.
    pub accepted: u64,
    pub request: Option<VirtioRequest>,
}

/// One move of a request.
#[derive(Clone, Copy, Drop)]
pub enum VirtioMove {
    /// So many bytes of the disk, from a place on, into memory.
    ToMemory { gpa: u64, place: u64, size: u64 },
    /// So many bytes of memory onto the disk, from a place on.
    ToDisk { gpa: u64, place: u64, size: u64 },
    /// The result into its byte.
    PutResult { gpa: u64 },
    /// The chain's first descriptor into the used ring.
    PutHead { gpa: u64, head: u16 },
    /// The number of written bytes into the used ring.
    PutLength { gpa: u64 },
    /// The used ring's index.
    PutIndex { gpa: u64, index: u16 },
}

/// A register of a virtio device over MMIO, and the two of the block device's configuration.
#[derive(Clone, Copy, Drop)]
pub enum VirtioRegister {
    MagicValue,
    Version,
    DeviceId,
    VendorId,
    DeviceFeatures,
    DeviceFeaturesSelect,
    DriverFeatures,
    DriverFeaturesSelect,
    QueueSelect,
    QueueSizeMax,
    QueueSize,
    QueueReady,
    QueueNotify,
    InterruptStatus,
    InterruptAcknowledge,
    Status,
    DescriptorsLow,
    DescriptorsHigh,
    AvailableLow,
    AvailableHigh,
    UsedLow,
    UsedHigh,
    ConfigGeneration,
    CapacityLow,
    CapacityHigh,
}
