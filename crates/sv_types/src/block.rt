// The block device's registers and its transfer.

ghost use Rattle.std.specs.Prelude.{◌≡◌};
ghost use Rattle.sv_types.specs.BlockNumbers.{command_number, command_of, status_number};

/// The offset of the register of a transfer's first sector.
pub const BLOCK_SECTOR: u64 = 0x00;

/// The offset of the register of a transfer's address.
pub const BLOCK_ADDRESS: u64 = 0x08;

/// The offset of the register of a transfer's number of sectors.
pub const BLOCK_COUNT: u64 = 0x10;

/// The offset of the register that begins a transfer.
pub const BLOCK_COMMAND: u64 = 0x14;

/// The offset of the register that says how a transfer stands.
pub const BLOCK_STATUS: u64 = 0x18;

/// What the device is told to do.
#[derive(Clone, Copy, Drop)]
pub enum BlockCommand {
    /// Sectors go from the disk to memory.
    DiskToMemory,
    /// Sectors go from memory to the disk.
    MemoryToDisk,
}

/// How the device stands.
#[derive(Clone, Copy, Drop)]
pub enum BlockStatus {
    /// No transfer was made since the status was cleared.
    Idle,
    /// A transfer is under way: its command, and the beats of it that are done, of 64 bytes each.
    Busy { command: BlockCommand, done: u64 },
    /// The last transfer moved all of its sectors.
    Done,
    /// The last transfer ended before a page that a device may not write.
    Denied,
    /// The last transfer had no sectors on the disk, or no RAM at its address.
    OutOfRange,
}

/// The block device's registers and its transfer.
#[derive(Clone, Copy, Drop)]
pub struct BlockState {
    pub sector: u64,
    pub gpa: u64,
    /// The number of sectors, of 512 bytes each.
    pub count: u32,
    pub status: BlockStatus,
}

const COMMANDS: [BlockCommand; 2] = [BlockCommand::DiskToMemory, BlockCommand::MemoryToDisk];

impl BlockCommand {
    /// The command's number, as the guest writes it into the command register.
    pub fn number(self) -> u8
        ensures { result ≡ command_number self }
    {
        match self {
            BlockCommand::DiskToMemory => 1,
            BlockCommand::MemoryToDisk => 2,
        }
    }

    /// The command of a number. None where it is no command's.
    pub fn of(number: u64) -> Option<BlockCommand>
        ensures { result ≡ command_of number }
    {
        COMMANDS
            .iter()
            .copied()
            .find(|command| u64::from(command.number()) == number)
    }
}

impl BlockStatus {
    /// The status's number, as the guest reads it in the status register.
    pub fn number(self) -> u8
        ensures { result ≡ status_number self }
    {
        match self {
            BlockStatus::Idle => 0,
            BlockStatus::Busy { .. } => 1,
            BlockStatus::Done => 2,
            BlockStatus::Denied => 3,
            BlockStatus::OutOfRange => 4,
        }
    }
}
