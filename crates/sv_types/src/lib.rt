//! The plain data that every layer of SecVisor names. In `specs/` stand the definitions that contracts cite.
#![tactic(auto)]

mod block;
mod digest;
mod event;
mod extensions;
mod failed;
mod image_fault;
mod kernel;
mod limits;
mod module;
mod name;
mod places;
mod policy;
mod port;
mod protection;
mod relocation_kind;
mod saved;
mod sbi;
mod status;
mod view;
mod virtio;

pub use block::{
    BLOCK_ADDRESS, BLOCK_COMMAND, BLOCK_COUNT, BLOCK_SECTOR, BLOCK_STATUS, BlockCommand,
    BlockState, BlockStatus,
};
pub use digest::{DIGEST_BYTES, Digest};
pub use event::{Counts, Event, Note, Rule, Verdict};
pub use extensions::{
    BASE_EXTENSION, FENCE_EXTENSION, GET_CHAR_EXTENSION, HART_STATE_EXTENSION, INTERRUPT_EXTENSION,
    MODULES_EXTENSION, PUT_CHAR_EXTENSION, RESET_EXTENSION, SET_TIMER_EXTENSION,
    SHUT_DOWN_EXTENSION, TIMER_EXTENSION,
};
pub use failed::Failed;
pub use image_fault::{HeaderFault, ImageFault};
pub use kernel::ProgramHeader;
pub use limits::{
    BEAT_BYTES, BOUND_FORMAT, DATA_BASE, FIRST_EXPORT_BASE, FLAT_PAGES, FLAT_TRAP_OFFSET,
    MAX_DISK_BYTES, MAX_ENTRIES, MAX_EVENTS, MAX_HARTS, MAX_NOTES, MAX_PRINTED, MAX_QUEUED,
    NO_BASE, PLAIN_FORMAT, SECTOR_BYTES, TEXT_BASE,
};
pub use module::{Bases, Site, Span};
pub use name::{MAX_NAME_BYTES, Name};
pub use places::{CONSOLE_BASE, DISK_BASE, DISK_END};
pub use policy::{Export, ModulePolicy, Policy};
pub use port::PortState;
pub use protection::Protection;
pub use relocation_kind::{LOW_VALUES, RelocationKind};
pub use saved::ModulePlacement;
pub use sbi::{IMPLEMENTATION, SbiCode};
pub use status::Status;
pub use view::View;
pub use virtio::{
    MAX_VIRTIO_PARTS, VirtioDescriptor, VirtioMove, VirtioPart, VirtioRegister, VirtioRequest,
    VirtioResult, VirtioState,
};
