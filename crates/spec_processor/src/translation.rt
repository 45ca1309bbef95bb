// What chooses a translation of addresses, and what it answers.

/// The place of the mode in `satp`, `vsatp` and `hgatp`. Privileged manual, "satp Register" and "hgatp Register".
pub const ROOT_MODE_SHIFT: u32 = 60;

/// The bits of the number of the root's page there, which is that of a page in an entry too.
pub const ROOT_PAGE_BITS: u32 = 44;

/// The place of the number of a page in an entry of a table. Privileged manual, "Sv39".
pub const PAGE_NUMBER_SHIFT: u32 = 10;

/// The bits of an address that are a place in a page, and those that are an index into a table.
pub const PAGE_BITS: u32 = 12;

pub const INDEX_BITS: u32 = 9;

/// The bits of a virtual address above this one are as it is.
pub const SIGN_BIT: u32 = 38;

/// The mode of `satp` and `vsatp` in which an address is left as it is.
pub const BARE: u64 = 0;

/// The mode of `satp` and `vsatp` in which three levels of tables lead a virtual address of 39 bits.
pub const SV39: u64 = 8;

/// The mode of `hgatp` in which three levels, the first of which is four tables in one, lead a guest-physical address.
pub const SV39X4: u64 = 8;

/// The bits of a guest-physical address under Sv39x4.
pub const GUEST_ADDRESS_BITS: u32 = 41;

/// What `htval` counts guest-physical addresses in: the bytes of a word, since the two lowest bits aren't kept.
pub const HTVAL_UNIT: u64 = 4;

/// Where a virtual address leads: its guest-physical address and its host place.
#[derive(Clone, Copy, PartialEq, Eq, Drop)]
pub struct Place {
    pub gpa: u64,
    pub hpa: u64,
}

/// Why a virtual address leads nowhere.
#[derive(Clone, Copy, PartialEq, Eq, Drop)]
pub enum Fault {
    /// The first stage refuses the access.
    Page,
    /// The G-stage refuses an access to a guest-physical address: that of a first-stage entry where `implicit`
    /// is true, else the one that the first stage gave.
    Guest { gpa: u64, implicit: bool },
}

/// The guest-physical address that the G-stage refuses.
#[derive(Clone, Copy, Drop)]
pub struct GuestFault {
    pub gpa: u64,
}
