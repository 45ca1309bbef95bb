// What a cache of G-stage translations keeps.

/// The G-stage translation of a page of guest-physical addresses, as a cache keeps it: the `hgatp` value under which
/// it was walked, the page's number, the host place of its first byte, and the accesses that it permits.
#[derive(Clone, Copy, Drop)]
pub struct CacheLine {
    pub hgatp: u64,
    pub page: u64,
    pub host: u64,
    pub fetch: bool,
    pub load: bool,
    pub store: bool,
}
