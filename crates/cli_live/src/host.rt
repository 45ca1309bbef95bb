// What a live run runs on.

use std::alloc::Global;

/// What a live run runs on: the runtime that makes its threads, the allocator, and the pace that is told of its events and keys.
#[derive(Drop)]
pub struct Host<'a, R, P> {
    pub rt: &'a R,
    pub alloc: Global,
    pub pace: &'a P,
}
