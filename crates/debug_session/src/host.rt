// What a session runs on.

use std::alloc::Global;
use std::thread::Threads;

/// What a session runs on: what may start threads, and memory.
#[derive(Drop)]
pub(crate) struct Host<'a, R: Threads> {
    pub rt: &'a R,
    pub alloc: Global,
}
