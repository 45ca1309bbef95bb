// The numbers by which a snapshot tells the kinds of verdicts.

pub const RUNNING: u64 = 0;

pub const SHUTDOWN: u64 = 1;

pub const STOPPED_ENTRY: u64 = 2;

pub const STOPPED_WRITE: u64 = 3;
