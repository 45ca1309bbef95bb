// The numbers by which a snapshot tells the kinds of notes.

pub const DEMOTE: u64 = 1;

pub const DENIED: u64 = 2;

pub const LOAD: u64 = 3;

pub const UNLOAD: u64 = 4;

pub const RETIRE: u64 = 5;
