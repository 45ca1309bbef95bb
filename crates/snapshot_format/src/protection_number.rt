// The numbers by which a snapshot tells what a page is.

pub const FREE: u8 = 0;

pub const HELD: u8 = 1;

pub const APPROVED: u8 = 2;
