// Pages and relocated fields of a module.

use crate::relocation_kind::RelocationKind;

/// A run of RAM pages: the number of the first, and how many.
#[derive(Clone, Copy, Drop)]
pub struct Span {
    pub first: u32,
    pub count: u32,
}

/// Where a module is placed: the addresses of its text and of its data.
#[derive(Clone, Copy, Drop)]
pub struct Bases {
    pub va: u64,
    pub data_va: u64,
}

/// A relocated field of a module's text: the byte where it begins, how it is relocated, which base its symbol has, the
/// symbol's value and addend from there, and the byte that a relative field counts from.
#[derive(Clone, Copy, PartialEq, Eq, Drop)]
pub struct Site {
    pub offset: u32,
    pub kind: RelocationKind,
    pub base: u16,
    pub addend: i64,
    pub anchor: u32,
}
