// Quotients and remainders. Division by zero gives all ones, and leaves the dividend as remainder.

ghost use Rattle.std.specs.Prelude.{◌≡◌};
ghost use Rattle.spec_processor.specs.Effects as table;

use crate::word::{low_word, sign_extend, sign_extended, signed_low};

#[inline(always)]
pub fn quotient(a: u64, b: u64) -> u64
    ensures { result ≡ table.quotient a b }
{
    if b == 0 {
        u64::MAX
    } else {
        a.cast_signed()
            .wrapping_div(b.cast_signed())
            .cast_unsigned()
    }
}

#[inline(always)]
pub fn quotient_unsigned(a: u64, b: u64) -> u64
    ensures { result ≡ table.quotient_unsigned a b }
{
    a.checked_div(b).unwrap_or(u64::MAX)
}

#[inline(always)]
pub fn remainder(a: u64, b: u64) -> u64
    ensures { result ≡ table.remainder a b }
{
    if b == 0 {
        a
    } else {
        a.cast_signed()
            .wrapping_rem(b.cast_signed())
            .cast_unsigned()
    }
}

#[inline(always)]
pub fn remainder_unsigned(a: u64, b: u64) -> u64
    ensures { result ≡ table.remainder_unsigned a b }
{
    a.checked_rem(b).unwrap_or(a)
}

#[inline(always)]
pub fn quotient_low(a: u64, b: u64) -> u64
    ensures { result ≡ table.quotient_low a b }
{
    if low_word(b) == 0 {
        u64::MAX
    } else {
        sign_extended(signed_low(a).wrapping_div(signed_low(b)))
    }
}

#[inline(always)]
pub fn quotient_unsigned_low(a: u64, b: u64) -> u64
    ensures { result ≡ table.quotient_unsigned_low a b }
{
    if low_word(b) == 0 {
        u64::MAX
    } else {
        sign_extend(u64::from(low_word(a) / low_word(b)))
    }
}

#[inline(always)]
pub fn remainder_low(a: u64, b: u64) -> u64
    ensures { result ≡ table.remainder_low a b }
{
    if low_word(b) == 0 {
        sign_extend(a)
    } else {
        sign_extended(signed_low(a).wrapping_rem(signed_low(b)))
    }
}

#[inline(always)]
pub fn remainder_unsigned_low(a: u64, b: u64) -> u64
    ensures { result ≡ table.remainder_unsigned_low a b }
{
    if low_word(b) == 0 {
        sign_extend(a)
    } else {
        sign_extend(u64::from(low_word(a) % low_word(b)))
    }
}
