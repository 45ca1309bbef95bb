// Machine words and their low 32 bits.

ghost use Rattle.std.specs.Int.{cast_signed};
ghost use Rattle.std.specs.Prelude.{◌≡◌};
ghost use Rattle.spec_processor.specs.Effects as table;

#[inline(always)]
pub fn low_word(a: u64) -> u32
    ensures { result ≡ table.low_word a }
{
    (a % 0x1_0000_0000) as u32
}

#[inline(always)]
pub fn signed_low(a: u64) -> i32
    ensures { result ≡ table.signed_low a }
{
    low_word(a).cast_signed()
}

// A signed number as a machine word.
#[inline(always)]
pub fn sign_extended(low: i32) -> u64
    ensures { result ≡ table.machine_word low }
{
    i64::from(low).cast_unsigned()
}

// The low 32 bits, sign-extended.
#[inline(always)]
pub fn sign_extend(a: u64) -> u64
    ensures { result ≡ table.sign_extend a }
{
    sign_extended(signed_low(a))
}
