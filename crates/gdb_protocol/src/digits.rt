// Hexadecimal digits.
ghost use Rattle.std.specs.Prelude.{◌≡◌, ◌<◌, ◌++◌, ◌^◌, OnOk, IfSome};
ghost use Rattle.gdb_protocol.specs.Digits as spec;

use std::alloc::AllocError;

// Numbers below this one can have a digit more.
const ROOM_FOR_DIGIT: u64 = 1 << 60;

fn digit(number: u8) -> u8
    requires { number < 16 }
    ensures { result ≡ spec.digit number }
{
    if number < 10 {
        number + b'0'
    } else {
        number - 10 + b'a'
    }
}

/// Two digits for each byte are put at the end.
#[tactic(auto, unfolding(crate::specs::Digits::byte_digits))]
pub fn push_digits(out: &mut Vec<u8>, bytes: &[u8]) -> Result<(), AllocError>
    ensures { OnOk result (out.new.items ≡ out.old.items ++ spec.byte_digits bytes.now) }
{
    'bytes: for byte in bytes {
        out.extend_from_slice(&[digit(*byte / 16), digit(*byte % 16)])?;
    }
    Ok(())
}

/// What a digit of either case stands for. None where the byte is no digit.
pub(crate) fn digit_value(c: u8) -> Option<u8>
    ensures value { result ≡ spec.digit_value c }
    ensures small { IfSome result (λ v. v < 16) }
{
    match c {
        b'0'..=b'9' => Some(c - b'0'),
        b'a'..=b'f' => Some(c - b'a' + 10),
        b'A'..=b'F' => Some(c - b'A' + 10),
        _ => None,
    }
}

// A number with a digit more.
fn with_digit(number: u64, c: u8) -> Option<u64>
    ensures { result ≡ spec.with_digit number c }
{
    if number < ROOM_FOR_DIGIT {
        Some(16 * number + u64::from(digit_value(c)?))
    } else {
        None
    }
}

#[tactic(auto, unfolding(crate::specs::Digits::number_onto))]
fn number_from_zero(digits: &[u8]) -> Option<u64>
    ensures { result ≡ spec.number_onto 0 digits.now }
{
    let mut number: u64 = 0;
    'digits: for c in digits {
        number = with_digit(number, *c)?;
    }
    Some(number)
}

/// The number that hexadecimal digits write. None where there is none, where a byte is no digit, or where the number has more
/// than 64 bits.
#[tactic(auto, unfolding(crate::specs::Digits::number_of))]
pub fn number_of(digits: &[u8]) -> Option<u64>
    ensures { result ≡ spec.number_of digits.now }
{
    match digits {
        [] => None,
        _ => number_from_zero(digits),
    }
}

/// The byte of two digits.
pub(crate) fn pair_value(high: u8, low: u8) -> Option<u8>
    ensures { result ≡ spec.pair_value high low }
{
    let high = digit_value(high)?;
    let low = digit_value(low)?;
    Some(16 * high + low)
}
