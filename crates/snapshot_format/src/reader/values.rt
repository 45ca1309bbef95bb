// A value at the front of some bytes, and the bytes after it.

ghost use Rattle.std.specs.Prelude.{nat_le};
ghost use Rattle.spec_processor.specs.Bytes.{instruction_size};
ghost use Rattle.snapshot_format.specs.Forms.{byte, number, plain, within};
ghost use Rattle.snapshot_format.specs.HartForms.{multiple_of, flag, place};
ghost use Rattle.snapshot_format.specs.Reading.{Gives};

use crate::SnapRefusal;
use policy_limits::MAX_ENTRIES;
use spec_processor::INSTRUCTION_BYTES;

/// The bytes of a number.
const NUMBER_BYTES: usize = 8;

#[tactic(auto, unfolding(crate::specs::Forms::number_at))]
pub(crate) fn read_number(bytes: &[u8]) -> Result<(u64, &[u8]), SnapRefusal>
    ensures { Gives (λ x. (x.0, x.1.now)) result (number.taken bytes.now) }
{
    let Some((front, rest)) = bytes.split_first_chunk::<NUMBER_BYTES>() else {
        return Err(SnapRefusal::OtherLength);
    };
    Ok((u64::from_le_bytes(*front), rest))
}

pub(crate) fn read_byte(bytes: &[u8]) -> Result<(u8, &[u8]), SnapRefusal>
    ensures { Gives (λ x. (x.0, x.1.now)) result (byte.taken bytes.now) }
{
    let Some((front, rest)) = bytes.split_first() else {
        return Err(SnapRefusal::OtherLength);
    };
    Ok((*front, rest))
}

// So many bytes as they are.
#[tactic(auto, unfolding(crate::specs::Forms::bytes_at))]
pub(crate) fn read_plain(bytes: &[u8], count: u64) -> Result<(&[u8], &[u8]), SnapRefusal>
    ensures { Gives (λ x. (x.0.now, x.1.now)) result ((plain count).taken bytes.now) }
{
    if (bytes.len() as u64) < count {
        return Err(SnapRefusal::OtherLength);
    }
    Ok(bytes.split_at(count as usize))
}

// A number that is no more than another.
pub(crate) fn read_at_most(bytes: &[u8], most: u64) -> Result<(u64, &[u8]), SnapRefusal>
    ensures { Gives (λ x. (x.0, x.1.now)) result ((within (λ n. nat_le n most) number).taken bytes.now) }
{
    let (n, rest) = read_number(bytes)?;
    if n > most {
        return Err(SnapRefusal::OutOfRange);
    }
    Ok((n, rest))
}

#[tactic(auto, unfolding(crate::specs::HartForms::flag))]
pub(crate) fn read_flag(bytes: &[u8]) -> Result<(bool, &[u8]), SnapRefusal>
    ensures { Gives (λ x. (x.0, x.1.now)) result (flag.taken bytes.now) }
{
    let (n, rest) = read_at_most(bytes, 1)?;
    Ok((n == 1, rest))
}

#[tactic(auto, unfolding(crate::specs::HartForms::place))]
pub(crate) fn read_place(bytes: &[u8]) -> Result<(Option<u8>, &[u8]), SnapRefusal>
    ensures { Gives (λ x. (x.0, x.1.now)) result (place.taken bytes.now) }
{
    let (n, rest) = read_at_most(bytes, MAX_ENTRIES as u64)?;
    if n == 0 {
        return Ok((None, rest));
    }
    Ok((Some((n - 1) as u8), rest))
}

// An instruction's address.
#[tactic(auto, unfolding(crate::specs::HartForms::multiple_of))]
pub(crate) fn read_pc(bytes: &[u8]) -> Result<(u64, &[u8]), SnapRefusal>
    ensures { Gives (λ x. (x.0, x.1.now)) result ((multiple_of instruction_size).taken bytes.now) }
{
    let (n, rest) = read_number(bytes)?;
    if n % INSTRUCTION_BYTES != 0 {
        return Err(SnapRefusal::OutOfRange);
    }
    Ok((n, rest))
}
