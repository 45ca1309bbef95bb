// Where in an instruction, or in data, a value stands.

ghost use Rattle.std.specs.Prelude.{◌≡◌, ◌+◌, ◌-◌, ◌^◌, ◌<◌, ◌≤◌};
ghost use Rattle.spec_processor.specs.Instructions.{bits};
ghost use Rattle.spec_reference.specs.Relocations as spec;
ghost use Rattle.page_measure.specs.Fields.{field_view};

use sv_types::{LOW_VALUES, RelocationKind};

/// How many values the upper part has: the 20 bits of `lui` and `auipc`.
const UPPER_VALUES: u64 = 1 << 20;
/// The distances that a branch reaches: 13 signed bits, and even.
const BRANCH_LOWEST: i64 = -4096;

const BRANCH_HIGHEST: i64 = 4094;
/// The distances that a jump reaches: 21 signed bits, and even.
const JUMP_LOWEST: i64 = -1_048_576;

const JUMP_HIGHEST: i64 = 1_048_574;
/// The values that an upper and a low part make: 32 signed bits, less what the upper part is rounded by.
const PARTS_LOWEST: i64 = -2_147_485_696;

const PARTS_HIGHEST: i64 = 2_147_481_599;

/// 8 bytes of data, or the immediate of an instruction's format.
#[derive(Clone, Copy, Drop)]
pub(crate) enum Field {
    DoubleWord,
    Branch,
    Jump,
    Upper,
    Immediate,
    Store,
}

/// The field of a relocation's kind.
pub(crate) fn field_of(kind: RelocationKind) -> Field
    ensures { field_view result ≡ spec.field_of kind }
{
    match kind {
        RelocationKind::Word64 => Field::DoubleWord,
        RelocationKind::Branch => Field::Branch,
        RelocationKind::Jal => Field::Jump,
        RelocationKind::PcrelHi20 | RelocationKind::Hi20 => Field::Upper,
        RelocationKind::PcrelLo12I | RelocationKind::Lo12I => Field::Immediate,
        RelocationKind::PcrelLo12S | RelocationKind::Lo12S => Field::Store,
    }
}

/// The bits of the word that the field takes.
pub(crate) fn field_bits(field: Field) -> u64
    ensures { result ≡ spec.field_bits (field_view field) }
{
    match field {
        Field::DoubleWord => u64::MAX,
        Field::Branch | Field::Store => 0xFE00_0F80,
        Field::Jump | Field::Upper => 0xFFFF_F000,
        Field::Immediate => 0xFFF0_0000,
    }
}

// The bits of a value from `low` up to below `high`.
fn bits(value: u64, low: u32, high: u32) -> u64
    requires some { low < high }
    requires width { high - low < 32 }
    requires within { high ≤ 32 }
    ensures value { result ≡ bits value low high }
    ensures bound { result < 2 ^ (high - low) }
{
    (value >> low) % (1 << (high - low))
}

// The upper 20 bits, rounded so that a low part of 12 signed bits makes the value whole.
fn upper(value: u64) -> u64
    ensures value { result ≡ bits (value + 0x800) 12 32 }
    ensures bound { result < 2 ^ 20 }
{
    ((value as u128 + (LOW_VALUES / 2) as u128) / LOW_VALUES as u128 % UPPER_VALUES as u128) as u64
}

/// A value as it stands in the field.
pub(crate) fn in_field(field: Field, value: u64) -> u64
    ensures { result ≡ spec.in_field (field_view field) value }
{
    match field {
        Field::DoubleWord => value,
        Field::Branch => {
            0x80 * bits(value, 11, 12)
                + 0x100 * bits(value, 1, 5)
                + 0x200_0000 * bits(value, 5, 11)
                + 0x8000_0000 * bits(value, 12, 13)
        }
        Field::Jump => {
            0x1000 * bits(value, 12, 20)
                + 0x10_0000 * bits(value, 11, 12)
                + 0x20_0000 * bits(value, 1, 11)
                + 0x8000_0000 * bits(value, 20, 21)
        }
        Field::Upper => LOW_VALUES * upper(value),
        Field::Immediate => 0x10_0000 * bits(value, 0, 12),
        Field::Store => 0x80 * bits(value, 0, 5) + 0x200_0000 * bits(value, 5, 12),
    }
}

// Whether a value, read as a signed number, is from `low` to `high`.
fn is_between(low: i64, high: i64, value: u64) -> bool
    ensures { result ≡ spec.from_to low high value }
{
    let signed = value.cast_signed();
    low <= signed && signed <= high
}

/// Whether the field holds all of the value.
pub(crate) fn value_fits(field: Field, value: u64) -> bool
    ensures { result ≡ spec.value_fits (field_view field) value }
{
    match field {
        Field::DoubleWord => true,
        Field::Branch => is_between(BRANCH_LOWEST, BRANCH_HIGHEST, value) && value % 2 == 0,
        Field::Jump => is_between(JUMP_LOWEST, JUMP_HIGHEST, value) && value % 2 == 0,
        _ => is_between(PARTS_LOWEST, PARTS_HIGHEST, value),
    }
}
