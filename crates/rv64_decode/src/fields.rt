// The fields of a word: opcode, function codes, register numbers and immediates.

ghost use Rattle.std.specs.Prelude.{◌≡◌, ◌+◌, ◌-◌, ◌^◌, ◌<◌, ◌≤◌};
ghost use Rattle.spec_processor.specs.Instructions as table;

// The bits from `low` up to below `high`.
pub fn bits(word: u32, low: u32, high: u32) -> u32
    requires some { low < high }
    requires width { high - low < 32 }
    requires within { high ≤ 32 }
    ensures value { result ≡ table.bits word low high }
    ensures bound { result < 2 ^ (high - low) }
{
    (word >> low) % (1 << (high - low))
}

// A number of `width` bits, read as signed.
pub fn sign_extended(width: u32, value: u32) -> i64
    requires some { 0 < width }
    requires most { width ≤ 32 }
    requires within { value < 2 ^ width }
    ensures { result ≡ table.signed_bits width value }
{
    if i64::from(value) < 1 << (width - 1) {
        i64::from(value)
    } else {
        i64::from(value) - (1 << width)
    }
}

pub fn opcode(word: u32) -> u32
    ensures { result ≡ table.bits word 0 7 }
{
    bits(word, 0, 7)
}

pub fn funct3(word: u32) -> u32
    ensures value { result ≡ table.bits word 12 15 }
    ensures bound { result < 8 }
{
    bits(word, 12, 15)
}

pub fn funct7(word: u32) -> u32
    ensures { result ≡ table.bits word 25 32 }
{
    bits(word, 25, 32)
}

pub fn rd(word: u32) -> u8
    ensures { result ≡ table.rd word }
{
    bits(word, 7, 12) as u8
}

pub fn rs1(word: u32) -> u8
    ensures { result ≡ table.rs1 word }
{
    bits(word, 15, 20) as u8
}

pub fn rs2(word: u32) -> u8
    ensures { result ≡ table.rs2 word }
{
    bits(word, 20, 25) as u8
}

pub fn imm_i(word: u32) -> i64
    ensures { result ≡ table.imm_i word }
{
    sign_extended(12, bits(word, 20, 32))
}

pub fn imm_s(word: u32) -> i64
    ensures { result ≡ table.imm_s word }
{
    sign_extended(12, bits(word, 7, 12) + 0x20 * bits(word, 25, 32))
}

pub fn imm_b(word: u32) -> i64
    ensures { result ≡ table.imm_b word }
{
    let low = 2 * bits(word, 8, 12) + 0x20 * bits(word, 25, 31);
    sign_extended(
        13,
        low + 0x800 * bits(word, 7, 8) + 0x1000 * bits(word, 31, 32),
    )
}

pub fn imm_u(word: u32) -> i64
    ensures { result ≡ table.imm_u word }
{
    sign_extended(32, 0x1000 * bits(word, 12, 32))
}

pub fn imm_j(word: u32) -> i64
    ensures { result ≡ table.imm_j word }
{
    let low = 2 * bits(word, 21, 31) + 0x800 * bits(word, 20, 21);
    sign_extended(
        21,
        low + 0x1000 * bits(word, 12, 20) + 0x10_0000 * bits(word, 31, 32),
    )
}

pub fn aq(word: u32) -> bool
    ensures { result ≡ table.aq word }
{
    bits(word, 26, 27) == 1
}

pub fn rl(word: u32) -> bool
    ensures { result ≡ table.rl word }
{
    bits(word, 25, 26) == 1
}
