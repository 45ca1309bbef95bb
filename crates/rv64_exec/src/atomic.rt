// What an atomic operation stores.

ghost use Rattle.std.specs.Prelude.{◌≡◌, ◌⊎◌, ◌%◌, ◌^◌};
ghost use Rattle.spec_processor.specs.Effects as table;
ghost use Rattle.std.specs.Int.{w32, w64};

use crate::word::low_word;
use rv64_decode::AmoOp;

/// The value that an atomic operation stores, from the value that it read and its source. At a width of 4 bytes it
/// takes both by their low 32 bits, and its value is below 2^32.
#[tactic(auto, unfolding(spec_processor::specs::Effects::amo_value))]
pub fn amo(op: AmoOp, width: u8, old: u64, src: u64) -> u64
    requires { (width ≡ 4) ⊎ (width ≡ 8) }
    ensures { result ≡ table.amo_value op width old src }
{
    if width == 4 {
        u64::from(amo_word(op, low_word(old), low_word(src)))
    } else {
        amo_double(op, old, src)
    }
}

#[tactic(auto, unfolding(spec_processor::specs::Effects::amo_word))]
fn amo_word(op: AmoOp, low_old: u32, low_src: u32) -> u32
    ensures { result ≡ table.low_word (table.amo_word w32 op low_old low_src) }
{
    match op {
        AmoOp::Amoswap => low_src,
        AmoOp::Amoadd => low_old.wrapping_add(low_src),
        AmoOp::Amoxor => low_old ^ low_src,
        AmoOp::Amoand => low_old & low_src,
        AmoOp::Amoor => low_old | low_src,
        AmoOp::Amomin => low_old
            .cast_signed()
            .min(low_src.cast_signed())
            .cast_unsigned(),
        AmoOp::Amomax => low_old
            .cast_signed()
            .max(low_src.cast_signed())
            .cast_unsigned(),
        AmoOp::Amominu => low_old.min(low_src),
        AmoOp::Amomaxu => low_old.max(low_src),
    }
}

#[tactic(auto, using(crate::proofs::WordLemmas::or_whole, crate::proofs::WordLemmas::xor_whole), unfolding(spec_processor::specs::Effects::amo_word))]
fn amo_double(op: AmoOp, old: u64, src: u64) -> u64
    ensures { result ≡ table.amo_word w64 op old src % 2 ^ 64 }
{
    match op {
        AmoOp::Amoswap => src,
        AmoOp::Amoadd => old.wrapping_add(src),
        AmoOp::Amoxor => old ^ src,
        AmoOp::Amoand => old & src,
        AmoOp::Amoor => old | src,
        AmoOp::Amomin => old.cast_signed().min(src.cast_signed()).cast_unsigned(),
        AmoOp::Amomax => old.cast_signed().max(src.cast_signed()).cast_unsigned(),
        AmoOp::Amominu => old.min(src),
        AmoOp::Amomaxu => old.max(src),
    }
}
