// Masks of harts.

ghost use Rattle.std.specs.Prelude.{◌≡◌, ◌<◌};
ghost use Rattle.spec_reference.specs.Calls.{mask_exists};
ghost use Rattle.monitor_exits.specs.Masks.{all_exist, exists_one};
ghost use Rattle.spec_reference.specs.SbiFunctions.{mask_width};

use crate::{ALL_HARTS, MASK_WIDTH};
use spec_processor::has_bit;

/// Whether each hart that a mask and a base name exists.
#[tactic(auto, using(crate::proofs::Bits::by_bits))]
pub fn mask_exists(harts: u64, mask: u64, base: u64) -> bool
    ensures { result ≡ mask_exists harts mask base }
{
    base == ALL_HARTS || each_exists(harts, mask, base)
}

// Each hart that a bit names exists.
#[tactic(auto, using(crate::proofs::Bits::next_exists, crate::proofs::Bits::none_exists, crate::proofs::Bits::none_left))]
fn each_exists(harts: u64, mask: u64, base: u64) -> bool
    ensures { result ≡ all_exist harts mask base 0 mask_width }
{
    'bits: for i in 0..MASK_WIDTH {
        if !exists_one(harts, mask, base, i) {
            return false;
        }
    }
    true
}

// The hart that a bit names exists, or the bit names none.
fn exists_one(harts: u64, mask: u64, base: u64, i: u8) -> bool
    requires { i < mask_width }
    ensures { result ≡ exists_one harts mask base i }
{
    !has_bit(mask, i) || base < harts && u64::from(i) < harts - base
}
