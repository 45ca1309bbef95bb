// Loaded values.

ghost use Rattle.std.specs.Prelude.{◌≡◌, ◌<◌, ◌^◌};
ghost use Rattle.spec_processor.specs.Regions.{IsWidth};
ghost use Rattle.spec_processor.specs.Requests.{loaded_value};

/// A word of `width` bytes that was read as a register takes it.
#[tactic(auto, unfolding(spec_processor::specs::Requests::loaded_value))]
#[inline(always)]
pub fn loaded_value(signed: bool, width: u8, word: u64) -> u64
    requires width { IsWidth width }
    requires small { word < 256 ^ width }
    ensures { result ≡ loaded_value signed width word }
{
    if !signed {
        return word;
    }
    match width {
        1 => i64::from((word as u8).cast_signed()).cast_unsigned(),
        2 => i64::from((word as u16).cast_signed()).cast_unsigned(),
        4 => i64::from((word as u32).cast_signed()).cast_unsigned(),
        _ => word,
    }
}
