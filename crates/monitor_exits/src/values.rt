// Loaded values.

ghost use Rattle.std.specs.Prelude.{◌≡◌};
ghost use Rattle.spec_processor.specs.Requests.{loaded_value};

/// A loaded value as a register takes it.
#[tactic(auto, unfolding(spec_processor::specs::Requests::loaded_value))]
pub(crate) fn loaded_value(signed: bool, width: u8, value: u64) -> u64
    ensures { result ≡ loaded_value signed width value }
{
    let most = match width {
        1 => 0xFF,
        2 => 0xFFFF,
        4 => 0xFFFF_FFFF,
        _ => u64::MAX,
    };
    if !signed || value <= most / 2 {
        value
    } else {
        u64::MAX - most.saturating_sub(value)
    }
}
