// Breaks.
ghost use Rattle.std.specs.Prelude.{◌≡◌, ◌==◌, not, OnOk};
ghost use Rattle.debug_session.specs.Sessions as spec;

use crate::motion::has_number;
use std::alloc::AllocError;

/// A break is set, once.
pub(crate) fn set_break(breaks: &mut Vec<u64>, place: u64) -> Result<(), AllocError>
    ensures { OnOk result (breaks.new.items ≡ spec.with_break breaks.old.items place) }
{
    if has_number(breaks, place) {
        return Ok(());
    }
    if breaks.push(place).is_err() {
        return Err(AllocError);
    }
    Ok(())
}

fn is_other(number: u64, place: u64) -> bool
    ensures { result ≡ not (number == place) }
{
    number != place
}

/// A break is cleared.
pub(crate) fn clear_break(breaks: &mut Vec<u64>, place: u64)
    ensures { breaks.new.items ≡ spec.without_break breaks.old.items place }
{
    breaks.retain(|b| is_other(*b, place));
}
