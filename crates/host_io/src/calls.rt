// Which calls of what stands in memory for the outside fail.
ghost use Rattle.std.specs.Prelude.{◌≡◌};
ghost use Rattle.spec_processor.specs.Counters.{next_count};
ghost use Rattle.host_io.specs.Held.{is_to_fail};

/// The number of the call after so many calls, where numbers end at the highest.
pub fn call_number(calls: u64) -> u64
    ensures { result ≡ next_count calls }
{
    calls.saturating_add(1)
}

/// Whether the call after so many calls is one of those that are to fail.
pub fn is_to_fail(failing: &[u64], calls: u64) -> bool
    ensures { result ≡ is_to_fail failing.now calls }
{
    failing.contains(&call_number(calls))
}
