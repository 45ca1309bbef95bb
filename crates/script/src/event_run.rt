// Events in a row that are one and the same.
ghost use Rattle.std.specs.Prelude.{◌≡◌};

use sv_types::Event;

/// An event, and how often it comes in a row.
#[derive(Clone, Copy, Debug, PartialEq, Eq, Drop)]
pub struct EventRun {
    pub event: Event,
    pub count: u64,
}

impl EventRun {
    /// An event that comes once.
    pub fn once(event: Event) -> EventRun
        ensures event { result.event ≡ event }
        ensures count { result.count ≡ 1 }
    {
        EventRun { event, count: 1 }
    }
}
