// The events of a run that are still to be made.

ghost use Rattle.std.specs.Prelude.{◌≡◌, ℕ, ◌+◌, ◌<◌, ◌^◌, ◌++◌, ◌≤◌, [], replicate, true, None, IfSome};
ghost use Rattle.sv_types.specs.Schedule.{first_events};
ghost use Rattle.machine.specs.Drawing.{count_left, events_left, events_with, is_used_up, IsAtHand};

use script::{EventRun, EventSource};
use sv_types::Event;

/// The first events of a source, drawn in rows of equal ones.
#[derive(Drop)]
pub struct Drawing<S> {
    source: S,
    // The events that are still to be drawn.
    undrawn: u64,
    // What was drawn and isn't made yet.
    batch: EventRun,
}

impl<S: EventSource> Drawing<S> {
    #[inline(always)]
    /// The first `events` of a source.
    pub fn new(source: S, events: u64) -> Drawing<S>
        ensures left { events_left S.schedule result ≡ first_events events (S.schedule source) }
        ensures further { (later : ℕ) → events_with later S.schedule result ≡ first_events (events + later) (S.schedule source) }
        ensures count { count_left result ≡ events }
    {
        Drawing {
            source,
            undrawn: events,
            batch: EventRun {
                event: Event::Beat,
                count: 0,
            },
        }
    }

    /// The next events that are equal. They stay until they were made. None where none is left.
    #[inline(always)]
    pub fn draw(&mut self) -> Option<EventRun>
        ensures batch { IfSome result (IsAtHand S.schedule self.old self.new) }
        ensures none { result ≡ None → events_left S.schedule self.old ≡ [] }
        ensures further { IfSome result (λ batch. (later : ℕ) → events_with later S.schedule self.new ≡ events_with later S.schedule self.old) }
        ensures end { result ≡ None → (later : ℕ) → (is_used_up self.old ≡ true → later ≡ 0) → events_with later S.schedule self.old ≡ [] }
    {
        if self.batch.count == 0 {
            if self.undrawn == 0 {
                return None;
            }
            self.batch = self.source.draw(self.undrawn)?;
            self.undrawn -= self.batch.count;
        }
        Some(self.batch)
    }

    /// So many of the equal events were made.
    #[inline(always)]
    pub fn count_down(&mut self, count: u64)
        requires { count ≤ self.old.batch.count }
        ensures left { events_left S.schedule self.old ≡ replicate count self.old.batch.event ++ events_left S.schedule self.new }
        ensures further { (later : ℕ) →
            events_with later S.schedule self.old ≡ replicate count self.old.batch.event ++ events_with later S.schedule self.new }
        ensures count { count_left self.new + count ≡ count_left self.old }
    {
        self.batch.count -= count;
    }

    /// No equal event is at hand, and none is to be drawn.
    #[inline(always)]
    pub fn is_used_up(&self) -> bool
        ensures { result ≡ is_used_up self.now }
    {
        self.batch.count == 0 && self.undrawn == 0
    }

    /// How many events are left at most: those at hand, and those that are still to be drawn.
    #[inline(always)]
    pub fn count_left(&self) -> u64
        requires { count_left self.now < 2 ^ 64 }
        ensures { result ≡ count_left self.now }
    {
        self.batch.count + self.undrawn
    }

    /// So many events more are to be drawn.
    #[inline(always)]
    pub fn ask(&mut self, more: u64)
        requires { self.old.undrawn + more < 2 ^ 64 }
        ensures { self.new ≡ record self.old { undrawn = self.old.undrawn + more } }
    {
        self.undrawn += more;
    }
}
