// Time, and when it interrupts each hart.

ghost use Rattle.std.specs.Prelude.{◌≡◌, ◌<◌};
ghost use Rattle.sv_types.specs.Limits.{max_harts};
ghost use Rattle.sv_types.specs.Clock.{clock_at_boot, after_tick, timer_of, with_timer, timer_is_due};

use std::marker::Model;
use sv_types::MAX_HARTS;

/// How many harts have a timer.
pub(crate) const HARTS: usize = MAX_HARTS as usize;

/// A timer that never is due.
pub const NEVER: u64 = u64::MAX;

/// The time and the timers of four harts, in ticks.
#[derive(Drop)]
pub struct Clock {
    time: u64,
    timers: [u64; HARTS],
}

impl Model for Clock {
    ghost use Rattle.sv_types.specs.Clock.{Clock as State};

    ghost Value = { State };

    ghost view = { λ c. record { time = c.time; timers = c.timers } };
}

impl Clock {
    /// Time 0, with no timer set.
    pub fn new() -> Clock
        ensures { result ≡ clock_at_boot }
    {
        Clock {
            time: 0,
            timers: [NEVER; HARTS],
        }
    }

    /// A time, with the timers of four harts.
    pub fn from_values(time: u64, timers: [u64; HARTS]) -> Clock
        ensures { result ≡ record { time = time; timers = timers } }
    {
        Clock { time, timers }
    }

    /// Lets `n` ticks pass. Time stands still at its type's end.
    pub fn tick(&mut self, n: u64)
        ensures { self.new ≡ after_tick self.old n }
    {
        self.time = self.time.saturating_add(n);
    }

    /// The time.
    pub fn now(&self) -> u64
        ensures { result ≡ self.now.time }
    {
        self.time
    }

    /// Sets a hart's timer. 2^64 - 1 means never.
    pub fn set(&mut self, hart: u8, at: u64)
        requires is_hart { hart < max_harts }
        ensures { self.new ≡ with_timer self.old hart at }
    {
        self.timers[usize::from(hart)] = at;
    }

    /// A hart's timer.
    pub fn at(&self, hart: u8) -> u64
        requires is_hart { hart < max_harts }
        ensures { result ≡ timer_of self.now hart }
    {
        self.timers[usize::from(hart)]
    }

    /// Whether a hart's timer is set and time has reached it.
    pub fn due(&self, hart: u8) -> bool
        requires is_hart { hart < max_harts }
        ensures { result ≡ timer_is_due self.now hart }
    {
        let timer = self.at(hart);
        timer != NEVER && timer <= self.time
    }
}
