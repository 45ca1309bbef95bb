// Bursts of one hart after another.

ghost use Rattle.std.specs.Prelude.{◌≡◌, ◌<◌, ◌≤◌, Some};
ghost use Rattle.sv_types.specs.declared.event.Event.TheVariants.{Turn};
ghost use Rattle.sv_types.specs.Schedule.{Schedule, next_event, after_event};
ghost use Rattle.script.specs.Runs.{Draws};
ghost use Rattle.script.specs.HartCounts.{IsHartCount};

use crate::drawn::{burst_length, drawn_hart, event_among, random_after, turns_ahead};
use crate::event_run::EventRun;
use std::marker::Model;
use sv_types::Event;

/// Events drawn by the generator of `Auto`, where the turns are one hart's for the length of a burst.
#[derive(Drop)]
pub struct Bursts {
    harts: u8,
    // The hart of the burst that has begun.
    hart: u8,
    // Its events that are left. Where there are none, the next burst is drawn first.
    left: u64,
    // The number after which the next event is drawn.
    number: u64,
}

impl Model for Bursts {
    ghost use Rattle.std.specs.Prelude.{◌<◌, ◌≤◌};
    ghost use Rattle.sv_types.specs.Limits.{max_harts};
    ghost use Rattle.sv_types.specs.Schedule.{Schedule, Bursts as Drawn};

    ghost Value = { Schedule };

    ghost view = { λ b. Drawn b.harts b.hart b.left b.number };

    ghost invariant = { λ b. (0 < b.harts) × (b.harts ≤ max_harts) };
}

impl Bursts {
    /// The first burst is drawn after the number `k`.
    pub fn new(harts: u8, k: u64) -> Bursts
        requires harts { IsHartCount harts }
        ensures { result ≡ Schedule.Bursts harts 0 0 k }
    {
        Bursts {
            harts,
            hart: 0,
            left: 0,
            number: k,
        }
    }

    #[inline(always)]
    pub fn next(&mut self) -> Event
        ensures event { Some result ≡ next_event self.old }
        ensures rest { self.new ≡ after_event self.old }
    {
        let number = random_after(self.number);
        if self.left > 0 {
            self.left -= 1;
            self.number = number;
            return event_among(self.hart, number);
        }
        let ahead = random_after(number);
        self.hart = drawn_hart(self.harts, number);
        self.left = burst_length(number) - 1;
        self.number = ahead;
        event_among(self.hart, ahead)
    }

    /// The next event and those after it that are the same, at most `most`. A row ends with its burst at the latest.
    #[inline(always)]
    pub fn next_run(&mut self, most: u64) -> EventRun
        requires { 0 < most }
        ensures event { Some result.event ≡ next_event self.old }
        ensures draws { Draws result.count result.event self.old self.new }
        ensures some { 0 < result.count }
        ensures most { result.count ≤ most }
    {
        let event = self.next();
        let more = self.draw_more(event, most - 1);
        EventRun {
            event,
            count: more + 1,
        }
    }

    // Draws turns after one of the burst's hart, at most so many. Answers how many. Any other event is drawn by itself.
    #[inline(always)]
    fn draw_more(&mut self, event: Event, most: u64) -> u64
        ensures draws { Draws result event self.old self.new }
        ensures most { result ≤ most }
    {
        match event {
            Event::Turn(hart) => self.draw_turns(hart, most),
            Event::Beat | Event::Key(_) | Event::Tick(_) | Event::Poke { .. } => 0,
        }
    }

    // Draws turns of the burst's hart as long as the burst lasts and the next event is one, at most so many. Answers how many.
    #[inline(always)]
    fn draw_turns(&mut self, hart: u8, most: u64) -> u64
        ensures draws { Draws result (Turn hart) self.old self.new }
        ensures most { result ≤ most }
    {
        if hart != self.hart {
            return 0;
        }
        let turns = turns_ahead(self.number, most.min(self.left));
        self.number = turns.number;
        self.left -= turns.count;
        turns.count
    }
}
