// Where events come from.

ghost use Rattle.std.specs.Prelude.{◌≡◌, ◌<◌, ◌≤◌, IfSome, option_map};
ghost use Rattle.sv_types.specs.Schedule.{Schedule, next_event, after_event};
ghost use Rattle.script.specs.Runs.{BeginsWith};

use crate::burst::Bursts;
use crate::event_run::EventRun;
use crate::listed::Listed;
use crate::schedules::{Auto, Rounds, Weave};
use sv_types::Event;

/// Where events come from, in runs of equal ones. A loop over one kind of source asks for its kind no more.
pub trait EventSource {
    // what is still to come
    ghost schedule: { Self → Schedule };

    /// The next event and those after it that are the same, at most `most`, which leave the source. None exactly at the end.
    fn draw(&mut self, most: u64) -> Option<EventRun>
        requires { 0 < most }
        ensures event { option_map (λ run. run.event) result ≡ next_event (schedule self.old) }
        ensures first { IfSome result (λ run. BeginsWith (schedule self.old) run (schedule self.new)) }
        ensures some { IfSome result (λ run. 0 < run.count) }
        ensures most { IfSome result (λ run. run.count ≤ most) };

    /// The next event, which leaves the source. None exactly at the end.
    fn draw_one(&mut self) -> Option<Event>
        ensures event { result ≡ next_event (schedule self.old) }
        ensures rest { schedule self.new ≡ after_event (schedule self.old) };
}

impl EventSource for Listed {
    ghost schedule = { λ listed. listed };

    fn draw(&mut self, most: u64) -> Option<EventRun> {
        self.next_run(most)
    }

    fn draw_one(&mut self) -> Option<Event> {
        self.next()
    }
}

impl EventSource for Rounds {
    ghost schedule = { λ rounds. rounds };

    #[inline(always)]
    fn draw(&mut self, most: u64) -> Option<EventRun> {
        Some(self.next_run(most))
    }

    #[inline(always)]
    fn draw_one(&mut self) -> Option<Event> {
        Some(self.next())
    }
}

impl EventSource for Weave {
    ghost schedule = { λ weave. weave };

    #[inline(always)]
    fn draw(&mut self, most: u64) -> Option<EventRun> {
        Some(self.next_run(most))
    }

    #[inline(always)]
    fn draw_one(&mut self) -> Option<Event> {
        Some(self.next())
    }
}

impl EventSource for Auto {
    ghost schedule = { λ auto. auto };

    #[inline(always)]
    fn draw(&mut self, most: u64) -> Option<EventRun> {
        Some(self.next_run(most))
    }

    #[inline(always)]
    fn draw_one(&mut self) -> Option<Event> {
        Some(self.next())
    }
}

impl EventSource for Bursts {
    ghost schedule = { λ bursts. bursts };

    #[inline(always)]
    fn draw(&mut self, most: u64) -> Option<EventRun> {
        Some(self.next_run(most))
    }

    #[inline(always)]
    fn draw_one(&mut self) -> Option<Event> {
        Some(self.next())
    }
}
