// Keys that a second thread reads.
ghost use Rattle.std.specs.Prelude.{◌≡◌, ◌<◌, ◌-◌, []};
ghost use Rattle.live_keys.specs.Feeding.{IsFresh, Feeds};
ghost use Rattle.spec_processor.specs.Counters.{CanCount};

use crate::keys::{Keys, Pace};
use crate::line::{Fed, Feeder, KeyLine};
use std::sync::Wait;
use std::thread::{Threads, join_mut};

// Feeds from a place that holds the feeder. A closure that may be called again can't give away what it holds.
fn feed_from<R: Wait, K: Keys, P: Pace>(
    rt: &R,
    line: &KeyLine,
    place: &mut Option<Feeder>,
    keys: &mut K,
    pace: &P,
) -> Fed
    requires fresh { IsFresh line.now place.old }
    requires count { CanCount (K.state keys.old).faults }
    ensures { Feeds line.now (K.state keys.old) (K.state keys.new) result.feeder result.failed }
{
    let Some(feeder) = place.take() else {
        unreachable!();
    };
    line.feed(rt, feeder, keys, pace)
}

impl KeyLine {
    /// Feeds the line on a second thread while `work` runs on this one; where no thread can be made, one after the other.
    pub fn feed_beside<
        R: Threads + Wait + Sync,
        K: Keys + Send,
        P: Pace + Sync,
        F: FnMut() -> T,
        T,
    >(&self, rt: &R, feeder: Feeder, keys: &mut K, pace: &P, work: &mut F) -> (Fed, T)
        requires line { feeder.line ≡ self.now }
        requires fresh { feeder.bytes ≡ [] }
        requires count { CanCount (K.state keys.old).faults }
        requires work { F.pre work.old }
        ensures fed { Feeds self.now (K.state keys.old) (K.state keys.new) result.0.feeder result.0.failed }
        ensures worked { F.step work.old result.1 work.new }
    {
        let mut place = Some(feeder);
        join_mut(
            rt,
            &mut || feed_from(rt, self, &mut place, keys, pace),
            work,
        )
    }
}
