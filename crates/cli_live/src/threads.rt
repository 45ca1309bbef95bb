// The two threads of a live run: one reads the keys, the other drives the machine.
ghost use Rattle.std.specs.Prelude.{◌≡◌, ◌≢◌, ◌<◌, ◌≤◌, ◌-◌, ◌⊎◌, [], true, false, length, IsErr, OnOk, OnErr};
ghost use Rattle.sv_types.specs.Limits.{max_printed};
ghost use Rattle.sv_types.specs.declared.event.Verdict.TheVariants.{Running};
ghost use Rattle.sv_types.specs.Schedule.{Schedule, first_events};
ghost use Rattle.live_keys.specs.Feeding.{Feeds};
ghost use Rattle.live_keys.specs.Line.{TookAllOf};
ghost use Rattle.live_keys.specs.Placed.{keys_among, others_among};
ghost use Rattle.cli_live.specs.LiveRuns.{harts_of, events_made, IsUnderWay, MakesFew};
ghost use Rattle.cli_live.specs.Drives.{WentOn, BrokeOff, Drives, MayDrive, StaysUnderWay};
ghost use Rattle.cli_live.specs.Inputs.{HasKeys};
ghost use Rattle.host_io.specs.Outside.{MayWrite};
ghost use Rattle.spec_processor.specs.Counters.{CanCount};

use crate::host::Host;
use crate::live_run::LiveRun;
use host_io::{Failed, Sink};
use live_keys::{Fed, Feeder, KeyLine, Keys, Pace, law_journal_events};
use std::sync::Wait;
use std::thread::Threads;

/// The line that keys come by, and the end that feeds it.
#[derive(Drop)]
pub struct KeySource {
    pub line: KeyLine,
    pub feeder: Feeder,
}

/// How a live run ended.
#[derive(Clone, Copy, Drop)]
pub struct LiveEnd {
    /// A read of the keys failed, and none was read after it.
    pub read_failed: bool,
    /// A write failed, and no event was made after it.
    pub write_failed: bool,
}

impl LiveRun {
    // A second drive, where the first one didn't fail: it makes the keys that are left.
    fn drive_again<R: Wait, O: Sink, P: Pace>(
        &mut self,
        rt: &R,
        out: &mut O,
        line: &KeyLine,
        pace: &P,
        driven: Result<(), Failed>,
    ) -> Result<(), Failed>
        requires sink { OnOk driven (MayWrite (O.state out.old)) }
        requires room { OnOk driven (length self.old.machine.journal.printed < max_printed) }
        requires way { IsUnderWay self.old }
        requires few { MakesFew self.old }
        requires line { self.old.taker.line ≡ line.now }
        ensures first { OnErr driven (IsErr result) }
        ensures stays { OnErr driven ((self.new ≡ self.old) × (O.state out.new ≡ O.state out.old)) }
        ensures on { OnOk result (WentOn self.old self.new (O.state out.old) (O.state out.new)) }
        ensures console { OnOk result (self.new.machine.journal.printed ≡ []) }
        ensures broke { OnOk driven (OnErr result (BrokeOff self.old self.new (O.state out.old) (O.state out.new))) }
        ensures under { StaysUnderWay self.old self.new }
        ensures autos { self.new.journal.autos ≤ self.old.events }
        ensures end { OnOk result ((self.new.journal.autos ≡ self.old.events) ⊎ (self.new.machine.journal.verdict ≢ Running)) }
        ensures whole { OnOk result (TookAllOf self.new.taker.all self.new.taker.bytes) }
    {
        driven?;
        self.drive(rt, out, line, pace)
    }

    // Two threads, if a second one can be made, and else one after the other. The line's ends are parameters of their own.
    fn feed_and_drive<R: Threads + Wait + Sync, K: Keys + Send, O: Sink, P: Pace + Sync>(
        &mut self,
        host: &Host<'_, R, P>,
        line: &KeyLine,
        feeder: Feeder,
        keys: &mut K,
        out: &mut O,
    ) -> (Fed, Result<(), Failed>)
        requires feeder { (feeder.line ≡ line.now) × (feeder.bytes ≡ []) }
        requires reads { CanCount (K.state keys.old).faults }
        requires may { MayDrive self.old line.now (O.state out.old) }
        requires few { MakesFew self.old }
        ensures fed { Feeds line.now (K.state keys.old) (K.state keys.new) result.0.feeder result.0.failed }
        ensures drives { Drives result.1 self.old self.new (O.state out.old) (O.state out.new) }
        ensures console { OnOk result.1 (self.new.machine.journal.printed ≡ []) }
        ensures autos { self.new.journal.autos ≤ self.old.events }
    {
        let rt = host.rt;
        let pace = host.pace;
        line.feed_beside(
            rt,
            feeder,
            keys,
            pace,
            &mut || self.drive(rt, out, line, pace),
        )
    }

    /// Drives the machine while a second thread reads the keys, and then makes the keys that are left. Where no thread can be
    /// made, all keys are read first. It returns when the keys have ended and the machine has made its events.
    pub fn run<R: Threads + Wait + Sync, K: Keys + Send, O: Sink, P: Pace + Sync>(
        &mut self,
        host: &Host<'_, R, P>,
        source: KeySource,
        keys: &mut K,
        out: &mut O,
    ) -> LiveEnd
        requires source { (source.feeder.line ≡ source.line) × (source.feeder.bytes ≡ []) }
        requires reads { CanCount (K.state keys.old).faults }
        requires may { MayDrive self.old source.line (O.state out.old) }
        requires few { MakesFew self.old }
        // However the threads run, the machine has run over the events of the journal, and the sink took the console's bytes.
        ensures on { result.write_failed ≡ false → WentOn self.old self.new (O.state out.old) (O.state out.new) }
        ensures console { result.write_failed ≡ false → self.new.machine.journal.printed ≡ [] }
        ensures broke { result.write_failed ≡ true → BrokeOff self.old self.new (O.state out.old) (O.state out.new) }
        // The journal's keys are, in order and each once, the bytes that were read.
        ensures keys { HasKeys (K.state keys.old) (K.state keys.new) (keys_among (events_made self.new)) result }
        // Its other events are the first ones of the script, fewer than asked for only where the machine has ended.
        ensures others { others_among (events_made self.new) ≡ first_events self.new.journal.autos (Schedule.Auto (harts_of self.old.script) 0) }
        ensures autos { self.new.journal.autos ≤ self.old.events }
        ensures end { result.write_failed ≡ false → (self.new.journal.autos ≡ self.old.events) ⊎ (self.new.machine.journal.verdict ≢ Running) }
        ensures way { IsUnderWay self.new }
        ensures harts { harts_of self.new.script ≡ harts_of self.old.script }
        ensures events { self.new.events ≡ self.old.events }
    {
        let KeySource { line, feeder } = source;
        let (fed, driven) = self.feed_and_drive(host, &line, feeder, keys, out);
        let read_failed = fed.failed;
        line.settle(fed, &mut self.taker);
        let ended = self.drive_again(host.rt, out, &line, host.pace, driven);
        self.taker.law_taken();
        law_journal_events();
        LiveEnd {
            read_failed,
            write_failed: ended.is_err(),
        }
    }
}
