// The machine's loop. It runs on one thread; what another does is known only by the line.
ghost use Rattle.std.specs.Prelude.{◌≡◌, ◌≢◌, ◌<◌, ◌≤◌, ◌+◌, ◌-◌, ◌⊎◌, [], OnOk};
ghost use Rattle.sv_types.specs.Limits.{max_events};
ghost use Rattle.sv_types.specs.declared.event.Verdict.TheVariants.{Running};
ghost use Rattle.live_keys.specs.Line.{TookAllOf};
ghost use Rattle.cli_live.specs.LiveRuns.{MakesFew, MayGoOn, events_made};
ghost use Rattle.cli_live.specs.Drives.{EndsInScript, Drives, MayDrive};
ghost use Rattle.host_io.specs.Outside.{MayWrite};

use crate::live_run::LiveRun;
use crate::making::{make_auto, make_keys, show_console};
use host_io::{Failed, Sink};
use live_keys::{KeyLine, Pace};
use std::sync::Wait;
use sv_types::Verdict;

// Of so many events one has the console shown after it, so that a person sees a line that isn't ended.
const SHOWN_EVERY: u64 = 4096;

// The console, every so many events.
fn show_often<O: Sink>(live: &mut LiveRun, out: &mut O) -> Result<(), Failed>
    requires sink { MayWrite (O.state out.old) }
    requires on { MayGoOn live.old }
    requires drawn { EndsInScript (events_made live.old) }
    ensures drives { Drives result live.old live.new (O.state out.old) (O.state out.new) }
    ensures taker { live.new.taker ≡ live.old.taker }
    ensures script { live.new.script ≡ live.old.script }
    ensures journal { live.new.journal ≡ live.old.journal }
{
    if live.journal.autos % SHOWN_EVERY == 0 {
        show_console(&mut live.machine, out)?;
    }
    Ok(())
}

// The keys that wait, and then an event of the script.
fn make_round<R: Wait, O: Sink, P: Pace>(
    rt: &R,
    live: &mut LiveRun,
    out: &mut O,
    line: &KeyLine,
    pace: &P,
) -> Result<(), Failed>
    requires may { MayDrive live.old line.now (O.state out.old) }
    requires autos { live.old.journal.autos < max_events }
    requires running { live.old.machine.journal.verdict ≡ Running }
    ensures drives { Drives result live.old live.new (O.state out.old) (O.state out.new) }
    ensures autos { OnOk result (live.new.journal.autos ≡ live.old.journal.autos + 1) }
    ensures most { live.new.journal.autos ≤ live.old.journal.autos + 1 }
{
    pace.begin(live.journal.autos);
    make_keys(rt, live, out, line)?;
    make_auto(live, out)?;
    show_often(live, out)
}

// The events of the script up to their number or the verdict, each after the keys that wait.
fn make_autos<R: Wait, O: Sink, P: Pace>(
    rt: &R,
    live: &mut LiveRun,
    out: &mut O,
    line: &KeyLine,
    pace: &P,
) -> Result<(), Failed>
    requires may { MayDrive live.old line.now (O.state out.old) }
    requires few { MakesFew live.old }
    ensures drives { Drives result live.old live.new (O.state out.old) (O.state out.new) }
    ensures autos { live.new.journal.autos ≤ live.old.events }
    ensures end { OnOk result ((live.new.journal.autos ≡ live.old.events) ⊎ (live.new.machine.journal.verdict ≢ Running)) }
{
    'events: while live.journal.autos < live.events {
        if live.machine.verdict() != Verdict::Running {
            return Ok(());
        }
        make_round(rt, live, out, line, pace)?;
    }
    Ok(())
}

impl LiveRun {
    /// Makes the events of the script up to their number or the verdict, each after the keys that wait, then the keys that
    /// wait, and shows the console. It takes no memory.
    pub fn drive<R: Wait, O: Sink, P: Pace>(
        &mut self,
        rt: &R,
        out: &mut O,
        line: &KeyLine,
        pace: &P,
    ) -> Result<(), Failed>
        requires may { MayDrive self.old line.now (O.state out.old) }
        requires few { MakesFew self.old }
        // The machine has run over the events of the journal, and the sink took the console's bytes: all that were printed, or
        // those before a write that failed.
        ensures drives { Drives result self.old self.new (O.state out.old) (O.state out.new) }
        ensures console { OnOk result (self.new.machine.journal.printed ≡ []) }
        ensures autos { self.new.journal.autos ≤ self.old.events }
        // Fewer events than asked for only where the machine has ended.
        ensures end { OnOk result ((self.new.journal.autos ≡ self.old.events) ⊎ (self.new.machine.journal.verdict ≢ Running)) }
        // A settled taker was given all that was sent.
        ensures whole { OnOk result (TookAllOf self.new.taker.all self.new.taker.bytes) }
    {
        make_autos(rt, self, out, line, pace)?;
        pace.note_end();
        make_keys(rt, self, out, line)?;
        show_console(&mut self.machine, out)
    }
}
