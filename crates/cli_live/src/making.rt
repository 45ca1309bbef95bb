// Events that are made at once, each with its place in the journal, and the console.
ghost use Rattle.std.specs.Prelude.{◌≡◌, ◌<◌, ◌≤◌, ◌+◌, ◌-◌, ◌++◌, ◌∷◌, ℕ, List, [], length, vec_len, OnOk, OnErr};
ghost use Rattle.sv_types.specs.Limits.{max_printed, max_events};
ghost use Rattle.sv_types.specs.declared.event.Event.{Event as Made};
ghost use Rattle.sv_types.specs.declared.event.Verdict.TheVariants.{Running};
ghost use Rattle.spec_reference.specs.Counting.{CountsAtMost};
ghost use Rattle.spec_hardware.specs.Reaches.{Cleared};
ghost use Rattle.live_keys.specs.Line.{max_keys, TookAllOf};
ghost use Rattle.live_keys.specs.Journal.{events_of, key_bytes, HasRoom};
ghost use Rattle.machine.specs.Standing.{HasState};
ghost use Rattle.cli_live.specs.Coming.{IsKey, MayCome};
ghost use Rattle.cli_live.specs.LiveRuns.{MayGoOn, MayStep, events_made};
ghost use Rattle.cli_live.specs.Drives.{GoesOn, Breaks, EndsInScript, Drives, MayDrive};
ghost use Rattle.host_io.specs.Outside.{MayWrite};

use crate::live_run::LiveRun;
use host_io::{Failed, Sink, write_all};
use live_keys::{Journal, KeyLine};
use machine::{Machine, flush_due};
use std::sync::Wait;
use sv_types::Event;

/// Writes all bytes of the console that stand.
pub fn show_console<O: Sink>(machine: &mut Machine, out: &mut O) -> Result<(), Failed>
    requires sink { MayWrite (O.state out.old) }
    ensures on { OnOk result ((made : List Made) → GoesOn made made machine.old machine.new (O.state out.old) (O.state out.new)) }
    ensures broke { OnErr result ((made : List Made) → Breaks (Unit {0}) made made machine.old machine.new (O.state out.old) (O.state out.new)) }
    ensures none { OnOk result (machine.new.journal.printed ≡ []) }
    ensures cleared { Cleared machine.old machine.new }
{
    write_all(out, machine.printed())?;
    machine.clear_printed();
    Ok(())
}

// One event, and the console where it is due.
fn make<O: Sink>(machine: &mut Machine, out: &mut O, event: Event) -> Result<(), Failed>
    requires sink { MayWrite (O.state out.old) }
    requires may { MayStep machine.old }
    requires came { MayCome machine.old.journal.verdict event }
    ensures on { OnOk result ((made : List Made) → GoesOn made (made ++ event ∷ []) machine.old machine.new (O.state out.old) (O.state out.new)) }
    ensures broke { OnErr result ((made : List Made) → Breaks ⊥ made (made ++ event ∷ []) machine.old machine.new (O.state out.old) (O.state out.new)) }
    ensures room { OnOk result (length machine.new.journal.printed < max_printed) }
    ensures state { HasState machine.new }
    ensures counts { (n : ℕ) → CountsAtMost n machine.old.journal.counts → CountsAtMost (n + 1) machine.new.journal.counts }
    ensures key { IsKey event → machine.new.journal.verdict ≡ machine.old.journal.verdict }
{
    machine.step(event);
    flush_due(machine, out)
}

// A key, which the journal gets after all events so far.
fn make_key<O: Sink>(
    machine: &mut Machine,
    journal: &mut Journal,
    out: &mut O,
    byte: u8,
) -> Result<(), Failed>
    requires sink { MayWrite (O.state out.old) }
    requires may { MayStep machine.old }
    requires places { HasRoom journal.old }
    requires few { vec_len journal.old.keys < max_keys }
    ensures on { OnOk result ((harts : ℕ) →
        GoesOn (events_of harts journal.old) (events_of harts journal.new) machine.old machine.new (O.state out.old) (O.state out.new)) }
    ensures broke { OnErr result ((harts : ℕ) →
        Breaks ⊥ (events_of harts journal.old) (events_of harts journal.new) machine.old machine.new (O.state out.old) (O.state out.new)) }
    ensures keys { key_bytes journal.new ≡ key_bytes journal.old ++ byte ∷ [] }
    ensures places { HasRoom journal.new }
    ensures autos { journal.new.autos ≡ journal.old.autos }
    ensures room { OnOk result (length machine.new.journal.printed < max_printed) }
    ensures state { HasState machine.new }
    ensures counts { (n : ℕ) → CountsAtMost n machine.old.journal.counts → CountsAtMost (n + 1) machine.new.journal.counts }
    ensures verdict { machine.new.journal.verdict ≡ machine.old.journal.verdict }
{
    journal.add_key(byte);
    make(machine, out, Event::Key(byte))
}

/// Each key that waits, at once.
pub fn make_keys<R: Wait, O: Sink>(
    rt: &R,
    live: &mut LiveRun,
    out: &mut O,
    line: &KeyLine,
) -> Result<(), Failed>
    requires may { MayDrive live.old line.now (O.state out.old) }
    requires autos { live.old.journal.autos ≤ max_events }
    ensures drives { Drives result live.old live.new (O.state out.old) (O.state out.new) }
    // A settled taker was given all that was sent.
    ensures whole { OnOk result (TookAllOf live.new.taker.all live.new.taker.bytes) }
    ensures script { live.new.script ≡ live.old.script }
    ensures autos { live.new.journal.autos ≡ live.old.journal.autos }
    ensures verdict { live.new.machine.journal.verdict ≡ live.old.machine.journal.verdict }
{
    'keys: while let Some(byte) = line.take(rt, &mut live.taker) {
        make_key(&mut live.machine, &mut live.journal, out, byte)?;
    }
    Ok(())
}

/// The next event of the script.
pub fn make_auto<O: Sink>(live: &mut LiveRun, out: &mut O) -> Result<(), Failed>
    requires sink { MayWrite (O.state out.old) }
    requires on { MayGoOn live.old }
    requires autos { live.old.journal.autos < max_events }
    requires running { live.old.machine.journal.verdict ≡ Running }
    ensures drives { Drives result live.old live.new (O.state out.old) (O.state out.new) }
    ensures drawn { EndsInScript (events_made live.new) }
    ensures taker { live.new.taker ≡ live.old.taker }
    ensures autos { live.new.journal.autos ≡ live.old.journal.autos + 1 }
{
    let Some(event) = live.script.next() else {
        unreachable!();
    };
    live.journal.add_auto();
    make(&mut live.machine, out, event)
}
