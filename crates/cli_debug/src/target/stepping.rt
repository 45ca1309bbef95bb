// Equal events of a machine in a row, and its console.
ghost use Rattle.std.specs.Prelude.{◌≡◌, ◌<◌, ◌≤◌, ◌-◌, ◌+◌, ◌++◌, ℕ, [], OnOk, IfSome, Some, drop, if◌then◌else◌, is_ok, replicate};
ghost use Rattle.sv_types.specs.Schedule.{first_events};
ghost use Rattle.sv_types.specs.declared.event.Verdict.TheVariants.{Running};
ghost use Rattle.spec_reference.specs.Counting.{CountsAtMost};
ghost use Rattle.spec_reference.specs.Run.{run};
ghost use Rattle.spec_reference.specs.States.{State};
ghost use Rattle.spec_hardware.specs.Reaches.{Cleared};
ghost use Rattle.spec_hardware.specs.StandsFor.{StandsFor};
ghost use Rattle.machine.specs.Limits.{max_counts};
ghost use Rattle.debug_session.specs.Runs.{turning};
ghost use Rattle.cli_snap.specs.ResumePlans.{events_after};
ghost use Rattle.cli_debug.specs.Debugged.{StandsIn};
ghost use Rattle.cli_debug.specs.Upcoming.{most_upcoming, next_of, upcoming};

use cli_snap::resume::events_left;
use machine::Machine;
use script::{EventRun, Script};
use std::alloc::AllocError;
use sv_types::{Event, Verdict};

/// Makes an event up to `count` times, no more of it after one that printed or that ended the run, and takes what was printed to
/// the console's bytes. Answers how often.
pub(crate) fn make_row(
    machine: &mut Machine,
    event: Event,
    count: u64,
    console: &mut Vec<u8>,
) -> (u64, Result<(), AllocError>)
    requires some { 0 < count }
    requires few { count ≤ max_counts }
    requires none { machine.old.journal.printed ≡ [] }
    requires counts { CountsAtMost (max_counts - count) machine.old.journal.counts }
    ensures stands { OnOk result.1 ((r : State) → StandsIn machine.old console.old.items r →
        StandsIn machine.new console.new.items (run r (replicate result.0 event))) }
    ensures running { (r : State) → StandsFor machine.old r → machine.old.journal.verdict ≡ Running → (k : ℕ) → k < result.0 →
        (run r (replicate k event)).journal.verdict ≡ Running }
    ensures none { machine.new.journal.printed ≡ [] }
    ensures counts { (n : ℕ) → CountsAtMost n machine.old.journal.counts → CountsAtMost (n + result.0) machine.new.journal.counts }
    ensures some { 0 < result.0 }
    ensures most { result.0 ≤ count }
{
    let made = machine.repeat(event, count);
    let told = take_printed(machine, console);
    (made, told)
}

// Takes what was printed to the console's bytes. Mostly nothing was.
fn take_printed(machine: &mut Machine, console: &mut Vec<u8>) -> Result<(), AllocError>
    ensures cleared { Cleared machine.old machine.new }
    ensures none { machine.new.journal.printed ≡ [] }
    ensures taken { console.new.items ≡ (if is_ok result then console.old.items ++ machine.old.journal.printed else console.old.items) }
{
    let printed = machine.printed();
    if printed.is_empty() {
        return Ok(());
    }
    let told = console.extend_from_slice(printed);
    machine.clear_printed();
    told
}

/// How many of some equal events are asked of a machine at once: one, where the run has ended.
pub(crate) fn row_asked(verdict: Verdict, count: u64, most: u64) -> u64
    ensures count { 0 < count → result ≤ count }
    ensures most { 0 < most → result ≤ most }
    ensures some { 0 < count → 0 < most → 0 < result }
    ensures running { 1 < result → verdict ≡ Running }
{
    match verdict {
        Verdict::Running => count.min(most),
        Verdict::Shutdown | Verdict::Stopped { .. } => 1,
    }
}

/// The hart whose turn the events at hand are.
pub(crate) fn turning(row: Option<EventRun>) -> Option<u8>
    ensures { result ≡ turning (next_of row) }
{
    match row?.event {
        Event::Turn(hart) => Some(hart),
        Event::Beat | Event::Key(_) | Event::Tick(_) | Event::Poke { .. } => None,
    }
}

/// The next equal events of a script of which so many may still be drawn.
pub(crate) fn draw(script: &mut Script, left: u64) -> (Option<EventRun>, u64)
    ensures same { upcoming result.0 result.1 script.new ≡ first_events left script.old }
    ensures fewer { most_upcoming result.0 result.1 ≤ left }
    ensures some { IfSome result.0 (λ row. 0 < row.count) }
{
    if left == 0 {
        return (None, 0);
    }
    let Some(row) = script.next_run(left) else {
        return (None, 0);
    };
    (Some(row), left - row.count)
}

/// The same of a script whose first `made` events were made before, with the script after it.
pub(crate) fn draw_after(script: Script, events: u64, made: u64) -> (Script, Option<EventRun>, u64)
    ensures same { upcoming result.1 result.2 result.0 ≡ events_after made events script }
    ensures fewer { most_upcoming result.1 result.2 ≤ events - made }
    ensures some { IfSome result.1 (λ row. 0 < row.count) }
{
    let mut left = events_left(script, made, events);
    let (next, more) = draw(&mut left.script, left.events);
    (left.script, next, more)
}

/// What is at hand after so many of the events at hand takes their place.
pub(crate) fn after_row(
    script: &mut Script,
    next: &mut Option<EventRun>,
    left: &mut u64,
    row: EventRun,
    made: u64,
)
    requires { made ≤ row.count }
    ensures same { upcoming next.new left.new script.new ≡ drop made (upcoming (Some row) left.old script.old) }
    ensures fewer { most_upcoming next.new left.new + made ≤ row.count + left.old }
    ensures some { IfSome next.new (λ row. 0 < row.count) }
{
    if made == row.count {
        let (drawn, rest) = draw(script, *left);
        *next = drawn;
        *left = rest;
        return;
    }
    *next = Some(EventRun {
        event: row.event,
        count: row.count - made,
    });
}
