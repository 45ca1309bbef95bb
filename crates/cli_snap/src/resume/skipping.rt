// A script after its first events.
ghost use Rattle.std.specs.Prelude.{◌≡◌, ◌+◌, ◌-◌, ◌≤◌};
ghost use Rattle.sv_types.specs.Schedule.{first_events};
ghost use Rattle.cli_snap.specs.ResumePlans.{events_after};

use script::Script;

/// What is left of the first events of a script when so many of them were made before.
#[derive(Drop)]
pub struct Left {
    pub script: Script,
    pub events: u64,
}

/// The first `events` of a script without the first `made` ones, which may be all of them.
pub fn events_left(script: Script, made: u64, events: u64) -> Left
    ensures left { first_events result.events result.script ≡ events_after made events script }
    ensures few { result.events ≤ events - made }
{
    if events <= made {
        return Left { script, events: 0 };
    }
    skip(script, made, events - made)
}

// After the first `made` events so many are left, or fewer where the script ends. Those before are drawn and made by nobody.
fn skip(script: Script, made: u64, events: u64) -> Left
    ensures left { first_events result.events result.script ≡ events_after made (made + events) script }
    ensures few { result.events ≤ events }
{
    let mut left = script;
    let mut undrawn = made;
    'rows: while undrawn > 0 {
        let Some(row) = left.next_run(undrawn) else {
            return Left {
                script: left,
                events: 0,
            };
        };
        undrawn -= row.count;
    }
    Left {
        script: left,
        events,
    }
}
