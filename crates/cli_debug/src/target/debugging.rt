// A run is debugged.
ghost use Rattle.std.specs.Prelude.{◌≤◌};
ghost use Rattle.spec_processor.specs.Counters.{CanCount};
ghost use Rattle.sv_types.specs.Limits.{max_events};
ghost use Rattle.sv_types.specs.Schedule.{first_events};
ghost use Rattle.host_io.specs.Outside.{MayWrite};
ghost use Rattle.cli_debug.specs.Debugged.{run_from};
ghost use Rattle.cli_debug.specs.Debugging.{Debugs};

use crate::target::beginning::Beginning;
use crate::target::debugged::DebuggedMachine;
use debug_session::{Breakdown, serve};
use host_io::Sink;
use live_keys::Keys;
use std::alloc::Global;
use std::thread::Threads;

/// Debugs a run of at most so many events: gdb's bytes come in by `keys`, and what is written on them goes out.
pub fn debug<R: Threads + Sync, B: Beginning + Drop, K: Keys, O: Sink>(
    rt: &R,
    alloc: Global,
    beginning: B,
    events: u64,
    keys: &mut K,
    out: &mut O,
) -> Result<(), Breakdown>
    requires few { events ≤ max_events }
    requires sink { MayWrite (O.state out.old) }
    requires count { CanCount (K.state keys.old).faults }
    // For all bytes that come in, those that are written are the frames of the answers of a session over the reference machine's
    // run, each from its state after the events that the packets have made.
    ensures headline { Debugs (run_from (B.kernel beginning) (B.start beginning) (first_events events (B.schedule beginning)))
        (K.state keys.old) (K.state keys.new) (O.state out.old) (O.state out.new) result }
{
    let mut target = DebuggedMachine::new(rt, alloc, beginning, events)?;
    serve(rt, alloc, &mut target, keys, out)
}
