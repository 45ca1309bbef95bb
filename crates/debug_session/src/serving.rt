// A session from its beginning to its end.
ghost use Rattle.std.specs.Prelude.{◌≡◌, OnOk, true};
ghost use Rattle.spec_processor.specs.Counters.{CanCount};
ghost use Rattle.host_io.specs.Outside.{MayWrite};
ghost use Rattle.debug_session.specs.Runs.{Run};
ghost use Rattle.debug_session.specs.Serving.{Serves, Steps};

use crate::breakdown::Breakdown;
use crate::desk::Desk;
use crate::host::Host;
use crate::performing::take_arrival;
use crate::target::Target;
use gdb_protocol::PacketReader;
use host_io::{Sink, write_all};
use live_keys::Keys;
use std::alloc::{AllocError, Global};
use std::thread::Threads;

// A byte comes in.
#[tactic(auto, using(crate::proofs::ServingSteps::nothing_arrives, crate::proofs::ServingSteps::something_arrives))]
fn take_byte<T: Target, R: Threads + Sync>(
    host: &Host<'_, R>,
    target: &mut T,
    desk: &mut Desk,
    reader: &mut PacketReader,
    byte: u8,
    out: &mut Vec<u8>,
) -> Result<(), AllocError>
    requires goes_on { desk.old.goes_on ≡ true }
    ensures { OnOk result ((run : Run) → T.stands target.old run →
        Steps T.stands run desk.old reader.old byte out.old.items target.new desk.new reader.new out.new.items) }
{
    match reader.take(byte) {
        Some(arrival) => take_arrival(host, target, desk, arrival, reader.payload(), out),
        None => Ok(()),
    }
}

/// Serves a debugger: its bytes come in by `keys`, and what is written on them goes out, until it goes away or no byte is left.
pub fn serve<R: Threads + Sync, T: Target, K: Keys, O: Sink>(
    rt: &R,
    alloc: Global,
    target: &mut T,
    keys: &mut K,
    out: &mut O,
) -> Result<(), Breakdown>
    requires sink { MayWrite (O.state out.old) }
    requires count { CanCount (K.state keys.old).faults }
    // For all bytes that come in, those that are written are the frames of the session's answers.
    ensures headline { Serves T.stands target.old (K.state keys.old) (K.state keys.new) (O.state out.old) (O.state out.new) result }
{
    let host = Host { rt, alloc };
    let mut desk = Desk::new(alloc);
    let mut reader = PacketReader::new(alloc)?;
    let mut bytes = Vec::new(alloc);
    'bytes: for _ in 0..u64::MAX {
        if !desk.goes_on {
            return Ok(());
        }
        let Ok(next) = keys.next() else {
            return Err(Breakdown::Read);
        };
        let Some(byte) = next else {
            return Ok(());
        };
        bytes.clear();
        take_byte(&host, target, &mut desk, &mut reader, byte, &mut bytes)?;
        write_all(out, &bytes)?;
    }
    Ok(())
}
