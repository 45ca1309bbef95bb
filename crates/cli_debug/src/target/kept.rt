// A state of a run that is kept.
ghost use Rattle.std.specs.Prelude.{◌≡◌, ◌<◌, ◌^◌, IfOk, Ok, true};
ghost use Rattle.snapshot_format.specs.Snapshots as form;
ghost use Rattle.laws_resume.specs.EventCounts.{events_counted};
ghost use Rattle.cli_snap.specs.Encoding.{EncodesMachine};

use crate::target::beginning::Beginning;
use cli_snap::snapshot_bytes;
use machine::Machine;
use snapshot_format::reader::read;
use snapshot_format::{Snapshot, TextPage};
use std::alloc::{AllocError, Global};
use std::thread::Threads;

/// A state of a run: how many events are made, what the console printed, and the bytes of its machine's snapshot.
#[derive(Drop)]
pub struct Kept {
    made: u64,
    console: Vec<u8>,
    bytes: Vec<u8>,
}

impl Kept {
    ghost use Rattle.cli_debug.specs.Keeping.{GoesOnFrom};

    /// The state of a machine, whose text is this one, after so many events, of which the console printed these bytes.
    pub(crate) fn of(
        alloc: Global,
        machine: &Machine,
        text: &[TextPage],
        made: u64,
        console: &[u8],
    ) -> Result<Kept, AllocError>
        requires { events_counted machine.now.journal.counts < 2 ^ 64 }
        ensures made { IfOk result (λ kept. kept.made ≡ made) }
        ensures console { IfOk result (λ kept. kept.console.items ≡ console.now) }
        ensures bytes { IfOk result (λ kept. EncodesMachine machine.now text.now kept.bytes.items) }
    {
        let console = console.to_vec(alloc)?;
        let text = copied(alloc, text)?;
        let bytes = snapshot_bytes(alloc, machine, text)?;
        Ok(Kept {
            made,
            console,
            bytes,
        })
    }

    /// The events that are made.
    pub(crate) fn made(&self) -> u64
        ensures { result ≡ self.now.made }
    {
        self.made
    }

    /// What the console printed.
    pub(crate) fn console(&self, alloc: Global) -> Result<Vec<u8>, AllocError>
        ensures { IfOk result (λ console. console.items ≡ self.now.console.items) }
    {
        self.console.to_vec(alloc)
    }

    /// A machine that goes on from there, of the run that begins so.
    pub(crate) fn machine<R: Threads + Sync, B: Beginning>(
        &self,
        rt: &R,
        alloc: Global,
        beginning: &B,
    ) -> Result<Machine, AllocError>
        ensures { IfOk result (GoesOnFrom (B.start beginning.now).rules self.now.made self.now.bytes.items) }
    {
        let snapshot = read_again(alloc, &self.bytes)?;
        if self.made < snapshot.events {
            return Err(AllocError);
        }
        beginning.go_on(rt, alloc, snapshot)
    }
}

fn copied(alloc: Global, text: &[TextPage]) -> Result<Vec<TextPage>, AllocError>
    ensures { IfOk result (λ copy. copy.items ≡ text.now) }
{
    text.to_vec(alloc)
}

// The snapshot of bytes that were written of one, so that nothing but memory is left to fail.
fn read_again(alloc: Global, bytes: &[u8]) -> Result<Snapshot, AllocError>
    ensures snapshot { IfOk result (λ s. form.snapshot_read bytes.now ≡ Ok (form.contents s)) }
    ensures form { IfOk result (λ s. form.snapshot.has (form.contents s) ≡ true) }
{
    match read(alloc, bytes) {
        Ok(snapshot) => Ok(snapshot),
        Err(_) => Err(AllocError),
    }
}
