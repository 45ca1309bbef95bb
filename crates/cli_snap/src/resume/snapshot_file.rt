// A snapshot's file.
ghost use Rattle.std.specs.Prelude.{◌≡◌, ◌<◌, ◌-◌, true, IfOk};
ghost use Rattle.secvisor_cli.specs.Ready.{MayStage, Staged};
ghost use Rattle.snapshot_format.specs.Snapshots as form;
ghost use Rattle.cli_snap.specs.ResumePlans.{snapshot_part};
ghost use Rattle.cli_snap.specs.ResumeReady.{IsSnapshot};
ghost use Rattle.spec_processor.specs.Counters.{CanCount};

use cli_plans::{FileFault, Part, Refusal};
use host_io::Files;
use secvisor_cli::{Stop, read_part};
use snapshot_format::Snapshot;
use snapshot_format::reader::{MAX_SNAPSHOT_BYTES, ReadError, read};
use std::alloc::Global;

/// The snapshot of a name, which is judged. Its bytes don't stay.
pub fn read_snapshot<F: Files>(alloc: Global, name: &str, files: &mut F) -> Result<Snapshot, Stop>
    requires permitted { MayStage (snapshot_part name.now) (F.state files.old) }
    requires reads { CanCount (F.state files.old).read_faults }
    ensures stage { Staged (snapshot_part name.now) form.contents (F.state files.old) (F.state files.new) result }
    ensures form { IfOk result (λ s. form.snapshot.has (form.contents s) ≡ true) }
{
    let bytes = read_part(alloc, files, Part::Snapshot, name, MAX_SNAPSHOT_BYTES)?;
    judge_snapshot(alloc, &bytes)
}

fn judge_snapshot(alloc: Global, bytes: &[u8]) -> Result<Snapshot, Stop>
    ensures snapshot { IsSnapshot (form.snapshot_read bytes.now) result }
    ensures form { IfOk result (λ s. form.snapshot.has (form.contents s) ≡ true) }
{
    match read(alloc, bytes) {
        Ok(snapshot) => Ok(snapshot),
        Err(ReadError::Refused(refusal)) => Err(Stop::Refused(Refusal::File {
            fault: FileFault::Snapshot(refusal),
        })),
        Err(ReadError::Memory) => Err(Stop::Memory),
    }
}
