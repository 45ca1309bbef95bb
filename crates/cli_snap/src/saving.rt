// A machine, saved as a snapshot.
ghost use Rattle.std.specs.Prelude.{◌≡◌, ◌<◌, ◌-◌, ◌^◌, [], ◌∷◌, Some, IfOk, IsTrue};
ghost use Rattle.laws_resume.specs.EventCounts.{events_counted};
ghost use Rattle.machine.specs.Standing.{HasState};
ghost use Rattle.secvisor_cli.specs.Answers.{AfterSave};
ghost use Rattle.cli_plans.specs.Plans.{Exactly};
ghost use Rattle.cli_snap.specs.Encoding.{EncodesMachine, SavesMachine};
ghost use Rattle.spec_processor.specs.Counters.{CanCount};
ghost use Rattle.host_io.specs.Outside.{MaySaveUnder};

use host_io::Files;
use machine::Machine;
use secvisor_cli::Trouble;
use snapshot_format::writer::write;
use snapshot_format::{Snapshot, TextPage};
use std::alloc::{AllocError, Global};
use sv_types::Counts;

/// Saves a machine with its text under a name.
pub fn save_snapshot<F: Files>(
    alloc: Global,
    machine: &Machine,
    text: Vec<TextPage>,
    name: &str,
    files: &mut F,
) -> Result<(), Trouble>
    requires state { HasState machine.now }
    requires few { events_counted machine.now.journal.counts < 2 ^ 64 }
    requires permitted { MaySaveUnder name.now (F.state files.old) }
    requires count { CanCount (F.state files.old).save_faults }
    ensures { SavesMachine machine.now text.items name.now (F.state files.old) (F.state files.new) result }
{
    let bytes = snapshot_bytes(alloc, machine, text)?;
    save_bytes(name, &bytes, files)
}

#[tactic(auto, using(secvisor_cli::proofs::SaveLemmas::saved_exactly, secvisor_cli::proofs::SaveLemmas::broke_exactly))]
fn save_bytes<F: Files>(name: &str, bytes: &[u8], files: &mut F) -> Result<(), Trouble>
    requires permitted { IsTrue ((F.state files.old).permits_save ((name.now, bytes.now) ∷ [])) }
    requires count { CanCount (F.state files.old).save_faults }
    ensures { AfterSave (Some (record { name = name.now; content = Exactly bytes.now })) (F.state files.old) (F.state files.new) result }
{
    Ok(files.save(name, bytes)?)
}

/// The bytes of a snapshot of a machine as it is now, with this text: its pages and their digests. The machine has counted fewer
/// than 2^64 events. Out of memory is the one refusal.
pub fn snapshot_bytes(
    alloc: Global,
    machine: &Machine,
    text: Vec<TextPage>,
) -> Result<Vec<u8>, AllocError>
    requires few { events_counted machine.now.journal.counts < 2 ^ 64 }
    ensures { IfOk result (λ bytes. EncodesMachine machine.now text.items bytes.items) }
{
    let saved = machine.saved(alloc)?;
    let snapshot = Snapshot {
        events: events_made(machine.counts()),
        machine: saved,
        text,
    };
    write(alloc, &snapshot)
}

// The events that were made while the machine ran: each raised one of these counts.
fn events_made(counts: Counts) -> u64
    requires { events_counted counts < 2 ^ 64 }
    ensures { result ≡ events_counted counts }
{
    counts.turns + (counts.beats + (counts.keys + counts.ticks))
}
