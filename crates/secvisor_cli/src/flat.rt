// The command `flat`.
ghost use Rattle.std.specs.Prelude.{◌≡◌, ◌<◌, ◌≤◌, ◌-◌, ◌%◌, IsTrue, length};
ghost use Rattle.spec_processor.specs.Bytes.{page_size};
ghost use Rattle.sv_types.specs.Limits.{max_events};
ghost use Rattle.sv_types.specs.Boot.{max_flat_bytes};
ghost use Rattle.cli_plans.specs.Plans.{flat_plan, flat_events, is_whole_pages, measure_judged};
ghost use Rattle.cli_plans.specs.Reading.{MayFollow};
ghost use Rattle.secvisor_cli.specs.Ready.{IsReady, Prepares};
ghost use Rattle.spec_processor.specs.Counters.{CanCount};

use crate::parts::read_part;
use crate::ready::{PreparedRun, Ready, Stop};
use cli_plans::{FileFault, Flat, Part, Refusal};
use host_io::Files;
use machine::Machine;
use script::rounds;
use spec_processor::PAGE_SIZE;
use std::alloc::Global;
use std::thread::Threads;
use sv_types::{Digest, FLAT_PAGES};

/// The most bytes of plain pages.
pub const MAX_FLAT_BYTES: usize = FLAT_PAGES * PAGE_SIZE;

/// Reads the pages, judges and measures them, and boots a machine.
pub fn prepare_flat<R: Threads + Sync, F: Files>(
    rt: &R,
    alloc: Global,
    flat: &Flat<'_>,
    files: &mut F,
) -> Result<Ready<'static>, Stop>
    requires permitted { MayFollow (flat_plan flat.now.file.now flat.now.wanted flat.now.events) (F.state files.old) }
    requires reads { CanCount (F.state files.old).read_faults }
    requires events { flat.now.events ≤ max_events }
    ensures { Prepares (flat_plan flat.now.file.now flat.now.wanted flat.now.events) (F.state files.old) (F.state files.new) result }
{
    let bytes = read_part(alloc, files, Part::Flat, flat.file, MAX_FLAT_BYTES)?;
    if !is_whole_pages(&bytes) {
        return Err(Stop::Refused(Refusal::File {
            fault: FileFault::FlatPages,
        }));
    }
    boot(rt, alloc, &bytes, flat.wanted, flat.events)
}

fn is_whole_pages(bytes: &[u8]) -> bool
    ensures value { result ≡ is_whole_pages bytes.now }
    ensures whole { IsTrue result → length bytes.now % page_size ≡ 0 }
{
    bytes.len() > 0 && bytes.len() % PAGE_SIZE == 0
}

// Measured pages, booted; each event is a turn of the one hart.
fn boot<R: Threads + Sync>(
    rt: &R,
    alloc: Global,
    pages: &[u8],
    wanted: Digest,
    events: u64,
) -> Result<Ready<'static>, Stop>
    requires whole { length pages.now % page_size ≡ 0 }
    requires size { length pages.now ≤ max_flat_bytes }
    requires events { events ≤ max_events }
    ensures { IsReady (measure_judged pages.now wanted (flat_events events)) result }
{
    let machine = Machine::flat(rt, alloc, pages, wanted)?;
    let script = rounds(1);
    Ok(Ready::Run(PreparedRun {
        machine,
        script,
        events,
        save: None,
    }))
}
