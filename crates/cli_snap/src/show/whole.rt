// What is shown of a snapshot.
ghost use Rattle.std.specs.Prelude.{◌≡◌, IfOk, option_map, string_bytes};
ghost use Rattle.elf64_load.specs.KernelViews.{names_view};
ghost use Rattle.snapshot_format.specs.Snapshots.{contents};
ghost use Rattle.cli_snap.specs.PageTexts.{page_texts};
ghost use Rattle.cli_snap.specs.SnapshotTexts as spec;

use crate::show::devices::{console_line, disk_line, port_line};
use crate::show::harts::push_harts;
use crate::show::modules::{push_init, push_load, push_modules};
use crate::show::pages::push_pages;
use elf64_load::symbols::KernelNames;
use report::report;
use snapshot_format::Snapshot;
use std::alloc::{AllocError, Global};
use sv_types::Protection;

/// What is shown of a snapshot, line by line: its events and its time in ticks; each hart with its registers by name; the
/// pages of RAM by how they are guarded, as runs; modules, the load under way and whether init pages are retired; the
/// devices; and the report that a run that ended here would print. With a kernel's names, the name of its code stands after a
/// hart's pc, ra, stvec and sepc, where it has one. Out of memory is the one refusal.
#[tactic(auto, unfolding(crate::specs::SnapshotTexts::snapshot_text))]
pub fn snapshot_text(
    alloc: Global,
    snapshot: &Snapshot,
    names: Option<KernelNames<'_>>,
) -> Result<Vec<u8>, AllocError>
    ensures { IfOk result (λ t. t.items ≡ spec.snapshot_text (option_map names_view names.entry) (contents snapshot.now)) }
{
    let machine = &snapshot.machine;
    let mut text = Vec::new(alloc);
    let head = head_line(alloc, snapshot.events, machine.time)?;
    text.extend_from_slice(head.as_str().as_bytes())?;
    push_harts(alloc, &mut text, names, &machine.harts)?;
    text.extend_from_slice(page_lines(alloc, &machine.protection)?.as_str().as_bytes())?;
    text.extend_from_slice(gate_lines(alloc, snapshot)?.as_str().as_bytes())?;
    text.extend_from_slice(device_lines(alloc, snapshot)?.as_str().as_bytes())?;
    let report = report(alloc, &machine.notes, machine.verdict, &machine.counts)?;
    text.extend_from_slice(report.as_str().as_bytes())?;
    Ok(text)
}

fn page_lines(alloc: Global, protection: &[Protection]) -> Result<String, AllocError>
    ensures { IfOk result (λ t. string_bytes t ≡ page_texts protection.now) }
{
    let mut text = String::new(alloc);
    push_pages(alloc, &mut text, protection)?;
    Ok(text)
}

#[tactic(auto, unfolding(crate::specs::SnapshotTexts::head_line))]
fn head_line(alloc: Global, events: u64, time: u64) -> Result<String, AllocError>
    ensures { IfOk result (λ t. string_bytes t ≡ spec.head_line events time) }
{
    format!(in alloc; "events {events} time {time}\n")
}

#[tactic(auto, unfolding(crate::specs::SnapshotTexts::gate_lines))]
fn gate_lines(alloc: Global, snapshot: &Snapshot) -> Result<String, AllocError>
    ensures { IfOk result (λ t. string_bytes t ≡ spec.gate_lines (contents snapshot.now)) }
{
    let mut text = String::new(alloc);
    push_modules(alloc, &mut text, &snapshot.machine.modules)?;
    push_load(alloc, &mut text, snapshot.machine.loading)?;
    push_init(&mut text, snapshot.machine.retired)?;
    Ok(text)
}

#[tactic(auto, unfolding(crate::specs::SnapshotTexts::device_lines))]
fn device_lines(alloc: Global, snapshot: &Snapshot) -> Result<String, AllocError>
    ensures { IfOk result (λ t. string_bytes t ≡ spec.device_lines (contents snapshot.now)) }
{
    let mut text = console_line(alloc, &snapshot.machine.console)?;
    text.push_str(port_line(alloc, &snapshot.machine.port)?.as_str())?;
    text.push_str(disk_line(alloc, &snapshot.machine.disk)?.as_str())?;
    Ok(text)
}
