// All that goes on of a snapshot.

ghost use Rattle.std.specs.Prelude.{◌≡◌, ◌*◌, ◌≤◌, [], None, IfOk, IsTrue, length, map, replicate, true};
ghost use Rattle.spec_processor.specs.Bytes.{page_size};
ghost use Rattle.spec_processor.specs.Regions.{max_ram_pages};
ghost use Rattle.sv_types.specs.Limits.{max_notes};
ghost use Rattle.sv_types.specs.Policies.{rules_of, rules_within};
ghost use Rattle.gstage_tables.specs.Layout.{max_bound, table_size};
ghost use Rattle.spec_hardware.specs.StandsFor.{bound_pages};
ghost use Rattle.monitor_exits.specs.HwOfSlots.{hw_harts_of};
ghost use Rattle.module_gate.specs.Ascending.{AscendsFrom};
ghost use Rattle.page_guard.specs.Guarded.{TablesMatchGuard};
ghost use Rattle.snapshot_format.specs.Snapshots as form;
ghost use Rattle.snapshot_format.specs.Judgements.{approved_of, resume_refusal};
ghost use Rattle.laws_resume.specs.Resuming.{hw_resumed};
ghost use Rattle.sv_types.specs.declared.protection.Protection.TheVariants.{Free};
ghost use Rattle.machine.specs.Approving.{Approves};
ghost use Rattle.machine.specs.Parts.{AreResumed};
ghost use Rattle.machine.specs.Seating.{CanAllSit};

use crate::resumed::device_states::devices_of;
use crate::resumed::guard::approved_guard;
use crate::resumed::load::resume_loading;
use crate::resumed::slots::slots_of;
use gstage_tables::Trees;
use host_mem::HostMem;
use hw_devices::Devices;
use machine_journal::Journal;
use module_gate::{Gate, Modules};
use monitor_exits::HartSlot;
use page_guard::{Entries, Guard};
use snapshot_format::Snapshot;
use spec_reference::saved_machine::Saved;
use std::alloc::{AllocError, Global};
use sv_types::Policy;

/// What a machine that goes on has of its snapshot, and what guards it. It can't be dropped while a load is under way.
pub struct ResumedParts {
    pub mem: HostMem,
    pub guard: Guard,
    pub entries: Entries,
    pub slots: Vec<HartSlot>,
    pub modules: Modules,
    pub devices: Devices,
    pub journal: Journal,
}

/// The parts of a machine that goes on from a snapshot that isn't refused, under a policy whose values are within their limits.
/// `bound` has the page that each of its entries is bound to. Out of memory is the one refusal.
pub fn resume_parts(
    alloc: Global,
    snapshot: Snapshot,
    policy: &Policy,
    bound: &[u32],
) -> Result<ResumedParts, AllocError>
    requires within { IsTrue (rules_within (rules_of policy.now)) }
    requires bound { bound.now ≡ bound_pages (rules_of policy.now) }
    requires form { form.snapshot.has (form.contents snapshot) ≡ true }
    requires accepted { resume_refusal (rules_of policy.now) (form.contents snapshot) ≡ None }
    ensures { IfOk result (AreResumed (rules_of policy.now) (form.contents snapshot)) }
{
    let mut mem = region_of(alloc, &snapshot.machine.ram, policy.ram_pages, bound.len())?;
    let guard = approved_guard(alloc, &mut mem, policy, &snapshot, bound)?;
    assemble(alloc, snapshot, policy, mem, guard)
}

// A region with these bytes of RAM, and room for its tables, where so many entries are bound.
fn region_of(alloc: Global, ram: &[u8], ram_pages: u32, bound: usize) -> Result<HostMem, AllocError>
    requires few { ram_pages ≤ max_ram_pages }
    requires bound { bound ≤ max_bound }
    requires size { length ram.now ≡ page_size * ram_pages }
    ensures tables { IfOk result (λ m. length m.tables ≡ table_size ram_pages bound) }
    ensures ram { IfOk result (λ m. m.ram ≡ ram.now) }
{
    let tables = Trees::table_bytes(ram_pages as usize, bound);
    let mut mem = HostMem::new(alloc, tables, ram_pages as usize)?;
    mem.copy_in(tables, ram);
    Ok(mem)
}

/// The parts that are copies of the values of a snapshot and of its policy.
struct CopiedParts {
    entries: Entries,
    slots: Vec<HartSlot>,
    journal: Journal,
    gate: Gate,
}

// The copies, where RAM lies after so many bytes of tables.
fn copied_parts(
    alloc: Global,
    machine: &Saved,
    policy: &Policy,
    tables: usize,
) -> Result<CopiedParts, AllocError>
    requires within { IsTrue (rules_within (rules_of policy.now)) }
    requires each { CanAllSit tables (record { entries = (rules_of policy.now).entries; bound = (rules_of policy.now).bound }) machine.now.harts.items }
    requires notes { length machine.now.notes.items ≤ max_notes }
    requires ascends { AscendsFrom 0 machine.now.modules.items }
    ensures entries { IfOk result (λ p. p.entries ≡ record { entries = (rules_of policy.now).entries; bound = (rules_of policy.now).bound }) }
    ensures hw_all { IfOk result (λ p. hw_harts_of p.slots.items ≡ map (hw_resumed tables) machine.now.harts.items) }
    ensures number { IfOk result (λ p. length p.slots.items ≡ length machine.now.harts.items) }
    ensures journal { IfOk result (λ p.
        p.journal ≡ record { printed = []; notes = machine.now.notes.items; counts = machine.now.counts; verdict = machine.now.verdict }) }
    ensures gate { IfOk result (λ p. p.gate ≡ record { loaded = machine.now.modules.items; digests = []; retired = machine.now.retired }) }
{
    let entries = Entries::new(alloc, &policy.entries, &policy.bound)?;
    let slots = slots_of(alloc, &entries, tables, &machine.harts)?;
    let journal = Journal::from_values(alloc, machine.counts, &machine.notes, machine.verdict)?;
    let gate = Gate::from_values(alloc, &machine.modules, machine.retired)?;
    Ok(CopiedParts {
        entries,
        slots,
        journal,
        gate,
    })
}

// The parts over a region and its guard. The load comes last: it can't be dropped.
fn assemble(
    alloc: Global,
    snapshot: Snapshot,
    policy: &Policy,
    mut mem: HostMem,
    mut guard: Guard,
) -> Result<ResumedParts, AllocError>
    requires within { IsTrue (rules_within (rules_of policy.now)) }
    requires form { form.snapshot.has (form.contents snapshot) ≡ true }
    requires accepted { resume_refusal (rules_of policy.now) (form.contents snapshot) ≡ None }
    requires ram { mem.ram ≡ (form.contents snapshot).ram }
    requires guard { Approves (replicate policy.now.ram_pages Free) guard.pages (approved_of (rules_of policy.now) (form.contents snapshot)) }
    requires bound { guard.bound ≡ bound_pages (rules_of policy.now) }
    requires tables_match { TablesMatchGuard mem guard }
    ensures { IfOk result (AreResumed (rules_of policy.now) (form.contents snapshot)) }
{
    let Snapshot {
        events: _,
        machine,
        text: _,
    } = snapshot;
    let copied = copied_parts(alloc, &machine, policy, mem.table_bytes())?;
    let CopiedParts {
        entries,
        slots,
        journal,
        mut gate,
    } = copied;
    let loading = resume_loading(&mut gate, &mut guard, &mut mem, policy, &machine.loading);
    let devices = devices_of(
        machine.port,
        machine.disk,
        &machine.console,
        machine.time,
        &machine.harts,
    );
    Ok(ResumedParts {
        mem,
        guard,
        entries,
        slots,
        modules: Modules { gate, loading },
        devices,
        journal,
    })
}
