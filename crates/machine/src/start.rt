// The machine before its first event.

ghost use Rattle.std.specs.Prelude.{◌≡◌, ◌+◌, [], ◌≤◌, ◌*◌, ◌/◌, ◌%◌, ◌↔◌, length, replicate, true, false, None, IfOk, OnOk, IfErr, IsTrue};
ghost use Rattle.spec_processor.specs.Bytes.{page_size};
ghost use Rattle.sv_types.specs.Boot.{flat_ram_pages, max_flat_bytes};
ghost use Rattle.sv_types.specs.Limits.{max_harts};
ghost use Rattle.sv_types.specs.Measure.{digests_of, measure};
ghost use Rattle.sv_types.specs.Policies.{rules_of};
ghost use Rattle.gstage_tables.specs.Layout.{max_bound, table_size};
ghost use Rattle.page_guard.specs.Guarded.{TablesMatchGuard, Guards};
ghost use Rattle.monitor_exits.specs.HwOfSlots.{hw_at, hw_harts_of};
ghost use Rattle.spec_reference.specs.Start.{flat_rules, flat_start};
ghost use Rattle.spec_hardware.specs.Reaches.{IsNew};
ghost use Rattle.spec_hardware.specs.StandsFor.{bound_pages};
ghost use Rattle.module_gate.specs.Gates.{no_modules};
ghost use Rattle.laws_resume.specs.Starts.{hw_at_boot, hw_harts_at_boot, machine_at_boot, first_approved, flat_ram, flat_machine, journal_at_boot, IsGuarded};
ghost use Rattle.hw_devices.specs.Ports.{port_disk};
ghost use Rattle.hw_tlb.specs.Usable.{nothing_kept};
ghost use Rattle.machine.specs.Boot.{RefusesFlat};

use crate::boot::BootRefusal;
use crate::events::System;
use gstage_tables::Trees;
use hart::{Cpu, Hart};
use host_mem::HostMem;
use hw_devices::{Devices, Port};
use hw_fast_path::MicroOpCache;
use hw_platform::Hardware;
use hw_tlb::HartCaches;
use machine_journal::Journal;
use module_gate::Modules;
use monitor_exits::HartSlot;
use page_guard::{Entries, Guard, PrivilegeView};
use page_measure::{Silent, digest_chunks, join_digests};
use secvisor_core::Visor;
use spec_processor::{PAGE_SIZE, RAM_BASE};
use std::alloc::{AllocError, Global};
use std::thread::Threads;
use sv_types::{Digest, FLAT_PAGES, FLAT_TRAP_OFFSET, PLAIN_FORMAT, Policy, Span};

/// The permitted entries of a machine of plain pages.
const FLAT_ENTRIES: [u64; 2] = [RAM_BASE, RAM_BASE + FLAT_TRAP_OFFSET];

/// A machine under a policy, with pages that are guarded already and a disk behind its device: hart 0 begins at an entry, the others are stopped.
#[tactic(auto, using(crate::proofs::Starting::empty_at_first), unfolding(laws_resume::specs::Starts::machine_at_boot))]
pub(crate) fn at_boot(
    alloc: Global,
    policy: Policy,
    mem: HostMem,
    guard: Guard,
    port: Port,
    entry: u64,
) -> Result<System, AllocError>
    requires tables_match { TablesMatchGuard mem guard }
    requires pages { length guard.pages ≡ policy.ram_pages }
    requires places { guard.bound ≡ bound_pages (rules_of policy) }
    requires along { length policy.bound.items ≤ length policy.entries.items }
    requires few { length policy.bound.items ≤ max_bound }
    requires one { 1 ≤ policy.harts }
    requires four { policy.harts ≤ max_harts }
    ensures { IfOk result (λ p. p ≡ machine_at_boot (rules_of policy) mem entry guard.pages (port_disk port)) }
{
    let Begun {
        entries,
        slots,
        caches,
        modules,
        journal,
        cpu,
        words,
    } = Begun::new(alloc, &policy, entry)?;
    Ok(System {
        hardware: Hardware {
            mem,
            slots,
            caches,
            devices: Devices::new(port),
            cpu,
            words,
            cleared: 0,
        },
        visor: Visor {
            policy,
            entries,
            guard,
            modules,
        },
        journal,
    })
}

/// A machine of 16 pages of RAM with these pages at their start, all of them approved, where the hart begins. It has
/// one hart, no modules and an empty disk. The pages are measured first: the SHA-256 of the pages' SHA-256 digests
/// has to be the digest that is wanted.
#[tactic(auto, unfolding(laws_resume::specs::Starts::machine_at_boot, laws_resume::specs::Starts::flat_machine))]
pub(crate) fn flat<R: Threads + Sync>(
    rt: &R,
    alloc: Global,
    pages: &[u8],
    wanted: Digest,
) -> Result<System, BootRefusal>
    requires whole { length pages.now % page_size ≡ 0 }
    requires size { length pages.now ≤ max_flat_bytes }
    ensures start { IfOk result (λ p. p ≡ flat_machine p.region.tables pages.now wanted) }
    ensures new { IfOk result (λ p. IsNew p (flat_start pages.now wanted)) }
    ensures journal { IfOk result (λ p. p.journal ≡ journal_at_boot) }
    ensures guarded { IfOk result IsGuarded }
    ensures measured { OnOk result (measure pages.now ≡ wanted) }
    ensures refused { IfErr result (RefusesFlat pages.now wanted) }
{
    let _digests = judge_measure(rt, alloc, pages, wanted)?;
    Ok(assemble(alloc, pages, wanted)?)
}

/// What a machine begins with besides its memory and its devices.
pub(crate) struct Begun {
    pub(crate) entries: Entries,
    pub(crate) slots: Vec<HartSlot>,
    pub(crate) caches: Vec<HartCaches>,
    pub(crate) modules: Modules,
    pub(crate) journal: Journal,
    pub(crate) cpu: Cpu,
    pub(crate) words: MicroOpCache,
}

impl Begun {
    /// The permitted entries of a policy and its harts, of which the first begins at an entry. No module is loaded, and nothing is
    /// recorded or kept.
    pub(crate) fn new(alloc: Global, policy: &Policy, entry: u64) -> Result<Begun, AllocError>
        requires along { length policy.now.bound.items ≤ length policy.now.entries.items }
        requires few { length policy.now.bound.items ≤ max_bound }
        requires one { 1 ≤ policy.now.harts }
        ensures entries { IfOk result (λ b. b.entries ≡ record { entries = policy.now.entries.items; bound = policy.now.bound.items }) }
        ensures hw_all { IfOk result (λ b. hw_harts_of b.slots.items ≡ hw_harts_at_boot policy.now.harts entry) }
        ensures number { IfOk result (λ b. length b.slots.items ≡ policy.now.harts) }
        ensures caches { IfOk result (λ b. b.caches.items ≡ replicate policy.now.harts nothing_kept) }
        ensures gate { IfOk result (λ b. b.modules.gate ≡ no_modules) }
        ensures loading { IfOk result (λ b. b.modules.loading ≡ None) }
        ensures journal { IfOk result (λ b. b.journal ≡ journal_at_boot) }
        ensures attempts { IfOk result (λ b. b.words + b.cpu ≡ 0) }
    {
        let entries = Entries::new(alloc, &policy.entries, &policy.bound)?;
        let slots = slots_at_boot(alloc, policy.harts, entry)?;
        let journal = Journal::new(alloc)?;
        let Idle { caches, cpu, words } = Idle::new(alloc, policy.harts)?;
        let modules = Modules::new(alloc)?;
        Ok(Begun {
            entries,
            slots,
            caches,
            modules,
            journal,
            cpu,
            words,
        })
    }
}

/// What a machine makes its attempts with, before the first of them.
pub(crate) struct Idle {
    pub(crate) caches: Vec<HartCaches>,
    pub(crate) cpu: Cpu,
    pub(crate) words: MicroOpCache,
}

impl Idle {
    /// Nothing is kept for any hart, and no attempt is counted.
    pub(crate) fn new(alloc: Global, harts: u8) -> Result<Idle, AllocError>
        ensures caches { IfOk result (λ idle. idle.caches.items ≡ replicate harts nothing_kept) }
        ensures attempts { IfOk result (λ idle. idle.words + idle.cpu ≡ 0) }
    {
        let caches = empty_caches(alloc, harts)?;
        let cpu = Cpu::new(alloc)?;
        let words = MicroOpCache::new(alloc)?;
        Ok(Idle { caches, cpu, words })
    }
}

// ---- harts

fn slot_at_boot() -> HartSlot
    ensures { hw_at result ≡ hw_at_boot 0 false }
{
    HartSlot {
        hart: Hart::at_boot(),
        privilege: PrivilegeView::at_boot(),
    }
}

fn first_slot(entry: u64) -> HartSlot
    ensures { hw_at result ≡ hw_at_boot entry true }
{
    let mut slot = slot_at_boot();
    slot.hart.core.pc = entry;
    slot.hart.started = true;
    slot
}

fn slots_at_boot(alloc: Global, harts: u8, entry: u64) -> Result<Vec<HartSlot>, AllocError>
    requires { 1 ≤ harts }
    ensures hw_all { IfOk result (λ slots. hw_harts_of slots.items ≡ hw_harts_at_boot harts entry) }
    ensures number { IfOk result (λ slots. length slots.items ≡ harts) }
{
    let mut slots = Vec::new(alloc);
    slots.push(first_slot(entry))?;
    'seated: for _ in 1..harts {
        slots.push(slot_at_boot())?;
    }
    Ok(slots)
}

// Nothing is kept for any hart.
fn empty_caches(alloc: Global, harts: u8) -> Result<Vec<HartCaches>, AllocError>
    ensures { IfOk result (λ caches. caches.items ≡ replicate harts nothing_kept) }
{
    let mut caches = Vec::new(alloc);
    'made: for _ in 0..harts {
        caches.push(HartCaches::new())?;
    }
    Ok(caches)
}

// ---- plain pages

/// The digests of pages, in their order. Refuses pages whose measure isn't the one that is wanted.
#[tactic(auto, unfolding(sv_types::specs::Measure::measure))]
pub(crate) fn judge_measure<R: Threads + Sync>(
    rt: &R,
    alloc: Global,
    pages: &[u8],
    wanted: Digest,
) -> Result<Vec<Digest>, BootRefusal>
    requires { length pages.now % page_size ≡ 0 }
    ensures digests { IfOk result (λ digests. digests.items ≡ digests_of pages.now) }
    ensures measured { OnOk result (measure pages.now ≡ wanted) }
    ensures refused { IfErr result (RefusesFlat pages.now wanted) }
{
    let digests = digest_chunks(rt, alloc, pages, &Silent)?;
    let found = join_digests(&digests);
    if is_same(&found, &wanted) {
        Ok(digests)
    } else {
        Err(BootRefusal::Measure { found, wanted })
    }
}

fn is_same(a: &Digest, b: &Digest) -> bool
    ensures { IsTrue result ↔ (a.now ≡ b.now) }
{
    a.as_slice() == b.as_slice()
}

#[tactic(auto, using(crate::proofs::Starting::flat_made))]
fn assemble(alloc: Global, pages: &[u8], wanted: Digest) -> Result<System, AllocError>
    requires whole { length pages.now % page_size ≡ 0 }
    requires size { length pages.now ≤ max_flat_bytes }
    ensures start { IfOk result (λ p. p ≡ flat_machine p.region.tables pages.now wanted) }
    ensures guarded { IfOk result IsGuarded }
{
    let mut mem = flat_region(alloc, pages)?;
    let guard = approved_start(alloc, &mut mem, (pages.len() / PAGE_SIZE) as u32)?;
    let policy = flat_policy(alloc, wanted)?;
    let _tables = mem.table_bytes();
    let port = Port::block(Vec::new(alloc));
    at_boot(alloc, policy, mem, guard, port, RAM_BASE)
}

fn flat_policy(alloc: Global, wanted: Digest) -> Result<Policy, AllocError>
    ensures { IfOk result (λ policy. rules_of policy ≡ flat_rules wanted) }
{
    let entries = FLAT_ENTRIES.as_slice().to_vec(alloc)?;
    Ok(Policy {
        format: PLAIN_FORMAT,
        harts: 1,
        ram_pages: FLAT_PAGES as u32,
        entries,
        bound: Vec::new(alloc),
        exports: Vec::new(alloc),
        kernel: wanted,
        init: None,
        modules: Vec::new(alloc),
    })
}

// A region of 16 pages of RAM with pages at their start, and room for its tables.
fn flat_region(alloc: Global, pages: &[u8]) -> Result<HostMem, AllocError>
    requires { length pages.now ≤ max_flat_bytes }
    ensures tables { IfOk result (λ m. length m.tables ≡ table_size flat_ram_pages 0) }
    ensures ram { IfOk result (λ m. m.ram ≡ flat_ram pages.now) }
{
    let tables = Trees::table_bytes(FLAT_PAGES, 0);
    let mut mem = HostMem::new(alloc, tables, FLAT_PAGES)?;
    mem.copy_in(tables, pages);
    Ok(mem)
}

// So many pages at the start of RAM held and then approved, all others free. No entry is bound.
#[tactic(auto, using(crate::proofs::Starting::none_taken))]
fn approved_start(alloc: Global, mem: &mut HostMem, count: u32) -> Result<Guard, AllocError>
    requires ram { length mem.old.ram ≡ page_size * flat_ram_pages }
    requires tables { length mem.old.tables ≡ table_size flat_ram_pages 0 }
    requires few { count ≤ flat_ram_pages }
    ensures guard { IfOk result (λ g. g.pages ≡ first_approved count) }
    ensures guards { IfOk result (λ g. Guards mem.new [] g) }
    ensures ram { mem.new.ram ≡ mem.old.ram }
{
    let mut guard = Guard::new(alloc, mem, &[])?;
    let span = Span { first: 0, count };
    let Ok(hold) = guard.hold(mem, span) else {
        unreachable!()
    };
    guard.approve(mem, hold);
    Ok(guard)
}
