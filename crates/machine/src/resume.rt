// A machine that goes on from a snapshot.

ghost use Rattle.std.specs.Prelude.{◌≡◌, ◌+◌, None, IfErr, IfOk, IsTrue, OnOk, true, replicate};
ghost use Rattle.sv_types.specs.Policies.{rules_of, rules_within};
ghost use Rattle.spec_reference.specs.Start.{AreWords};
ghost use Rattle.spec_hardware.specs.Reaches.{IsNew};
ghost use Rattle.spec_hardware.specs.StandsFor.{bound_pages};
ghost use Rattle.snapshot_format.specs.Snapshots as form;
ghost use Rattle.laws_resume.specs.Starts.{IsGuarded};
ghost use Rattle.snapshot_format.specs.Judgements.{resume_refusal};
ghost use Rattle.snapshot_format.specs.ResumedStates.{resumed_state};
ghost use Rattle.laws_resume.specs.Resuming.{resumed_machine};
ghost use Rattle.hw_tlb.specs.Usable.{nothing_kept};
ghost use Rattle.machine.specs.Resumed.{RefusesSnapshot};
ghost use Rattle.machine.specs.declared.resume.ResumeFailure.TheVariants.{Memory};

use crate::events::System;
use crate::image_start::bound_pages;
use crate::machine::Machine;
use crate::resumed::{ResumedParts, resume_parts};
use crate::start::Idle;
use hart::Cpu;
use hw_fast_path::MicroOpCache;
use hw_platform::Hardware;
use hw_tlb::HartCaches;
use laws_resume::law_resumed_sound;
use laws_resume::start::law_resumed_start;
use secvisor_core::Visor;
use snapshot_format::Snapshot;
use snapshot_format::resume::{ResumeRefusal, resume_refusal};
use std::alloc::{AllocError, Global};
use std::thread::Threads;
use sv_types::Policy;

/// Why a machine doesn't go on from a snapshot.
#[derive(Clone, Copy, Drop)]
pub enum ResumeFailure {
    /// The first judgement that fails.
    Refused(ResumeRefusal),
    /// Memory ran out.
    Memory,
}

impl From<AllocError> for ResumeFailure {
    ghost from_gives = { λ _ e. e ≡ Memory };

    fn from(_: AllocError) -> Self {
        ResumeFailure::Memory
    }
}

impl Machine {
    /// A machine that goes on from a snapshot under a policy whose values are within their limits. What guards its pages is made
    /// anew: text and modules are measured again, and no protection of the snapshot is believed. Nothing is printed yet.
    pub fn from_snapshot<R: Threads + Sync>(
        rt: &R,
        alloc: Global,
        snapshot: Snapshot,
        policy: Policy,
    ) -> Result<Machine, ResumeFailure>
        requires within { IsTrue (rules_within (rules_of policy)) }
        requires form { form.snapshot.has (form.contents snapshot) ≡ true }
        ensures new { IfOk result (λ m. IsNew m (resumed_state (rules_of policy) (form.contents snapshot))) }
        ensures journal { IfOk result (λ m. m.journal ≡ (resumed_state (rules_of policy) (form.contents snapshot)).journal) }
        ensures accepted { OnOk result (resume_refusal (rules_of policy) (form.contents snapshot) ≡ None) }
        ensures refused { IfErr result (RefusesSnapshot (rules_of policy) (form.contents snapshot)) }
    {
        judge(rt, alloc, &snapshot, &policy)?;
        entries_are_words(&policy.entries);
        law_resumed_start();
        law_resumed_sound();
        let system = resume(alloc, snapshot, policy)?;
        Ok(Machine {
            system,
            none_reserved: false,
        })
    }
}

// Entries are words, by their type.
fn entries_are_words(entries: &[u64])
    ensures { AreWords entries.now }
{}

// The first judgement that fails refuses.
fn judge<R: Threads + Sync>(
    rt: &R,
    alloc: Global,
    snapshot: &Snapshot,
    policy: &Policy,
) -> Result<(), ResumeFailure>
    requires within { IsTrue (rules_within (rules_of policy.now)) }
    requires form { form.snapshot.has (form.contents snapshot.now) ≡ true }
    ensures accepted { OnOk result (resume_refusal (rules_of policy.now) (form.contents snapshot.now) ≡ None) }
    ensures refused { IfErr result (RefusesSnapshot (rules_of policy.now) (form.contents snapshot.now)) }
{
    match resume_refusal(rt, alloc, snapshot, policy)? {
        Some(refusal) => Err(ResumeFailure::Refused(refusal)),
        None => Ok(()),
    }
}

// What goes on besides the parts of a snapshot: nothing is kept for any hart, and each entry of a policy has its page.
struct NewHardware {
    caches: Vec<HartCaches>,
    cpu: Cpu,
    words: MicroOpCache,
    bound: Vec<u32>,
}

impl NewHardware {
    fn new(alloc: Global, policy: &Policy) -> Result<NewHardware, AllocError>
        requires { IsTrue (rules_within (rules_of policy.now)) }
        ensures caches { IfOk result (λ new. new.caches.items ≡ replicate policy.now.harts nothing_kept) }
        ensures attempts { IfOk result (λ new. new.words + new.cpu ≡ 0) }
        ensures bound { IfOk result (λ new. new.bound.items ≡ bound_pages (rules_of policy.now)) }
    {
        let bound = bound_pages(alloc, policy)?;
        let Idle { caches, cpu, words } = Idle::new(alloc, policy.harts)?;
        Ok(NewHardware {
            caches,
            cpu,
            words,
            bound,
        })
    }
}

// The system that goes on from a snapshot that isn't refused, with empty caches, before the first attempt.
fn resume(alloc: Global, snapshot: Snapshot, policy: Policy) -> Result<System, AllocError>
    requires within { IsTrue (rules_within (rules_of policy)) }
    requires form { form.snapshot.has (form.contents snapshot) ≡ true }
    requires accepted { resume_refusal (rules_of policy) (form.contents snapshot) ≡ None }
    ensures made { IfOk result (λ p. p ≡ resumed_machine p.region.tables (rules_of policy) (form.contents snapshot)) }
    ensures guarded { IfOk result IsGuarded }
{
    let NewHardware {
        caches,
        cpu,
        words,
        bound,
    } = NewHardware::new(alloc, &policy)?;
    let ResumedParts {
        mem,
        guard,
        entries,
        slots,
        modules,
        devices,
        journal,
    } = resume_parts(alloc, snapshot, &policy, &bound)?;
    let _tables = mem.table_bytes();
    Ok(System {
        hardware: Hardware {
            mem,
            slots,
            caches,
            devices,
            cpu,
            words,
            cleared: 0,
        },
        visor: Visor {
            policy,
            entries,
            guard,
            modules,
        },
        journal,
    })
}
