// Trials.
ghost use Rattle.std.specs.Prelude.{◌≡◌, ◌≤◌, ◌%◌, IfOk, IsErrOf, Ok, OnOk, Some, true, false, is_ok, length};
ghost use Rattle.sv_types.specs.Limits.{max_events};
ghost use Rattle.sv_types.specs.Policies.{Rules};
ghost use Rattle.spec_reference.specs.BlockDisk.{sector_size};
ghost use Rattle.spec_reference.specs.Start.{boot_start};
ghost use Rattle.spec_hardware.specs.Reaches.{IsNew};
ghost use Rattle.laws_resume.specs.SnapLaws.{IsMeasuredBoot};
ghost use Rattle.policy.specs.Text.{rules_of_text};
ghost use Rattle.machine.specs.Boot.{HasDigests};
ghost use Rattle.cli_trials.specs.Trials as spec;

use crate::trial::beginning::{boot, read_policy};
use crate::trial::ending::{Ending, end_of_run};
use crate::trial::files::{NoOutcome, RunFiles};
use crate::trial::order::{Order, script_for};
use machine::Booted;
use script::Script;
use std::alloc::Global;
use std::thread::Threads;

/// How the run of these files ends over the first events of an order. `Script` is answered only of a text that is refused, and
/// `Refused` only where no machine boots from the files: the policy is judged first, then the order, and then the boot.
#[tactic(auto, using(crate::proofs::Booting::refused_boot, crate::proofs::Booting::refused_policy_first, crate::proofs::Booting::order_first))]
pub fn try_order<R: Threads + Sync>(
    rt: &R,
    alloc: Global,
    files: &RunFiles<'_>,
    order: &Order<'_>,
    events: u64,
) -> Result<Ending, NoOutcome>
    requires sectors { length files.now.disk.now % sector_size ≡ 0 }
    requires few { events ≤ max_events }
    ensures outcome { IfOk result (λ ending. spec.outcome_in files.now events order.now ≡ Some ending.outcome) }
    ensures unread { IsErrOf result NoOutcome.Script → spec.is_unread files.now.policy.now order.now ≡ true }
    ensures refused { IsErrOf result NoOutcome.Refused → spec.boots files.now ≡ false }
    ensures first { IsErrOf result NoOutcome.Refused → spec.is_unread files.now.policy.now order.now ≡ false }
{
    let policy = read_policy(alloc, files.policy)?;
    let script = script_for(alloc, order, policy.harts)?;
    let booted = boot(rt, alloc, files, policy)?;
    Ok(end_of_run(booted.machine, script, events))
}

/// A machine of these files, before its first event, and the digests of its text's pages, ascending, by which it was measured.
#[tactic(auto, using(crate::proofs::Booting::refused_boot))]
pub fn boot_files<R: Threads + Sync>(
    rt: &R,
    alloc: Global,
    files: &RunFiles<'_>,
) -> Result<Booted, NoOutcome>
    requires sectors { length files.now.disk.now % sector_size ≡ 0 }
    ensures new { IfOk result (λ b. (rules : Rules) → rules_of_text files.now.policy.now ≡ Ok rules →
        IsNew b.machine (boot_start rules files.now.image.now files.now.disk.now)) }
    ensures booted { IfOk result (λ b. spec.IsBooted b.machine) }
    ensures digests { IfOk result (λ b. HasDigests b.machine b.digests.items) }
    ensures measured { OnOk result ((rules : Rules) → rules_of_text files.now.policy.now ≡ Ok rules → IsMeasuredBoot rules files.now.image.now) }
    ensures refused { IsErrOf result NoOutcome.Refused → spec.boots files.now ≡ false }
    ensures other { IsErrOf result NoOutcome.Script → ⊥ }
{
    let policy = read_policy(alloc, files.policy)?;
    boot(rt, alloc, files, policy)
}

/// The events of an order for the harts of a policy's text.
pub fn script_of_order(alloc: Global, policy: &[u8], order: &Order<'_>) -> Result<Script, NoOutcome>
    ensures read { IfOk result (λ script. (rules : Rules) → rules_of_text policy.now ≡ Ok rules → spec.schedule_of order.now rules.harts ≡ Some script) }
    ensures unread { IsErrOf result NoOutcome.Script → spec.is_unread policy.now order.now ≡ true }
    ensures refused { IsErrOf result NoOutcome.Refused → is_ok (rules_of_text policy.now) ≡ false }
{
    let policy = read_policy(alloc, policy)?;
    script_for(alloc, order, policy.harts)
}
