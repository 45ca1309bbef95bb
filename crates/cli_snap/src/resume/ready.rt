// What is ready of `resume`.
ghost use Rattle.std.specs.Prelude.{◌≡◌, ◌<◌, ◌≤◌, ◌-◌, true, IsTrue};
ghost use Rattle.sv_types.specs.Limits.{max_events};
ghost use Rattle.sv_types.specs.Policies.{rules_of, rules_within};
ghost use Rattle.cli_plans.specs.Reading.{MayFollow};
ghost use Rattle.snapshot_format.specs.Judgements.{resume_refusal};
ghost use Rattle.snapshot_format.specs.Snapshots as form;
ghost use Rattle.cli_snap.specs.ResumePlans.{events_after, resumed_due, words_plan};
ghost use Rattle.cli_snap.specs.ResumeReady.{IsMachine, IsResumed, Resumes};
ghost use Rattle.cli_plans.specs.Words.{resume_value};
ghost use Rattle.spec_processor.specs.Counters.{CanCount};

use crate::resume::skipping::events_left;
use crate::resume::snapshot_file::read_snapshot;
use cli_plans::{FileFault, Refusal, Resume};
use host_io::Files;
use machine::{Machine, ResumeFailure};
use script::Script;
use secvisor_cli::{PreparedRun, Stop, read_policy, read_script};
use snapshot_format::Snapshot;
use std::alloc::Global;
use std::thread::Threads;
use sv_types::Policy;

/// Reads the snapshot, the policy and the script, each judged before the next, and makes the machine that goes on.
pub fn prepare_resume<'a, R: Threads + Sync, F: Files>(
    rt: &R,
    alloc: Global,
    asked: &Resume<'a>,
    files: &mut F,
) -> Result<PreparedRun<'a>, Stop>
    requires permitted { MayFollow (words_plan (resume_value asked.now)) (F.state files.old) }
    requires reads { CanCount (F.state files.old).read_faults }
    requires events { asked.now.events ≤ max_events }
    ensures { Resumes (words_plan (resume_value asked.now)) (F.state files.old) (F.state files.new) result }
{
    let snapshot = read_snapshot(alloc, asked.saved, files)?;
    let policy = read_policy(alloc, asked.policy, files)?;
    let script = read_script(alloc, &asked.script, policy.harts, files)?;
    go_on(rt, alloc, asked, snapshot, policy, script)
}

// The machine of a snapshot, with the events that are left of the script.
fn go_on<'a, R: Threads + Sync>(
    rt: &R,
    alloc: Global,
    asked: &Resume<'a>,
    snapshot: Snapshot,
    policy: Policy,
    script: Script,
) -> Result<PreparedRun<'a>, Stop>
    requires within { IsTrue (rules_within (rules_of policy)) }
    requires form { form.snapshot.has (form.contents snapshot) ≡ true }
    requires events { asked.now.events ≤ max_events }
    ensures { IsResumed (resumed_due (rules_of policy) (form.contents snapshot)
        (events_after snapshot.events (resume_value asked.now).events script) (resume_value asked.now).save
        (resume_refusal (rules_of policy) (form.contents snapshot))) result }
{
    let made = snapshot.events;
    let machine = machine_of(rt, alloc, snapshot, policy)?;
    let left = events_left(script, made, asked.events);
    Ok(PreparedRun {
        machine,
        script: left.script,
        events: left.events,
        save: asked.save,
    })
}

fn machine_of<R: Threads + Sync>(
    rt: &R,
    alloc: Global,
    snapshot: Snapshot,
    policy: Policy,
) -> Result<Machine, Stop>
    requires within { IsTrue (rules_within (rules_of policy)) }
    requires form { form.snapshot.has (form.contents snapshot) ≡ true }
    ensures { IsMachine (rules_of policy) (form.contents snapshot) result }
{
    match Machine::from_snapshot(rt, alloc, snapshot, policy) {
        Ok(machine) => Ok(machine),
        Err(ResumeFailure::Refused(refusal)) => Err(Stop::Refused(Refusal::File {
            fault: FileFault::Resume(refusal),
        })),
        Err(ResumeFailure::Memory) => Err(Stop::Memory),
    }
}
