// The files of `resume`, and a snapshot's.

ghost use Rattle.std.specs.Prelude.{◌≡◌, true, IfOk, IsTrue};
ghost use Rattle.sv_types.specs.Policies.{rules_of, rules_within};
ghost use Rattle.snapshot_format.specs.Snapshots as form;

use crate::files::{Found, MostBytes, Reread, read_part, remark_on};
use crate::running::{policy_file, script_file};
use snapshot_format::reader::ReadError;
use snapshot_format::resume::resume_refusal;
use snapshot_format::{SnapRefusal, Snapshot};
use std::alloc::Global;
use std::thread::Threads;
use sv_types::Policy;

/// The words of `resume` that name files which are read.
#[derive(Clone, Copy, Drop)]
pub(crate) struct ResumeNames<'a> {
    pub(crate) saved: &'a str,
    pub(crate) policy: &'a str,
    pub(crate) script: &'a str,
}

/// A snapshot, a policy and a script, in the order in which they are judged, and then whether a machine goes on from the
/// snapshot under the policy.
pub(crate) fn resume_files<R: Threads + Sync, A: Reread>(
    rt: &R,
    alloc: Global,
    files: &A,
    most: &MostBytes,
    names: &ResumeNames<'_>,
) -> Result<(), Found> {
    let snapshot = snapshot_file(alloc, files, most.snapshot, names.saved)?;
    snapshot_under(rt, alloc, files, most, names, &snapshot)
}

// The policy and the script that a snapshot is resumed with.
fn snapshot_under<R: Threads + Sync, A: Reread>(
    rt: &R,
    alloc: Global,
    files: &A,
    most: &MostBytes,
    names: &ResumeNames<'_>,
    snapshot: &Snapshot,
) -> Result<(), Found>
    requires { form.snapshot.has (form.contents snapshot.now) ≡ true }
{
    let policy = policy_file(alloc, files, most.policy, names.policy)?;
    script_file(alloc, files, most.script, names.script, policy.harts)?;
    goes_on(rt, alloc, names.saved, snapshot, &policy)
}

/// A snapshot's file.
pub(crate) fn snapshot_file<A: Reread>(
    alloc: Global,
    files: &A,
    most: usize,
    name: &str,
) -> Result<Snapshot, Found>
    ensures { IfOk result (λ s. form.snapshot.has (form.contents s) ≡ true) }
{
    let bytes = read_part(alloc, files, name, most)?;
    snapshot_in(alloc, name, &bytes)
}

fn snapshot_in(alloc: Global, name: &str, bytes: &[u8]) -> Result<Snapshot, Found>
    ensures { IfOk result (λ s. form.snapshot.has (form.contents s) ≡ true) }
{
    match snapshot_format::reader::read(alloc, bytes) {
        Ok(snapshot) => Ok(snapshot),
        Err(ReadError::Refused(refusal)) => Err(snapshot_refused(alloc, name, refusal)),
        Err(ReadError::Memory) => Err(Found::Nothing),
    }
}

fn snapshot_refused(alloc: Global, name: &str, refusal: SnapRefusal) -> Found {
    match format!(in alloc; "{refusal}") {
        Ok(what) => remark_on(alloc, name, what.as_str()),
        Err(_) => Found::Nothing,
    }
}

fn goes_on<R: Threads + Sync>(
    rt: &R,
    alloc: Global,
    name: &str,
    snapshot: &Snapshot,
    policy: &Policy,
) -> Result<(), Found>
    requires within { IsTrue (rules_within (rules_of policy.now)) }
    requires form { form.snapshot.has (form.contents snapshot.now) ≡ true }
{
    match resume_refusal(rt, alloc, snapshot, policy)? {
        Some(refusal) => {
            let what = format!(in alloc; "{refusal}")?;
            Err(remark_on(alloc, name, what.as_str()))
        }
        None => Ok(()),
    }
}
