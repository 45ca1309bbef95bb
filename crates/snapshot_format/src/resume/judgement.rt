// Whether a machine can go on from a snapshot.

ghost use Rattle.std.specs.Prelude.{◌≡◌, ◌*◌, IfOk, IsTrue, length};
ghost use Rattle.spec_processor.specs.Bytes.{page_size};
ghost use Rattle.sv_types.specs.Policies.{rules_of, rules_within};
ghost use Rattle.snapshot_format.specs.Snapshots.{contents};
ghost use Rattle.snapshot_format.specs.Judgements.{resume_refusal};

use crate::Snapshot;
use crate::resume::modules::has_modules;
use crate::resume::pages::is_guarded_right;
use crate::resume::policy::is_of_policy;
use crate::resume::refusal::ResumeRefusal;
use crate::resume::text::{has_text, joins};
use std::alloc::{AllocError, Global};
use std::thread::Threads;
use sv_types::Policy;

/// Why a machine can't go on from a snapshot under a policy whose values are within their limits: the first judgement that
/// fails, none where it can. RAM has the bytes of all pages. Out of memory is the one refusal.
#[tactic(auto, unfolding(crate::specs::Judgements::resume_refusal))]
pub fn resume_refusal<R: Threads + Sync>(
    rt: &R,
    alloc: Global,
    snapshot: &Snapshot,
    policy: &Policy,
) -> Result<Option<ResumeRefusal>, AllocError>
    requires within { IsTrue (rules_within (rules_of policy.now)) }
    requires ram { length (contents snapshot.now).ram ≡ page_size * length (contents snapshot.now).protection }
    ensures { IfOk result (λ refusal. refusal ≡ resume_refusal (rules_of policy.now) (contents snapshot.now)) }
{
    if !is_of_policy(snapshot, policy) {
        return Ok(Some(ResumeRefusal::OtherPolicy));
    }
    if !is_guarded_right(alloc, snapshot, policy)? {
        return Ok(Some(ResumeRefusal::OtherPages));
    }
    if !joins(alloc, snapshot, policy)? {
        return Ok(Some(ResumeRefusal::OtherKernel));
    }
    if !has_text(snapshot, policy) {
        return Ok(Some(ResumeRefusal::OtherText));
    }
    if !has_modules(rt, alloc, snapshot, policy)? {
        return Ok(Some(ResumeRefusal::OtherModule));
    }
    Ok(None)
}
