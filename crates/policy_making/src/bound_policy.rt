// The policy of format 2.

ghost use Rattle.std.specs.Prelude.{◌≡◌, true, map, Ok, IfOk, IfErr};
ghost use Rattle.sv_types.specs.Policies.{rules_of, rules_within};
ghost use Rattle.elf64_load.specs.Images.{segment_of, segments_of};
ghost use Rattle.policy_making.specs.Binding as spec;
ghost use Rattle.policy_making.specs.Faults.{Refuses};
ghost use Rattle.policy_making.specs.InText.{AreOfKernel, EndInWords};

use crate::bind_fault::{BindFault, BindRefusal, ConvertFault};
use crate::bound_entries::{bound_places, each_once};
use crate::text_digest;
use elf64_load::{KernelImage, Segment};
use policy_limits::{BOUND_FORMAT, PLAIN_FORMAT};
use std::alloc::Global;
use std::thread::Threads;
use sv_types::{Digest, Policy};

#[tactic(auto, unfolding(crate::specs::Binding::entries_bound))]
fn bind_entries(alloc: Global, policy: Policy, segments: &[Segment]) -> Result<Policy, BindRefusal>
    requires end { EndInWords (map segment_of segments.now) }
    ensures bound { IfOk result (λ made. spec.entries_bound (rules_of policy) (map segment_of segments.now) ≡ Ok (rules_of made)) }
    ensures refused { IfErr result (Refuses (spec.entries_bound (rules_of policy) (map segment_of segments.now))) }
{
    let entries = each_once(alloc, &policy.entries)?;
    let bound = bound_places(alloc, segments, &entries)?;
    Ok(Policy {
        format: BOUND_FORMAT,
        entries,
        bound,
        ..policy
    })
}

// The kernel's text has this digest.
#[tactic(auto, unfolding(crate::specs::Binding::measured_bound))]
fn bind_measured(
    alloc: Global,
    policy: Policy,
    segments: &[Segment],
    found: Digest,
) -> Result<Policy, BindRefusal>
    requires end { EndInWords (map segment_of segments.now) }
    ensures bound { IfOk result (λ made. spec.measured_bound (rules_of policy) (map segment_of segments.now) found ≡ Ok (rules_of made)) }
    ensures refused { IfErr result (Refuses (spec.measured_bound (rules_of policy) (map segment_of segments.now) found)) }
{
    let wanted = policy.kernel;
    if found == wanted {
        bind_entries(alloc, policy, segments)
    } else {
        Err(BindRefusal::Fault(BindFault::Measure { found, wanted }))
    }
}

/// A policy of format 1 with each entry, once, bound to its place in the kernel's text, in format 2 and else as it was.
/// Refuses a policy of another format, then a kernel whose text measures to another digest than the policy's, then the
/// first entry without a place or with one at another byte of its page; and when out of memory. A policy within its limits
/// stays so.
#[tactic(auto, unfolding(crate::specs::Binding::bound_rules))]
pub fn bind<R: Threads + Sync>(
    rt: &R,
    alloc: Global,
    policy: Policy,
    image: &KernelImage,
) -> Result<Policy, BindRefusal>
    requires kernel { AreOfKernel policy.ram_pages (segments_of image.now) }
    ensures bound { IfOk result (λ made. spec.bound_rules (rules_of policy) (segments_of image.now) ≡ Ok (rules_of made)) }
    ensures within { rules_within (rules_of policy) ≡ true → IfOk result (λ made. rules_within (rules_of made) ≡ true) }
    ensures refused { IfErr result (Refuses (spec.bound_rules (rules_of policy) (segments_of image.now))) }
{
    if policy.format != PLAIN_FORMAT {
        return Err(BindRefusal::Fault(BindFault::Convert(ConvertFault::OtherFormat)));
    }
    let found = text_digest(rt, alloc, image)?;
    bind_measured(alloc, policy, &image.segments, found)
}
