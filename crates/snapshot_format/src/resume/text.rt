// Whether the digests of a snapshot's text join to the policy's, and whether each page that isn't retired has its digest.

ghost use Rattle.std.specs.Prelude.{◌≡◌, IfOk, map};
ghost use Rattle.std.specs.Prelude.{◌||◌};
ghost use Rattle.std.specs.List.{list_all};
ghost use Rattle.spec_processor.specs.Bytes.{page_bytes};
ghost use Rattle.sv_types.specs.Policies.{rules_of};
ghost use Rattle.spec_reference.specs.Origins.{is_init};
ghost use Rattle.snapshot_format.specs.Snapshots.{contents};
ghost use Rattle.snapshot_format.specs.declared.whole.TextPage.{TextPage as Kept};
ghost use Rattle.snapshot_format.specs.Judgements.{has_text, is_retired, is_there, joins};

use crate::{Snapshot, TextPage};
use page_measure::{join_digests, page_digest};
use spec_processor::PAGE_SIZE;
use std::alloc::{AllocError, Global};
use sv_types::{Digest, Policy, Span};

/// Whether the digests of the text join to the policy's kernel digest. Out of memory is the one refusal.
#[tactic(auto, unfolding(crate::specs::Judgements::joins))]
pub fn joins(alloc: Global, snapshot: &Snapshot, policy: &Policy) -> Result<bool, AllocError>
    ensures { IfOk result (λ joined. joined ≡ joins (rules_of policy.now) (contents snapshot.now)) }
{
    let digests = digests_of(alloc, &snapshot.text)?;
    Ok(join_digests(&digests) == policy.kernel)
}

fn digest_of(page: &TextPage) -> Digest
    ensures { result ≡ page.now.digest }
{
    page.digest
}

fn digests_of(alloc: Global, text: &[TextPage]) -> Result<Vec<Digest>, AllocError>
    ensures { IfOk result (λ digests. digests.items ≡ map (λ (t : Kept). t.digest) text.now) }
{
    text.iter().map(digest_of).collect(alloc)
}

/// Whether each page of the text that isn't retired has the digest that is kept of it.
#[tactic(auto, unfolding(crate::specs::Judgements::has_text))]
pub fn has_text(snapshot: &Snapshot, policy: &Policy) -> bool
    ensures { result ≡ has_text (rules_of policy.now) (contents snapshot.now) }
{
    let machine = &snapshot.machine;
    are_right(policy, machine.retired, &machine.ram, &snapshot.text)
}

fn are_right(policy: &Policy, retired: bool, ram: &[u8], text: &[TextPage]) -> bool
    ensures { result ≡ list_all (λ t. is_retired (rules_of policy.now) retired t.page || is_there ram.now t) text.now }
{
    text.iter().all(|page| is_retired(policy, retired, page.page) || is_there(ram, page))
}

/// Whether a page of the text is retired.
pub fn is_retired(policy: &Policy, retired: bool, page: u32) -> bool
    ensures { result ≡ is_retired (rules_of policy.now) retired page }
{
    retired && is_init(&policy.init, page)
}

#[tactic(auto, using(spec_reference::proofs::PageSpans::in_numbers))]
fn is_init(init: &Option<Span>, page: u32) -> bool
    ensures { result ≡ is_init init.now page }
{
    match init {
        None => false,
        Some(span) => span.first <= page && page - span.first < span.count,
    }
}

// The bytes of a page in RAM have the digest that is kept of it.
fn is_there(ram: &[u8], page: &TextPage) -> bool
    ensures { result ≡ is_there ram.now page.now }
{
    page_digest(page_in(ram, page.page)) == page.digest
}

// The bytes of a page, fewer where RAM ends before.
#[tactic(auto, using(crate::proofs::Spans::page_clipped))]
fn page_in(ram: &[u8], page: u32) -> &[u8]
    ensures { result.now ≡ page_bytes ram.now page }
{
    let start = ram.len().min(PAGE_SIZE * page as usize);
    let end = ram.len().min(PAGE_SIZE * page as usize + PAGE_SIZE);
    &ram[start..end]
}
