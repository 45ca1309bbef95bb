// The guest's file and policy.

ghost use Rattle.std.specs.Prelude.{◌≡◌, ◌≤◌, IsTrue, IfOk, length, vec_len};
ghost use Rattle.spec_processor.specs.Bytes.{page_size};
ghost use Rattle.sv_types.specs.Measure.{measure};
ghost use Rattle.sv_types.specs.Policies.{rules_of, rules_within};
ghost use Rattle.guest_gen.specs.Generated as spec;
ghost use Rattle.guest_gen.specs.GuestCode.{max_calls};

use crate::code::{TRAP_OFFSET, setup, trap_handler, user_loop};
use crate::elf::{TEXT_ADDRESS, laid_out};
use crate::fields::{pad, push_code};
use page_measure::{join_digests, page_digest};
use spec_processor::PAGE_SIZE;
use std::alloc::{AllocError, Global};
use sv_types::{Digest, PLAIN_FORMAT, Policy};

/// The pages of the guest's RAM.
const RAM_PAGES: u32 = 64;

// The page of text, for so many calls.
#[tactic(auto, unfolding(crate::specs::Generated::generated_text))]
fn text(alloc: Global, n: u64) -> Result<Vec<u8>, AllocError>
    requires { n ≤ max_calls }
    ensures text { IfOk result (λ text. text.items ≡ spec.generated_text n) }
    ensures page { IfOk result (λ text. vec_len text ≡ page_size) }
{
    let mut text = Vec::new(alloc);
    push_code(&mut text, &setup(n))?;
    pad(&mut text, TRAP_OFFSET)?;
    push_code(&mut text, &trap_handler())?;
    pad(&mut text, PAGE_SIZE)?;
    Ok(text)
}

#[tactic(auto, using(crate::proofs::OnePage::measure_of_page))]
fn measure(page: &[u8]) -> Digest
    requires { length page.now ≡ page_size }
    ensures { result ≡ measure page.now }
{
    join_digests(&[page_digest(page)])
}

// The policy of a kernel with this page of text.
#[tactic(auto, unfolding(crate::specs::Generated::policy_of_text))]
fn policy(alloc: Global, text: &[u8]) -> Result<Policy, AllocError>
    requires { length text.now ≡ page_size }
    ensures rules { IfOk result (λ policy. rules_of policy ≡ spec.policy_of_text text.now) }
    ensures within { IfOk result (λ policy. IsTrue (rules_within (rules_of policy))) }
{
    let mut entries = Vec::new(alloc);
    entries.push(TEXT_ADDRESS)?;
    entries.push(TEXT_ADDRESS + TRAP_OFFSET as u64)?;
    Ok(Policy {
        format: PLAIN_FORMAT,
        harts: 1,
        ram_pages: RAM_PAGES,
        entries,
        bound: Vec::new(alloc),
        exports: Vec::new(alloc),
        kernel: measure(text),
        init: None,
        modules: Vec::new(alloc),
    })
}

/// The guest's file and its policy: the user calls its kernel `n` times. Fails where memory runs out.
#[tactic(auto, unfolding(crate::specs::Generated::generated_image))]
pub fn generate(alloc: Global, n: u64) -> Result<(Vec<u8>, Policy), AllocError>
    requires some { 1 ≤ n }
    requires most { n ≤ max_calls }
    ensures image { IfOk result (λ made. made.0.items ≡ spec.generated_image n) }
    ensures policy { IfOk result (λ made. rules_of made.1 ≡ spec.generated_policy n) }
    ensures within { IfOk result (λ made. IsTrue (rules_within (rules_of made.1))) }
{
    let text = text(alloc, n)?;
    let mut body = Vec::new(alloc);
    push_code(&mut body, &user_loop())?;
    let file = laid_out(alloc, &text, &body)?;
    let policy = policy(alloc, &text)?;
    Ok((file, policy))
}
