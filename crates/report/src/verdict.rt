// The line of the verdict, and its status.
ghost use Rattle.std.specs.Prelude.{◌≡◌, ◌++◌, OnOk, IfOk, string_bytes};
ghost use Rattle.sv_types.specs.Output as spec;

use std::alloc::{AllocError, Global};
use sv_types::{Rule, Status, Verdict};
use text_numbers::address_text;

fn push_address(alloc: Global, text: &mut String, value: u64) -> Result<(), AllocError>
    ensures { OnOk result (string_bytes text.new ≡ string_bytes text.old ++ spec.address_text value) }
{
    text.push_str(address_text(alloc, value)?.as_str())
}

#[tactic(auto, unfolding(sv_types::specs::Output::rule_name))]
fn rule_name(rule: Rule) -> &'static str
    ensures { result.now ≡ spec.rule_name rule }
{
    match rule {
        Rule::Entry { target: _ } => "entry",
        Rule::Write { pc: _, gpa: _ } => "write",
    }
}

#[tactic(auto, unfolding(sv_types::specs::Output::rule_places))]
fn push_places(alloc: Global, text: &mut String, rule: Rule) -> Result<(), AllocError>
    ensures { OnOk result (string_bytes text.new ≡ string_bytes text.old ++ spec.rule_places rule) }
{
    match rule {
        Rule::Entry { target } => {
            text.push_str(" target ")?;
            push_address(alloc, text, target)
        }
        Rule::Write { pc, gpa } => {
            text.push_str(" pc ")?;
            push_address(alloc, text, pc)?;
            text.push_str(" gpa ")?;
            push_address(alloc, text, gpa)
        }
    }
}

#[tactic(auto, unfolding(sv_types::specs::Output::stop_head))]
fn stop_head(alloc: Global, rule: Rule, hart: u8, turn: u64) -> Result<String, AllocError>
    ensures { IfOk result (λ t. string_bytes t ≡ spec.stop_head rule hart turn) }
{
    let name = rule_name(rule);
    format!(in alloc; "verdict stopped {name} hart {hart} turn {turn}")
}

#[tactic(auto, unfolding(sv_types::specs::Output::verdict_line))]
fn stop_line(alloc: Global, rule: Rule, hart: u8, turn: u64) -> Result<String, AllocError>
    ensures { IfOk result (λ t. string_bytes t ≡ spec.verdict_line (Verdict.Stopped rule hart turn)) }
{
    let mut text = stop_head(alloc, rule, hart, turn)?;
    push_places(alloc, &mut text, rule)?;
    text.push_str("\n")?;
    Ok(text)
}

#[tactic(auto, unfolding(sv_types::specs::Output::verdict_line))]
pub fn push_verdict(alloc: Global, text: &mut String, verdict: Verdict) -> Result<(), AllocError>
    ensures { OnOk result (string_bytes text.new ≡ string_bytes text.old ++ spec.verdict_line verdict) }
{
    match verdict {
        Verdict::Running => text.push_str("verdict ended\n"),
        Verdict::Shutdown => text.push_str("verdict shutdown\n"),
        Verdict::Stopped { rule, hart, turn } => {
            text.push_str(stop_line(alloc, rule, hart, turn)?.as_str())
        }
    }
}

/// The line of a verdict.
pub fn verdict_text(alloc: Global, verdict: Verdict) -> Result<String, AllocError>
    ensures { IfOk result (λ t. string_bytes t ≡ spec.verdict_line verdict) }
{
    let mut text = String::new(alloc);
    push_verdict(alloc, &mut text, verdict)?;
    Ok(text)
}

/// The status of a run that ended with a verdict.
pub fn status_of(verdict: Verdict) -> Status
    ensures { result ≡ spec.run_status verdict }
{
    match verdict {
        Verdict::Running => Status::Ended,
        Verdict::Shutdown => Status::Done,
        Verdict::Stopped {
            rule: _,
            hart: _,
            turn: _,
        } => Status::Stopped,
    }
}
