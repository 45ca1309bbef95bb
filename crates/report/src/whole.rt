// The whole report.
ghost use Rattle.std.specs.Prelude.{◌≡◌, IfOk, string_bytes};
ghost use Rattle.sv_types.specs.Output.{report_lines};
ghost use Rattle.spec_reference.specs.Report as spec;
ghost use Rattle.report.specs.Journals.{journal_with};

use crate::counts::{denied_line, events_line, notes_line, retired_line};
use crate::notes::push_notes;
use crate::verdict::push_verdict;
use std::alloc::{AllocError, Global};
use sv_types::{Counts, Note, Verdict};

// The lines of the counts and of the verdict.
#[tactic(auto, unfolding(sv_types::specs::Output::report_lines))]
fn end_lines(alloc: Global, verdict: Verdict, counts: &Counts) -> Result<String, AllocError>
    ensures { IfOk result (λ t. string_bytes t ≡ report_lines verdict counts.now) }
{
    let mut text = notes_line(alloc, counts)?;
    text.push_str(events_line(alloc, counts)?.as_str())?;
    text.push_str(retired_line(alloc, counts)?.as_str())?;
    text.push_str(denied_line(alloc, counts)?.as_str())?;
    push_verdict(alloc, &mut text, verdict)?;
    Ok(text)
}

/// The report after the console's bytes: a line feed, a line for each note, and the lines of the counts and of the
/// verdict.
pub fn report(
    alloc: Global,
    notes: &[Note],
    verdict: Verdict,
    counts: &Counts,
) -> Result<String, AllocError>
    ensures { IfOk result (λ t. string_bytes t ≡ spec.report (journal_with notes.now verdict counts.now)) }
{
    let mut text = String::from_str(alloc, "\n")?;
    push_notes(alloc, &mut text, notes)?;
    text.push_str(end_lines(alloc, verdict, counts)?.as_str())?;
    Ok(text)
}
