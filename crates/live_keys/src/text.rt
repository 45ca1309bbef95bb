// A journal as the text of a script.
ghost use Rattle.std.specs.Prelude.{◌≡◌, ◌≤◌, ◌+◌, ◌*◌, ◌-◌, ◌++◌, ℕ, None, IfOk, OnOk, length, string_bytes};
ghost use Rattle.script.specs.AutoScripts.{events_of_text, first_refused};
ghost use Rattle.sv_types.specs.Limits.{max_events};
ghost use Rattle.live_keys.specs.Journal.{events_of};
ghost use Rattle.live_keys.specs.JournalText as spec;

use crate::journal::Journal;
use std::alloc::{AllocError, Global};

fn key_line(alloc: Global, byte: u8) -> Result<String, AllocError>
    ensures { IfOk result (λ t. string_bytes t ≡ spec.ended_line (spec.key_line byte)) }
{
    format!(in alloc; "key {byte}\n")
}

fn auto_line(alloc: Global, count: u64) -> Result<String, AllocError>
    ensures { IfOk result (λ t. string_bytes t ≡ spec.ended_line (spec.auto_line count)) }
{
    format!(in alloc; "auto {count}\n")
}

// The line of the events from one number up to another, and no line where there are none.
#[tactic(auto, using(crate::proofs::JournalLines::one_line, crate::proofs::JournalLines::no_line))]
fn push_autos(alloc: Global, text: &mut String, first: u64, last: u64) -> Result<(), AllocError>
    ensures { OnOk result (string_bytes text.new ≡ string_bytes text.old ++ spec.text_of (spec.auto_lines (last - first))) }
{
    if first < last {
        text.push_str(auto_line(alloc, last - first)?.as_str())?;
    }
    Ok(())
}

/// The text of a journal, which reads as a script of the journal's events. It isn't long: of 16,384 keys it has at most 393,232
/// bytes.
#[tactic(auto, unfolding(crate::specs::JournalText::journal_text))]
pub fn journal_text(alloc: Global, journal: &Journal) -> Result<String, AllocError>
    requires few { journal.now.autos ≤ max_events }
    ensures text { IfOk result (λ t. string_bytes t ≡ spec.journal_text journal.now.keys.items journal.now.autos) }
    ensures reads { IfOk result (λ t. (harts : ℕ) → events_of_text harts (string_bytes t) ≡ events_of harts journal.now) }
    ensures accepted { IfOk result (λ t. first_refused (string_bytes t) ≡ None) }
    ensures size { IfOk result (λ t. length (string_bytes t) ≤ spec.max_key_bytes * length journal.now.keys.items + spec.max_run_bytes) }
{
    let mut text = String::new(alloc);
    let mut made = 0;
    'keys: for key in &journal.keys {
        push_autos(alloc, &mut text, made, key.before)?;
        text.push_str(key_line(alloc, key.byte)?.as_str())?;
        made = key.before;
    }
    push_autos(alloc, &mut text, made, journal.autos)?;
    Ok(text)
}
