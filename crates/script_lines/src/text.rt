// Lines as a text.
ghost use Rattle.std.specs.Prelude.{◌≡◌, IfOk, string_bytes};
ghost use Rattle.sv_types.specs.declared.event.Event.TheVariants.{Poke};
ghost use Rattle.script_lines.specs.Lines as spec;

use script::EventRun;
use std::alloc::{AllocError, Global};
use sv_types::Event;
use text_numbers::address_text;

#[tactic(auto, unfolding(crate::specs::Lines::event_text))]
fn poke_text(alloc: Global, gpa: u64, value: u64, count: u64) -> Result<String, AllocError>
    ensures { IfOk result (λ t. string_bytes t ≡ spec.line_text (record { event = Poke gpa value; count = count })) }
{
    let gpa = address_text(alloc, gpa)?;
    let value = address_text(alloc, value)?;
    format!(in alloc; "poke {gpa} {value}\n")
}

#[tactic(auto, unfolding(crate::specs::Lines::event_text))]
fn line_text(alloc: Global, line: EventRun) -> Result<String, AllocError>
    ensures { IfOk result (λ t. string_bytes t ≡ spec.line_text line) }
{
    let count = line.count;
    match line.event {
        Event::Turn(hart) => format!(in alloc; "turn {hart} {count}\n"),
        Event::Beat => format!(in alloc; "beat {count}\n"),
        Event::Key(byte) => format!(in alloc; "key {byte}\n"),
        Event::Tick(ticks) => format!(in alloc; "tick {ticks}\n"),
        Event::Poke { gpa, value } => poke_text(alloc, gpa, value, count),
    }
}

/// The text of lines.
pub fn script_text(alloc: Global, lines: &[EventRun]) -> Result<String, AllocError>
    ensures { IfOk result (λ t. string_bytes t ≡ spec.text_of lines.now) }
{
    let mut text = String::new(alloc);
    for line in lines {
        text.push_str(line_text(alloc, *line)?.as_str())?;
    }
    Ok(text)
}
