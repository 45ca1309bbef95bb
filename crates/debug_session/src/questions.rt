// What is asked by `monitor`.
ghost use Rattle.std.specs.Prelude.{◌≡◌, ◌++◌, OnOk, IfOk, string_bytes};
ghost use Rattle.spec_reference.specs.States.{protections_of};
ghost use Rattle.debug_session.specs.Questions as spec;
ghost use Rattle.debug_session.specs.Runs.{Run, state};
ghost use Rattle.debug_session.specs.Sessions as session;
ghost use Rattle.debug_views.specs.Walks.{translation_text};

use crate::reasons::{push_names, reason_of};
use crate::target::Target;
use debug_views::{pages_text, translation_text};
use gdb_protocol::number_of;
use spec_reference::saved_machine::SavedHart;
use std::alloc::{AllocError, Global};
use text_numbers::{address_of_bytes, number_within};

/// What is asked by `monitor`.
#[derive(Clone, Copy, Debug, PartialEq, Eq, Drop)]
pub enum Question {
    /// How many events are made.
    Events,
    /// The state after so many events.
    At(u64),
    /// How pages are guarded.
    Pages,
    /// The verdict, or what was noted last.
    Why,
    /// How the chosen hart's address is translated.
    Translate(u64),
    /// Nothing that is known.
    Unknown,
}

// The text that pairs of digits write, up to what is no pair, is put at the end.
fn push_text(out: &mut Vec<u8>, digits: &[u8]) -> Result<(), AllocError>
    ensures { OnOk result (out.new.items ≡ out.old.items ++ spec.text_of digits.now) }
{
    'pairs: for i in 0..digits.len() / 2 {
        let Some(byte) = number_of(&[digits[2 * i], digits[2 * i + 1]]) else {
            return Ok(());
        };
        if out.push((byte % 256) as u8).is_err() {
            return Err(AllocError);
        }
    }
    Ok(())
}

// `translate` and an address, or none that is known.
#[tactic(auto, unfolding(crate::specs::Questions::translation_of))]
fn translation_of(text: &[u8]) -> Question
    ensures { result ≡ spec.translation_of text.now }
{
    let Some((name, address)) = text.split_first_chunk::<10>() else {
        return Question::Unknown;
    };
    if name != b"translate " {
        return Question::Unknown;
    }
    match address_of_bytes(address) {
        Some(address) => Question::Translate(address),
        None => Question::Unknown,
    }
}

// A word with what it is about.
#[tactic(auto, unfolding(crate::specs::Questions::argued))]
fn argued(text: &[u8]) -> Question
    ensures { result ≡ spec.argued text.now }
{
    let Some((name, number)) = text.split_first_chunk::<3>() else {
        return Question::Unknown;
    };
    if name != b"at " {
        return translation_of(text);
    }
    match number_within(number, 0, u64::MAX) {
        Some(number) => Question::At(number),
        None => Question::Unknown,
    }
}

#[tactic(auto, unfolding(crate::specs::Questions::question_of))]
fn question_of(text: &[u8]) -> Question
    ensures { result ≡ spec.question_of text.now }
{
    if text == b"events".as_slice() {
        return Question::Events;
    }
    if text == b"pages".as_slice() {
        return Question::Pages;
    }
    if text == b"why".as_slice() {
        return Question::Why;
    }
    argued(text)
}

/// What is asked in digits.
pub(crate) fn asked(alloc: Global, digits: &[u8]) -> Result<Question, AllocError>
    ensures { IfOk result (λ q. q ≡ spec.question_of (spec.text_of digits.now)) }
{
    let mut text = Vec::new(alloc);
    push_text(&mut text, digits)?;
    Ok(question_of(&text))
}

#[tactic(auto, unfolding(crate::specs::Questions::events_text))]
fn events_text(alloc: Global, made: u64) -> Result<String, AllocError>
    ensures { IfOk result (λ text. string_bytes text ≡ spec.events_text made) }
{
    format!(in alloc; "events {made}\n")
}

#[tactic(auto, unfolding(crate::specs::Questions::usage_text))]
fn usage_text(alloc: Global) -> Result<String, AllocError>
    ensures { IfOk result (λ text. string_bytes text ≡ spec.usage_text) }
{
    String::from_str(alloc, "events, at N, pages, why, or translate ADDRESS\n")
}

fn translated<T: Target>(
    alloc: Global,
    target: &T,
    hart: Option<SavedHart>,
    address: u64,
) -> Result<String, AllocError>
    ensures { IfOk result (λ text. (run : Run) → T.stands target.now run → string_bytes text
        ≡ session.of_hart (λ h. translation_text (state run).ram (protections_of (state run)) h address) hart) }
{
    match hart {
        Some(hart) => translation_text(alloc, target.ram(), target.protections(), &hart, address),
        None => String::from_str(alloc, "E01"),
    }
}

// The text that answers a question about a run and its hart, but for names.
fn plain_text<T: Target>(
    alloc: Global,
    target: &T,
    question: Question,
    hart: u8,
) -> Result<String, AllocError>
    ensures { IfOk result (λ text. (run : Run) → T.stands target.now run → string_bytes text ≡ session.plain_text question run hart) }
{
    match question {
        Question::Events | Question::At(_) => events_text(alloc, target.events_made()),
        Question::Pages => pages_text(alloc, target.protections()),
        Question::Why => reason_of(
            alloc,
            target.verdict(),
            target.notes(),
            target.counts().notes,
        ),
        Question::Translate(address) => translated(alloc, target, target.hart(hart), address),
        Question::Unknown => usage_text(alloc),
    }
}

// The names of the addresses in a reason are put at the end.
fn push_text_names<T: Target>(
    alloc: Global,
    out: &mut Vec<u8>,
    target: &T,
    question: Question,
) -> Result<(), AllocError>
    ensures { OnOk result ((run : Run) → T.stands target.now run → out.new.items ≡ out.old.items ++ session.text_names question run) }
{
    match question {
        Question::Why => push_names(alloc, out, target),
        _ => Ok(()),
    }
}

/// The text that answers a question about a run and its hart.
pub(crate) fn asked_text<T: Target>(
    alloc: Global,
    target: &T,
    question: Question,
    hart: u8,
) -> Result<Vec<u8>, AllocError>
    ensures { IfOk result (λ text. (run : Run) → T.stands target.now run → text.items ≡ session.asked_text question run hart) }
{
    let mut text = plain_text(alloc, target, question, hart)?.into_bytes();
    push_text_names(alloc, &mut text, target, question)?;
    Ok(text)
}
