// How a hart's virtual address is translated, word by word.
ghost use Rattle.std.specs.Prelude.{◌≡◌, ◌++◌, ◌<◌, ◌^◌, OnOk, IfOk, IfSome, true, string_bytes};
ghost use Rattle.spec_processor.specs.Translation.{is_canonical, root_of, sv39_indices, table_levels};
ghost use Rattle.sv39_walk.specs.Levels.{indices_of};
ghost use Rattle.sv39_walk.specs.Regimes.{settings_of};
ghost use Rattle.debug_views.specs.Walks as spec;

use crate::memory::{entry_at, is_canonical, seen_address};
use spec_processor::{
    Access, BARE, ENTRY_BYTES, Mode, PteBits, RAM_BASE, ROOT_MODE_SHIFT, TABLE_LEVELS, has_bit,
    page_of,
};
use spec_reference::saved_machine::SavedHart;
use std::alloc::{AllocError, Global};
use sv_types::Protection;
use sv39_walk::{Regime, entry_page, index, is_pointer, leaf_gpa, root_table};
use text_numbers::address_text;

// The places of SUM and MXR in a status.
const SUM_BIT: u8 = 18;

const MXR_BIT: u8 = 19;

// What the first stage of a hart goes by in a mode. No second stage is asked.
fn regime_of(hart: &SavedHart, mode: Mode) -> Regime
    ensures settings { settings_of result ≡ spec.settings_of_hart hart.now }
    ensures mode { result.mode ≡ mode }
{
    Regime {
        hgatp: 0,
        vsatp: hart.satp,
        mode,
        sum: has_bit(hart.sstatus, SUM_BIT),
        mxr: has_bit(hart.sstatus, MXR_BIT),
    }
}

// ---- what a table word permits

fn permits(regime: &Regime, va: u64, below: u32, word: PteBits, access: Access) -> bool
    requires below { below < table_levels }
    requires canonical { is_canonical va ≡ true }
    ensures { result ≡ spec.permits (settings_of regime.now) regime.now.mode below word.0 access }
{
    leaf_gpa(word, below, regime, va, access).is_some()
}

fn letter(name: &'static str, permitted: bool) -> &'static str
    ensures { result.now ≡ spec.letter name.now permitted }
{
    if permitted { name } else { "-" }
}

// Loads, stores and fetches.
#[tactic(auto, unfolding(crate::specs::Walks::rights))]
fn rights(
    alloc: Global,
    regime: &Regime,
    va: u64,
    below: u32,
    word: PteBits,
) -> Result<String, AllocError>
    requires below { below < table_levels }
    requires canonical { is_canonical va ≡ true }
    ensures { IfOk result (λ text. string_bytes text ≡ spec.rights (settings_of regime.now) regime.now.mode below word.0) }
{
    let loads = letter("r", permits(regime, va, below, word, Access::Load));
    let stores = letter("w", permits(regime, va, below, word, Access::Store));
    let fetches = letter("x", permits(regime, va, below, word, Access::Fetch));
    format!(in alloc; "{loads}{stores}{fetches}")
}

#[tactic(auto, unfolding(crate::specs::Walks::use_text))]
fn use_text(
    alloc: Global,
    hart: &SavedHart,
    va: u64,
    below: u32,
    word: PteBits,
) -> Result<String, AllocError>
    requires below { below < table_levels }
    requires canonical { is_canonical va ≡ true }
    ensures { IfOk result (λ text. string_bytes text ≡ spec.use_text (spec.settings_of_hart hart.now) below word.0) }
{
    if is_pointer(word) {
        return String::from_str(alloc, "pointer");
    }
    let kernel = rights(alloc, &regime_of(hart, Mode::Kernel), va, below, word)?;
    let user = rights(alloc, &regime_of(hart, Mode::User), va, below, word)?;
    format!(in alloc; "kernel {kernel} user {user}")
}

// ---- the words of a walk

fn word_text(
    alloc: Global,
    hart: &SavedHart,
    va: u64,
    below: u32,
    word: Option<u64>,
) -> Result<String, AllocError>
    requires below { below < table_levels }
    requires canonical { is_canonical va ≡ true }
    ensures { IfOk result (λ text. string_bytes text ≡ spec.word_text (spec.settings_of_hart hart.now) below word) }
{
    let Some(word) = word else {
        return String::from_str(alloc, "outside RAM");
    };
    let used = use_text(alloc, hart, va, below, PteBits(word))?;
    let word = address_text(alloc, word)?;
    format!(in alloc; "word {word} {used}")
}

#[tactic(auto, unfolding(crate::specs::Walks::level_line))]
fn level_line(
    alloc: Global,
    hart: &SavedHart,
    va: u64,
    below: u32,
    at: u64,
    word: Option<u64>,
) -> Result<String, AllocError>
    requires below { below < table_levels }
    requires canonical { is_canonical va ≡ true }
    ensures { IfOk result (λ text. string_bytes text ≡ spec.level_line (spec.settings_of_hart hart.now) below at word) }
{
    let said = word_text(alloc, hart, va, below, word)?;
    let at = address_text(alloc, at)?;
    format!(in alloc; "level {below} at {at} {said}\n")
}

// The table to go on from.
#[tactic(auto, unfolding(crate::specs::Walks::next_table))]
fn next_table(word: Option<u64>) -> Option<u64>
    ensures value { result ≡ spec.next_table word }
    ensures small { IfSome result (λ table. table < 2 ^ 57) }
{
    let entry = PteBits(word?);
    if is_pointer(entry) {
        Some(entry_page(entry))
    } else {
        None
    }
}

// A line for each word of a walk.
fn push_walk(
    alloc: Global,
    text: &mut String,
    ram: &[u8],
    hart: &SavedHart,
    va: u64,
) -> Result<(), AllocError>
    requires canonical { is_canonical va ≡ true }
    ensures { OnOk result (string_bytes text.new
        ≡ string_bytes text.old ++ spec.walk_lines ram.now (spec.settings_of_hart hart.now) (sv39_indices va) (root_of hart.now.satp)) }
{
    let mut table = root_table(hart.satp);
    'levels: for below in (0..TABLE_LEVELS).rev() {
        let at = table + ENTRY_BYTES * index(va, below);
        let word = entry_at(ram, at);
        text.push_str(level_line(alloc, hart, va, below, at, word)?.as_str())?;
        let Some(next) = next_table(word) else {
            return Ok(());
        };
        table = next;
    }
    Ok(())
}

#[tactic(auto, unfolding(crate::specs::Walks::table_lines))]
fn table_lines(alloc: Global, ram: &[u8], hart: &SavedHart, va: u64) -> Result<String, AllocError>
    ensures { IfOk result (λ text. string_bytes text ≡ spec.table_lines ram.now (spec.settings_of_hart hart.now) va) }
{
    if hart.satp >> ROOT_MODE_SHIFT == BARE {
        return String::from_str(alloc, "bare\n");
    }
    if !is_canonical(va) {
        return String::from_str(alloc, "not canonical\n");
    }
    let mut text = String::new(alloc);
    push_walk(alloc, &mut text, ram, hart, va)?;
    Ok(text)
}

// ---- the result

fn guard_at(guards: &[Protection], gpa: u64) -> Option<Protection>
    ensures { result ≡ spec.guard_at guards.now gpa }
{
    if gpa < RAM_BASE {
        return None;
    }
    guards.get(page_of(gpa) as usize).copied()
}

fn guard_text(guard: Option<Protection>) -> &'static str
    ensures { result.now ≡ spec.guard_text guard }
{
    match guard {
        Some(guard) => guard.name(),
        None => "outside RAM",
    }
}

#[tactic(auto, unfolding(crate::specs::Walks::place_line))]
fn place_line(alloc: Global, guards: &[Protection], gpa: Option<u64>) -> Result<String, AllocError>
    ensures { IfOk result (λ text. string_bytes text ≡ spec.place_line guards.now gpa) }
{
    let Some(gpa) = gpa else {
        return String::from_str(alloc, "page fault\n");
    };
    let guard = guard_text(guard_at(guards, gpa));
    let gpa = address_text(alloc, gpa)?;
    format!(in alloc; "to {gpa} {guard}\n")
}

/// The words of the walk of a hart's address, and where kernel mode's load leads with SUM and MXR set.
#[tactic(auto, unfolding(crate::specs::Walks::translation_text))]
pub fn translation_text(
    alloc: Global,
    ram: &[u8],
    guards: &[Protection],
    hart: &SavedHart,
    va: u64,
) -> Result<String, AllocError>
    ensures { IfOk result (λ text. string_bytes text ≡ spec.translation_text ram.now guards.now hart.now va) }
{
    let mut text = table_lines(alloc, ram, hart, va)?;
    let place = place_line(alloc, guards, seen_address(ram, hart.satp, va))?;
    text.push_str(place.as_str())?;
    Ok(text)
}
