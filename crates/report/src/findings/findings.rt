// What a survey found, counted by a key.

ghost use Rattle.std.specs.Prelude.{◌≡◌, ◌<◌, ◌≤◌, length, vec_capacity, OnOk};
ghost use Rattle.report.specs.Findings as spec;
ghost use Rattle.report.specs.Views.{writes_view};

use spec_processor::PAGE_BYTES;
use std::alloc::{AllocError, Global};
use sv_types::Note;

/// So many findings of a kind are kept.
pub const MAX_FINDINGS: usize = 4096;

/// What a survey sees: of a write that it passes over the key is the instruction's pc, and the address where it would have written;
/// of a demotion the key is the page's address, and the address is the pc; of a denied move the key is the page's address. With
/// the hart and the turn, which a denied move lacks.
#[derive(Clone, Copy, Drop)]
pub struct Occurrence {
    pub key: u64,
    pub address: u64,
    pub hart: u8,
    pub turn: u64,
}

/// What was found at one key: how often, the first hart and turn, and the first, the lowest and the highest address.
#[derive(Clone, Copy, Drop)]
pub struct Finding {
    pub key: u64,
    pub times: u64,
    pub hart: u8,
    pub turn: u64,
    pub first: u64,
    pub low: u64,
    pub high: u64,
}

fn first_finding(occurrence: &Occurrence) -> Finding
    ensures { result ≡ spec.first_finding occurrence.now }
{
    Finding {
        key: occurrence.key,
        times: 1,
        hart: occurrence.hart,
        turn: occurrence.turn,
        first: occurrence.address,
        low: occurrence.address,
        high: occurrence.address,
    }
}

// One more, up to the most that a number of 64 bits holds.
pub(crate) fn raised(count: u64) -> u64
    ensures { result ≡ spec.raised count }
{
    count.saturating_add(1)
}

fn joined(finding: &Finding, occurrence: &Occurrence) -> Finding
    ensures { result ≡ spec.joined finding.now occurrence.now }
{
    Finding {
        key: finding.key,
        times: raised(finding.times),
        hart: finding.hart,
        turn: finding.turn,
        first: finding.first,
        low: finding.low.min(occurrence.address),
        high: finding.high.max(occurrence.address),
    }
}

// The place of the finding of an occurrence's key.
#[tactic(auto, unfolding(crate::specs::Findings::place_of))]
fn place_of(findings: &[Finding], occurrence: &Occurrence) -> Option<usize>
    ensures { result ≡ spec.place_of findings.now occurrence.now }
{
    let key = occurrence.key;
    findings.iter().position(|finding| finding.key == key)
}

fn join(findings: &mut Vec<Finding>, place: usize, occurrence: &Occurrence)
    requires { place < length findings.old.items }
    ensures joined { findings.new.items ≡ spec.joined_at findings.old.items place occurrence.now }
    ensures room { vec_capacity findings.new ≡ vec_capacity findings.old }
{
    findings[place] = joined(&findings[place], occurrence);
}

// One occurrence more: it joins the finding of its key, or begins one after the others where there is room for it.
fn add(findings: &mut Vec<Finding>, occurrence: &Occurrence) -> Result<(), AllocError>
    ensures { OnOk result (findings.new.items ≡ spec.after_occurrence findings.old.items occurrence.now) }
{
    if let Some(place) = place_of(findings, occurrence) {
        join(findings, place, occurrence);
        return Ok(());
    }
    if findings.len() < MAX_FINDINGS {
        findings.push(first_finding(occurrence))?;
    }
    Ok(())
}

// The same where there is room for all findings that are kept.
fn add_reserved(findings: &mut Vec<Finding>, occurrence: &Occurrence)
    requires { spec.max_findings ≤ vec_capacity findings.old }
    ensures found { findings.new.items ≡ spec.after_occurrence findings.old.items occurrence.now }
    ensures room { vec_capacity findings.new ≡ vec_capacity findings.old }
{
    if let Some(place) = place_of(findings, occurrence) {
        join(findings, place, occurrence);
        return;
    }
    if findings.len() < MAX_FINDINGS {
        findings.push_reserved(first_finding(occurrence));
    }
}

/// The writes that a survey passed over: those of each pc, and how many they are in all, whether their findings are kept or not.
#[derive(Drop)]
pub struct Writes {
    pub findings: Vec<Finding>,
    pub total: u64,
}

/// No writes yet.
pub fn no_writes(alloc: Global) -> Writes
    ensures { writes_view result ≡ spec.no_writes }
{
    Writes {
        findings: Vec::new(alloc),
        total: 0,
    }
}

/// One write more. Fails where memory runs out.
pub fn add_write(writes: &mut Writes, write: &Occurrence) -> Result<(), AllocError>
    ensures { OnOk result (writes_view writes.new ≡ spec.with_write (writes_view writes.old) write.now) }
{
    add(&mut writes.findings, write)?;
    writes.total = raised(writes.total);
    Ok(())
}

// The address of the page in which an address lies.
fn page_address(gpa: u64) -> u64
    ensures { result ≡ spec.page_address gpa }
{
    gpa - gpa % PAGE_BYTES
}

#[tactic(auto, unfolding(crate::specs::Findings::after_demotion))]
pub(crate) fn add_demotion(findings: &mut Vec<Finding>, note: Note)
    requires { spec.max_findings ≤ vec_capacity findings.old }
    ensures found { findings.new.items ≡ spec.after_demotion findings.old.items note }
    ensures room { vec_capacity findings.new ≡ vec_capacity findings.old }
{
    match note {
        Note::Demote {
            hart,
            turn,
            pc,
            gpa,
        } => {
            let occurrence = Occurrence {
                key: page_address(gpa),
                address: pc,
                hart,
                turn,
            };
            add_reserved(findings, &occurrence);
        }
        Note::Denied { .. } | Note::Load { .. } | Note::Unload { .. } | Note::Retire { .. } => {}
    }
}

#[tactic(auto, unfolding(crate::specs::Findings::after_denied))]
pub(crate) fn add_denied(findings: &mut Vec<Finding>, note: Note)
    requires { spec.max_findings ≤ vec_capacity findings.old }
    ensures found { findings.new.items ≡ spec.after_denied findings.old.items note }
    ensures room { vec_capacity findings.new ≡ vec_capacity findings.old }
{
    match note {
        Note::Denied { gpa } => {
            let occurrence = Occurrence {
                key: page_address(gpa),
                address: gpa,
                hart: 0,
                turn: 0,
            };
            add_reserved(findings, &occurrence);
        }
        Note::Demote { .. } | Note::Load { .. } | Note::Unload { .. } | Note::Retire { .. } => {}
    }
}
