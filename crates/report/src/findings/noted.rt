// What a survey found by notes.

ghost use Rattle.std.specs.Prelude.{◌≡◌, ◌≤◌, vec_capacity, IfOk};
ghost use Rattle.report.specs.Findings as spec;

use crate::findings::findings::{Finding, MAX_FINDINGS, add_demotion, add_denied};
use std::alloc::{AllocError, Global};
use std::marker::Model;
use sv_types::Note;

/// The pages at which kernel mode was left, and those that devices were kept from, by the notes that it was given. There is room for
/// all that are kept from the start.
#[derive(Drop)]
pub struct NotesFound {
    demotions: Vec<Finding>,
    denied: Vec<Finding>,
}

impl Model for NotesFound {
    ghost use Rattle.report.specs.Findings.{FoundByNotes};

    ghost Value = { FoundByNotes };

    ghost use Rattle.report.specs.FoundNotes.{HasRoom, found_of};

    ghost view = { found_of };

    ghost invariant = { HasRoom };
}

fn add_demotions(findings: &mut Vec<Finding>, notes: &[Note])
    requires { spec.max_findings ≤ vec_capacity findings.old }
    ensures found { findings.new.items ≡ spec.demotions findings.old.items notes.now }
    ensures room { vec_capacity findings.new ≡ vec_capacity findings.old }
{
    'notes: for note in notes {
        add_demotion(findings, *note);
    }
}

fn add_denied_moves(findings: &mut Vec<Finding>, notes: &[Note])
    requires { spec.max_findings ≤ vec_capacity findings.old }
    ensures found { findings.new.items ≡ spec.denied_moves findings.old.items notes.now }
    ensures room { vec_capacity findings.new ≡ vec_capacity findings.old }
{
    'notes: for note in notes {
        add_denied(findings, *note);
    }
}

impl NotesFound {
    /// What is found by notes. Fails where memory runs out.
    pub fn of(alloc: Global, notes: &[Note]) -> Result<NotesFound, AllocError>
        ensures { IfOk result (λ found. found ≡ spec.found_by notes.now) }
    {
        let mut demotions = Vec::with_capacity(alloc, MAX_FINDINGS)?;
        add_demotions(&mut demotions, notes);
        let mut denied = Vec::with_capacity(alloc, MAX_FINDINGS)?;
        add_denied_moves(&mut denied, notes);
        Ok(NotesFound { demotions, denied })
    }

    /// More notes.
    pub fn add(&mut self, notes: &[Note])
        ensures { self.new ≡ spec.with_notes self.old notes.now }
    {
        add_demotions(&mut self.demotions, notes);
        add_denied_moves(&mut self.denied, notes);
    }

    /// The pages at which kernel mode was left.
    pub fn demotions(&self) -> &[Finding]
        ensures { result.now ≡ self.now.demotions }
    {
        &self.demotions
    }

    /// The pages that devices were kept from.
    pub fn denied(&self) -> &[Finding]
        ensures { result.now ≡ self.now.denied }
    {
        &self.denied
    }
}
