// The notes that are kept.

ghost use Rattle.std.specs.Prelude.{◌≡◌, ◌≤◌, [], ◌∷◌, ◌++◌, length, take, IfOk};
ghost use Rattle.sv_types.specs.Limits.{max_notes};

use std::alloc::{AllocError, Global};
use std::marker::Model;
use sv_types::{MAX_NOTES, Note};

/// The first 4,096 notes of those that it was given. There is room for all of them from the start.
#[derive(Drop)]
pub struct Notes {
    items: Vec<Note>,
}

impl Model for Notes {
    ghost use Rattle.std.specs.Prelude.{List};
    ghost use Rattle.sv_types.specs.declared.event.Note.{Note as Entry};

    ghost Value = { List Entry };

    ghost use Rattle.machine_journal.specs.KeptNotes.{notes_of, HasRoom};

    ghost view = { notes_of };

    ghost invariant = { HasRoom };
}

impl Notes {
    /// None.
    pub fn new(alloc: Global) -> Result<Notes, AllocError>
        ensures { IfOk result (λ n. n ≡ []) }
    {
        let items = Vec::with_capacity(alloc, MAX_NOTES)?;
        Ok(Notes { items })
    }

    /// These.
    pub fn from_values(alloc: Global, notes: &[Note]) -> Result<Notes, AllocError>
        requires few { length notes.now ≤ max_notes }
        ensures { IfOk result (λ n. n ≡ notes.now) }
    {
        let mut items = Vec::with_capacity(alloc, MAX_NOTES)?;
        items.extend_from_slice(notes)?;
        Ok(Notes { items })
    }

    /// The notes, in the order in which they came.
    pub fn items(&self) -> &[Note]
        ensures { result.now ≡ self.now }
    {
        &self.items
    }

    /// Takes all of them away.
    pub fn clear(&mut self)
        ensures { self.new ≡ [] }
    {
        self.items.clear();
    }

    /// One more, which is kept if it is one of the first.
    #[tactic(auto, using(crate::proofs::FirstNotes::notes_full, crate::proofs::FirstNotes::notes_room))]
    pub fn add(&mut self, note: Note)
        ensures { self.new ≡ take max_notes (self.old ++ note ∷ []) }
    {
        if self.items.len() < MAX_NOTES {
            self.items.push_reserved(note);
        }
    }
}
