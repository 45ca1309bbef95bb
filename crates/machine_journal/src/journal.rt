// What the machine records.

ghost use Rattle.std.specs.Prelude.{◌+◌, ◌≡◌, ◌<◌, ◌≤◌, ◌^◌, [], length, IfOk};
ghost use Rattle.spec_processor.specs.Counters.{CanCount};
ghost use Rattle.sv_types.specs.Limits.{max_printed, max_notes};
ghost use Rattle.sv_types.specs.Boot.{no_counts};
ghost use Rattle.sv_types.specs.declared.event.Note.TheVariants.{Demote, Denied, Load, Unload, Retire};
ghost use Rattle.sv_types.specs.declared.event.Verdict.TheVariants.{Running, Shutdown, Stopped};
ghost use Rattle.sv_types.specs.declared.sbi.SbiCode.TheVariants.{Success};
ghost use Rattle.spec_reference.specs.Counting.{with_count, count_turn, count_beat, count_key, count_tick, count_retired, count_trap};
ghost use Rattle.spec_reference.specs.Counting.{count_return, count_demote, count_denied, count_dropped, count_load, count_unload};
ghost use Rattle.spec_reference.specs.Counting.{MayCount, with_note, printed_low, machine_ended};
ghost use Rattle.machine_journal.specs.Journals.{count_batch, with_notes};
ghost use Rattle.spec_reference.specs.Answers.{count_answer, journal_side_effect};

use crate::notes::Notes;
use spec_processor::Mode;
use spec_reference::SideEffect;
use std::alloc::{AllocError, Global};
use std::marker::Model;
use sv_types::{Counts, MAX_PRINTED, Note, Rule, SbiCode, Verdict};

/// Printed bytes, the first 4,096 notes, counts and the verdict. Contracts see them.
///
/// Each call that counts has the condition that its counts are below the end of their type.
#[derive(Drop)]
pub struct Journal {
    printed: Vec<u8>,
    notes: Notes,
    counts: Counts,
    verdict: Verdict,
}

impl Model for Journal {
    ghost use Rattle.spec_reference.specs.States.{Journal as Records};

    ghost Value = { Records };

    ghost use Rattle.machine_journal.specs.Journals.{journal_of, HasRoom};

    ghost view = { journal_of };

    ghost invariant = { HasRoom };
}

impl Journal {
    /// Nothing is recorded, and the machine runs. There is room for all that is kept later.
    pub fn new(alloc: Global) -> Result<Journal, AllocError>
        ensures { IfOk result (λ j. j ≡ record { printed = []; notes = []; counts = no_counts; verdict = Running }) }
    {
        let printed = Vec::with_capacity(alloc, MAX_PRINTED)?;
        let notes = Notes::new(alloc)?;
        Ok(Journal {
            printed,
            notes,
            counts: Counts::default(),
            verdict: Verdict::Running,
        })
    }

    /// What was recorded before, with nothing printed. There is room for all that is kept later.
    pub fn from_values(
        alloc: Global,
        counts: Counts,
        notes: &[Note],
        verdict: Verdict,
    ) -> Result<Journal, AllocError>
        requires few { length notes.now ≤ max_notes }
        ensures { IfOk result (λ j. j ≡ record { printed = []; notes = notes.now; counts = counts; verdict = verdict }) }
    {
        let printed = Vec::with_capacity(alloc, MAX_PRINTED)?;
        let notes = Notes::from_values(alloc, notes)?;
        Ok(Journal {
            printed,
            notes,
            counts,
            verdict,
        })
    }

    /// The bytes that were printed and not cleared.
    pub fn printed(&self) -> &[u8]
        ensures { result.now ≡ self.now.printed }
    {
        &self.printed
    }

    /// Takes the printed bytes away.
    pub fn clear_printed(&mut self)
        ensures { self.new ≡ record self.old { printed = [] } }
    {
        self.printed.clear();
    }

    /// The first 4,096 notes.
    pub fn notes(&self) -> &[Note]
        ensures { result.now ≡ self.now.notes }
    {
        self.notes.items()
    }

    /// Keeps these notes in the place of its own, which it hands out; what was counted stays counted.
    pub fn swap_notes(&mut self, notes: &mut Notes)
        ensures taken { notes.new ≡ self.old.notes }
        ensures kept { self.new ≡ with_notes notes.old self.old }
    {
        std::mem::swap(&mut self.notes, notes);
    }

    /// The counts, which start at 0.
    pub fn counts(&self) -> Counts
        ensures { result ≡ self.now.counts }
    {
        self.counts
    }

    /// How the run stands.
    pub fn verdict(&self) -> Verdict
        ensures { result ≡ self.now.verdict }
    {
        self.verdict
    }

    /// Prints the low byte of a value.
    pub fn print(&mut self, value: u64)
        requires { length self.old.printed < max_printed }
        ensures { self.new ≡ printed_low value self.old }
    {
        self.printed.push_reserved((value % 256) as u8);
    }

    /// The guest shut down.
    pub fn shut_down(&mut self)
        ensures { self.new ≡ machine_ended Shutdown self.old }
    {
        self.verdict = Verdict::Shutdown;
    }

    /// A hart broke a rule in the turn that was counted last.
    pub fn stop(&mut self, hart: u8, rule: Rule)
        ensures { self.new ≡ machine_ended (Stopped rule hart self.old.counts.turns) self.old }
    {
        self.verdict = Verdict::Stopped {
            rule,
            hart,
            turn: self.counts.turns,
        };
    }

    /// The machine runs, whatever had stopped it.
    pub fn run_on(&mut self)
        ensures { self.new ≡ machine_ended Running self.old }
    {
        self.verdict = Verdict::Running;
    }

    /// A hart has its turn.
    pub fn count_turn(&mut self)
        requires { CanCount self.old.counts.turns }
        ensures { self.new ≡ with_count count_turn self.old }
    {
        self.counts.turns += 1;
    }

    /// The disk does the next part of its work.
    pub fn count_beat(&mut self)
        requires { CanCount self.old.counts.beats }
        ensures { self.new ≡ with_count count_beat self.old }
    {
        self.counts.beats += 1;
    }

    /// A key is typed.
    pub fn count_key(&mut self)
        requires { CanCount self.old.counts.keys }
        ensures { self.new ≡ with_count count_key self.old }
    {
        self.counts.keys += 1;
    }

    /// Time goes on by one.
    pub fn count_tick(&mut self)
        requires { CanCount self.old.counts.ticks }
        ensures { self.new ≡ with_count count_tick self.old }
    {
        self.counts.ticks += 1;
    }

    /// An instruction that was carried out.
    pub fn count_retired(&mut self)
        requires { CanCount self.old.counts.retired }
        ensures { self.new ≡ with_count count_retired self.old }
    {
        self.counts.retired += 1;
    }

    /// So many turns of a hart, in each of which an instruction was carried out.
    #[inline(always)]
    pub fn count_batch(&mut self, made: u64)
        requires turns { self.old.counts.turns + made < 2 ^ 64 }
        requires retired { self.old.counts.retired + made < 2 ^ 64 }
        ensures { self.new ≡ with_count (count_batch made) self.old }
    {
        self.counts.turns += made;
        self.counts.retired += made;
    }

    /// A trap of the guest; one from user mode enters the kernel.
    pub fn count_trap(&mut self, from: Mode)
        requires traps { CanCount self.old.counts.traps }
        requires enters { CanCount self.old.counts.enters }
        ensures { self.new ≡ with_count (count_trap from) self.old }
    {
        self.counts.traps += 1;
        if from == Mode::User {
            self.counts.enters += 1;
        }
    }

    /// A return from a trap; one to user mode leaves the kernel.
    pub fn count_return(&mut self, to: Mode)
        requires retired { CanCount self.old.counts.retired }
        requires leaves { CanCount self.old.counts.leaves }
        ensures { self.new ≡ with_count (count_return to) self.old }
    {
        self.counts.retired += 1;
        if to == Mode::User {
            self.counts.leaves += 1;
        }
    }

    /// A byte of input that found no room.
    pub fn count_dropped(&mut self)
        requires { CanCount self.old.counts.dropped }
        ensures { self.new ≡ with_count count_dropped self.old }
    {
        self.counts.dropped += 1;
    }

    /// A hart left kernel mode, since the instruction at its pc isn't approved.
    pub fn demote(&mut self, hart: u8, pc: u64, gpa: u64)
        requires demotes { CanCount self.old.counts.demotes }
        requires notes { CanCount self.old.counts.notes }
        ensures { self.new ≡ with_note (Demote hart self.old.counts.turns pc gpa) (with_count count_demote self.old) }
    {
        let turn = self.counts.turns;
        self.counts.demotes += 1;
        self.note(Note::Demote {
            hart,
            turn,
            pc,
            gpa,
        });
    }

    /// The block device was kept from writing into a protected page.
    pub fn deny(&mut self, gpa: u64)
        requires denied { CanCount self.old.counts.denied }
        requires notes { CanCount self.old.counts.notes }
        ensures { self.new ≡ with_note (Denied gpa) (with_count count_denied self.old) }
    {
        self.counts.denied += 1;
        self.note(Note::Denied { gpa });
    }

    /// What is recorded of what happens besides the answer to a call of a hart's.
    #[tactic(auto, unfolding(spec_reference::specs::Answers::journal_side_effect))]
    pub fn record(&mut self, hart: u8, side_effect: SideEffect)
        requires room { length self.old.printed < max_printed }
        requires counts { MayCount self.old.counts }
        ensures { self.new ≡ journal_side_effect side_effect hart self.old }
    {
        match side_effect {
            SideEffect::Prints { value } => self.print(value),
            SideEffect::ShutsDown => self.shut_down(),
            SideEffect::RefusesLoad { id, code } => self.answer_load(hart, id, code),
            SideEffect::ApprovesModule { about } => self.note_load(hart, about.id),
            SideEffect::ReleasesModule { about } => {
                self.answer_load(hart, about.id, SbiCode::RefusedByMeasure);
            }
            SideEffect::UnloadsModule { about } => self.note_unload(hart, about.id),
            SideEffect::RefusesUnload { id, code } => self.answer_unload(hart, id, code),
            SideEffect::RetiresInit { span: _ } => self.answer_retire(hart, SbiCode::Success),
            SideEffect::RefusesRetire { code } => self.answer_retire(hart, code),
            SideEffect::Nothing
            | SideEffect::SetsTimer { at: _ }
            | SideEffect::TakesInput
            | SideEffect::SendsInterrupts { mask: _, base: _ }
            | SideEffect::StartsHart {
                other: _,
                pc: _,
                opaque: _,
            }
            | SideEffect::BeginsLoad { about: _, pages: _ } => {}
        }
    }

    // The answer to a call that loads a module.
    fn answer_load(&mut self, hart: u8, id: u64, code: SbiCode)
        requires refused { CanCount self.old.counts.refused }
        requires notes { CanCount self.old.counts.notes }
        ensures { self.new ≡ with_note (Load hart self.old.counts.turns id code) (with_count (count_answer code) self.old) }
    {
        let turn = self.counts.turns;
        self.count_answer(code);
        self.note(Note::Load {
            hart,
            turn,
            id,
            code,
        });
    }

    // The answer to a call that unloads a module.
    fn answer_unload(&mut self, hart: u8, id: u64, code: SbiCode)
        requires refused { CanCount self.old.counts.refused }
        requires notes { CanCount self.old.counts.notes }
        ensures { self.new ≡ with_note (Unload hart self.old.counts.turns id code) (with_count (count_answer code) self.old) }
    {
        let turn = self.counts.turns;
        self.count_answer(code);
        self.note(Note::Unload {
            hart,
            turn,
            id,
            code,
        });
    }

    // The answer to a call that frees the kernel's init text.
    fn answer_retire(&mut self, hart: u8, code: SbiCode)
        requires refused { CanCount self.old.counts.refused }
        requires notes { CanCount self.old.counts.notes }
        ensures { self.new ≡ with_note (Retire hart self.old.counts.turns code) (with_count (count_answer code) self.old) }
    {
        let turn = self.counts.turns;
        self.count_answer(code);
        self.note(Note::Retire { hart, turn, code });
    }

    // A module that was loaded.
    fn note_load(&mut self, hart: u8, id: u64)
        requires counts { MayCount self.old.counts }
        ensures { self.new ≡ with_note (Load hart self.old.counts.turns id Success) (with_count count_load self.old) }
    {
        self.counts.loads += 1;
        self.answer_load(hart, id, SbiCode::Success);
    }

    // A module that was unloaded.
    fn note_unload(&mut self, hart: u8, id: u64)
        requires counts { MayCount self.old.counts }
        ensures { self.new ≡ with_note (Unload hart self.old.counts.turns id Success) (with_count count_unload self.old) }
    {
        self.counts.unloads += 1;
        self.answer_unload(hart, id, SbiCode::Success);
    }

    // A code other than success is a refusal.
    fn count_answer(&mut self, code: SbiCode)
        requires { CanCount self.old.counts.refused }
        ensures { self.new ≡ with_count (count_answer code) self.old }
    {
        match code {
            SbiCode::Success => {}
            _ => self.counts.refused += 1,
        }
    }

    fn note(&mut self, note: Note)
        requires { CanCount self.old.counts.notes }
        ensures { self.new ≡ with_note note self.old }
    {
        self.notes.add(note);
        self.counts.notes += 1;
    }
}
