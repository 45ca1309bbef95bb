// The machine.

ghost use Rattle.std.specs.Prelude.{◌≡◌, ◌&&◌, ℕ, ◌+◌, ◌-◌, ◌<◌, ◌≤◌, [], length, replicate, true, false};
ghost use Rattle.sv_types.specs.Limits.{max_printed};
ghost use Rattle.sv_types.specs.declared.event.Event.TheVariants.{Turn};
ghost use Rattle.sv_types.specs.declared.event.Verdict.TheVariants.{Running};
ghost use Rattle.spec_reference.specs.Counting.{CountsAtMost};
ghost use Rattle.spec_reference.specs.Disk.{disk_bytes};
ghost use Rattle.spec_reference.specs.Run.{run, step};
ghost use Rattle.spec_reference.specs.States.{State};
ghost use Rattle.spec_hardware.specs.HardwareEvent.{IsEvent};
ghost use Rattle.spec_hardware.specs.Reaches.{Cleared};
ghost use Rattle.spec_hardware.specs.StandsFor.{StandsFor};
ghost use Rattle.spec_hardware.specs.Steps.{IsStep};
ghost use Rattle.laws_simulation.specs.HwPassing.{hw_passed_over};
ghost use Rattle.laws_simulation.specs.Passing.{passed_over};
ghost use Rattle.machine.specs.Limits.{max_counts};
ghost use Rattle.machine.specs.Noting.{hw_noting, noting};
ghost use Rattle.machine.specs.Repeats.{Made, MadeInBatch, MadeRow, Makes, MayMake, Repeats, StaysUnloaded};
ghost use Rattle.hw_platform.specs.Batches.{AreFree};
ghost use Rattle.machine.specs.Batches.{MayBatch, reserves_nothing};
ghost use Rattle.hw_fast_path.specs.Ends.{turns_of};

use crate::events::System;
use hw_fast_path::{Alone, Batch, InRow, Way};
use machine_journal::Notes;
use std::marker::Model;
use sv_types::{Counts, Event, Note, Verdict};

/// Harts with the hypervisor extension, host memory and devices, under SecVisor. Contracts see the machine. It can be
/// dropped at any moment.
pub struct Machine {
    pub(crate) system: System,
    // No hart has a reservation. Where it isn't noted, one may have one or not.
    pub(crate) none_reserved: bool,
}

impl Model for Machine {
    ghost use Rattle.spec_hardware.specs.Machine.{Machine as Whole};

    ghost Value = { Whole };

    ghost use Rattle.machine.specs.Machines.{IsFit};

    ghost view = { λ m. m.system };

    ghost invariant = { IsFit };
}

impl Machine {
    /// One event. The machine stands for the reference machine's state after it, and changes no more than the event may.
    #[inline(never)]
    pub fn step(&mut self, event: Event)
        requires room { length self.old.journal.printed < max_printed }
        requires counts { CountsAtMost (max_counts - 1) self.old.journal.counts }
        ensures stands { (r : State) → StandsFor self.old r → StandsFor self.new (step r event) }
        ensures event { IsEvent self.old event self.new }
    {
        let _once = self.repeat(event, 1);
    }

    /// One event up to `count` times in a row, no more of it after one that printed or that ended the run. Answers how
    /// often it was made.
    #[inline(always)]
    pub fn repeat(&mut self, event: Event, count: u64) -> u64
        requires asked { 0 < count }
        requires few { count ≤ max_counts }
        requires room { length self.old.journal.printed < max_printed }
        requires counts { CountsAtMost (max_counts - count) self.old.journal.counts }
        ensures stands { (r : State) → StandsFor self.old r → StandsFor self.new (run r (replicate result event)) }
        ensures chain { Repeats result self.old event self.new }
        ensures counts { (n : ℕ) → CountsAtMost n self.old.journal.counts → CountsAtMost (n + result) self.new.journal.counts }
        ensures some { 0 < result }
        ensures most { result ≤ count }
        ensures all { length self.new.journal.printed ≡ length self.old.journal.printed → self.new.journal.verdict ≡ Running → result ≡ count }
    {
        if count == 1 {
            return self.one(event);
        }
        self.rounds(event, count)
    }

    /// The same, and no more of it after an event after which a load is under way.
    #[inline(always)]
    pub fn repeat_to_load(&mut self, event: Event, count: u64) -> u64
        requires asked { 0 < count }
        requires few { count ≤ max_counts }
        requires room { length self.old.journal.printed < max_printed }
        requires counts { CountsAtMost (max_counts - count) self.old.journal.counts }
        ensures { MadeRow result count self.old event self.new }
    {
        let shown = self.printed().len();
        let mut made = 0;
        'events: while made < count {
            made += self.round(event, count - made);
            if made == count
                || self.printed().len() != shown
                || self.verdict() != Verdict::Running
                || self.is_loading()
            {
                return made;
            }
        }
        made
    }

    /// A turn of a hart that is stopped, or isn't there, which is only counted. Answers whether the event was one, and makes none else.
    #[inline(always)]
    pub fn idles(&mut self, event: Event) -> bool
        requires room { length self.old.journal.printed < max_printed }
        requires counts { CountsAtMost (max_counts - 1) self.old.journal.counts }
        ensures made { result ≡ true → MadeRow 1 1 self.old event self.new }
        ensures quiet { result ≡ true → StaysUnloaded self.old self.new }
        ensures same { result ≡ false → self.new ≡ self.old }
    {
        if let Event::Turn(hart) = event {
            return self.idles_at(hart);
        }
        false
    }

    #[inline(always)]
    fn idles_at(&mut self, hart: u8) -> bool
        requires room { length self.old.journal.printed < max_printed }
        requires counts { CountsAtMost (max_counts - 1) self.old.journal.counts }
        ensures made { result ≡ true → MadeRow 1 1 self.old (Turn hart) self.new }
        ensures quiet { result ≡ true → StaysUnloaded self.old self.new }
        ensures same { result ≡ false → self.new ≡ self.old }
    {
        if !self.system.is_stopped(hart) {
            return false;
        }
        self.make(Event::Turn(hart));
        true
    }

    // The event once: a turn by what is held, where that is enough.
    #[inline(always)]
    fn one(&mut self, event: Event) -> u64
        requires { MayMake self.old 1 }
        ensures { MadeRow result 1 self.old event self.new }
    {
        if let Event::Turn(hart) = event {
            return self.hart_turn(hart);
        }
        self.once(event, 1)
    }

    // A turn of a hart: by what is held, else as a row of one.
    #[inline(always)]
    fn hart_turn(&mut self, hart: u8) -> u64
        requires { MayMake self.old 1 }
        ensures { MadeRow result 1 self.old (Turn hart) self.new }
    {
        if self.system.is_stopped(hart) {
            return self.once(Event::Turn(hart), 1);
        }
        let made = self.batch::<Alone>(hart, 1).turns();
        if made == 0 {
            return self.row_of_one(hart);
        }
        made
    }

    // A row of one turn, kept out of the way of turns that are made by what is held.
    #[inline(never)]
    fn row_of_one(&mut self, hart: u8) -> u64
        requires { MayMake self.old 1 }
        ensures { MadeRow result 1 self.old (Turn hart) self.new }
    {
        self.hart_turns(hart, 1)
    }

    // Rounds of one event, up to `count` times.
    #[inline(always)]
    fn rounds(&mut self, event: Event, count: u64) -> u64
        requires { MayMake self.old count }
        ensures stands { (r : State) → StandsFor self.old r → StandsFor self.new (run r (replicate result event)) }
        ensures made { Made result count self.old event self.new }
        ensures all { length self.new.journal.printed ≡ length self.old.journal.printed → self.new.journal.verdict ≡ Running → result ≡ count }
    {
        let printed = self.printed().len();
        let mut made = 0;
        'events: while made < count {
            made += self.round(event, count - made);
            if self.printed().len() != printed || self.verdict() != Verdict::Running {
                return made;
            }
        }
        made
    }

    // The event once, or turns of a hart in a row.
    #[inline(always)]
    fn round(&mut self, event: Event, most: u64) -> u64
        requires { MayMake self.old most }
        ensures { MadeRow result most self.old event self.new }
    {
        if let Event::Turn(hart) = event {
            return self.hart_turns(hart, most);
        }
        self.once(event, most)
    }

    // The event once.
    #[inline(always)]
    fn once(&mut self, event: Event, most: u64) -> u64
        requires { MayMake self.old most }
        ensures { MadeRow result most self.old event self.new }
    {
        self.make(event);
        1
    }

    // A row of turns of a hart, and the turn that stopped it where some are left. A stopped hart has its turns one by one.
    #[inline(always)]
    fn hart_turns(&mut self, hart: u8, most: u64) -> u64
        requires { MayMake self.old most }
        ensures { MadeRow result most self.old (Turn hart) self.new }
    {
        if self.system.is_stopped(hart) {
            return self.once(Event::Turn(hart), most);
        }
        let batch = self.batch::<InRow>(hart, most);
        let made = batch.turns();
        if made == most || batch.left.is_left() {
            return made;
        }
        self.make(Event::Turn(hart));
        made + 1
    }

    // Turns of a hart that only carry out instructions, and one that leaves the guest by a call or a return, by a shorter way.
    #[inline(always)]
    fn batch<W: Way>(&mut self, hart: u8, most: u64) -> Batch
        requires few { most ≤ max_counts }
        requires counts { CountsAtMost (max_counts - most) self.old.journal.counts }
        ensures { MadeInBatch result.left (turns_of result) most self.old (Turn hart) self.new }
    {
        if self.may_batch(hart) {
            self.one_row::<W>(hart, most)
        } else {
            Batch::none()
        }
    }

    // A hart makes attempts in its turns, no interrupt is due, and no write of it meets a reservation.
    #[inline(always)]
    fn may_batch(&mut self, hart: u8) -> bool
        ensures may { result ≡ true → MayBatch self.new hart }
        ensures same { self.new ≡ self.old }
    {
        self.system.is_quiet_at(hart) && self.is_unreserved()
    }

    // No hart has a reservation. That is noted, since only an attempt that isn't made in a row gives one.
    #[inline(always)]
    fn is_unreserved(&mut self) -> bool
        ensures free { result ≡ true → AreFree self.new.harts }
        ensures same { self.new ≡ self.old }
    {
        if self.none_reserved {
            return true;
        }
        self.none_reserved = self.system.are_free();
        self.none_reserved
    }

    // A row of turns of a hart, with the answer to the exit by which it left the guest after them.
    #[inline(always)]
    fn one_row<W: Way>(&mut self, hart: u8, most: u64) -> Batch
        requires may { MayBatch self.old hart }
        requires few { most ≤ max_counts }
        requires counts { CountsAtMost (max_counts - most) self.old.journal.counts }
        ensures { MadeInBatch result.left (turns_of result) most self.old (Turn hart) self.new }
    {
        let batch = self.system.batch::<W>(hart, most);
        self.system.answer_leaving(hart, batch.left);
        batch
    }

    // One event, by the only caller of the system's own step.
    #[inline(always)]
    fn make(&mut self, event: Event)
        requires room { length self.old.journal.printed < max_printed }
        requires counts { CountsAtMost (max_counts - 1) self.old.journal.counts }
        ensures makes { Makes self.old event self.new }
        ensures step { IsStep self.old event self.new }
        ensures counts { (n : ℕ) → CountsAtMost n self.old.journal.counts → CountsAtMost (n + 1) self.new.journal.counts }
    {
        self.none_reserved = stays_unreserved(self.none_reserved, &self.system, event);
        self.system.step(event);
    }

    /// How the run stands: running, shut down by the guest, or stopped by a broken rule.
    pub fn verdict(&self) -> Verdict
        ensures { result ≡ self.now.journal.verdict }
    {
        self.system.verdict()
    }

    /// What happened so far, counted: events, instructions, traps, loads and notes.
    pub fn counts(&self) -> Counts
        ensures { result ≡ self.now.journal.counts }
    {
        self.system.counts()
    }

    /// The first 4,096 notes.
    pub fn journal(&self) -> &[Note]
        ensures { result.now ≡ self.now.journal.notes }
    {
        self.system.journal.notes()
    }

    /// Keeps these notes in the place of its own, which it hands out; what was counted stays counted.
    #[inline(never)]
    pub fn swap_notes(&mut self, notes: &mut Notes)
        ensures taken { notes.new ≡ self.old.journal.notes }
        ensures kept { self.new ≡ hw_noting notes.old self.old }
        ensures stands { (r : State) → StandsFor self.old r → StandsFor self.new (noting notes.old r) }
    {
        self.system.swap_notes(notes);
    }

    /// The printed bytes that weren't taken away.
    pub fn printed(&self) -> &[u8]
        ensures { result.now ≡ self.now.journal.printed }
    {
        self.system.journal.printed()
    }

    /// Takes the printed bytes away.
    pub fn clear_printed(&mut self)
        ensures cleared { Cleared self.old self.new }
        ensures printed { self.new.journal.printed ≡ [] }
    {
        let _counts = self.system.counts();
        self.system.clear_printed();
    }

    /// Where a write stopped the machine its hart goes on at the next instruction, and the machine runs: no byte, register,
    /// reservation or count changes but the pc. Any other machine stays as it is.
    #[inline(never)]
    pub fn pass_over(&mut self)
        ensures stands { (r : State) → StandsFor self.old r → StandsFor self.new (passed_over r) }
        ensures passed { self.new ≡ hw_passed_over self.old }
    {
        self.system.pass_over();
    }

    /// The bytes of the disk.
    pub fn disk(&self) -> &[u8]
        ensures { result.now ≡ disk_bytes self.now.devices.disk }
    {
        self.system.hardware.devices.disk()
    }

    /// The attempts that were made.
    pub fn attempts(&self) -> u64
        ensures { result ≡ self.now.attempts }
    {
        self.system.hardware.words.turns() + self.system.hardware.cpu.count()
    }
}

// Whether no hart has a reservation after an event, where that was known before it.
#[inline(always)]
fn stays_unreserved(known: bool, system: &System, event: Event) -> bool
    ensures { result ≡ (known && reserves_nothing system.now event) }
{
    known && system.reserves_nothing(event)
}

impl Drop for Machine {
    // A load under way frees its pages.
    fn drop(self) {
        let Machine {
            system,
            none_reserved: _,
        } = self;
        system.end();
    }
}
