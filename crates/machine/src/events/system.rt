// The system: the hardware, SecVisor and the journal, and what an event does to them.

ghost use Rattle.std.specs.Prelude.{◌≡◌, ℕ, ◌+◌, ◌-◌, ◌<◌, ◌%◌, ◌^◌, true, length, slice_get};
ghost use Rattle.spec_processor.specs.Counters.{CanCount, CanCountTwo};
ghost use Rattle.spec_processor.specs.Bytes.{instruction_size};
ghost use Rattle.sv_types.specs.Limits.{max_printed};
ghost use Rattle.sv_types.specs.declared.event.Event.TheVariants.{Beat, Key, Poke, Tick};
ghost use Rattle.sv_types.specs.declared.event.Verdict.TheVariants.{Running};
ghost use Rattle.spec_reference.specs.Counting.{CountsAtMost, MayCount};
ghost use Rattle.spec_reference.specs.Devices.{lines_at};
ghost use Rattle.spec_hardware.specs.HardwareEvent.{attempt_of, is_loading};
ghost use Rattle.spec_hardware.specs.HwEvents.{event_served};
ghost use Rattle.spec_hardware.specs.HwExits.{hw_exit, served_load_turn};
ghost use Rattle.spec_hardware.specs.Machine.{after_attempt};
ghost use Rattle.spec_hardware.specs.Reaches.{without_first_printed};
ghost use Rattle.spec_hardware.specs.Served.{is_again};
ghost use Rattle.spec_hardware.specs.Steps.{AttemptServed, IsStep, IsTurn, TurnServed, WithTables};
ghost use Rattle.spec_hardware.specs.declared.exits.ExitAnswer.TheVariants.{LeavesEntry};
ghost use Rattle.monitor_exits.specs.Possible.{IsPossible};
ghost use Rattle.hw_platform.specs.Attempts.{hart_in, IsReady};
ghost use Rattle.secvisor_core.specs.Serving.{Answered, IsGuarded, MayServe, MayTrap, asked_of, left_entry};
ghost use Rattle.machine.specs.Beats.{told_noted};
ghost use Rattle.machine.specs.EventsLimits.{max_counts};
ghost use Rattle.machine.specs.Noting.{hw_noting};
ghost use Rattle.machine.specs.Turns.{Attempts, ExitServed, IsReadyAt, IsReadyTwice, MayTurn, exit_of, quietly_counted};

use dma_guard::DmaStep;
use hw_platform::Hardware;
use machine_journal::{Journal, Notes};
use secvisor_core::{Visor, is_again};
use spec_hardware::ExitAnswer;
use spec_processor::{Exit, Mode, Outcome};
use std::marker::Model;
use sv_types::{Counts, Event, Verdict};

/// The hardware, SecVisor above it, and the journal of what happens. Contracts see the machine.
pub struct System {
    pub hardware: Hardware,
    pub visor: Visor,
    pub journal: Journal,
}

impl Model for System {
    ghost use Rattle.spec_hardware.specs.Machine.{Machine as Whole};

    ghost Value = { Whole };

    ghost use Rattle.secvisor_core.specs.Visors.{IsJoined, machine_of};

    ghost view = { λ s. machine_of s.visor s.hardware s.journal };

    ghost invariant = { λ s. IsJoined s.visor s.hardware };
}

impl System {
    // An attempt of a hart, which SecVisor's answer follows where it gives an exit.
    #[inline(always)]
    #[tactic(auto, using(monitor_exits::proofs::HwOfSlots::hw_harts_length))]
    fn attempt(&mut self, hart: u8) -> Outcome
        requires there { hart < length self.old.harts }
        requires count { CanCount self.old.attempts }
        requires ready { IsReady self.old.region (hart_in self.old.harts hart) (lines_at self.old.devices hart) }
        ensures machine { self.new ≡ after_attempt self.old hart (attempt_of self.old hart (hart_in self.old.harts hart)) }
        ensures outcome { result ≡ (attempt_of self.old hart (hart_in self.old.harts hart)).outcome }
        ensures aligned { (hart_in self.new.harts hart).core.pc % instruction_size ≡ 0 }
        ensures number { length self.new.harts ≡ length self.old.harts }
    {
        self.hardware.attempt(hart)
    }

    // What an exit of a hart is answered.
    #[inline(always)]
    fn exit_answer(&self, hart: u8, exit: &Exit) -> ExitAnswer
        requires hart { MayTrap self.now.harts hart }
        ensures answer { result ≡ asked_of self.now hart exit.now }
        ensures possible { IsPossible (hart_in self.now.harts hart).core.hregs.mode result }
    {
        self.visor.exit_answer(&self.hardware, hart, exit)
    }

    // Does what an exit is answered.
    #[inline(always)]
    fn carry_out(&mut self, hart: u8, answer: ExitAnswer)
        requires hart { MayTrap self.old.harts hart }
        requires may { MayServe self.old }
        requires possible { IsPossible (hart_in self.old.harts hart).core.hregs.mode answer }
        ensures { Answered self.old hart answer self.new }
    {
        self.visor
            .carry_out(&mut self.hardware, &mut self.journal, hart, answer);
    }

    // The answer to an exit of a hart.
    fn serve_exit(&mut self, hart: u8, exit: Exit)
        requires hart { MayTrap self.old.harts hart }
        requires may { MayServe self.old }
        ensures { WithTables self.old (hw_exit self.old hart (hart_in self.old.harts hart) (hart_in self.old.harts hart).core.hregs.mode exit) self.new }
    {
        self.visor
            .serve_exit(&mut self.hardware, &mut self.journal, hart, exit);
    }

    // A hart leaves its entry.
    fn leave_entry(&mut self, hart: u8)
        requires there { hart < length self.old.harts }
        ensures left { self.new ≡ left_entry self.old hart }
        ensures number { length self.new.harts ≡ length self.old.harts }
    {
        self.visor.leave_entry(&mut self.hardware, hart);
    }

    // An attempt without an exit is counted, and an exit is to be answered.
    #[inline(always)]
    fn count_quiet(&mut self, outcome: Outcome) -> Option<Exit>
        requires { MayCount self.old.journal.counts }
        ensures exit { result ≡ exit_of outcome }
        ensures counted { self.new ≡ quietly_counted outcome self.old }
    {
        match outcome {
            Outcome::Retired { wrote: _ } => self.journal.count_retired(),
            Outcome::GuestTrap => self.journal.count_trap(Mode::Kernel),
            Outcome::Exit(exit) => return Some(exit),
        }
        None
    }

    // It leaves its entry, and makes the second attempt of its turn.
    fn attempt_again(&mut self, hart: u8)
        requires there { hart < length self.old.harts }
        requires count { CanCount self.old.attempts }
        requires may { MayServe self.old }
        requires ready { IsReadyAt (left_entry self.old hart) hart }
        ensures { AttemptServed (left_entry self.old hart) hart (hart_in (left_entry self.old hart).harts hart) self.new }
    {
        self.leave_entry(hart);
        let outcome = self.attempt(hart);
        if let Some(exit) = self.count_quiet(outcome) {
            self.serve_exit(hart, exit);
        }
    }

    // The answer to the exit of a first attempt, or a second attempt.
    fn serve_first_exit(&mut self, hart: u8, exit: Exit)
        requires hart { MayTrap self.old.harts hart }
        requires count { CanCount self.old.attempts }
        requires may { MayServe self.old }
        requires again { is_again (asked_of self.old hart exit) ≡ true → IsReadyAt (left_entry self.old hart) hart }
        ensures { ExitServed (is_again (asked_of self.old hart exit)) self.old hart exit self.new }
    {
        let answer = self.exit_answer(hart, &exit);
        if is_again(answer) {
            self.attempt_again(hart);
        } else {
            self.carry_out(hart, answer);
        }
    }

    // A load of a hart is under way.
    pub(crate) fn is_loading(&self, hart: u8) -> bool
        ensures { result ≡ is_loading self.now.loading hart }
    {
        self.visor.is_loading(hart)
    }

    // A load under way goes on: a page is counted, or its answer is given.
    fn serve_load_turn(&mut self, hart: u8)
        requires there { hart < length self.old.harts }
        requires may { MayServe self.old }
        ensures { WithTables self.old (served_load_turn self.old hart) self.new }
    {
        self.visor
            .load_turn(&mut self.hardware, &mut self.journal, hart);
    }

    // A turn in which a hart makes an attempt, or two. It stands once, out of the way of the loops over events.
    #[tactic(auto)]
    #[inline(never)]
    fn serve_attempts(&mut self, hart: u8)
        requires there { hart < length self.old.harts }
        requires attempts { Attempts self.old hart }
        requires count { CanCountTwo self.old.attempts }
        requires may { MayServe self.old }
        requires ready { IsReadyTwice self.old hart }
        ensures { TurnServed self.old hart (slice_get self.old.harts hart) self.new }
    {
        let outcome = self.attempt(hart);
        if let Some(exit) = self.count_quiet(outcome) {
            self.serve_first_exit(hart, exit);
        }
    }

    // A turn of a hart, the count of turns raised already.
    #[tactic(auto)]
    #[inline(always)]
    fn serve_turn(&mut self, hart: u8)
        requires count { CanCountTwo self.old.attempts }
        requires may { MayServe self.old }
        requires ready { MayTurn self.old hart }
        ensures { TurnServed self.old hart (slice_get self.old.harts hart) self.new }
    {
        if hart as usize >= self.hardware.slots.len() {
            return;
        }
        if !self.hardware.slots[hart as usize].hart.started {
            return;
        }
        if self.is_loading(hart) {
            self.serve_load_turn(hart);
            return;
        }
        self.serve_attempts(hart);
    }

    /// A turn of a hart, which is counted.
    #[tactic(auto)]
    #[inline(always)]
    pub(crate) fn turn(&mut self, hart: u8)
        requires turns { CanCount self.old.journal.counts.turns }
        requires count { CanCountTwo self.old.attempts }
        requires may { MayServe self.old }
        requires ready { MayTurn self.old hart }
        ensures { IsTurn self.old hart self.new }
    {
        self.journal.count_turn();
        self.serve_turn(hart);
    }

    // A refused move of a device is noted.
    #[tactic(auto, unfolding(crate::specs::Beats::told_noted))]
    #[inline(always)]
    fn note_denied(&mut self, told: DmaStep)
        requires { MayCount self.old.journal.counts }
        ensures { self.new ≡ told_noted self.old told }
    {
        if let DmaStep::Denied { gpa } = told {
            self.journal.deny(gpa);
        }
    }

    /// One beat of the disk's device.
    pub(crate) fn beat(&mut self)
        requires beats { CanCount self.old.journal.counts.beats }
        requires counts { MayCount self.old.journal.counts }
        ensures { self.new ≡ event_served self.old Beat }
    {
        self.journal.count_beat();
        let told = self.hardware.beat(self.visor.guard.dma());
        self.note_denied(told);
    }

    /// One write of an attacker's device.
    pub(crate) fn poke(&mut self, gpa: u64, value: u64)
        requires beats { CanCount self.old.journal.counts.beats }
        requires counts { MayCount self.old.journal.counts }
        ensures { self.new ≡ event_served self.old (Poke gpa value) }
    {
        self.journal.count_beat();
        let told = self.hardware.poke(self.visor.guard.dma(), gpa, value);
        self.note_denied(told);
    }

    /// A byte of input, which is dropped where there is no room.
    #[tactic(auto, unfolding(spec_hardware::specs::HwEvents::event_served, spec_hardware::specs::HwEvents::key_served))]
    pub(crate) fn key(&mut self, byte: u8)
        requires keys { CanCount self.old.journal.counts.keys }
        requires counts { MayCount self.old.journal.counts }
        ensures { self.new ≡ event_served self.old (Key byte) }
    {
        self.journal.count_key();
        if !self.hardware.devices.key(byte) {
            self.journal.count_dropped();
        }
    }

    /// Time passes.
    #[tactic(auto, unfolding(spec_hardware::specs::HwEvents::event_served, spec_hardware::specs::HwEvents::tick_served))]
    pub(crate) fn tick(&mut self, n: u64)
        requires ticks { CanCount self.old.journal.counts.ticks }
        ensures { self.new ≡ event_served self.old (Tick n) }
    {
        self.journal.count_tick();
        self.hardware.devices.tick(n);
    }

    /// One event. A machine that has ended stays as it is.
    #[tactic(auto, unfolding(spec_hardware::specs::Steps::IsStep))]
    #[inline(always)]
    pub fn step(&mut self, event: Event)
        requires room { length self.old.journal.printed < max_printed }
        requires counts { CountsAtMost (max_counts - 1) self.old.journal.counts }
        requires attempts { CanCountTwo self.old.attempts }
        requires guarded { IsGuarded self.old }
        requires ready { self.old.journal.verdict ≡ Running → (h : ℕ) → MayTurn self.old h }
        ensures step { IsStep self.old event self.new }
    {
        if self.journal.verdict() != Verdict::Running {
            return;
        }
        match event {
            Event::Turn(hart) => self.turn(hart),
            Event::Beat => self.beat(),
            Event::Key(byte) => self.key(byte),
            Event::Tick(n) => self.tick(n),
            Event::Poke { gpa, value } => self.poke(gpa, value),
        }
    }

    /// How the run stands.
    pub fn verdict(&self) -> Verdict
        ensures { result ≡ self.now.journal.verdict }
    {
        self.journal.verdict()
    }

    /// What happened so far, counted.
    pub fn counts(&self) -> Counts
        ensures { result ≡ self.now.journal.counts }
    {
        self.journal.counts()
    }

    /// Takes the printed bytes away.
    pub fn clear_printed(&mut self)
        requires { self.old.cleared + length self.old.journal.printed < 2 ^ 64 }
        ensures { self.new ≡ without_first_printed self.old (length self.old.journal.printed) }
    {
        self.hardware.cleared += self.journal.printed().len() as u64;
        self.journal.clear_printed();
    }

    /// Keeps these notes in the place of its own, which it hands out.
    pub fn swap_notes(&mut self, notes: &mut Notes)
        ensures taken { notes.new ≡ self.old.journal.notes }
        ensures kept { self.new ≡ hw_noting notes.old self.old }
    {
        self.journal.swap_notes(notes);
    }

    /// Drops the system; a load under way frees its pages.
    #[tactic(auto, using(module_gate::proofs::Joined::ends))]
    pub fn end(self)
        requires { IsGuarded self }
    {
        let System {
            mut hardware,
            visor,
            journal: _,
        } = self;
        visor.end(&mut hardware.mem);
    }
}
