// Turns of one hart in a row, each of which carries out an instruction, and the answer to the exit after them.

ghost use Rattle.std.specs.Prelude.{◌≡◌, ◌%◌, ◌+◌, ◌-◌, ◌≤◌, ◌<◌, ◌^◌, true, length, not};
ghost use Rattle.spec_processor.specs.Counters.{CanCount};
ghost use Rattle.spec_processor.specs.Bytes.{instruction_size};
ghost use Rattle.spec_processor.specs.declared.mode.Mode.TheVariants.{Kernel};
ghost use Rattle.spec_reference.specs.Counting.{CountsAtMost, MayCount};
ghost use Rattle.spec_reference.specs.Devices.{lines_at};
ghost use Rattle.hw_fast_path.specs.Ends.{turns_of};
ghost use Rattle.hw_fast_path.specs.declared.leaving.Leaving.TheVariants.{Returns};
ghost use Rattle.hw_platform.specs.Attempts.{hart_in, IsReady};
ghost use Rattle.hw_platform.specs.Batches.{AreFree};
ghost use Rattle.secvisor_core.specs.Serving.{MayTrap};
ghost use Rattle.machine.specs.Batches.{AnswersLeaving, EndsBatch, IsQuietAt, counted_batch, MayBatch, reserves_nothing};
ghost use Rattle.machine.specs.EventsLimits.{max_counts};

use crate::events::system::System;
use hw_fast_path::{Batch, Leaving, Way};
use machine_journal::Journal;
use monitor_exits::Trap;
use spec_processor::{Cause, ExitCause};
use sv_types::{Event, Verdict};

// So many turns counted, each with its instruction.
#[tactic(auto, using(crate::proofs::EventsBatches::batch_counted))]
#[inline(always)]
fn count_batch(journal: &mut Journal, made: u64)
    requires turns { journal.old.counts.turns + made < 2 ^ 64 }
    requires retired { journal.old.counts.retired + made < 2 ^ 64 }
    ensures { journal.new ≡ counted_batch made journal.old }
{
    journal.count_batch(made);
}

impl System {
    /// No hart has a reservation.
    #[inline(always)]
    pub fn are_free(&self) -> bool
        ensures { result ≡ true → AreFree self.now.harts }
    {
        self.hardware.are_free()
    }

    /// No hart gets a reservation by an event. In a turn a stopped hart gets none.
    #[inline(always)]
    pub fn reserves_nothing(&self, event: Event) -> bool
        ensures { result ≡ reserves_nothing self.now event }
    {
        match event {
            Event::Turn(hart) => self.is_stopped(hart),
            Event::Beat | Event::Key(_) | Event::Tick(_) | Event::Poke { gpa: _, value: _ } => true,
        }
    }

    /// A hart isn't started, or isn't there.
    #[inline(always)]
    pub fn is_stopped(&self, hart: u8) -> bool
        ensures { result ≡ not (hart_in self.now.harts hart).started }
    {
        if hart as usize >= self.hardware.slots.len() {
            return true;
        }
        !self.hardware.slots[hart as usize].hart.started
    }

    /// A hart makes attempts in its turns, and no interrupt is due.
    #[inline(always)]
    pub fn is_quiet_at(&self, hart: u8) -> bool
        ensures { result ≡ true → IsQuietAt self.now hart }
    {
        if self.journal.verdict() != Verdict::Running {
            return false;
        }
        if hart as usize >= self.hardware.slots.len() {
            return false;
        }
        if !self.hardware.slots[hart as usize].hart.started || self.is_loading(hart) {
            return false;
        }
        !self.hardware.is_interrupted(hart)
    }

    /// Up to so many turns of a hart, each of which carries out an instruction, and one after them in which it leaves the
    /// guest. The attempts of all are counted, and the turns of those that carry out instructions.
    #[inline(always)]
    pub fn batch<W: Way>(&mut self, hart: u8, most: u64) -> Batch
        requires may { MayBatch self.old hart }
        requires ready { IsReady self.old.region (hart_in self.old.harts hart) (lines_at self.old.devices hart) }
        requires few { most ≤ max_counts }
        requires counts { CountsAtMost (max_counts - most) self.old.journal.counts }
        requires attempts { self.old.attempts + most < 2 ^ 64 }
        ensures ends { EndsBatch result.left result.made self.old hart self.new }
        ensures aligned { (hart_in self.new.harts hart).core.pc % instruction_size ≡ 0 }
        ensures free { AreFree self.new.harts }
        ensures most { turns_of result ≤ most }
    {
        let batch = self.hardware.batch::<W>(hart, most);
        count_batch(&mut self.journal, batch.made);
        batch
    }

    /// What SecVisor answers where a hart left the guest after a row, in a turn that is counted here.
    #[inline(always)]
    pub fn answer_leaving(&mut self, hart: u8, left: Leaving)
        requires hart { MayTrap self.old.harts hart }
        requires mode { left ≡ Returns → (hart_in self.old.harts hart).core.hregs.mode ≡ Kernel }
        requires counts { MayCount self.old.journal.counts }
        requires turns { CanCount self.old.journal.counts.turns }
        ensures { AnswersLeaving left self.old hart self.new }
    {
        match left {
            Leaving::Stays => {}
            Leaving::Calls => {
                self.journal.count_turn();
                let cause = ExitCause::Exception(Cause::UserCall);
                let trap = Trap { cause, tval: 0 };
                self.visor
                    .guest_trap(&mut self.hardware, &mut self.journal, hart, trap);
            }
            Leaving::Returns => {
                self.journal.count_turn();
                self.visor
                    .guest_return(&mut self.hardware, &mut self.journal, hart);
            }
        }
    }
}
