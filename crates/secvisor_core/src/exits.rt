// What SecVisor answers where a hart exits, and what each answer does.

ghost use Rattle.std.specs.Prelude.{◌≡◌, ◌<◌, length};
ghost use Rattle.spec_processor.specs.IntegerRegisters.{register_count};
ghost use Rattle.spec_processor.specs.declared.mode.Mode.TheVariants.{Kernel};
ghost use Rattle.spec_reference.specs.Calls.{asked_by};
ghost use Rattle.spec_reference.specs.Counting.{MayCount};
ghost use Rattle.spec_reference.specs.ModuleCalls.{answer_of};
ghost use Rattle.spec_reference.specs.States.{Journal as Records};
ghost use Rattle.spec_hardware.specs.GivenAnswers.{IsGiven};
ghost use Rattle.spec_hardware.specs.HwCalls.{hw_facts, hw_given, served_call};
ghost use Rattle.spec_hardware.specs.HwExits.{hw_exit};
ghost use Rattle.spec_hardware.specs.Served.{is_again};
ghost use Rattle.spec_hardware.specs.Steps.{WithTables};
ghost use Rattle.spec_hardware.specs.declared.exits.ExitAnswer.TheVariants.{Traps, Returns, Demotes, LeavesEntry, StopsAtWrite, LoadsDevice, StoresDevice};
ghost use Rattle.sv_types.specs.Limits.{max_printed};
ghost use Rattle.monitor_exits.specs.Known.{StartsOneOf};
ghost use Rattle.monitor_exits.specs.HwOfSlots.{hw_harts_of};
ghost use Rattle.monitor_exits.specs.Possible.{IsPossible};
ghost use Rattle.module_gate.specs.Parts.{loading_of};
ghost use Rattle.hw_platform.specs.Attempts.{hart_in};
ghost use Rattle.secvisor_core.specs.Serving.{Answered, MayServe, MayTrap, asked_of, left_entry};
ghost use Rattle.secvisor_core.specs.Visors.{IsJoined, machine_of};

use crate::visor::Visor;
use hw_platform::Hardware;
use hw_tlb::fence;
use machine_journal::Journal;
use module_gate::{give_pages, module_answer};
use monitor_exits::calls::law_starts;
use monitor_exits::{
    Asked, Trap, device_load, device_store, exit_answer, guest_demotion, guest_return, guest_trap,
    leave_entry, stop_at_write,
};
use spec_hardware::{ExitAnswer, Load, Store};
use spec_processor::Exit;
use spec_reference::Answer;

/// The answer asks for a second attempt.
#[tactic(auto, unfolding(spec_hardware::specs::Served::is_again))]
pub fn is_again(answer: ExitAnswer) -> bool
    ensures { result ≡ is_again answer }
{
    matches!(answer, ExitAnswer::LeavesEntry)
}

impl Visor {
    /// What an exit of a hart is answered.
    #[inline(always)]
    pub fn exit_answer(&self, hardware: &Hardware, hart: u8, exit: &Exit) -> ExitAnswer
        requires joined { IsJoined self.now hardware.now }
        requires hart { MayTrap (hw_harts_of hardware.now.slots.items) hart }
        ensures answer { (journal : Records) → result ≡ asked_of (machine_of self.now hardware.now journal) hart exit.now }
        ensures possible { IsPossible (hart_in (hw_harts_of hardware.now.slots.items) hart).core.hregs.mode result }
    {
        exit_answer(
            &hardware.mem,
            &hardware.slots[hart as usize],
            &self.entries,
            exit,
        )
    }

    /// A hart traps.
    #[inline(always)]
    pub fn guest_trap(&self, hardware: &mut Hardware, journal: &mut Journal, hart: u8, trap: Trap)
        requires joined { IsJoined self.now hardware.old }
        requires hart { MayTrap (hw_harts_of hardware.old.slots.items) hart }
        requires counts { MayCount journal.old.counts }
        ensures joined { IsJoined self.now hardware.new }
        ensures answer { Answered (machine_of self.now hardware.old journal.old) hart (Traps trap.cause trap.tval)
            (machine_of self.now hardware.new journal.new) }
    {
        let slot = &mut hardware.slots[hart as usize];
        guest_trap(hart, slot, &self.entries, journal, trap);
    }

    /// It returns from its trap.
    #[inline(always)]
    pub fn guest_return(&self, hardware: &mut Hardware, journal: &mut Journal, hart: u8)
        requires joined { IsJoined self.now hardware.old }
        requires there { hart < length (hw_harts_of hardware.old.slots.items) }
        requires kernel { (hart_in (hw_harts_of hardware.old.slots.items) hart).core.hregs.mode ≡ Kernel }
        requires counts { MayCount journal.old.counts }
        ensures joined { IsJoined self.now hardware.new }
        ensures answer { Answered (machine_of self.now hardware.old journal.old) hart Returns (machine_of self.now hardware.new journal.new) }
    {
        let slot = &mut hardware.slots[hart as usize];
        guest_return(slot, journal);
    }

    // It leaves kernel mode.
    fn guest_demotion(&self, hardware: &mut Hardware, journal: &mut Journal, hart: u8, gpa: u64)
        requires joined { IsJoined self.now hardware.old }
        requires there { hart < length (hw_harts_of hardware.old.slots.items) }
        requires counts { MayCount journal.old.counts }
        ensures joined { IsJoined self.now hardware.new }
        ensures answer { Answered (machine_of self.now hardware.old journal.old) hart (Demotes gpa) (machine_of self.now hardware.new journal.new) }
    {
        let slot = &mut hardware.slots[hart as usize];
        guest_demotion(hart, slot, journal, gpa);
    }

    /// It leaves its entry, for all that kernel mode sees.
    pub fn leave_entry(&self, hardware: &mut Hardware, hart: u8)
        requires joined { IsJoined self.now hardware.old }
        requires there { hart < length (hw_harts_of hardware.old.slots.items) }
        ensures joined { IsJoined self.now hardware.new }
        ensures left { (journal : Records) → machine_of self.now hardware.new journal ≡ left_entry (machine_of self.now hardware.old journal) hart }
        ensures answer { (journal : Records) → Answered (machine_of self.now hardware.old journal) hart LeavesEntry (machine_of self.now hardware.new journal) }
    {
        let slot = &mut hardware.slots[hart as usize];
        leave_entry(slot);
    }

    // It stops the machine by a store into a protected page.
    fn stop_at_write(&self, hardware: &Hardware, journal: &mut Journal, hart: u8, gpa: u64)
        requires joined { IsJoined self.now hardware.now }
        requires there { hart < length (hw_harts_of hardware.now.slots.items) }
        ensures { Answered (machine_of self.now hardware.now journal.old) hart (StopsAtWrite gpa) (machine_of self.now hardware.now journal.new) }
    {
        stop_at_write(hart, &hardware.slots[hart as usize], journal, gpa);
    }

    // It loads from a device's register.
    fn device_load(&self, hardware: &mut Hardware, journal: &mut Journal, hart: u8, load: Load)
        requires joined { IsJoined self.now hardware.old }
        requires hart { MayTrap (hw_harts_of hardware.old.slots.items) hart }
        requires counts { MayCount journal.old.counts }
        requires register { load.rd < register_count }
        ensures joined { IsJoined self.now hardware.new }
        ensures answer { Answered (machine_of self.now hardware.old journal.old) hart (LoadsDevice load) (machine_of self.now hardware.new journal.new) }
    {
        let slot = &mut hardware.slots[hart as usize];
        device_load(
            hart,
            slot,
            &self.entries,
            &mut hardware.devices,
            journal,
            load,
        );
    }

    // It stores into a device's register.
    fn device_store(&self, hardware: &mut Hardware, journal: &mut Journal, hart: u8, store: Store)
        requires joined { IsJoined self.now hardware.old }
        requires hart { MayTrap (hw_harts_of hardware.old.slots.items) hart }
        requires counts { MayCount journal.old.counts }
        requires room { length journal.old.printed < max_printed }
        ensures joined { IsJoined self.now hardware.new }
        ensures answer { Answered (machine_of self.now hardware.old journal.old) hart (StoresDevice store) (machine_of self.now hardware.new journal.new) }
    {
        let slot = &mut hardware.slots[hart as usize];
        device_store(
            hart,
            slot,
            &self.entries,
            &mut hardware.devices,
            journal,
            store,
        );
    }

    // What its call is answered.
    fn call_answer(&self, hardware: &Hardware, hart: u8) -> Answer
        requires joined { IsJoined self.now hardware.now }
        requires there { hart < length (hw_harts_of hardware.now.slots.items) }
        ensures answer { (journal : Records) → result ≡
            answer_of (hw_facts (machine_of self.now hardware.now journal)) (asked_by (hart_in (hw_harts_of hardware.now.slots.items) hart).core.registers) }
        ensures starts { StartsOneOf (length (hw_harts_of hardware.now.slots.items)) result.side_effect }
    {
        let asked = Asked::by(&hardware.slots[hart as usize].hart.core.regs);
        law_starts();
        if asked.is_about_modules() {
            module_answer(
                &self.policy,
                &self.guard,
                &hardware.mem,
                &self.modules,
                &asked,
            )
        } else {
            monitor_exits::calls::answer_of(
                &hardware.slots,
                &self.entries,
                hardware.devices.input(),
                &asked,
            )
        }
    }

    /// Does what the answer to a call says, or the decision of a load.
    pub(crate) fn give(
        &mut self,
        hardware: &mut Hardware,
        journal: &mut Journal,
        hart: u8,
        answer: &Answer,
    )
        requires joined { IsJoined self.old hardware.old }
        requires there { hart < length (hw_harts_of hardware.old.slots.items) }
        requires may { MayServe (machine_of self.old hardware.old journal.old) }
        requires given { IsGiven (hw_facts (machine_of self.old hardware.old journal.old)) (loading_of self.old.modules) answer.now.side_effect }
        requires starts { StartsOneOf (length (hw_harts_of hardware.old.slots.items)) answer.now.side_effect }
        ensures joined { IsJoined self.new hardware.new }
        ensures answer { WithTables (machine_of self.old hardware.old journal.old) (hw_given (machine_of self.old hardware.old journal.old) hart
            answer.now) (machine_of self.new hardware.new journal.new) }
    {
        monitor_exits::calls::give(
            hart,
            &mut hardware.slots,
            &mut hardware.devices,
            journal,
            answer,
        );
        let changed = give_pages(
            hart,
            &mut self.guard,
            &mut hardware.mem,
            &self.policy,
            &mut self.modules,
            &answer.side_effect,
        );
        fence(&mut hardware.caches, changed);
    }

    // A call from kernel mode.
    fn serve_call(&mut self, hardware: &mut Hardware, journal: &mut Journal, hart: u8)
        requires joined { IsJoined self.old hardware.old }
        requires there { hart < length (hw_harts_of hardware.old.slots.items) }
        requires may { MayServe (machine_of self.old hardware.old journal.old) }
        ensures joined { IsJoined self.new hardware.new }
        ensures answer { WithTables (machine_of self.old hardware.old journal.old) (served_call (machine_of self.old hardware.old journal.old) hart
            (hart_in (hw_harts_of hardware.old.slots.items) hart)) (machine_of self.new hardware.new journal.new) }
    {
        let answer = self.call_answer(hardware, hart);
        self.give(hardware, journal, hart, &answer);
    }

    /// Does what an exit is answered.
    #[tactic(auto, unfolding(spec_hardware::specs::HwExits::hw_exit_answered))]
    #[inline(always)]
    pub fn carry_out(
        &mut self,
        hardware: &mut Hardware,
        journal: &mut Journal,
        hart: u8,
        answer: ExitAnswer,
    )
        requires joined { IsJoined self.old hardware.old }
        requires hart { MayTrap (hw_harts_of hardware.old.slots.items) hart }
        requires may { MayServe (machine_of self.old hardware.old journal.old) }
        requires possible { IsPossible (hart_in (hw_harts_of hardware.old.slots.items) hart).core.hregs.mode answer }
        ensures joined { IsJoined self.new hardware.new }
        ensures answer { Answered (machine_of self.old hardware.old journal.old) hart answer (machine_of self.new hardware.new journal.new) }
    {
        match answer {
            ExitAnswer::Traps { cause, tval } => {
                self.guest_trap(hardware, journal, hart, Trap { cause, tval });
            }
            ExitAnswer::Returns => self.guest_return(hardware, journal, hart),
            ExitAnswer::Demotes { gpa } => self.guest_demotion(hardware, journal, hart, gpa),
            ExitAnswer::LeavesEntry => self.leave_entry(hardware, hart),
            ExitAnswer::StopsAtWrite { gpa } => self.stop_at_write(hardware, journal, hart, gpa),
            ExitAnswer::LoadsDevice(load) => self.device_load(hardware, journal, hart, load),
            ExitAnswer::StoresDevice(store) => self.device_store(hardware, journal, hart, store),
            ExitAnswer::Calls => self.serve_call(hardware, journal, hart),
        }
    }

    /// The answer to an exit of a hart.
    #[tactic(auto, unfolding(spec_hardware::specs::HwExits::hw_exit))]
    pub fn serve_exit(
        &mut self,
        hardware: &mut Hardware,
        journal: &mut Journal,
        hart: u8,
        exit: Exit,
    )
        requires joined { IsJoined self.old hardware.old }
        requires hart { MayTrap (hw_harts_of hardware.old.slots.items) hart }
        requires may { MayServe (machine_of self.old hardware.old journal.old) }
        ensures joined { IsJoined self.new hardware.new }
        ensures answer { WithTables (machine_of self.old hardware.old journal.old) (hw_exit (machine_of self.old hardware.old journal.old) hart
            (hart_in (hw_harts_of hardware.old.slots.items) hart) (hart_in (hw_harts_of hardware.old.slots.items) hart).core.hregs.mode exit)
            (machine_of self.new hardware.new journal.new) }
    {
        let answer = self.exit_answer(hardware, hart, &exit);
        self.carry_out(hardware, journal, hart, answer);
    }
}
