// The hardware.

ghost use Rattle.std.specs.Prelude.{◌≡◌, ◌+◌, ◌%◌, ◌<◌, ◌≤◌, ◌^◌, true, false, length};
ghost use Rattle.spec_processor.specs.Counters.{CanCount};
ghost use Rattle.spec_processor.specs.HypervisorRegisters.{pending};
ghost use Rattle.spec_processor.specs.declared.lines.Lines.{Lines};
ghost use Rattle.spec_processor.specs.Bytes.{instruction_size};
ghost use Rattle.spec_reference.specs.Devices.{lines_at};
ghost use Rattle.spec_hardware.specs.HardwareEvent.{attempt_of};
ghost use Rattle.spec_hardware.specs.Machine.{Machine, after_attempt, update, with_core};
ghost use Rattle.monitor_exits.specs.HwOfSlots.{hw_harts_of};
ghost use Rattle.hw_fast_path.specs.Ends.{turns_of};
ghost use Rattle.hw_fast_path.specs.Batches.{EndsBy};
ghost use Rattle.hw_platform.specs.Attempts.{IsReady, hart_in};
ghost use Rattle.hw_platform.specs.Hardwares.{IsWhole, KeepsMemory, attempts_of, with_hardware};
ghost use Rattle.hw_platform.specs.Batches.{AreFree, WalksUnderRoot};

use crate::attempts::attempt;
use crate::batch_turns::{are_free, batch};
use crate::interrupt_lines::HartInterruptLines;
use csr_file::pending;
use hart::Cpu;
use host_mem::HostMem;
use hw_devices::Devices;
use hw_fast_path::{Batch, MicroOpCache, Way};
use hw_tlb::HartCaches;
use monitor_exits::HartSlot;
use spec_processor::Outcome;

/// Memory, harts with the views that they run under, what each of them keeps of walks, and devices.
#[derive(Drop)]
pub struct Hardware {
    pub mem: HostMem,
    pub slots: Vec<HartSlot>,
    pub caches: Vec<HartCaches>,
    pub devices: Devices,
    /// Makes the attempts one by one, and counts them.
    pub cpu: Cpu,
    /// Makes and counts those in rows.
    pub words: MicroOpCache,
    /// How many printed bytes were taken away.
    pub cleared: u64,
}

impl Hardware {
    /// An attempt of a hart.
    #[inline(always)]
    pub fn attempt(&mut self, hart: u8) -> Outcome
        requires whole { IsWhole self.old }
        requires there { hart < length self.old.slots.items }
        requires count { CanCount (attempts_of self.old) }
        requires ready { IsReady self.old.mem (hart_in (hw_harts_of self.old.slots.items) hart) (lines_at self.old.devices hart) }
        ensures machine { (m : Machine) → with_hardware m self.new ≡
            after_attempt (with_hardware m self.old) hart (attempt_of (with_hardware m self.old) hart (hart_in (hw_harts_of self.old.slots.items) hart)) }
        ensures outcome { (m : Machine) → result ≡ (attempt_of (with_hardware m self.old) hart (hart_in (hw_harts_of self.old.slots.items) hart)).outcome }
        ensures aligned { (hart_in (hw_harts_of self.new.slots.items) hart).core.pc % instruction_size ≡ 0 }
        ensures number { length self.new.slots.items ≡ length self.old.slots.items }
        ensures whole { IsWhole self.new }
        ensures kept { KeepsMemory self.old self.new }
    {
        let interrupt_lines = HartInterruptLines {
            devices: &self.devices,
            hart,
        };
        attempt(
            &mut self.cpu,
            &mut self.slots,
            &mut self.caches,
            hart,
            &mut self.mem,
            &interrupt_lines,
        )
    }

    /// Up to so many turns of a hart, each of which carries out an instruction, and one after them in which it leaves the
    /// guest. The attempts of all are counted.
    #[inline(always)]
    pub fn batch<W: Way>(&mut self, hart: u8, most: u64) -> Batch
        requires whole { IsWhole self.old }
        requires there { hart < length self.old.slots.items }
        requires walks { WalksUnderRoot self.old.mem (hart_in (hw_harts_of self.old.slots.items) hart) }
        requires free { AreFree (hw_harts_of self.old.slots.items) }
        requires count { attempts_of self.old + most < 2 ^ 64 }
        ensures ends { (lines : Lines) →
            pending (hart_in (hw_harts_of self.old.slots.items) hart).core.hregs (hart_in (hw_harts_of self.old.slots.items) hart).core.csrs lines ≡
            None → EndsBy result.left result.made self.old.mem (hart_in (hw_harts_of self.old.slots.items) hart).core lines self.new.mem
            (hart_in (hw_harts_of self.new.slots.items) hart).core }
        ensures harts { hw_harts_of self.new.slots.items ≡
            update (hw_harts_of self.old.slots.items) hart (with_core (hart_in (hw_harts_of self.new.slots.items) hart).core) }
        ensures aligned { (hart_in (hw_harts_of self.new.slots.items) hart).core.pc % instruction_size ≡ 0 }
        ensures free { AreFree (hw_harts_of self.new.slots.items) }
        ensures most { turns_of result ≤ most }
        ensures count { attempts_of self.new ≡ attempts_of self.old + turns_of result }
        ensures devices { self.new.devices ≡ self.old.devices }
        ensures cleared { self.new.cleared ≡ self.old.cleared }
        ensures whole { IsWhole self.new }
        ensures kept { KeepsMemory self.old self.new }
    {
        batch::<W>(
            &mut self.words,
            &mut self.slots,
            &mut self.caches,
            hart,
            &mut self.mem,
            most,
        )
    }

    /// An interrupt is due for a hart. Where none is enabled, no wire is read.
    #[tactic(auto, unfolding(spec_processor::specs::HypervisorRegisters::pending, spec_processor::specs::HypervisorRegisters::is_taken))]
    #[inline(always)]
    pub fn is_interrupted(&self, hart: u8) -> bool
        requires whole { IsWhole self.now }
        requires there { hart < length self.now.slots.items }
        ensures { result ≡ false →
            pending (hart_in (hw_harts_of self.now.slots.items) hart).core.hregs (hart_in (hw_harts_of self.now.slots.items) hart).core.csrs
            (lines_at self.now.devices hart) ≡ None }
    {
        let slot = &self.slots[hart as usize];
        if slot.hart.core.csrs.hie == 0 {
            return false;
        }
        pending(
            &slot.hart.core.csrs,
            slot.privilege.registers(),
            &self.devices.lines(hart),
        )
        .is_some()
    }

    /// No hart has a reservation.
    #[inline(always)]
    pub fn are_free(&self) -> bool
        ensures { result ≡ true → AreFree (hw_harts_of self.now.slots.items) }
    {
        are_free(&self.slots)
    }
}
