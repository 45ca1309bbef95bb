// One attempt of a hart, and what its write takes from the others.

ghost use Rattle.std.specs.Prelude.{◌≡◌, ◌+◌, ◌%◌, length};
ghost use Rattle.spec_processor.specs.Counters.{CanCount};
ghost use Rattle.spec_processor.specs.HardwareAttempt.{attempt};
ghost use Rattle.spec_hardware.specs.Machine.{with_core, update, all_forget};
ghost use Rattle.monitor_exits.specs.HwOfSlots.{hw_at, hw_harts_of};
ghost use Rattle.hw_platform.specs.Attempts.{hart_in, IsReady, KeepsTurns, MayTakeTurns};
ghost use Rattle.hw_tlb.specs.Usable.{IsUsable};
ghost use Rattle.spec_processor.specs.Bytes.{instruction_size};

use hart::{Cpu, InterruptLines};
use host_mem::HostMem;
use hw_tlb::HartCaches;
use monitor_exits::{HartSlot, forget};
use spec_processor::Outcome;

// An attempt of a hart on its side, with its caches.
#[inline(always)]
fn attempt_in_slot<W: InterruptLines>(
    cpu: &mut Cpu,
    slot: &mut HartSlot,
    own: &mut HartCaches,
    mem: &mut HostMem,
    interrupt_lines: &W,
) -> Outcome
    requires count { CanCount cpu.old }
    requires ready { IsReady mem.old (hw_at slot.old) (W.seen interrupt_lines.now) }
    requires usable { IsUsable mem.old.tables own.old }
    ensures counted { cpu.new ≡ cpu.old + 1 }
    ensures hw { hw_at slot.new ≡ with_core (attempt mem.old (hw_at slot.old).core (W.seen interrupt_lines.now)).core (hw_at slot.old) }
    ensures region { mem.new ≡ (attempt mem.old (hw_at slot.old).core (W.seen interrupt_lines.now)).region }
    ensures outcome { result ≡ (attempt mem.old (hw_at slot.old).core (W.seen interrupt_lines.now)).outcome }
    ensures aligned { slot.new.hart.core.pc % instruction_size ≡ 0 }
    ensures tables { mem.new.tables ≡ mem.old.tables }
    ensures ram { length mem.new.ram ≡ length mem.old.ram }
    ensures usable { IsUsable mem.new.tables own.new }
{
    let regs = slot.privilege.registers();
    cpu.attempt(
        &mut slot.hart.core,
        regs,
        &mut own.second,
        mem,
        interrupt_lines,
    )
}

/// One attempt of a hart among all harts, each with its caches.
#[tactic(auto)]
#[inline(always)]
pub(crate) fn attempt<W: InterruptLines>(
    cpu: &mut Cpu,
    slots: &mut [HartSlot],
    caches: &mut [HartCaches],
    hart: u8,
    mem: &mut HostMem,
    interrupt_lines: &W,
) -> Outcome
    requires may { MayTakeTurns mem.old.tables slots.old caches.old hart }
    requires count { CanCount cpu.old }
    requires ready { IsReady mem.old (hart_in (hw_harts_of slots.old) hart) (W.seen interrupt_lines.now) }
    ensures counted { cpu.new ≡ cpu.old + 1 }
    ensures harts { hw_harts_of slots.new ≡
        all_forget result
        (update (hw_harts_of slots.old) hart (with_core (attempt mem.old (hart_in (hw_harts_of slots.old) hart).core (W.seen interrupt_lines.now)).core)) }
    ensures region { mem.new ≡ (attempt mem.old (hart_in (hw_harts_of slots.old) hart).core (W.seen interrupt_lines.now)).region }
    ensures outcome { result ≡ (attempt mem.old (hart_in (hw_harts_of slots.old) hart).core (W.seen interrupt_lines.now)).outcome }
    ensures aligned { (hart_in (hw_harts_of slots.new) hart).core.pc % instruction_size ≡ 0 }
    ensures kept { KeepsTurns mem.old mem.new slots.old slots.new caches.old caches.new }
{
    let slot = &mut slots[hart as usize];
    let own = &mut caches[hart as usize];
    let outcome = attempt_in_slot(cpu, slot, own, mem, interrupt_lines);
    forget_wrote(slots, outcome);
    outcome
}

// Clears the reservations that an attempt's write touches.
#[tactic(auto, unfolding(spec_hardware::specs::Machine::all_forget))]
#[inline(always)]
fn forget_wrote(slots: &mut [HartSlot], outcome: Outcome)
    ensures hw_all { hw_harts_of slots.new ≡ all_forget outcome (hw_harts_of slots.old) }
    ensures number { length slots.new ≡ length slots.old }
{
    if let Outcome::Retired { wrote: Some(wrote) } = outcome {
        forget(slots, wrote.hpa, wrote.width);
    }
}
