// Turns of one hart in a row, each of which carries out an instruction.

ghost use Rattle.std.specs.Prelude.{◌≡◌, ◌%◌, ◌+◌, ◌<◌, ◌≤◌, ◌^◌, true, length, None};
ghost use Rattle.spec_processor.specs.HypervisorRegisters.{pending};
ghost use Rattle.spec_processor.specs.declared.lines.Lines.{Lines};
ghost use Rattle.spec_hardware.specs.Machine.{with_core, update};
ghost use Rattle.monitor_exits.specs.HwOfSlots.{hw_at, hw_harts_of};
ghost use Rattle.hw_fast_path.specs.Ends.{turns_of};
ghost use Rattle.hw_fast_path.specs.Batches.{EndsBy};
ghost use Rattle.hw_platform.specs.Attempts.{hart_in, KeepsTurns, MayTakeTurns};
ghost use Rattle.hw_tlb.specs.Usable.{IsUsable};
ghost use Rattle.hw_platform.specs.Batches.{AreFree, WalksUnderRoot};
ghost use Rattle.spec_processor.specs.Bytes.{instruction_size};

use host_mem::HostMem;
use hw_fast_path::{Batch, MicroOpCache, Way};
use hw_tlb::HartCaches;
use monitor_exits::HartSlot;

// Turns of a hart on its side, with its caches.
#[inline(always)]
fn batch_in_slot<W: Way>(
    words: &mut MicroOpCache,
    slot: &mut HartSlot,
    own: &mut HartCaches,
    mem: &mut HostMem,
    most: u64,
) -> Batch
    requires walks { WalksUnderRoot mem.old (hw_at slot.old) }
    requires free { (hw_at slot.old).core.reservation ≡ None }
    requires usable { IsUsable mem.old.tables own.old }
    requires count { words.old + most < 2 ^ 64 }
    ensures ends { (lines : Lines) → pending (hw_at slot.old).core.hregs (hw_at slot.old).core.csrs lines ≡ None →
        EndsBy result.left result.made mem.old (hw_at slot.old).core lines mem.new (hw_at slot.new).core }
    ensures hw { hw_at slot.new ≡ with_core (hw_at slot.new).core (hw_at slot.old) }
    ensures aligned { (hw_at slot.new).core.pc % instruction_size ≡ 0 }
    ensures free { (hw_at slot.new).core.reservation ≡ None }
    ensures most { turns_of result ≤ most }
    ensures tables { mem.new.tables ≡ mem.old.tables }
    ensures ram { length mem.new.ram ≡ length mem.old.ram }
    ensures usable { IsUsable mem.new.tables own.new }
    ensures count { words.new ≡ words.old + turns_of result }
{
    let regs = slot.privilege.registers();
    W::quick_turns(words, &mut slot.hart.core, regs, own, mem, most)
}

/// Turns of a hart among all harts, each with its caches.
#[inline(always)]
pub(crate) fn batch<W: Way>(
    words: &mut MicroOpCache,
    slots: &mut [HartSlot],
    caches: &mut [HartCaches],
    hart: u8,
    mem: &mut HostMem,
    most: u64,
) -> Batch
    requires may { MayTakeTurns mem.old.tables slots.old caches.old hart }
    requires walks { WalksUnderRoot mem.old (hart_in (hw_harts_of slots.old) hart) }
    requires free { AreFree (hw_harts_of slots.old) }
    requires count { words.old + most < 2 ^ 64 }
    ensures ends { (lines : Lines) →
        pending (hart_in (hw_harts_of slots.old) hart).core.hregs (hart_in (hw_harts_of slots.old) hart).core.csrs lines ≡ None →
        EndsBy result.left result.made mem.old (hart_in (hw_harts_of slots.old) hart).core lines mem.new (hart_in (hw_harts_of slots.new) hart).core }
    ensures harts { hw_harts_of slots.new ≡ update (hw_harts_of slots.old) hart (with_core (hart_in (hw_harts_of slots.new) hart).core) }
    ensures aligned { (hart_in (hw_harts_of slots.new) hart).core.pc % instruction_size ≡ 0 }
    ensures free { AreFree (hw_harts_of slots.new) }
    ensures most { turns_of result ≤ most }
    ensures kept { KeepsTurns mem.old mem.new slots.old slots.new caches.old caches.new }
    ensures count { words.new ≡ words.old + turns_of result }
{
    let slot = &mut slots[hart as usize];
    let own = &mut caches[hart as usize];
    batch_in_slot::<W>(words, slot, own, mem, most)
}

/// No hart has a reservation.
#[inline(always)]
pub(crate) fn are_free(slots: &[HartSlot]) -> bool
    ensures { result ≡ true → AreFree (hw_harts_of slots.now) }
{
    let mut seen = 0;
    'slots: while seen < slots.len() {
        if slots[seen].hart.core.reservation.is_some() {
            return false;
        }
        seen += 1;
    }
    true
}
