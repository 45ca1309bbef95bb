// What devices move.

ghost use Rattle.std.specs.Prelude.{◌≡◌};
ghost use Rattle.dma_guard.specs.Transfers.{after_move, beat_of};
ghost use Rattle.spec_hardware.specs.Machine.{Machine};
ghost use Rattle.spec_reference.specs.Attacker.{poke_move};
ghost use Rattle.spec_reference.specs.Disk.{disk_beat, is_writable};
ghost use Rattle.hw_platform.specs.Beats.{ToldInRam, told_cleared};
ghost use Rattle.hw_platform.specs.Hardwares.{IsWhole, KeepsMemory, with_hardware};

use crate::hardware::Hardware;
use dma_guard::{DmaGuard, DmaStep};
use monitor_exits::forget;
use spec_processor::ram_offset;

impl Hardware {
    // Clears each reservation that a device's write touches.
    #[tactic(auto, unfolding(crate::specs::Beats::told_cleared))]
    #[inline(always)]
    fn clear_written(&mut self, told: DmaStep)
        requires whole { IsWhole self.old }
        requires inside { ToldInRam self.old.mem.ram told }
        ensures machine { (m : Machine) → with_hardware m self.new ≡ told_cleared (with_hardware m self.old) told }
        ensures whole { IsWhole self.new }
        ensures memory { self.new.mem ≡ self.old.mem }
    {
        if let DmaStep::Wrote { gpa, len } = told {
            let hpa = self.mem.table_bytes() as u64 + ram_offset(gpa);
            forget(&mut self.slots, hpa, u64::from(len));
        }
    }

    /// One beat of the disk's device, which writes RAM alone. Each reservation that it touches is cleared.
    pub fn beat(&mut self, dma: &DmaGuard) -> DmaStep
        requires whole { IsWhole self.old }
        ensures told { result ≡ beat_of (disk_beat self.old.devices.disk self.old.mem.ram (is_writable dma.now)).move }
        ensures machine { (m : Machine) → with_hardware m self.new ≡
            told_cleared
            (record (with_hardware m self.old) {
              region = after_move self.old.mem (disk_beat self.old.devices.disk self.old.mem.ram (is_writable dma.now)).move;
              devices = record self.old.devices { disk = (disk_beat self.old.devices.disk self.old.mem.ram (is_writable dma.now)).disk };
            }) result }
        ensures whole { IsWhole self.new }
        ensures kept { KeepsMemory self.old self.new }
    {
        let told = self.devices.beat(dma, &mut self.mem);
        self.clear_written(told);
        told
    }

    /// A write of an attacker's device: eight bytes at a guest-physical address, little-endian. Each reservation that it touches is
    /// cleared.
    pub fn poke(&mut self, dma: &DmaGuard, gpa: u64, value: u64) -> DmaStep
        requires whole { IsWhole self.old }
        ensures told { result ≡ beat_of (poke_move self.old.mem.ram (is_writable dma.now) gpa value) }
        ensures machine { (m : Machine) → with_hardware m self.new ≡
            told_cleared
            (record (with_hardware m self.old) { region = after_move self.old.mem (poke_move self.old.mem.ram (is_writable dma.now) gpa value) }) result }
        ensures whole { IsWhole self.new }
        ensures kept { KeepsMemory self.old self.new }
    {
        let told = dma.poke(&mut self.mem, gpa, value);
        self.clear_written(told);
        told
    }
}
