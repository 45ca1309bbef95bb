// Parts of the machine, as plain data.

ghost use Rattle.std.specs.Prelude.{◌≡◌, ◌≤◌, length, option_and_then, option_map, slice_get};
ghost use Rattle.spec_processor.specs.Regions.{max_ram_pages};
ghost use Rattle.sv_types.specs.Clock.{timer_of};
ghost use Rattle.sv_types.specs.Limits.{max_harts};
ghost use Rattle.spec_reference.specs.Devices.{lines_at};
ghost use Rattle.spec_reference.specs.States.{State, protections_of};
ghost use Rattle.spec_hardware.specs.StandsFor.{StandsFor};
ghost use Rattle.spec_reference.specs.SavedStates.{saved_hart};
ghost use Rattle.monitor_exits.specs.HwOfSlots.{hw_at, hw_harts_of};
ghost use Rattle.machine.specs.Fetching.{fetch_place, hw_fetch_place};
ghost use Rattle.machine.specs.Keeping.{AreKeepable, kept_hart};

use crate::events::System;
use crate::machine::Machine;
use crate::saved::saved_hart;
use hw_devices::Devices;
use monitor_exits::HartSlot;
use spec_processor::Lines;
use spec_reference::saved_machine::SavedHart;
use sv_types::Protection;

impl Machine {
    /// The bytes of guest RAM.
    pub fn ram(&self) -> &[u8]
        ensures { (r : State) → StandsFor self.now r → result.now ≡ r.ram }
    {
        ram_of(&self.system)
    }

    /// The number of harts.
    pub fn hart_count(&self) -> u8
        ensures { (r : State) → StandsFor self.now r → result ≡ length r.harts }
    {
        count_of(&self.system)
    }

    /// A hart as plain data. None where there is none.
    pub fn hart(&self, hart: u8) -> Option<SavedHart>
        ensures { (r : State) → StandsFor self.now r → result ≡ option_map (saved_hart r.devices.clock hart) (slice_get r.harts hart) }
    {
        hart_of(&self.system, hart)
    }

    /// Where a hart is about to fetch. None where it is stopped or there is none.
    pub fn fetch_place(&self, hart: u8) -> Option<u64>
        ensures { (r : State) → StandsFor self.now r → result ≡ option_and_then fetch_place (slice_get r.harts hart) }
    {
        fetch_place_of(&self.system, hart)
    }

    /// The wires that a hart sees: the time, its external interrupt and its timer's. None where there is no such hart.
    pub fn lines(&self, hart: u8) -> Option<Lines>
        ensures { (r : State) → StandsFor self.now r → result ≡ option_map (λ _. lines_at r.devices hart) (slice_get r.harts hart) }
    {
        lines_of(&self.system, hart)
    }

    /// How each page of RAM is guarded, from the first on.
    pub fn protections(&self) -> &[Protection]
        ensures state { (r : State) → StandsFor self.now r → result.now ≡ protections_of r }
        ensures few { length result.now ≤ max_ram_pages }
    {
        protections_of(&self.system)
    }
}

fn protections_of(system: &System) -> &[Protection]
    ensures { result.now ≡ system.now.protections }
{
    system.visor.guard.protections()
}

fn ram_of(system: &System) -> &[u8]
    ensures { result.now ≡ system.now.region.ram }
{
    system.hardware.mem.ram()
}

fn count_of(system: &System) -> u8
    ensures { result ≡ length system.now.harts }
{
    system.hardware.slots.len() as u8
}

fn hart_of(system: &System, hart: u8) -> Option<SavedHart>
    requires { AreKeepable (length system.now.region.tables) system.now.harts }
    ensures { result ≡ option_map (kept_hart (length system.now.region.tables) (timer_of system.now.devices.clock hart)) (slice_get system.now.harts hart) }
{
    let hardware = &system.hardware;
    hart_among(
        &hardware.slots,
        &hardware.devices,
        hardware.mem.table_bytes(),
        hart,
    )
}

fn hart_among(slots: &[HartSlot], devices: &Devices, tables: usize, hart: u8) -> Option<SavedHart>
    requires few { length slots.now ≤ max_harts }
    requires addresses { AreKeepable tables (hw_harts_of slots.now) }
    ensures { result ≡ option_map (kept_hart tables (timer_of devices.now.clock hart)) (slice_get (hw_harts_of slots.now) hart) }
{
    let h = hart as usize;
    if h >= slots.len() {
        return None;
    }
    let timer = devices.timer(hart);
    Some(saved_hart(&slots[h], timer, tables))
}

fn fetch_place_of(system: &System, hart: u8) -> Option<u64>
    ensures { result ≡ option_and_then hw_fetch_place (slice_get system.now.harts hart) }
{
    fetch_place_among(&system.hardware.slots, hart)
}

fn fetch_place_among(slots: &[HartSlot], hart: u8) -> Option<u64>
    ensures { result ≡ option_and_then hw_fetch_place (slice_get (hw_harts_of slots.now) hart) }
{
    let h = hart as usize;
    if h >= slots.len() {
        return None;
    }
    place_in(&slots[h])
}

fn place_in(slot: &HartSlot) -> Option<u64>
    ensures { result ≡ hw_fetch_place (hw_at slot.now) }
{
    let hart = &slot.hart;
    if hart.started {
        Some(hart.core.pc)
    } else {
        None
    }
}

fn lines_of(system: &System, hart: u8) -> Option<Lines>
    ensures { result ≡ option_map (λ _. lines_at system.now.devices hart) (slice_get system.now.harts hart) }
{
    let hardware = &system.hardware;
    lines_among(&hardware.slots, &hardware.devices, hart)
}

fn lines_among(slots: &[HartSlot], devices: &Devices, hart: u8) -> Option<Lines>
    requires few { length slots.now ≤ max_harts }
    ensures { result ≡ option_map (λ _. lines_at devices.now hart) (slice_get (hw_harts_of slots.now) hart) }
{
    if hart as usize >= slots.len() {
        return None;
    }
    Some(devices.lines(hart))
}
