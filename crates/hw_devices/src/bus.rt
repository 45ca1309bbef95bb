// Accesses to the devices, and the events that reach them.
ghost use Rattle.std.specs.Prelude.{◌≡◌, ◌<◌, length, slice_get, is_some, option_map};
ghost use Rattle.sv_types.specs.Limits.{max_printed, max_harts};
ghost use Rattle.sv_types.specs.Clock.{after_tick, timer_of, with_timer};
ghost use Rattle.sv_types.specs.Console.{has_room, after_key, without_first};
ghost use Rattle.spec_reference.specs.Devices.{DeviceLoad, device_load, device_store, lines_at, external_line};
ghost use Rattle.spec_reference.specs.Disk.{is_writable, disk_bytes, disk_beat};
ghost use Rattle.dma_guard.specs.Transfers.{beat_of, after_move};
ghost use Rattle.hw_devices.specs.Bus.{devices_at_boot, devices_loaded, devices_stored, journal_stored};
ghost use Rattle.hw_devices.specs.Ports.{port_disk};

use crate::clock::{Clock, HARTS};
use crate::console::Console;
use crate::disk_port::Port;
use crate::ports::{Place, place_at};
use dma_guard::{DiskPort, DmaGuard, DmaStep};
use host_mem::HostMem;
use machine_journal::Journal;
use spec_processor::Lines;
use std::marker::Model;

/// The console, a block device and the clock. Contracts see them as the definitions' devices.
#[derive(Drop)]
pub struct Devices {
    console: Console,
    disk: Port,
    clock: Clock,
}

impl Model for Devices {
    ghost use Rattle.spec_reference.specs.States.{Devices as State};

    ghost Value = { State };

    ghost use Rattle.hw_devices.specs.Ports.{port_disk};

    ghost view = { λ d. record { console = d.console; disk = port_disk d.disk; clock = d.clock } };
}

impl Devices {
    /// The devices at boot, with a block device as it stands.
    pub fn new(disk: Port) -> Devices
        ensures { result ≡ devices_at_boot (port_disk disk) }
    {
        Devices {
            console: Console::new(),
            disk,
            clock: Clock::new(),
        }
    }

    /// The devices at a time with the timers of four harts, and a disk's device as it stands. No input waits.
    pub fn from_values(disk: Port, time: u64, timers: [u64; HARTS]) -> Devices
        ensures { result ≡ record (devices_at_boot (port_disk disk)) { clock = record { time = time; timers = timers } } }
    {
        Devices {
            console: Console::new(),
            disk,
            clock: Clock::from_values(time, timers),
        }
    }

    /// A load of `width` bytes at a guest-physical address. None where no register is there; then nothing changes.
    #[tactic(auto, unfolding(spec_reference::specs::Devices::device_load, spec_reference::specs::Devices::port_load))]
    pub fn load(&mut self, gpa: u64, width: u8) -> Option<u64>
        ensures value { result ≡ option_map (λ (l : DeviceLoad). l.value) (device_load self.old gpa width) }
        ensures devices { self.new ≡ devices_loaded self.old (device_load self.old gpa width) }
    {
        match place_at(gpa) {
            Place::Console(offset) => self.console.load(offset, width),
            Place::Disk(offset) => self.disk.load(offset, width),
            Place::Nowhere => None,
        }
    }

    /// A store of `width` bytes at a guest-physical address. False where no register is there; then nothing changes. The
    /// console's byte is printed in the journal.
    #[tactic(auto, unfolding(spec_reference::specs::Devices::device_store, spec_reference::specs::Devices::port_store))]
    pub fn store(&mut self, journal: &mut Journal, gpa: u64, width: u8, value: u64) -> bool
        requires room { length journal.old.printed < max_printed }
        ensures found { result ≡ is_some (device_store self.old journal.old gpa width value) }
        ensures devices { self.new ≡ devices_stored self.old (device_store self.old journal.old gpa width value) }
        ensures journal { journal.new ≡ journal_stored journal.old (device_store self.old journal.old gpa width value) }
        ensures counts { journal.new.counts ≡ journal.old.counts }
    {
        match place_at(gpa) {
            Place::Console(offset) => match self.console.store(offset, width, value) {
                Some(byte) => {
                    journal.print(u64::from(byte));
                    true
                }
                None => false,
            },
            Place::Disk(offset) => self.disk.store(offset, width, value),
            Place::Nowhere => false,
        }
    }

    // The external line reaches hart 0 alone.
    fn external_line(&self, hart: u8) -> bool
        ensures { result ≡ external_line self.now hart }
    {
        hart == 0 && (self.console.line() || self.disk.line())
    }

    /// The wires of a hart.
    #[tactic(auto, unfolding(spec_reference::specs::Devices::lines_at))]
    pub fn lines(&self, hart: u8) -> Lines
        requires is_hart { hart < max_harts }
        ensures { result ≡ lines_at self.now hart }
    {
        Lines {
            time: self.clock.now(),
            external: self.external_line(hart),
            timer: self.clock.due(hart),
        }
    }

    /// One beat of the block device, which writes RAM through the guard alone.
    pub fn beat(&mut self, guard: &DmaGuard, mem: &mut HostMem) -> DmaStep
        ensures devices { self.new ≡ record self.old { disk = (disk_beat self.old.disk mem.old.ram (is_writable guard.now)).disk } }
        ensures told { result ≡ beat_of (disk_beat self.old.disk mem.old.ram (is_writable guard.now)).move }
        ensures memory { mem.new ≡ after_move mem.old (disk_beat self.old.disk mem.old.ram (is_writable guard.now)).move }
    {
        self.disk.beat(guard, mem)
    }

    /// A byte of input. False where the queue is full, and then the byte is dropped.
    pub fn key(&mut self, byte: u8) -> bool
        ensures taken { result ≡ has_room self.old.console }
        ensures devices { self.new ≡ record self.old { console = after_key self.old.console byte } }
    {
        self.console.key(byte)
    }

    /// Lets `n` ticks pass.
    pub fn tick(&mut self, n: u64)
        ensures { self.new ≡ record self.old { clock = after_tick self.old.clock n } }
    {
        self.clock.tick(n);
    }

    /// The next byte of input, which leaves the queue.
    pub fn take_input(&mut self) -> Option<u8>
        ensures byte { result ≡ slice_get self.old.console 0 }
        ensures devices { self.new ≡ record self.old { console = without_first self.old.console } }
    {
        self.console.take()
    }

    /// Sets a hart's timer. 2^64 - 1 means never.
    pub fn set_timer(&mut self, hart: u8, at: u64)
        requires is_hart { hart < max_harts }
        ensures { self.new ≡ record self.old { clock = with_timer self.old.clock hart at } }
    {
        self.clock.set(hart, at);
    }

    /// The bytes of input that wait, the next one first.
    pub fn input(&self) -> &[u8]
        ensures { result.now ≡ self.now.console }
    {
        self.console.queue()
    }

    /// The block device.
    pub fn port(&self) -> &Port
        ensures { port_disk result.now ≡ self.now.disk }
    {
        &self.disk
    }

    /// The time, in ticks.
    pub fn time(&self) -> u64
        ensures { result ≡ self.now.clock.time }
    {
        self.clock.now()
    }

    /// A hart's timer. 2^64 - 1 means never.
    pub fn timer(&self, hart: u8) -> u64
        requires is_hart { hart < max_harts }
        ensures { result ≡ timer_of self.now.clock hart }
    {
        self.clock.at(hart)
    }

    /// The bytes of the disk.
    pub fn disk(&self) -> &[u8]
        ensures { result.now ≡ disk_bytes self.now.disk }
    {
        self.disk.disk()
    }
}
