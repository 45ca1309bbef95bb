//! The reference machine, computed on cases: whole runs, and a row for each line of the tables of turns, calls, devices and
//! exits. The clause of each function is a list of equations that hold by computing.
#![tactic(auto)]

ghost use Rattle.spec_examples.specs.FlatRows.{FlatRows};
ghost use Rattle.spec_examples.specs.TurnRows.{TurnRows};
ghost use Rattle.spec_examples.specs.EntryRows.{EntryRows};
ghost use Rattle.spec_examples.specs.CallRows.{CallRows};
ghost use Rattle.spec_examples.specs.DeviceRows.{DeviceRows};
ghost use Rattle.spec_examples.specs.ExitRows.{ExitRows};
ghost use Rattle.spec_examples.specs.ModuleRows.{ModuleRows};
ghost use Rattle.spec_examples.specs.GuestRows.{GuestRows};
ghost use Rattle.spec_examples.specs.AttackerRows.{AttackerRows};
ghost use Rattle.spec_examples.specs.ScheduleRows.{ScheduleRows};
ghost use Rattle.spec_examples.specs.FieldRows.{FieldRows};
ghost use Rattle.spec_examples.specs.VirtioRows.{VirtioRows, RequestRows, LastRows, AttackRows};

/// Whole runs of one page.
pub fn rows_of_one_page()
    ensures { FlatRows }
{}

/// One turn, for each case and each kind of effect.
pub fn rows_of_turns()
    ensures { TurnRows }
{}

/// Calls from kernel mode, for each function.
pub fn rows_of_calls()
    ensures { CallRows }
{}

/// Registers, commands and beats of the devices; keys and time.
pub fn rows_of_devices()
    ensures { DeviceRows }
{}

/// What SecVisor makes of each exit.
pub fn rows_of_exits()
    ensures { ExitRows }
{}

/// Relocated fields, loads, unloads and retired text.
pub fn rows_of_modules()
    ensures { ModuleRows }
{}

/// Two guests of some length.
pub fn rows_of_guests()
    ensures { GuestRows }
{}

/// Turns in an entry that is bound to an address, for each case.
pub fn rows_of_entries()
    ensures { EntryRows }
{}

/// Registers of the virtio block device, requests, and what an attacker makes of them.
pub fn rows_of_requests()
    ensures registers { VirtioRows }
    ensures requests { RequestRows }
    ensures last { LastRows }
    ensures attacks { AttackRows }
{}

/// Writes of an attacker's device: what moves, which reservations go, what is denied, and where nothing happens.
pub fn rows_of_attackers()
    ensures { AttackerRows }
{}

/// A script's line for an attacker's device, and the first events of schedules that are drawn.
pub fn rows_of_schedules()
    ensures { ScheduleRows }
{}

/// Relocated fields of each kind, with the ends of what fits.
pub fn rows_of_fields()
    ensures { FieldRows }
{}
