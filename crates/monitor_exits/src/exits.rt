// What an exit of a hart is answered.

ghost use Rattle.std.specs.Prelude.{◌≡◌, ◌%◌, Option, option_map};
ghost use Rattle.sv_types.specs.Policies.{Rules};
ghost use Rattle.spec_reference.specs.States.{Binding};
ghost use Rattle.spec_reference.specs.Turn.{bound_entry};
ghost use Rattle.spec_hardware.specs.HwHarts.{hw_seen};
ghost use Rattle.spec_hardware.specs.Served.{exit_answer, plain_answer};
ghost use Rattle.page_guard.specs.Privileges.{mode_of, entry_of};
ghost use Rattle.monitor_exits.specs.HwOfSlots.{hw_at};
ghost use Rattle.monitor_exits.specs.Possible.{IsPossible};
ghost use Rattle.monitor_exits.specs.Seen.{answer_at, seen_on};
ghost use Rattle.spec_processor.specs.Bytes.{instruction_size};

use crate::accesses::{load_answer, write_answer};
use crate::fetches::{entry_answer, fetch_answer, is_fetch, raises, virtual_answer};
use crate::instructions::transformed_effect;
use crate::slots::HartSlot;
use hart::Hart;
use host_mem::HostMem;
use page_guard::{Entries, PrivilegeView};
use spec_hardware::ExitAnswer;
use spec_processor::{Cause, Exit, ExitCause, Mode};

/// The answer to an exit. In an entry a refused fetch is the end of the hart's stay there; else the guest takes its interrupts,
/// and those exceptions that have no answer of their own.
pub fn exit_answer(mem: &HostMem, slot: &HartSlot, entries: &Entries, exit: &Exit) -> ExitAnswer
    requires aligned { slot.now.hart.core.pc % instruction_size ≡ 0 }
    ensures answer { (rules : Rules) → rules.entries ≡ entries.now.entries → rules.bound ≡ entries.now.bound → result ≡
        exit_answer (hw_seen mem.now.ram rules (hw_at slot.now) (mode_of slot.now.privilege) exit.now) exit.now }
    ensures possible { IsPossible (mode_of slot.now.privilege) result }
{
    let address = entry_address(&slot.privilege, entries);
    answer_at(mem, &slot.hart, slot.privilege.mode(), address, exit)
}

// The address of the entry that a hart on a side is in.
fn entry_address(privilege: &PrivilegeView, entries: &Entries) -> Option<u64>
    ensures { (rules : Rules) → rules.entries ≡ entries.now.entries → rules.bound ≡ entries.now.bound → result ≡
        option_map (λ (entry : Binding). entry.va) (bound_entry rules (entry_of privilege.now)) }
{
    match privilege.entry() {
        Some(place) => entries.address(place),
        None => None,
    }
}

// The answer to an exit of a hart that is in an entry with an address, or in none.
#[tactic(auto, unfolding(crate::specs::Seen::answer_at))]
fn answer_at(
    mem: &HostMem,
    hart: &Hart,
    mode: Mode,
    address: Option<u64>,
    exit: &Exit,
) -> ExitAnswer
    requires aligned { hart.now.core.pc % instruction_size ≡ 0 }
    ensures answer { (entry : Option Binding) → result ≡ answer_at (seen_on mem.now.ram hart.now mode entry exit.now) exit.now address }
    ensures possible { IsPossible mode result }
{
    match address {
        Some(va) => {
            if is_fetch(exit.cause) {
                entry_answer(mem, hart, va, exit)
            } else {
                plain_answer(mem, hart, mode, exit)
            }
        }
        None => plain_answer(mem, hart, mode, exit),
    }
}

// The answer to an exit outside of an entry, or of one that is no fetch's.
#[tactic(auto, unfolding(spec_hardware::specs::Served::plain_answer))]
#[inline(always)]
fn plain_answer(mem: &HostMem, hart: &Hart, mode: Mode, exit: &Exit) -> ExitAnswer
    requires aligned { hart.now.core.pc % instruction_size ≡ 0 }
    ensures answer { (entry : Option Binding) → result ≡ plain_answer (seen_on mem.now.ram hart.now mode entry exit.now) exit.now }
    ensures possible { IsPossible mode result }
{
    match exit.cause {
        ExitCause::Interrupt(_) => ExitAnswer::Traps {
            cause: exit.cause,
            tval: 0,
        },
        ExitCause::Exception(Cause::GuestCall) => ExitAnswer::Calls,
        ExitCause::Exception(Cause::GuestFetch) => fetch_answer(mem, mode, exit),
        ExitCause::Exception(Cause::GuestLoad) => {
            load_answer(exit, transformed_effect(hart, exit.htinst))
        }
        ExitCause::Exception(Cause::Virtual) => virtual_answer(mode, exit),
        ExitCause::Exception(Cause::GuestStore) => {
            write_answer(mem, exit, transformed_effect(hart, exit.htinst))
        }
        ExitCause::Exception(cause) => raises(cause, exit.stval),
    }
}
