// The harts of a machine that goes on, each on its side. A hart comes to its side as every hart does, and in an entry by that
// entry's address.

ghost use Rattle.std.specs.Prelude.{◌≡◌, IfOk, IfSome, length, map, option_map};
ghost use Rattle.spec_processor.specs.Bytes.{ram_offset};
ghost use Rattle.spec_processor.specs.HypervisorRegisters.{IsLegal};
ghost use Rattle.sv_types.specs.declared.view.View.TheVariants.{Entry};
ghost use Rattle.spec_hardware.specs.StandsFor.{hw_reservation};
ghost use Rattle.monitor_exits.specs.HwOfSlots.{hw_at, hw_harts_of};
ghost use Rattle.laws_resume.specs.Resuming.{csrs_resumed, hw_resumed};
ghost use Rattle.machine.specs.Seating.{CanAllSit, CanSit, IsEntered, IsReservable, MayBeIn, view_in};

use csr_file::{Csrs, at_hypervisor_places};
use hart::{Core, Hart};
use monitor_exits::HartSlot;
use page_guard::{Entries, PrivilegeView};
use rv64_exec::Regs;
use spec_processor::{Mode, ram_offset};
use spec_reference::saved_machine::SavedHart;
use std::alloc::{AllocError, Global};

/// The harts, each on its side, where RAM lies after so many bytes of tables. Out of memory is the one refusal.
pub fn slots_of(
    alloc: Global,
    entries: &Entries,
    tables: usize,
    harts: &[SavedHart],
) -> Result<Vec<HartSlot>, AllocError>
    requires { CanAllSit tables entries.now harts.now }
    ensures hw_all { IfOk result (λ slots. hw_harts_of slots.items ≡ map (hw_resumed tables) harts.now) }
    ensures number { IfOk result (λ slots. length slots.items ≡ length harts.now) }
{
    let mut slots = Vec::new(alloc);
    'seated: for saved in harts {
        slots.push(slot_of(entries, tables, saved))?;
    }
    Ok(slots)
}

fn slot_of(entries: &Entries, tables: usize, saved: &SavedHart) -> HartSlot
    requires { CanSit tables entries.now saved.now }
    ensures { hw_at result ≡ hw_resumed tables saved.now }
{
    let core = Core {
        regs: Regs::from_values(saved.registers),
        pc: saved.pc,
        csrs: csrs_of(saved),
        reservation: reserved_place(saved.reservation, tables),
    };
    let hart = Hart {
        core,
        started: saved.started,
    };
    let privilege = privilege_of(entries, saved.mode, saved.entry);
    HartSlot { hart, privilege }
}

// The hypervisor's interrupts stand one place above the guest's, and an exit wrote nothing yet.
#[tactic(auto, unfolding(spec_processor::specs::HypervisorRegisters::registers_at_boot))]
fn csrs_of(saved: &SavedHart) -> Csrs
    requires { IsLegal (csrs_resumed saved.now) }
    ensures { result ≡ csrs_resumed saved.now }
{
    Csrs {
        vsstatus: saved.sstatus,
        vstvec: saved.stvec,
        vsscratch: saved.sscratch,
        vsepc: saved.sepc,
        vscause: saved.scause,
        vstval: saved.stval,
        vsatp: saved.satp,
        scounteren: saved.scounteren,
        hie: at_hypervisor_places(saved.sie),
        hvip: at_hypervisor_places(saved.sip),
        sepc: 0,
        scause: 0,
        stval: 0,
        htval: 0,
        htinst: 0,
    }
}

// The host place of a guest-physical address that is reserved.
fn reserved_place(reservation: Option<u64>, tables: usize) -> Option<u64>
    requires { IfSome reservation (IsReservable tables) }
    ensures { result ≡ hw_reservation tables (option_map ram_offset reservation) }
{
    let address = reservation?;
    Some(tables as u64 + ram_offset(address))
}

// The side of a hart in a mode, which in kernel mode may be in an entry.
fn privilege_of(entries: &Entries, mode: Mode, entry: Option<u8>) -> PrivilegeView
    requires { MayBeIn entries.now entry }
    ensures { result ≡ view_in mode entry }
{
    let mut privilege = PrivilegeView::at_boot();
    match (mode, entry) {
        (Mode::Kernel, None) => {}
        (Mode::Kernel, Some(place)) => enter(&mut privilege, entries, place),
        (Mode::User, _) => privilege.leave(),
    }
    privilege
}

// Enters the kernel from user mode at the address of a bound entry.
fn enter(privilege: &mut PrivilegeView, entries: &Entries, place: u8)
    requires { IsEntered entries.now place }
    ensures { privilege.new ≡ Entry place }
{
    privilege.leave();
    let Some(target) = entries.address(place) else {
        unreachable!();
    };
    let Ok(()) = privilege.enter(entries, target) else {
        unreachable!();
    };
}
