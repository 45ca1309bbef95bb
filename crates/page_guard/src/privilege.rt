// The side of a hart: whose view it runs under, and what is delegated to it.

ghost use Rattle.std.specs.Prelude.{◌≡◌, true, false, None, Some, OnOk, OnErr, IfErr};
ghost use Rattle.sv_types.specs.Policies.{Rules};
ghost use Rattle.sv_types.specs.declared.view.View.{View as Root};
ghost use Rattle.spec_processor.specs.declared.mode.Mode.TheVariants.{Kernel, User};
ghost use Rattle.spec_reference.specs.States.{place_of_entry};
ghost use Rattle.spec_reference.specs.Trapping.{may_enter};
ghost use Rattle.spec_hardware.specs.StandsFor.{hregs_in, kernel_view};
ghost use Rattle.page_guard.specs.Privileges.{mode_of, entry_of, registers_of, view_at_trap, view_outside};

use crate::entries::Entries;
use gstage_tables::view_hgatp;
use spec_processor::{HRegs, Mode};
use std::marker::Model;
use sv_types::View;

/// The exceptions that go straight to the kernel, a bit for each cause: 0 to 7 (misaligned addresses, refused accesses, illegal
/// instructions, breakpoints), 8 (calls of user mode), and 12, 13 and 15 (page faults of fetches, loads and stores); so all but
/// ECALL from VS mode and what the hypervisor handles.
const DELEGATED_EXCEPTIONS: u64 = 0xB1FF;

/// Those of a hart in an entry: its fetch page faults, cause 12, don't, since they may mean that it is to leave the entry.
const ENTRY_EXCEPTIONS: u64 = 0xA1FF;

/// The interrupts that go straight to the kernel, a bit for each number: VS software (2), timer (6) and external (10).
const DELEGATED_INTERRUPTS: u64 = 0x444;

/// The side of a hart, which owns its hypervisor registers: they are those of the view that it looks through, and can't be
/// others. A hart comes to the kernel's side at boot, at its start, and by a permitted entry; where that entry is bound, to the
/// entry's view. Contracts see the view.
#[derive(Drop)]
pub struct PrivilegeView {
    view: View,
    regs: HRegs,
}

impl Model for PrivilegeView {
    ghost use Rattle.sv_types.specs.declared.view.View.{View as Root};

    ghost Value = { Root };

    ghost use Rattle.std.specs.Prelude.{◌≡◌};
    ghost use Rattle.page_guard.specs.Privileges.{registers_of};

    ghost view = { λ s. s.view };

    ghost invariant = { λ s. s.regs ≡ registers_of s.view };
}

/// The target of a trap from user mode that isn't a permitted entry.
#[derive(Clone, Copy, Drop)]
pub struct Forbidden {
    pub target: u64,
}

impl PrivilegeView {
    /// The side of a hart at boot and at its start: the kernel's.
    pub fn at_boot() -> PrivilegeView
        ensures { result ≡ Root.Kernel }
    {
        PrivilegeView::through(View::Kernel)
    }

    // The side of a hart that looks through a view.
    fn through(view: View) -> PrivilegeView
        ensures { result ≡ view }
    {
        PrivilegeView {
            view,
            regs: registers(view),
        }
    }

    /// The mode that a hart on this side is in.
    pub fn mode(&self) -> Mode
        ensures { result ≡ mode_of self.now }
    {
        match self.view {
            View::Kernel | View::Entry(_) => Mode::Kernel,
            View::User => Mode::User,
        }
    }

    /// The entry that a hart on this side is in, by its place in the list of entries.
    pub fn entry(&self) -> Option<u8>
        ensures { result ≡ entry_of self.now }
    {
        match self.view {
            View::Kernel | View::User => None,
            View::Entry(place) => Some(place),
        }
    }

    /// The hypervisor registers of a hart on this side.
    pub fn registers(&self) -> &HRegs
        ensures { result.now ≡ registers_of self.now }
    {
        &self.regs
    }

    /// Enters the kernel: from kernel mode at any target, from user mode at a permitted one alone. From user mode the hart comes to
    /// the target's entry, where that is bound, and in kernel mode it stays in its own.
    #[inline(always)]
    pub fn enter(&mut self, entries: &Entries, target: u64) -> Result<(), Forbidden>
        ensures permitted { (rules : Rules) → rules.entries ≡ entries.now.entries → OnOk result (may_enter rules (mode_of self.old) target ≡ true) }
        ensures forbidden { (rules : Rules) → rules.entries ≡ entries.now.entries → OnErr result (may_enter rules (mode_of self.old) target ≡ false) }
        ensures entered { (rules : Rules) → rules.entries ≡ entries.now.entries → rules.bound ≡ entries.now.bound →
            OnOk result (self.new ≡ view_at_trap rules self.old target) }
        ensures kept { OnErr result (self.new ≡ self.old) }
        ensures target { IfErr result (λ forbidden. forbidden.target ≡ target) }
    {
        match self.view {
            View::Kernel | View::Entry(_) => Ok(()),
            View::User => {
                if entries.permits(target) {
                    *self = PrivilegeView::through(view_at_target(entries, target));
                    Ok(())
                } else {
                    Err(Forbidden { target })
                }
            }
        }
    }

    /// Leaves the entry, for all that kernel mode sees.
    pub fn widen(&mut self)
        ensures { self.new ≡ view_outside self.old }
    {
        match self.view {
            View::Kernel | View::User => {}
            View::Entry(_) => *self = PrivilegeView::at_boot(),
        }
    }

    /// Leaves kernel mode, by a return from a trap, or since it fetched from a page that isn't approved.
    pub fn leave(&mut self)
        ensures { self.new ≡ Root.User }
    {
        *self = PrivilegeView::through(View::User);
    }
}

// What a hart sees that came from user mode to a permitted target.
fn view_at_target(entries: &Entries, target: u64) -> View
    ensures { result ≡ kernel_view (place_of_entry entries.now.entries entries.now.bound target) }
{
    match entries.place(target) {
        Some(place) => View::Entry(place),
        None => View::Kernel,
    }
}

fn registers(view: View) -> HRegs
    ensures { result ≡ registers_of view }
{
    match view {
        View::Kernel => in_kernel(),
        View::User => in_user(),
        View::Entry(place) => in_entry(place),
    }
}

// Kernel mode runs under the kernel's view, and takes itself what is delegated to it.
fn in_kernel() -> HRegs
    ensures { result ≡ hregs_in Kernel None }
{
    HRegs {
        mode: Mode::Kernel,
        hgatp: view_hgatp(View::Kernel),
        hedeleg: DELEGATED_EXCEPTIONS,
        hideleg: DELEGATED_INTERRUPTS,
        vtsr: true,
    }
}

// In an entry it runs under the entry's view, and the hypervisor sees its fetch page faults.
fn in_entry(place: u8) -> HRegs
    ensures { result ≡ hregs_in Kernel (Some place) }
{
    HRegs {
        mode: Mode::Kernel,
        hgatp: view_hgatp(View::Entry(place)),
        hedeleg: ENTRY_EXCEPTIONS,
        hideleg: DELEGATED_INTERRUPTS,
        vtsr: true,
    }
}

// User mode runs under the user's view, and nothing is delegated to it.
fn in_user() -> HRegs
    ensures { result ≡ hregs_in User None }
{
    HRegs {
        mode: Mode::User,
        hgatp: view_hgatp(View::User),
        hedeleg: 0,
        hideleg: 0,
        vtsr: true,
    }
}
