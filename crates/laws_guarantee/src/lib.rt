//! The guarantee: what a guest, its devices and an attacker's device can't do, in each state that a run reaches, at any next event.
#![tactic(auto)]

ghost use Rattle.laws_guarantee.specs.Guarantee.{EntriesLaw, ExitsLaw, KernelWordsLaw, ProtectedBytesLaw, StopsLaw, UserTurnsLaw};
ghost use Rattle.laws_guarantee.specs.Guarded.{GuardedLaw};

pub use laws_simulation::invariants::law_sound;

/// In kernel mode no word is executed but those that were measured: of the kernel's text, by digests that join to the policy's, and of
/// loaded modules.
pub fn law_kernel_words()
    ensures { KernelWordsLaw }
{}

/// A turn in user mode is an interrupt, a fetch that faults, or carries out a word from a page that isn't approved; and where
/// the table of traps says so, it is that trap.
pub fn law_user_turns()
    ensures { UserTurnsLaw }
{}

/// A hart comes to kernel mode only by its own trap from user mode or by its start, and it begins at a permitted entry.
pub fn law_entries()
    ensures { EntriesLaw }
{}

/// A hart leaves kernel mode only in its own turn: by SRET to user mode, by a demotion, which executes nothing, or by stopping.
pub fn law_exits()
    ensures { ExitsLaw }
{}

/// No event changes a byte of a page that was held or approved before it; where a device's move leads to one, the disk's or an
/// attacker's, RAM and harts stay.
pub fn law_protected_bytes()
    ensures { ProtectedBytesLaw }
{}

/// The machine stops exactly where a trap from user mode leads elsewhere than to a permitted entry, or a word that is carried
/// out writes into a protected page. Then the verdict says where, the turn is counted, an
/// entry is left, and nothing else changes.
pub fn law_stops()
    ensures { StopsLaw }
{}

/// All of these in each such state.
pub fn law_guarded()
    ensures { GuardedLaw }
{}

pub mod survey;
