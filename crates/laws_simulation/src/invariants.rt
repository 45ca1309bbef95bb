// The laws of whole runs of the reference machine: which bytes are approved, and where they come from.

ghost use Rattle.laws_simulation.specs.EntryLaws.{AtEntryLaw, EntryLaw};
ghost use Rattle.laws_simulation.specs.GrowthLaws.{GrowsLaw};
ghost use Rattle.laws_simulation.specs.StateLaws.{BytesLaw, ModulesLaw, SoundLaw};

/// In each state that a run reaches from a start, RAM has in each approved page the bytes that were approved.
pub fn law_bytes()
    ensures { BytesLaw }
{}

/// In each such state every approved page is the kernel's text, as it was at the start and not retired, or lies in a loaded
/// module that is as it was measured; and no page is two parties'.
pub fn law_modules()
    ensures { ModulesLaw }
{}

/// One event raises each count by one at most, and prints one byte at most, after those that were printed.
pub fn law_grows()
    ensures { GrowsLaw }
{}

/// In any sound state, a hart at its entry's address that takes no interrupt is demoted, or carries out the word at the
/// address that the entry is bound to. No other word is ever carried out there.
pub fn law_at_entry()
    ensures { AtEntryLaw }
{}

/// After an entry from user mode, whatever other harts and devices do, the hart stands at the trap's target, which is its
/// entry's address, with its interrupts off until its next turn, which is one of those two.
pub fn law_entry()
    ensures { EntryLaw }
{}

/// Every state that a run reaches from a start is sound.
pub fn law_sound()
    ensures { SoundLaw }
{}
