// The laws of a machine that stands for a state of the reference machine: what code may rely on in it, and that a machine
// stands for its start before the first event.

ghost use Rattle.laws_resume.specs.Laws.{DeterminesLaw, HartInLaw, HartsLaw, LoadedLaw, LoadingLaw, NoEntryLaw, OrderLaw};

mod start;

pub use start::{law_flat_start, law_image_start, law_virtio_start};

/// Each hart may make an attempt: its pc is aligned, its registers are those of its mode, and its walks read the tables alone.
pub fn law_harts()
    ensures { HartsLaw }
{}

/// So may the hart at each place of the list.
pub fn law_hart_in()
    ensures { HartInLaw }
{}

/// Where the policy binds no entry, no hart is in one.
pub fn law_no_entry()
    ensures { NoEntryLaw }
{}

/// Harts, pages and RAM are as many as the rules say, and the tables hold both views of the protections.
pub fn law_order()
    ensures { OrderLaw }
{}

/// The pages of each loaded module lie in RAM, and are approved.
pub fn law_loaded()
    ensures { LoadedLaw }
{}

/// The module of a load under way isn't loaded, and its pages lie in RAM and are held.
pub fn law_loading()
    ensures { LoadingLaw }
{}

/// A machine determines the state that it stands for, but for the order of approved pages, text that was retired, and printed
/// bytes that were taken away.
pub fn law_determines()
    ensures { DeterminesLaw }
{}
