// A text about a hart.
ghost use Rattle.std.specs.Prelude.{◌≡◌, IfOk, string_bytes};
ghost use Rattle.debug_views.specs.Looks as spec;

use spec_processor::Mode;
use spec_reference::saved_machine::SavedHart;
use std::alloc::{AllocError, Global};

/// Whether a hart is started, its mode, and the entry that it is in.
#[tactic(auto, unfolding(crate::specs::Looks::hart_words))]
pub fn hart_words(alloc: Global, hart: &SavedHart) -> Result<String, AllocError>
    ensures { IfOk result (λ text. string_bytes text ≡ spec.hart_words hart.now) }
{
    if !hart.started {
        return String::from_str(alloc, "stopped");
    }
    match (hart.mode, hart.entry) {
        (Mode::User, _) => String::from_str(alloc, "user mode"),
        (Mode::Kernel, None) => String::from_str(alloc, "kernel mode"),
        (Mode::Kernel, Some(entry)) => format!(in alloc; "kernel mode, entry {entry}"),
    }
}
