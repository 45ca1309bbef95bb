//! The reference machine: what a machine under SecVisor does. In `specs/` stand its definitions, which contracts cite.
#![tactic(auto)]

ghost use Rattle.std.specs.Prelude.{◌≡◌, ℕ, List, ◌++◌, not};
ghost use Rattle.sv_types.specs.declared.event.Event.{Event};
ghost use Rattle.sv_types.specs.Protections.{is_free};
ghost use Rattle.spec_reference.specs.Run.{HasEnded, run};
ghost use Rattle.spec_reference.specs.States.{State, is_protected, protection};

mod answers;
mod rules;
pub mod saved_machine;

pub use answers::{Answer, Extension, Reply, SideEffect};
pub use rules::pages_of;

/// A page is protected exactly where its protection isn't free.
pub fn law_protected()
    ensures { (r : State) (page : ℕ) → is_protected r page ≡ not (is_free (protection r page)) }
{}

/// A machine that has ended stays as it is, whatever happens.
pub fn law_ended()
    ensures { (r : State) (events : List Event) → HasEnded r.journal.verdict → run r events ≡ r }
{}

/// A run over two lists of events is the run over the one, and then over the other.
pub fn law_runs()
    ensures { (r : State) (first : List Event) (then : List Event) → run r (first ++ then) ≡ run (run r first) then }
{}
