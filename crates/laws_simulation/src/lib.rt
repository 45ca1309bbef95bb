//! The laws of SecVisor's answers: the machine after each event stands for the reference machine's state after it, and changes
//! no more than that event may change.
#![tactic(auto)]

ghost use Rattle.laws_simulation.specs.Laws.{AgainLaw, ClearLaw, ExitLaw, QuietLaw, ReachesLaw, StepLaw, TablesLaw};

/// An attempt of the hardware without an exit is the reference machine's step.
pub fn law_quiet()
    ensures { QuietLaw }
{}

/// After one with an exit, the step is what the exit asks for.
pub fn law_exit()
    ensures { ExitLaw }
{}

/// A hart that is sent to attempt again has left its entry, and makes an attempt there, whose step is the same.
pub fn law_again()
    ensures { AgainLaw }
{}

/// Tables that were there hold all views still where no protection changed.
pub fn law_tables()
    ensures { TablesLaw }
{}

/// The machine after any event stands for the state after it, and the event changed no more than it may.
pub fn law_step()
    ensures { StepLaw }
{}

/// A machine whose printed bytes were taken away stands for the same state.
pub fn law_clear()
    ensures { ClearLaw }
{}

/// A machine that steps through events from its start reaches the machine that it comes to.
pub fn law_reaches()
    ensures { ReachesLaw }
{}

pub mod attempt;
pub mod invariants;
pub mod survey;
