// The laws of surveys: runs that pass over each instruction that would stop the machine at a write, and go on.

ghost use Rattle.laws_simulation.specs.HwPassing.{HwPassLaw};
ghost use Rattle.laws_simulation.specs.Passes.{PassesOnLaw, RowLaw};
ghost use Rattle.laws_simulation.specs.SurveyLaws.{ChainLaw, MovesOnLaw, PassLaw, PassSoundLaw, SameRunLaw, SurveyedLaw};

/// A pass changes nothing but the pc of a hart and the verdict: no byte, register, reservation, count, page or device.
pub fn law_pass()
    ensures { PassLaw }
{}

/// Where a write stopped the machine, its hart stands at the next instruction, and the machine runs.
pub fn law_moves_on()
    ensures { MovesOnLaw }
{}

/// A sound state stays sound over a pass.
pub fn law_pass_sound()
    ensures { PassSoundLaw }
{}

/// Every state that a survey reaches from a start is sound, and its approved pages are the kernel's text and those of loaded
/// modules.
pub fn law_surveyed()
    ensures { SurveyedLaw }
{}

/// Where no write stops the run, the survey of the same events is that run.
pub fn law_same_run()
    ensures { SameRunLaw }
{}

/// A machine that stands for a state stands, after the same pass on it, for the state after the pass.
pub fn law_hw_pass()
    ensures { HwPassLaw }
{}

/// A survey is a chain: each part between two passes is the run over its events, and each pass is at a state that a write stopped.
pub fn law_chain()
    ensures { ChainLaw }
{}

/// The writes that are passed over in events after others are those from the state that the survey has reached.
pub fn law_passes_on()
    ensures { PassesOnLaw }
{}

/// The survey of an event several times in a row, of which the last one alone may be stopped by a write, is the run with a pass at
/// its end.
pub fn law_row()
    ensures { RowLaw }
{}
