// The guarantee in surveys: each state that a survey reaches from a measured start is one that the guarantee is about, and no byte
// of a protected page changes in a survey either.

ghost use Rattle.laws_guarantee.specs.SurveyGuarantee.{SurveyBytesLaw, SurveyGuardedLaw, SurveyReachedLaw};

/// Each state that a survey reaches from a measured start is sound, its approved pages come from the start or from loaded modules,
/// and its text was measured.
pub fn law_survey_reached()
    ensures { SurveyReachedLaw }
{}

/// In each such state all laws of the guarantee hold, whatever event is next.
pub fn law_survey_guarded()
    ensures { SurveyGuardedLaw }
{}

/// No event of a survey, with the pass that follows it, changes a byte of a page that was held or approved before it.
pub fn law_survey_bytes()
    ensures { SurveyBytesLaw }
{}
