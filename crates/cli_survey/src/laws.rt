// Laws of the definitions alone. A law takes no argument and does nothing; its clause is the theorem.
ghost use Rattle.cli_survey.specs.NoFindings.{NoFindingsLaw};
ghost use Rattle.cli_survey.specs.NotedLoads.{RefusedNotedLaw};

/// A survey that finds nothing is the run of the same events: it prints what `run` prints, with its status.
pub fn law_no_findings()
    ensures { NoFindingsLaw }
{}

/// The event that refuses a load notes the hart, the turn and the module of its line.
pub fn law_refused_noted()
    ensures { RefusedNotedLaw }
{}
