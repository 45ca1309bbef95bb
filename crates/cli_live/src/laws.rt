// Laws of the definitions alone. A law takes no argument and does nothing; its clause is the theorem.
ghost use Rattle.cli_live.specs.LiveEnds.{LiveEndsLaw};

/// Where the files tell what they hold, no read of them fails, and what they hold asks for a run, `live` refuses nothing: it ends with
/// the status of the run over its journal, 0, 1 or 7; or a write or the save failed, or a read of the keys, which is counted; or
/// memory ran out.
pub fn law_live_ends()
    ensures { LiveEndsLaw }
{}
