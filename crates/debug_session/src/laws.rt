// Laws of where a run halts. A law takes no argument and does nothing; its clause is the theorem.
ghost use Rattle.debug_session.specs.RunLaws.{AheadLaw, BehindLaw};

/// Forwards a run goes on to the first number of events after which it halts, or makes all that are left.
pub fn law_ahead()
    ensures { AheadLaw }
{}

/// Backwards a run goes to the greatest earlier number of events at which a break is met, the next event changes a watched word, or
/// the turn of the hart that steps is next; and to its beginning where there is none.
pub fn law_behind()
    ensures { BehindLaw }
{}
