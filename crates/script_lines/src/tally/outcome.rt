// How a run ends.
ghost use Rattle.std.specs.Prelude.{◌≡◌};
ghost use Rattle.script_lines.specs.Tallies.{outcome_of, same};
ghost use Rattle.script_lines.specs.TallyLines.{is_stop};

use sv_types::{Rule, Verdict};

/// How a run ends. Two runs that stop do so in the same way where the rule and its addresses are the same.
#[derive(Clone, Copy, Debug, PartialEq, Eq, Hash, Drop)]
pub enum Outcome {
    /// The guest shut down.
    ShutDown,
    /// Stopped by a trap from user mode to an address that is no permitted entry.
    Entry { target: u64 },
    /// Stopped by a store into a protected page, at a guest-physical address.
    Write { pc: u64, gpa: u64 },
    /// The events were all made.
    Ended,
}

impl Outcome {
    /// How a run ends that stands so after its last event.
    pub fn of(verdict: Verdict) -> Outcome
        ensures { result ≡ outcome_of verdict }
    {
        match verdict {
            Verdict::Running => Outcome::Ended,
            Verdict::Shutdown => Outcome::ShutDown,
            Verdict::Stopped { rule, .. } => match rule {
                Rule::Entry { target } => Outcome::Entry { target },
                Rule::Write { pc, gpa } => Outcome::Write { pc, gpa },
            },
        }
    }

    /// Whether it is the same way to end.
    #[tactic(auto, using(crate::proofs::Counting::derived_same))]
    pub fn is(self, other: Outcome) -> bool
        ensures { result ≡ same self other }
    {
        self == other
    }

    /// Whether the run stopped.
    pub fn is_stop(self) -> bool
        ensures { result ≡ is_stop self }
    {
        match self {
            Outcome::Entry { .. } | Outcome::Write { .. } => true,
            Outcome::ShutDown | Outcome::Ended => false,
        }
    }
}
