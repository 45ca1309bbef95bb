// The law of attempts: what the hardware makes of an attempt is the reference machine's turn; and laws of views: what a root
// of the G-stage lets a hart see.

mod translation;

ghost use Rattle.laws_simulation.specs.Agree.{AttemptLaw};

pub use translation::{law_two_stages, law_walks_apart, law_walks_inside};

/// An attempt of a started hart without a load: either it gives no exit, and the machine after it is what the reference
/// machine's turn makes of it; or it gives an exit, changes the exit registers alone, and the turn is what the exit asks for.
/// Every instruction, both modes, both kinds of trap.
pub fn law_attempts()
    ensures { AttemptLaw }
{}
