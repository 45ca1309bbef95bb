// The order of a run's events.
ghost use Rattle.std.specs.Prelude.{◌≡◌, IfOk, IsErrOf, Some, None};
ghost use Rattle.script.specs.HartCounts.{IsHartCount};
ghost use Rattle.cli_trials.specs.Trials as spec;

use crate::trial::files::NoOutcome;
use script::{Script, ScriptRefusal, auto, bursts, read, rounds};
use std::alloc::Global;

/// The order of a run's events.
#[derive(Clone, Copy, Drop)]
pub enum Order<'a> {
    /// The harts in turn.
    Rounds,
    /// Drawn after a number, each by itself.
    Auto(u64),
    /// Drawn after a number, in bursts of one hart.
    Bursts(u64),
    /// The text of a script.
    Text(&'a [u8]),
}

/// The events of an order for so many harts. `Script` is answered only of a text that is refused.
pub(crate) fn script_for(alloc: Global, order: &Order<'_>, harts: u8) -> Result<Script, NoOutcome>
    requires harts { IsHartCount harts }
    ensures read { IfOk result (λ script. spec.schedule_of order.now harts ≡ Some script) }
    ensures unread { IsErrOf result NoOutcome.Script → spec.schedule_of order.now harts ≡ None }
    ensures refused { IsErrOf result NoOutcome.Refused → ⊥ }
{
    match order {
        Order::Rounds => Ok(rounds(harts)),
        Order::Auto(number) => Ok(auto(*number, harts)),
        Order::Bursts(number) => Ok(bursts(*number, harts)),
        Order::Text(text) => read_text(alloc, text, harts),
    }
}

fn read_text(alloc: Global, text: &[u8], harts: u8) -> Result<Script, NoOutcome>
    requires harts { IsHartCount harts }
    ensures read { IfOk result (λ script. spec.text_schedule text.now harts ≡ Some script) }
    ensures unread { IsErrOf result NoOutcome.Script → spec.text_schedule text.now harts ≡ None }
    ensures refused { IsErrOf result NoOutcome.Refused → ⊥ }
{
    match read(alloc, text, harts) {
        Ok(script) => Ok(script),
        Err(ScriptRefusal::Line { .. }) => Err(NoOutcome::Script),
        Err(ScriptRefusal::Memory) => Err(NoOutcome::Memory),
    }
}
