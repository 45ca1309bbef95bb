// The order of a run's events, read.
ghost use Rattle.std.specs.Prelude.{◌≡◌, ℕ, ◌<◌, ◌-◌, IfOk, OnOk, Some, None};
ghost use Rattle.spec_processor.specs.Counters.{CanCount};
ghost use Rattle.sv_types.specs.Schedule.{Schedule};
ghost use Rattle.script.specs.AutoScripts.{events_of_text, first_refused};
ghost use Rattle.script.specs.HartCounts.{IsHartCount};
ghost use Rattle.cli_trials.specs.Trials.{schedule_of};
ghost use Rattle.cli_plans.specs.Plans.{script_part, text_part};
ghost use Rattle.cli_plans.specs.Words.{source_value};
ghost use Rattle.secvisor_cli.specs.Ready.{MayStage, Staged};
ghost use Rattle.cli_trials.specs.Orders.{IsAccepted, order_schedule};

use crate::trial::Order;
use cli_plans::{Part, Source};
use host_io::Files;
use secvisor_cli::{MAX_SCRIPT_BYTES, Stop, judge_script, read_part};
use std::alloc::Global;

/// The order of a run's events, with the text where there is one.
#[derive(Drop)]
pub enum OwnOrder {
    /// The harts in turn.
    Rounds,
    /// Drawn after a number, each by itself.
    Auto(u64),
    /// Drawn after a number, in bursts of one hart.
    Bursts(u64),
    /// The text of a script.
    Text(Vec<u8>),
}

impl OwnOrder {
    /// The same, with the text borrowed.
    pub fn order(&self) -> Order<'_>
        ensures { (harts : ℕ) → IsAccepted self.now → schedule_of result harts ≡ Some (order_schedule harts self.now) }
    {
        match self {
            OwnOrder::Rounds => Order::Rounds,
            OwnOrder::Auto(number) => Order::Auto(*number),
            OwnOrder::Bursts(number) => Order::Bursts(*number),
            OwnOrder::Text(text) => Order::Text(text),
        }
    }
}

/// The order of a source for so many harts, whose text is read and judged.
pub(crate) fn read_order<F: Files>(
    alloc: Global,
    source: &Source<'_>,
    harts: u8,
    files: &mut F,
) -> Result<OwnOrder, Stop>
    requires permitted { MayStage (script_part harts (source_value source.now)) (F.state files.old) }
    requires reads { CanCount (F.state files.old).read_faults }
    requires harts { IsHartCount harts }
    ensures stage { Staged (script_part harts (source_value source.now)) (order_schedule harts) (F.state files.old) (F.state files.new) result }
    ensures accepted { IfOk result IsAccepted }
{
    match source {
        Source::Rounds => Ok(OwnOrder::Rounds),
        Source::Auto(number) => Ok(OwnOrder::Auto(*number)),
        Source::Bursts(number) => Ok(OwnOrder::Bursts(*number)),
        Source::Text(name) => read_text_order(alloc, name, harts, files),
    }
}

fn read_text_order<F: Files>(
    alloc: Global,
    name: &str,
    harts: u8,
    files: &mut F,
) -> Result<OwnOrder, Stop>
    requires permitted { MayStage (text_part harts name.now) (F.state files.old) }
    requires reads { CanCount (F.state files.old).read_faults }
    requires harts { IsHartCount harts }
    ensures stage { Staged (text_part harts name.now) (order_schedule harts) (F.state files.old) (F.state files.new) result }
    ensures accepted { IfOk result IsAccepted }
{
    let text = read_part(alloc, files, Part::Script, name, MAX_SCRIPT_BYTES)?;
    judge_script(alloc, &text, harts)?;
    Ok(OwnOrder::Text(text))
}
