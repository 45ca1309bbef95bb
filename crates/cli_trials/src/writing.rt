// What is written in one piece.
ghost use Rattle.std.specs.Prelude.{◌≡◌};
ghost use Rattle.host_io.specs.Outside.{MayWrite};
ghost use Rattle.cli_trials.specs.Writing.{Refuses, WritesAll};

use cli_plans::Refusal;
use host_io::{Sink, Trouble, write_all};
use std::alloc::Global;
use sv_types::Status;

/// Writes a text, and answers a status.
pub fn write_text<O: Sink>(text: &str, status: Status, out: &mut O) -> Result<Status, Trouble>
    requires sink { MayWrite (O.state out.old) }
    ensures { WritesAll status text.now (O.state out.old) (O.state out.new) result }
{
    write_all(out, text.as_bytes())?;
    Ok(status)
}

/// Writes the line of a refusal, and answers its status.
pub fn refuse<O: Sink>(alloc: Global, refusal: &Refusal, out: &mut O) -> Result<Status, Trouble>
    requires sink { MayWrite (O.state out.old) }
    ensures { Refuses refusal.now (O.state out.old) (O.state out.new) result }
{
    refusal.write_line(alloc, out)?;
    Ok(refusal.status())
}
