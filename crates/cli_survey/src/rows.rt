// Equal events in a row.
ghost use Rattle.std.specs.Prelude.{◌≡◌, ◌≤◌, true};
ghost use Rattle.sv_types.specs.Limits.{max_notes};
ghost use Rattle.machine.specs.Repeats.{MayMake};
ghost use Rattle.cli_survey.specs.Advances.{IsRepeated};
ghost use Rattle.cli_survey.specs.Surveys.{is_clear, is_running};

use machine::{Machine, Notes};
use script::EventRun;
use sv_types::{Event, MAX_NOTES};

/// A row of equal events, up to one after which a load is under way. Answers how many were made. One alone needs no row. Each
/// caller has an instance of its own: LLVM builds in what has one caller, and this is too large for it otherwise.
pub(crate) fn make_row<S>(machine: &mut Machine, event: Event, count: u64) -> u64
    requires may { MayMake machine.old count }
    requires clear { is_clear machine.old ≡ true }
    ensures made { IsRepeated machine.old event result machine.new }
    ensures most { result ≤ count }
{
    if count == 1 {
        return machine.repeat(event, 1);
    }
    machine.repeat_to_load(event, count)
}

/// Events of a row, at most as many as there may be notes. While a load is under way it is one.
pub(crate) fn make_few(machine: &mut Machine, row: &EventRun) -> u64
    requires may { MayMake machine.old row.now.count }
    requires running { is_running machine.old.journal.verdict ≡ true }
    ensures made { IsRepeated machine.old row.now.event result machine.new }
    ensures most { result ≤ row.now.count }
    ensures few { result ≤ max_notes }
{
    if machine.is_loading() {
        return machine.repeat(row.event, 1);
    }
    make_row::<Notes>(machine, row.event, row.count.min(MAX_NOTES as u64))
}
