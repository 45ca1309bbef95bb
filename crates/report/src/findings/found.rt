// What a survey found in its run.

ghost use Rattle.std.specs.Prelude.{◌≡◌, None};
ghost use Rattle.report.specs.Findings as spec;
ghost use Rattle.report.specs.Views.{loads_view, writes_view};

use crate::findings::findings::{Writes, no_writes};
use crate::findings::loads::{Loads, no_loads};
use crate::findings::noted::NotesFound;
use std::alloc::Global;

/// The writes that a survey passed over, the loads that it saw refused, and, once its journal doesn't keep all notes, what was found
/// by all of them.
#[derive(Drop)]
pub struct Found {
    pub writes: Writes,
    pub loads: Loads,
    pub noted: Option<NotesFound>,
}

/// Nothing yet.
pub fn nothing_found(alloc: Global) -> Found
    ensures writes { writes_view result.writes ≡ spec.no_writes }
    ensures loads { loads_view result.loads ≡ spec.no_loads }
    ensures noted { result.noted ≡ None }
{
    Found {
        writes: no_writes(alloc),
        loads: no_loads(alloc),
        noted: None,
    }
}
