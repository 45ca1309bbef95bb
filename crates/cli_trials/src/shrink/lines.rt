// What is said of a run that was to be made small.
ghost use Rattle.std.specs.Prelude.{◌≡◌, IfOk, string_bytes};
ghost use Rattle.cli_trials.specs.Lines as spec;

use crate::shrink::shrinking::Shrunk;
use std::alloc::{AllocError, Global};
use sv_types::Status;

/// The line that is printed.
#[tactic(auto, unfolding(crate::specs::Lines::shrunk_line))]
pub fn shrunk_line(alloc: Global, shrunk: &Shrunk) -> Result<String, AllocError>
    ensures { IfOk result (λ line. string_bytes line ≡ spec.shrunk_line shrunk.now) }
{
    match shrunk {
        Shrunk::NothingStopped => format!(in alloc; "nothing stopped\n"),
        Shrunk::Made(script) => {
            let left = script.lines.len();
            let before = script.lines_before;
            let runs = script.runs;
            format!(in alloc; "shrunk {left} of {before} runs {runs}\n")
        }
    }
}

/// The status: done where a script was made.
pub fn shrunk_status(shrunk: &Shrunk) -> Status
    ensures { result ≡ spec.shrunk_status shrunk.now }
{
    match shrunk {
        Shrunk::NothingStopped => Status::Ended,
        Shrunk::Made(_) => Status::Done,
    }
}
