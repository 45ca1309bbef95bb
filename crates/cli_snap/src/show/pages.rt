// The lines of pages.
ghost use Rattle.std.specs.Prelude.{◌≡◌, ◌++◌, OnOk, IfOk, string_bytes};
ghost use Rattle.spec_processor.specs.Counters.{CanCount};
ghost use Rattle.cli_snap.specs.PageTexts as spec;

use std::alloc::{AllocError, Global};
use sv_types::Protection;

/// Pages after one another that are guarded alike, by the numbers of the first and of the last.
#[derive(Clone, Copy, Drop)]
pub struct PageRun {
    pub first: u64,
    pub last: u64,
    pub protection: Protection,
}

#[tactic(auto, unfolding(crate::specs::PageTexts::page_texts))]
pub fn push_pages(
    alloc: Global,
    text: &mut String,
    protection: &[Protection],
) -> Result<(), AllocError>
    ensures { OnOk result (string_bytes text.new ≡ string_bytes text.old ++ spec.page_texts protection.now) }
{
    match protection.split_first() {
        Some((first, rest)) => push_runs(alloc, text, *first, rest),
        None => Ok(()),
    }
}

fn push_runs(
    alloc: Global,
    text: &mut String,
    protection: Protection,
    rest: &[Protection],
) -> Result<(), AllocError>
    ensures { OnOk result (string_bytes text.new ≡ string_bytes text.old ++ spec.run_lines (record { first = 0; last = 0; protection = protection }) rest.now) }
{
    let mut run = PageRun {
        first: 0,
        last: 0,
        protection,
    };
    'pages: for page in rest {
        push_ended(alloc, text, run, *page)?;
        run = next_run(run, *page);
    }
    push_run(alloc, text, run)
}

fn push_run(alloc: Global, text: &mut String, run: PageRun) -> Result<(), AllocError>
    ensures { OnOk result (string_bytes text.new ≡ string_bytes text.old ++ spec.run_line run) }
{
    text.push_str(run_line(alloc, run)?.as_str())
}

#[tactic(auto, unfolding(crate::specs::PageTexts::next_run))]
fn next_run(run: PageRun, page: Protection) -> PageRun
    requires { CanCount run.last }
    ensures { result ≡ spec.next_run run page }
{
    let last = run.last + 1;
    if run.protection.is_same(page) {
        PageRun { last, ..run }
    } else {
        PageRun {
            first: last,
            last,
            protection: page,
        }
    }
}

#[tactic(auto, unfolding(crate::specs::PageTexts::ended_line))]
fn push_ended(
    alloc: Global,
    text: &mut String,
    run: PageRun,
    page: Protection,
) -> Result<(), AllocError>
    ensures { OnOk result (string_bytes text.new ≡ string_bytes text.old ++ spec.ended_line run page) }
{
    if run.protection.is_same(page) {
        return Ok(());
    }
    push_run(alloc, text, run)
}

#[tactic(auto, unfolding(crate::specs::PageTexts::run_line))]
fn run_line(alloc: Global, run: PageRun) -> Result<String, AllocError>
    ensures { IfOk result (λ t. string_bytes t ≡ spec.run_line run) }
{
    let first = run.first;
    let last = run.last;
    let name = run.protection.name();
    format!(in alloc; "pages {first} to {last} {name}\n")
}
