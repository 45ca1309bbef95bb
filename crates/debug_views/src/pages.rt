// Runs of pages that are guarded alike.
ghost use Rattle.std.specs.Prelude.{◌≡◌, ◌≤◌, ◌+◌, ◌++◌, List, IfOk, flat_map, length, string_bytes};
ghost use Rattle.spec_processor.specs.Regions.{max_ram_pages};
ghost use Rattle.debug_views.specs.Pages as spec;
ghost use Rattle.debug_views.specs.declared.pages.PageRun.{PageRun};

use spec_processor::{PAGE_BYTES, RAM_BASE};
use std::alloc::{AllocError, Global};
use sv_types::Protection;
use text_numbers::address_text;

/// Pages one after the other that are guarded alike: the first one's number, and how many they are.
#[derive(Clone, Copy, Drop)]
pub struct PageRun {
    pub first: u64,
    pub count: u64,
    pub guard: Protection,
}

#[tactic(auto, unfolding(crate::specs::Pages::run_line))]
fn run_line(alloc: Global, run: PageRun) -> Result<String, AllocError>
    requires { run.first ≤ max_ram_pages }
    ensures { IfOk result (λ text. string_bytes text ≡ spec.run_line run) }
{
    let count = run.count;
    let from = address_text(alloc, RAM_BASE + PAGE_BYTES * run.first)?;
    let guard = run.guard.name();
    format!(in alloc; "pages {count} from {from} {guard}\n")
}

fn one_page(page: u64, guard: Protection) -> PageRun
    ensures { result ≡ spec.one_page page guard }
{
    PageRun {
        first: page,
        count: 1,
        guard,
    }
}

// A page after a run is put to it. Where it is guarded otherwise, the run's line is put at the end, and a run begins.
#[tactic(auto, using(crate::proofs::PageRuns::page_joined, crate::proofs::PageRuns::run_ended))]
fn add_page(
    alloc: Global,
    text: &mut String,
    run: PageRun,
    page: u64,
    guard: Protection,
) -> Result<PageRun, AllocError>
    requires few { page ≤ max_ram_pages }
    requires within { run.first + run.count ≤ page }
    ensures text { IfOk result (λ next. (rest : List PageRun) →
        string_bytes text.new ++ flat_map spec.run_line (spec.joined next rest)
        ≡ string_bytes text.old ++ flat_map spec.run_line (spec.joined run (spec.joined (spec.one_page page guard) rest))) }
    ensures within { IfOk result (λ next. next.first + next.count ≤ page + 1) }
{
    if run.guard.is_same(guard) {
        return Ok(PageRun {
            count: run.count + 1,
            ..run
        });
    }
    text.push_str(run_line(alloc, run)?.as_str())?;
    Ok(one_page(page, guard))
}

/// A line for each run of pages.
pub fn pages_text(alloc: Global, guards: &[Protection]) -> Result<String, AllocError>
    requires { length guards.now ≤ max_ram_pages }
    ensures { IfOk result (λ text. string_bytes text ≡ spec.pages_text guards.now) }
{
    let mut text = String::new(alloc);
    if guards.is_empty() {
        return Ok(text);
    }
    let mut run = one_page(0, guards[0]);
    'pages: for page in 1..guards.len() {
        run = add_page(alloc, &mut text, run, page as u64, guards[page])?;
    }
    text.push_str(run_line(alloc, run)?.as_str())?;
    Ok(text)
}
