// The runs of many numbers.
ghost use Rattle.std.specs.Prelude.{◌≡◌, ◌+◌, ◌^◌, ◌≤◌, ◌<◌, ℕ, IfOk, IsErrOf, Some, false};
ghost use Rattle.cli_trials.specs.Trials.{boots, schedule_of};
ghost use Rattle.cli_trials.specs.Sweeps as spec;

use crate::sweep::numbers::{numbers_each, numbers_from};
use crate::sweep::progress::Progress;
use crate::trial::{NoOutcome, Order, RunFiles, keep_memory, try_order};
use cli_plans::DrawnOrder;
use script_lines::tally::{Outcome, Tallies, tally_runs};
use std::alloc::Global;
use std::thread;
use std::thread::Threads;

/// What all runs of a sweep have in common.
#[derive(Clone, Copy, Drop)]
pub struct Sweep<'a> {
    pub files: RunFiles<'a>,
    pub order: DrawnOrder,
    /// The most events of a run.
    pub events: u64,
}

// The order that a number draws.
fn order_of<'a>(order: DrawnOrder, number: u64) -> Order<'a>
    ensures { (harts : ℕ) → schedule_of result harts ≡ Some (spec.schedule_at order harts number) }
{
    match order {
        DrawnOrder::Auto => Order::Auto(number),
        DrawnOrder::Bursts => Order::Bursts(number),
    }
}

fn outcome_of_number<R: Threads + Sync>(
    rt: &R,
    alloc: Global,
    sweep: &Sweep<'_>,
    number: u64,
) -> Result<Outcome, NoOutcome>
    requires may { spec.MaySweep sweep.now }
    ensures outcome { IfOk result (λ outcome. spec.outcome_at sweep.now number ≡ Some outcome) }
    ensures refused { IsErrOf result NoOutcome.Refused → boots sweep.now.files ≡ false }
    ensures other { IsErrOf result NoOutcome.Script → ⊥ }
{
    let order = order_of(sweep.order, number);
    let ending = try_order(rt, alloc, &sweep.files, &order, sweep.events)?;
    Ok(ending.outcome)
}

// The outcomes of some numbers, one after the other.
fn outcomes_of_some<R: Threads + Sync, P: Progress>(
    rt: &R,
    alloc: Global,
    sweep: &Sweep<'_>,
    numbers: &[u64],
    progress: &P,
) -> Result<Vec<Outcome>, NoOutcome>
    requires may { spec.MaySweep sweep.now }
    ensures outcomes { IfOk result (λ outcomes. spec.AreOutcomes sweep.now numbers.now outcomes.items) }
    ensures refused { IsErrOf result NoOutcome.Refused → boots sweep.now.files ≡ false }
    ensures other { IsErrOf result NoOutcome.Script → ⊥ }
{
    let mut outcomes = Vec::new(alloc);
    'numbers: for number in numbers {
        let outcome = outcome_of_number(rt, alloc, sweep, *number)?;
        if outcomes.push(outcome).is_err() {
            return Err(NoOutcome::Memory);
        }
        progress.count_run();
    }
    Ok(outcomes)
}

// The outcomes of all numbers, by a thread for each processor.
fn outcomes_of_all<R: Threads + Sync, P: Progress + Sync>(
    rt: &R,
    alloc: Global,
    sweep: &Sweep<'_>,
    numbers: &[u64],
    progress: &P,
) -> Result<Vec<Outcome>, NoOutcome>
    requires may { spec.MaySweep sweep.now }
    ensures outcomes { IfOk result (λ outcomes. spec.AreOutcomes sweep.now numbers.now outcomes.items) }
    ensures refused { IsErrOf result NoOutcome.Refused → boots sweep.now.files ≡ false }
    ensures other { IsErrOf result NoOutcome.Script → ⊥ }
{
    let size = numbers_each(rt, numbers.len());
    let Ok(chunks) = thread::map_chunks(
        rt,
        alloc,
        numbers,
        size,
        &|_, chunk: &[u64]| -> Result<Vec<Outcome>, NoOutcome>
            requires { spec.MaySweep sweep.now }
            ensures outcomes { IfOk result (λ outcomes. spec.AreOutcomes sweep.entry.now chunk.entry.now outcomes.items) }
            ensures refused { IsErrOf result NoOutcome.Refused → boots sweep.entry.now.files ≡ false }
            ensures other { IsErrOf result NoOutcome.Script → ⊥ }
        { outcomes_of_some(rt, alloc, sweep, chunk, progress) },
    ) else {
        return Err(NoOutcome::Memory);
    };
    let mut outcomes = Vec::new(alloc);
    'chunks: for chunk in &chunks {
        match chunk {
            Ok(some) => {
                if outcomes.extend_from_slice(some).is_err() {
                    return Err(NoOutcome::Memory);
                }
            }
            Err(reason) => return Err(*reason),
        }
    }
    Ok(outcomes)
}

/// Makes the runs of so many numbers, from the first on, and counts how they end. Each run is made by itself from the files, so
/// that nothing hangs on the threads.
pub fn sweep_numbers<R: Threads + Sync, P: Progress + Sync>(
    rt: &R,
    alloc: Global,
    sweep: &Sweep<'_>,
    first: u64,
    count: usize,
    progress: &P,
) -> Result<Tallies, NoOutcome>
    requires may { spec.MaySweep sweep.now }
    requires numbers { first + count ≤ 2 ^ 64 }
    ensures swept { IfOk result (λ tallies. spec.IsSwept sweep.now first count tallies.entries) }
    ensures refused { IsErrOf result NoOutcome.Refused → boots sweep.now.files ≡ false }
    ensures other { IsErrOf result NoOutcome.Script → ⊥ }
{
    let Ok(numbers) = numbers_from(alloc, first, count) else {
        return Err(NoOutcome::Memory);
    };
    keep_memory(alloc);
    let outcomes = outcomes_of_all(rt, alloc, sweep, &numbers, progress)?;
    match tally_runs(alloc, first, &outcomes) {
        Ok(tallies) => Ok(tallies),
        Err(_) => Err(NoOutcome::Memory),
    }
}
