// The judgement of the words after a command's name by their places, from left to right, which takes no memory: what the words
// that have a range say, or the first that is out of it.
ghost use Rattle.std.specs.Prelude.{◌≡◌, ◌≤◌, ◌+◌, ◌^◌, IfOk, IsTrue, Ok, map, string_bytes};
ghost use Rattle.sv_types.specs.Limits.{max_events};
ghost use Rattle.guest_gen.specs.GuestCode.{max_calls};
ghost use Rattle.policy_making.specs.Ranges.{terms_within};
ghost use Rattle.cli_plans.specs.Commands.{flat_split, gen_split, run_split, survey_split, live_split, snap_split, sweep_split};
ghost use Rattle.cli_plans.specs.Commands.{resume_split, show_split, measure_split, convert_split};
ghost use Rattle.cli_plans.specs.CommandLine.{Convert, Generated, flat_judged, gen_judged, run_judged, survey_of, live_of, snap_of};
ghost use Rattle.cli_plans.specs.CommandLine.{sweep_of, resume_of, making_judged, max_live_events, refusal_after, refusal_in, refusal_of_words};
ghost use Rattle.cli_plans.specs.Words.{AreJudged, flat_with, run_with, survey_with, live_with, snap_with, sweep_by, resume_with};
ghost use Rattle.cli_plans.specs.Words.{making_with, terms_value};

use crate::command_words::{CommandName, DiskKind, named};
use crate::refusal::{Refusal, Word};
use crate::words::{
    Draws, FlatTerms, Order, Terms, events_of, measure_of, most_runs, number_of, schedule_of,
    script_of, terms_of,
};
use guest_gen::MAX_CALLS;
use live_keys::MAX_KEYS;
use policy_making::are_module_names;
use sv_types::MAX_EVENTS;

/// The most events of a live run, so that with every key they are no more than a run may have.
const MAX_LIVE_EVENTS: u64 = MAX_EVENTS - MAX_KEYS;

/// Why the words of any command are refused, if they are.
#[tactic(auto, unfolding(crate::specs::CommandLine::refusal_of_words))]
pub fn judge(words: &[String]) -> Result<(), Refusal>
    ensures { refusal_in result ≡ refusal_of_words (map string_bytes words.now) }
{
    match named(words) {
        Some(naming) => judge_after(naming.command, naming.rest),
        None => Err(Refusal::NoCommand),
    }
}

// The same of the words after a command's name.
#[tactic(auto, using(crate::proofs::WordLemmas::judged_refusal))]
fn judge_after(command: CommandName, rest: &[String]) -> Result<(), Refusal>
    ensures { refusal_in result ≡ refusal_after command (map string_bytes rest.now) }
{
    match command {
        CommandName::Flat => refusal_of(judge_flat(rest)),
        CommandName::Generated => refusal_of(judge_generated(rest)),
        CommandName::Run(kind) => refusal_of(judge_run(kind, rest)),
        CommandName::Survey | CommandName::Debug => refusal_of(judge_survey(rest)),
        CommandName::Live(kind) => refusal_of(judge_live(kind, rest)),
        CommandName::Snap(kind) => refusal_of(judge_snap(kind, rest)),
        CommandName::Shrink => refusal_of(judge_snap(DiskKind::Block, rest)),
        CommandName::Sweep => refusal_of(judge_sweep(rest)),
        CommandName::Resume => refusal_of(judge_resume(rest)),
        CommandName::Show => judge_show(rest),
        CommandName::Measure => refusal_of(judge_measure(rest)),
        CommandName::Convert => judge_convert(rest),
    }
}

// What words say isn't asked for.
fn refusal_of<T: Drop>(judged: Result<T, Refusal>) -> Result<(), Refusal>
    ensures { refusal_in result ≡ refusal_in judged }
{
    match judged {
        Ok(_) => Ok(()),
        Err(refusal) => Err(refusal),
    }
}

/// `flat FILE MEASURE EVENTS`
#[tactic(auto, using(crate::proofs::WordLemmas::not_flat), unfolding(crate::specs::CommandLine::flat_words))]
pub fn judge_flat(rest: &[String]) -> Result<FlatTerms, Refusal>
    ensures judged { AreJudged flat_with flat_judged (flat_split (map string_bytes rest.now)) result }
    ensures events { IfOk result (λ flat. flat.events ≤ max_events) }
{
    let [_, wanted, events] = rest else {
        return Err(Refusal::NoCommand);
    };
    let wanted = measure_of(wanted.as_str())?;
    let events = events_of(events.as_str())?;
    Ok(FlatTerms { wanted, events })
}

/// `gen N`
#[tactic(auto, using(crate::proofs::WordLemmas::not_gen), unfolding(crate::specs::CommandLine::gen_words))]
pub fn judge_generated(rest: &[String]) -> Result<u64, Refusal>
    ensures judged { AreJudged (λ _ calls. Generated calls) gen_judged (gen_split (map string_bytes rest.now)) result }
    ensures calls { IfOk result (λ calls. (1 ≤ calls) × (calls ≤ max_calls)) }
{
    let [calls] = rest else {
        return Err(Refusal::NoCommand);
    };
    number_of(Word::Calls, calls.as_str(), 1, MAX_CALLS)
}

/// `run IMAGE POLICY DISK SCRIPT EVENTS SAVE`, or `vrun` with the same words.
#[tactic(auto, using(crate::proofs::WordLemmas::not_run), unfolding(crate::specs::CommandLine::run_words))]
pub fn judge_run(kind: DiskKind, rest: &[String]) -> Result<Order<'_>, Refusal>
    ensures judged { AreJudged run_with run_judged (run_split kind (map string_bytes rest.now)) result }
    ensures events { IfOk result (λ order. order.events ≤ max_events) }
{
    let [_, _, _, script, events, _] = rest else {
        return Err(Refusal::NoCommand);
    };
    let script = script_of(script.as_str())?;
    let events = events_of(events.as_str())?;
    Ok(Order { script, events })
}

/// `survey IMAGE POLICY DISK SCRIPT EVENTS`, or `debug` with the same words.
#[tactic(auto, using(crate::proofs::WordLemmas::not_survey), unfolding(crate::specs::CommandLine::survey_words))]
pub fn judge_survey(rest: &[String]) -> Result<Order<'_>, Refusal>
    ensures judged { AreJudged survey_with survey_of (survey_split (map string_bytes rest.now)) result }
    ensures events { IfOk result (λ order. order.events ≤ max_events) }
{
    let [_, _, _, script, events] = rest else {
        return Err(Refusal::NoCommand);
    };
    let script = script_of(script.as_str())?;
    let events = events_of(events.as_str())?;
    Ok(Order { script, events })
}

/// `live IMAGE POLICY DISK EVENTS OUT`, or `vlive` with the same words.
#[tactic(auto, using(crate::proofs::WordLemmas::not_live), unfolding(crate::specs::CommandLine::live_words))]
pub fn judge_live(kind: DiskKind, rest: &[String]) -> Result<u64, Refusal>
    ensures judged { AreJudged live_with live_of (live_split kind (map string_bytes rest.now)) result }
    ensures events { IfOk result (λ events. events ≤ max_live_events) }
{
    let [_, _, _, events, _] = rest else {
        return Err(Refusal::NoCommand);
    };
    number_of(Word::Events, events.as_str(), 0, MAX_LIVE_EVENTS)
}

/// `snap IMAGE POLICY DISK SCRIPT EVENTS OUT`, or `vsnap` or `shrink` with the same words.
#[tactic(auto, using(crate::proofs::WordLemmas::not_snap), unfolding(crate::specs::CommandLine::snap_words))]
pub fn judge_snap(kind: DiskKind, rest: &[String]) -> Result<Order<'_>, Refusal>
    ensures judged { AreJudged snap_with snap_of (snap_split kind (map string_bytes rest.now)) result }
    ensures events { IfOk result (λ order. order.events ≤ max_events) }
{
    let [_, _, _, script, events, _] = rest else {
        return Err(Refusal::NoCommand);
    };
    let script = script_of(script.as_str())?;
    let events = events_of(events.as_str())?;
    Ok(Order { script, events })
}

/// `sweep IMAGE POLICY DISK SCHEDULE FIRST COUNT EVENTS`
#[tactic(auto, using(crate::proofs::WordLemmas::not_sweep), unfolding(crate::specs::CommandLine::sweep_words, crate::specs::CommandLine::sweep_with))]
pub fn judge_sweep(rest: &[String]) -> Result<Draws, Refusal>
    ensures judged { AreJudged sweep_by sweep_of (sweep_split (map string_bytes rest.now)) result }
    ensures numbers { IfOk result (λ draws. draws.first + draws.count ≤ 2 ^ 64) }
    ensures events { IfOk result (λ draws. draws.events ≤ max_events) }
{
    let [_, _, _, order, first, count, events] = rest else {
        return Err(Refusal::NoCommand);
    };
    let order = schedule_of(order.as_str())?;
    let first = number_of(Word::First, first.as_str(), 0, u64::MAX)?;
    let count = number_of(Word::Count, count.as_str(), 1, most_runs(first))?;
    let events = events_of(events.as_str())?;
    Ok(Draws {
        order,
        first,
        count,
        events,
    })
}

/// `resume SNAPSHOT POLICY SCRIPT EVENTS SAVE`
#[tactic(auto, using(crate::proofs::WordLemmas::not_resume), unfolding(crate::specs::CommandLine::resume_words))]
pub fn judge_resume(rest: &[String]) -> Result<Order<'_>, Refusal>
    ensures judged { AreJudged resume_with resume_of (resume_split (map string_bytes rest.now)) result }
    ensures events { IfOk result (λ order. order.events ≤ max_events) }
{
    let [_, _, script, events, _] = rest else {
        return Err(Refusal::NoCommand);
    };
    let script = script_of(script.as_str())?;
    let events = events_of(events.as_str())?;
    Ok(Order { script, events })
}

/// `show SNAPSHOT [KERNEL]`
#[tactic(auto, using(crate::proofs::WordLemmas::not_show))]
pub fn judge_show(rest: &[String]) -> Result<(), Refusal>
    ensures { AreJudged (λ name _. name) Ok (show_split (map string_bytes rest.now)) result }
{
    match rest {
        [_] | [_, _] => Ok(()),
        _ => Err(Refusal::NoCommand),
    }
}

/// `measure OUT KERNEL RAM HARTS ENTRIES INIT MODULES..`
#[tactic(auto, using(crate::proofs::WordLemmas::not_measure), unfolding(crate::specs::CommandLine::making_words))]
pub fn judge_measure(rest: &[String]) -> Result<Terms<'_>, Refusal>
    ensures judged { AreJudged making_with making_judged (measure_split (map string_bytes rest.now)) result }
    ensures range { IfOk result (λ terms. IsTrue (terms_within (terms_value terms))) }
{
    let [_, _, ram, harts, entries, init, modules @ ..] = rest else {
        return Err(Refusal::NoCommand);
    };
    let terms = terms_of(
        ram.as_str(),
        harts.as_str(),
        entries.as_str(),
        init.as_str(),
    )?;
    if are_module_names(modules) {
        Ok(terms)
    } else {
        Err(Refusal::OutOfRange {
            word: Word::Modules,
        })
    }
}

/// `convert KERNEL IN OUT`
#[tactic(auto, using(crate::proofs::WordLemmas::not_convert))]
pub fn judge_convert(rest: &[String]) -> Result<(), Refusal>
    ensures { AreJudged (λ words _. Convert words) (λ words. Ok (Convert words)) (convert_split (map string_bytes rest.now)) result }
{
    match rest {
        [_, _, _] => Ok(()),
        _ => Err(Refusal::NoCommand),
    }
}
