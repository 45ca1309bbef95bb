// What words ask for: those that have a range are judged and read without memory, and then the others are read by their names.
ghost use Rattle.std.specs.Prelude.{◌≡◌, ◌≤◌, IfOk, Ok, false, map, string_bytes};
ghost use Rattle.std.specs.List.{list_any};
ghost use Rattle.std.specs.Option.{option_copied};
ghost use Rattle.clap.specs.Words.{found_of, rows_of};
ghost use Rattle.sv_types.specs.Limits.{max_events};
ghost use Rattle.cli_plans.specs.Commands.{has_dash, flat_split, gen_split, run_split, live_split, snap_split, sweep_split, resume_split};
ghost use Rattle.cli_plans.specs.Commands.{show_split, measure_split, convert_split, survey_split};
ghost use Rattle.cli_plans.specs.CommandLine.{Convert, split_judged, flat_judged, gen_judged, run_judged, live_of, snap_of, sweep_of};
ghost use Rattle.cli_plans.specs.CommandLine.{resume_of, making_judged, command_after, live_after, snap_after, sweep_after, shrink_after};
ghost use Rattle.cli_plans.specs.CommandLine.{resume_after, show_after, judgement_of_words, live_judged, snap_judged, sweep_judged};
ghost use Rattle.cli_plans.specs.CommandLine.{shrink_judged, resume_judged, show_judged, survey_of, survey_after, survey_judged};
ghost use Rattle.cli_plans.specs.CommandLine.{debug_after, debug_judged};
ghost use Rattle.cli_plans.specs.Words.{IsAsked, IsInRange, IsDrawnRun, IsBlockRun, AreNumbers, command_of, live_value, snap_value};
ghost use Rattle.cli_plans.specs.Words.{sweep_value, resume_value, IsSurveyRun, run_value, named_run, run_names, source_value};
ghost use Rattle.cli_plans.specs.Parsing.{HasWords};
ghost use Rattle.cli_plans.specs.Values.{show_split_of};
ghost use Rattle.cli_plans.specs.declared.asking.Unread.TheVariants.{Refused, Memory};

use crate::command_words::{
    CommandName, ConvertWords, DiskKind, ShowWords, find, modules, named, word, word_if_any,
};
use crate::judgement::{
    judge_convert, judge_flat, judge_generated, judge_live, judge_measure, judge_resume, judge_run,
    judge_show, judge_snap, judge_survey, judge_sweep,
};
use crate::refusal::Refusal;
use crate::words::{
    Command, Draws, Flat, FlatTerms, Live, MakePolicy, Order, Resume, Run, Snap, Source, Sweep,
    unless_none,
};
use clap::ArgMatches;
use std::alloc::{AllocError, Global};

/// Why words aren't read.
#[derive(Clone, Copy, Drop)]
pub enum Unread {
    Refused(Refusal),
    /// Memory ran out.
    Memory,
}

impl From<Refusal> for Unread {
    ghost from_gives = { λ r u. u ≡ Refused r };

    fn from(refusal: Refusal) -> Self {
        Unread::Refused(refusal)
    }
}

impl From<AllocError> for Unread {
    ghost from_gives = { λ _ u. u ≡ Memory };

    fn from(_: AllocError) -> Self {
        Unread::Memory
    }
}

/// What words ask the top call for.
#[tactic(auto, unfolding(crate::specs::CommandLine::judgement_of_words))]
pub fn ask<'a>(alloc: Global, words: &'a [String]) -> Result<Command<'a>, Unread>
    ensures asked { IsAsked command_of (judgement_of_words (map string_bytes words.now)) result }
    ensures range { IfOk result IsInRange }
{
    match named(words) {
        Some(naming) => ask_after(alloc, naming.command, naming.rest),
        None => Err(Unread::Refused(Refusal::NoCommand)),
    }
}

fn ask_after<'a>(
    alloc: Global,
    command: CommandName,
    rest: &'a [String],
) -> Result<Command<'a>, Unread>
    requires plain { list_any has_dash (map string_bytes rest.now) ≡ false }
    ensures asked { IsAsked command_of (command_after command (map string_bytes rest.now)) result }
    ensures range { IfOk result IsInRange }
{
    match command {
        CommandName::Flat => ask_flat(alloc, rest),
        CommandName::Generated => ask_generated(rest),
        CommandName::Run(kind) => ask_run(alloc, kind, rest),
        CommandName::Measure => ask_measure(alloc, rest),
        CommandName::Convert => ask_convert(alloc, rest),
        CommandName::Survey
        | CommandName::Debug
        | CommandName::Live(_)
        | CommandName::Snap(_)
        | CommandName::Sweep
        | CommandName::Shrink
        | CommandName::Resume
        | CommandName::Show => Err(Unread::Refused(Refusal::NoCommand)),
    }
}

#[tactic(auto, using(crate::proofs::WordLemmas::split_is_some))]
fn ask_flat<'a>(alloc: Global, rest: &'a [String]) -> Result<Command<'a>, Unread>
    requires plain { list_any has_dash (map string_bytes rest.now) ≡ false }
    ensures asked { IsAsked command_of (split_judged flat_judged (flat_split (map string_bytes rest.now))) result }
    ensures range { IfOk result IsInRange }
{
    let FlatTerms { wanted, events } = judge_flat(rest)?;
    let names = find(alloc, CommandName::Flat, rest)?;
    Ok(Command::Flat(Flat {
        file: word(&names, "FILE"),
        wanted,
        events,
    }))
}

// No word of `gen` is a name.
fn ask_generated<'a>(rest: &'a [String]) -> Result<Command<'a>, Unread>
    ensures asked { IsAsked command_of (split_judged gen_judged (gen_split (map string_bytes rest.now))) result }
    ensures range { IfOk result IsInRange }
{
    let calls = judge_generated(rest)?;
    Ok(Command::Generated(calls))
}

#[tactic(auto, using(crate::proofs::WordLemmas::split_is_some))]
fn ask_run<'a>(alloc: Global, kind: DiskKind, rest: &'a [String]) -> Result<Command<'a>, Unread>
    requires plain { list_any has_dash (map string_bytes rest.now) ≡ false }
    ensures asked { IsAsked command_of (split_judged run_judged (run_split kind (map string_bytes rest.now))) result }
    ensures range { IfOk result IsInRange }
{
    let order = judge_run(kind, rest)?;
    let names = find(alloc, CommandName::Run(kind), rest)?;
    let save = unless_none(word(&names, "SAVE"));
    Ok(Command::Run(run_of(kind, &names, order, save)))
}

#[tactic(auto, using(crate::proofs::WordLemmas::split_is_some))]
fn ask_measure<'a>(alloc: Global, rest: &'a [String]) -> Result<Command<'a>, Unread>
    requires plain { list_any has_dash (map string_bytes rest.now) ≡ false }
    ensures asked { IsAsked command_of (split_judged making_judged (measure_split (map string_bytes rest.now))) result }
    ensures range { IfOk result IsInRange }
{
    let terms = judge_measure(rest)?;
    let names = find(alloc, CommandName::Measure, rest)?;
    let modules = modules(alloc, &names)?;
    Ok(Command::MakePolicy(MakePolicy {
        out: word(&names, "OUT"),
        kernel: word(&names, "KERNEL"),
        terms,
        modules,
    }))
}

#[tactic(auto, using(crate::proofs::WordLemmas::split_is_some))]
fn ask_convert<'a>(alloc: Global, rest: &'a [String]) -> Result<Command<'a>, Unread>
    requires plain { list_any has_dash (map string_bytes rest.now) ≡ false }
    ensures asked { IsAsked command_of (split_judged (λ w. Ok (Convert w)) (convert_split (map string_bytes rest.now))) result }
    ensures range { IfOk result IsInRange }
{
    judge_convert(rest)?;
    let names = find(alloc, CommandName::Convert, rest)?;
    Ok(Command::Convert(ConvertWords {
        kernel: word(&names, "KERNEL"),
        given: word(&names, "IN"),
        out: word(&names, "OUT"),
    }))
}

// A run of the image, the policy and the disk that have these names.
fn run_of<'a>(
    kind: DiskKind,
    names: &ArgMatches<'a>,
    order: Order<'a>,
    save: Option<&'a str>,
) -> Run<'a>
    requires { HasWords run_names (rows_of (found_of names.now)) }
    ensures value { run_value result ≡
        named_run kind (rows_of (found_of names.now)) (source_value order.entry.script) order.entry.events (option_copied save.entry) }
    ensures kind { result.kind ≡ kind }
    ensures script { result.script ≡ order.entry.script }
    ensures events { result.events ≡ order.entry.events }
{
    Run {
        kind,
        image: word(names, "IMAGE"),
        policy: word(names, "POLICY"),
        disk: unless_none(word(names, "DISK")),
        script: order.script,
        events: order.events,
        save,
    }
}

/// What words ask `survey` for.
#[tactic(auto, unfolding(crate::specs::CommandLine::survey_judged))]
pub fn ask_survey<'a>(alloc: Global, words: &'a [String]) -> Result<Run<'a>, Unread>
    ensures asked { IsAsked run_value (survey_judged (map string_bytes words.now)) result }
    ensures run { IfOk result IsSurveyRun }
{
    match named(words) {
        Some(naming) => survey_after(alloc, naming.command, naming.rest),
        None => Err(Unread::Refused(Refusal::NoCommand)),
    }
}

fn survey_after<'a>(
    alloc: Global,
    command: CommandName,
    rest: &'a [String],
) -> Result<Run<'a>, Unread>
    requires plain { list_any has_dash (map string_bytes rest.now) ≡ false }
    ensures asked { IsAsked run_value (survey_after command (map string_bytes rest.now)) result }
    ensures run { IfOk result IsSurveyRun }
{
    let CommandName::Survey = command else {
        return Err(Unread::Refused(Refusal::NoCommand));
    };
    ask_unsaved(alloc, rest)
}

// A run whose disk isn't saved.
#[tactic(auto, using(crate::proofs::WordLemmas::split_is_some))]
fn ask_unsaved<'a>(alloc: Global, rest: &'a [String]) -> Result<Run<'a>, Unread>
    requires plain { list_any has_dash (map string_bytes rest.now) ≡ false }
    ensures asked { IsAsked run_value (split_judged survey_of (survey_split (map string_bytes rest.now))) result }
    ensures run { IfOk result IsSurveyRun }
{
    let order = judge_survey(rest)?;
    let names = find(alloc, CommandName::Survey, rest)?;
    Ok(run_of(DiskKind::Block, &names, order, None))
}

/// What words ask `debug` for: those of `survey`.
#[tactic(auto, unfolding(crate::specs::CommandLine::debug_judged))]
pub fn ask_debug<'a>(alloc: Global, words: &'a [String]) -> Result<Run<'a>, Unread>
    ensures asked { IsAsked run_value (debug_judged (map string_bytes words.now)) result }
    ensures run { IfOk result IsSurveyRun }
{
    match named(words) {
        Some(naming) => debug_after(alloc, naming.command, naming.rest),
        None => Err(Unread::Refused(Refusal::NoCommand)),
    }
}

fn debug_after<'a>(
    alloc: Global,
    command: CommandName,
    rest: &'a [String],
) -> Result<Run<'a>, Unread>
    requires plain { list_any has_dash (map string_bytes rest.now) ≡ false }
    ensures asked { IsAsked run_value (debug_after command (map string_bytes rest.now)) result }
    ensures run { IfOk result IsSurveyRun }
{
    let CommandName::Debug = command else {
        return Err(Unread::Refused(Refusal::NoCommand));
    };
    ask_unsaved(alloc, rest)
}

/// What words ask `live` or `vlive` for.
#[tactic(auto, unfolding(crate::specs::CommandLine::live_judged))]
pub fn ask_live<'a>(alloc: Global, words: &'a [String]) -> Result<Live<'a>, Unread>
    ensures asked { IsAsked live_value (live_judged (map string_bytes words.now)) result }
    ensures drawn { IfOk result IsDrawnRun }
{
    match named(words) {
        Some(naming) => live_after(alloc, naming.command, naming.rest),
        None => Err(Unread::Refused(Refusal::NoCommand)),
    }
}

#[tactic(auto, using(crate::proofs::WordLemmas::split_is_some))]
fn live_after<'a>(
    alloc: Global,
    command: CommandName,
    rest: &'a [String],
) -> Result<Live<'a>, Unread>
    requires plain { list_any has_dash (map string_bytes rest.now) ≡ false }
    ensures asked { IsAsked live_value (live_after command (map string_bytes rest.now)) result }
    ensures drawn { IfOk result IsDrawnRun }
{
    let CommandName::Live(kind) = command else {
        return Err(Unread::Refused(Refusal::NoCommand));
    };
    let events = judge_live(kind, rest)?;
    let names = find(alloc, CommandName::Live(kind), rest)?;
    let order = Order {
        script: Source::Auto(0),
        events,
    };
    Ok(Live {
        run: run_of(kind, &names, order, None),
        out: word(&names, "OUT"),
    })
}

/// What words ask `snap` or `vsnap` for.
#[tactic(auto, unfolding(crate::specs::CommandLine::snap_judged))]
pub fn ask_snap<'a>(alloc: Global, words: &'a [String]) -> Result<Snap<'a>, Unread>
    ensures asked { IsAsked snap_value (snap_judged (map string_bytes words.now)) result }
    ensures events { IfOk result (λ snap. snap.run.events ≤ max_events) }
{
    match named(words) {
        Some(naming) => snap_after(alloc, naming.command, naming.rest),
        None => Err(Unread::Refused(Refusal::NoCommand)),
    }
}

fn snap_after<'a>(
    alloc: Global,
    command: CommandName,
    rest: &'a [String],
) -> Result<Snap<'a>, Unread>
    requires plain { list_any has_dash (map string_bytes rest.now) ≡ false }
    ensures asked { IsAsked snap_value (snap_after command (map string_bytes rest.now)) result }
    ensures events { IfOk result (λ snap. snap.run.events ≤ max_events) }
{
    let CommandName::Snap(kind) = command else {
        return Err(Unread::Refused(Refusal::NoCommand));
    };
    ask_out(alloc, kind, rest)
}

// A run, and the name that is saved under.
#[tactic(auto, using(crate::proofs::WordLemmas::split_is_some))]
fn ask_out<'a>(alloc: Global, kind: DiskKind, rest: &'a [String]) -> Result<Snap<'a>, Unread>
    requires plain { list_any has_dash (map string_bytes rest.now) ≡ false }
    ensures asked { IsAsked snap_value (split_judged snap_of (snap_split kind (map string_bytes rest.now))) result }
    ensures kind { IfOk result (λ snap. snap.run.kind ≡ kind) }
    ensures events { IfOk result (λ snap. snap.run.events ≤ max_events) }
{
    let order = judge_snap(kind, rest)?;
    let names = find(alloc, CommandName::Snap(kind), rest)?;
    Ok(Snap {
        run: run_of(kind, &names, order, None),
        out: word(&names, "OUT"),
    })
}

/// What words ask `shrink` for: those of `snap`.
#[tactic(auto, unfolding(crate::specs::CommandLine::shrink_judged))]
pub fn ask_shrink<'a>(alloc: Global, words: &'a [String]) -> Result<Snap<'a>, Unread>
    ensures asked { IsAsked snap_value (shrink_judged (map string_bytes words.now)) result }
    ensures block { IfOk result IsBlockRun }
{
    match named(words) {
        Some(naming) => shrink_after(alloc, naming.command, naming.rest),
        None => Err(Unread::Refused(Refusal::NoCommand)),
    }
}

fn shrink_after<'a>(
    alloc: Global,
    command: CommandName,
    rest: &'a [String],
) -> Result<Snap<'a>, Unread>
    requires plain { list_any has_dash (map string_bytes rest.now) ≡ false }
    ensures asked { IsAsked snap_value (shrink_after command (map string_bytes rest.now)) result }
    ensures block { IfOk result IsBlockRun }
{
    let CommandName::Shrink = command else {
        return Err(Unread::Refused(Refusal::NoCommand));
    };
    ask_out(alloc, DiskKind::Block, rest)
}

/// What words ask `sweep` for.
#[tactic(auto, unfolding(crate::specs::CommandLine::sweep_judged))]
pub fn ask_sweep<'a>(alloc: Global, words: &'a [String]) -> Result<Sweep<'a>, Unread>
    ensures asked { IsAsked sweep_value (sweep_judged (map string_bytes words.now)) result }
    ensures numbers { IfOk result AreNumbers }
{
    match named(words) {
        Some(naming) => sweep_after(alloc, naming.command, naming.rest),
        None => Err(Unread::Refused(Refusal::NoCommand)),
    }
}

#[tactic(auto, using(crate::proofs::WordLemmas::split_is_some))]
fn sweep_after<'a>(
    alloc: Global,
    command: CommandName,
    rest: &'a [String],
) -> Result<Sweep<'a>, Unread>
    requires plain { list_any has_dash (map string_bytes rest.now) ≡ false }
    ensures asked { IsAsked sweep_value (sweep_after command (map string_bytes rest.now)) result }
    ensures numbers { IfOk result AreNumbers }
{
    let CommandName::Sweep = command else {
        return Err(Unread::Refused(Refusal::NoCommand));
    };
    let Draws {
        order,
        first,
        count,
        events,
    } = judge_sweep(rest)?;
    let names = find(alloc, CommandName::Sweep, rest)?;
    Ok(Sweep {
        image: word(&names, "IMAGE"),
        policy: word(&names, "POLICY"),
        disk: unless_none(word(&names, "DISK")),
        order,
        first,
        count,
        events,
    })
}

/// What words ask `resume` for.
#[tactic(auto, unfolding(crate::specs::CommandLine::resume_judged))]
pub fn ask_resume<'a>(alloc: Global, words: &'a [String]) -> Result<Resume<'a>, Unread>
    ensures asked { IsAsked resume_value (resume_judged (map string_bytes words.now)) result }
    ensures events { IfOk result (λ resume. resume.events ≤ max_events) }
{
    match named(words) {
        Some(naming) => resume_after(alloc, naming.command, naming.rest),
        None => Err(Unread::Refused(Refusal::NoCommand)),
    }
}

#[tactic(auto, using(crate::proofs::WordLemmas::split_is_some))]
fn resume_after<'a>(
    alloc: Global,
    command: CommandName,
    rest: &'a [String],
) -> Result<Resume<'a>, Unread>
    requires plain { list_any has_dash (map string_bytes rest.now) ≡ false }
    ensures asked { IsAsked resume_value (resume_after command (map string_bytes rest.now)) result }
    ensures events { IfOk result (λ resume. resume.events ≤ max_events) }
{
    let CommandName::Resume = command else {
        return Err(Unread::Refused(Refusal::NoCommand));
    };
    let Order { script, events } = judge_resume(rest)?;
    let names = find(alloc, CommandName::Resume, rest)?;
    Ok(Resume {
        saved: word(&names, "SNAPSHOT"),
        policy: word(&names, "POLICY"),
        script,
        events,
        save: unless_none(word(&names, "SAVE")),
    })
}

/// What words ask `show` for.
#[tactic(auto, unfolding(crate::specs::CommandLine::show_judged))]
pub fn ask_show<'a>(alloc: Global, words: &'a [String]) -> Result<ShowWords<'a>, Unread>
    ensures { IsAsked show_split_of (show_judged (map string_bytes words.now)) result }
{
    match named(words) {
        Some(naming) => show_after(alloc, naming.command, naming.rest),
        None => Err(Unread::Refused(Refusal::NoCommand)),
    }
}

#[tactic(auto, using(crate::proofs::WordLemmas::split_is_some))]
fn show_after<'a>(
    alloc: Global,
    command: CommandName,
    rest: &'a [String],
) -> Result<ShowWords<'a>, Unread>
    requires plain { list_any has_dash (map string_bytes rest.now) ≡ false }
    ensures { IsAsked show_split_of (show_after command (map string_bytes rest.now)) result }
{
    let CommandName::Show = command else {
        return Err(Unread::Refused(Refusal::NoCommand));
    };
    judge_show(rest)?;
    let names = find(alloc, CommandName::Show, rest)?;
    Ok(ShowWords {
        saved: word(&names, "SNAPSHOT"),
        kernel: word_if_any(&names, "KERNEL"),
    })
}
