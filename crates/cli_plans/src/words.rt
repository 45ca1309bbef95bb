// What the words of a command ask for.
ghost use Rattle.std.specs.Prelude.{◌≡◌, ◌≤◌, ◌+◌, ◌^◌, option_map, IfOk};
ghost use Rattle.std.specs.Option.{option_copied};
ghost use Rattle.sv_types.specs.Numbers.{digest_of, number_within};
ghost use Rattle.sv_types.specs.Limits.{max_events};
ghost use Rattle.cli_plans.specs.CommandLine.{drawn_order_of, is_no_file, most_runs, unless_none, source_of, auto_of, bursts_of, terms_judged, init_of};
ghost use Rattle.cli_plans.specs.Words.{IsRead, IsWord, source_value, terms_value};

use crate::command_words::{ConvertWords, DiskKind};
use crate::refusal::{Refusal, Word};
use policy_limits::{MAX_HARTS, MAX_RAM_PAGES, MIN_RAM_PAGES};
use policy_making::{are_entries, span_of};
use sv_types::{Digest, MAX_EVENTS, Span};
use text_numbers::{digest_of, number_within};

/// The most runs of a sweep.
const MAX_SWEEP_RUNS: u64 = 1_000_000;

/// What the words of the top call ask for.
#[derive(Drop)]
pub enum Command<'a> {
    Flat(Flat<'a>),
    /// `gen N`: the generated guest, which calls its kernel so many times.
    Generated(u64),
    Run(Run<'a>),
    MakePolicy(MakePolicy<'a>),
    Convert(ConvertWords<'a>),
}

/// `flat FILE MEASURE EVENTS`: the file's name, the measure that is wanted, and the number of events.
#[derive(Drop)]
pub struct Flat<'a> {
    pub file: &'a str,
    pub wanted: Digest,
    pub events: u64,
}

/// `run IMAGE POLICY DISK SCRIPT EVENTS SAVE`, or `vrun` with the same words: the files' names, where the events come
/// from, and their number.
#[derive(Drop)]
pub struct Run<'a> {
    /// Which block device the machine has.
    pub kind: DiskKind,
    pub image: &'a str,
    pub policy: &'a str,
    /// None for an empty disk.
    pub disk: Option<&'a str>,
    pub script: Source<'a>,
    pub events: u64,
    /// The name under which the disk is saved after the report, where it is.
    pub save: Option<&'a str>,
}

/// `live IMAGE POLICY DISK EVENTS OUT`, or `vlive` with the same words: a run whose events are drawn, and the name that its script is saved under.
#[derive(Drop)]
pub struct Live<'a> {
    pub run: Run<'a>,
    pub out: &'a str,
}

/// `snap IMAGE POLICY DISK SCRIPT EVENTS OUT`, or `vsnap` or `shrink` with the same words: a run, and the name that the machine after it, or a
/// small script, is saved under.
#[derive(Drop)]
pub struct Snap<'a> {
    pub run: Run<'a>,
    pub out: &'a str,
}

/// `sweep IMAGE POLICY DISK SCHEDULE FIRST COUNT EVENTS`: the files' names, how each number draws the order of its run, the
/// numbers, and the most events of a run.
#[derive(Drop)]
pub struct Sweep<'a> {
    pub image: &'a str,
    pub policy: &'a str,
    /// None for an empty disk.
    pub disk: Option<&'a str>,
    pub order: DrawnOrder,
    pub first: u64,
    pub count: u64,
    pub events: u64,
}

/// How each number draws the events of its run.
#[derive(Clone, Copy, Debug, PartialEq, Eq, Drop)]
pub enum DrawnOrder {
    /// Each event by itself.
    Auto,
    /// In bursts of one hart.
    Bursts,
}

/// `resume SNAPSHOT POLICY SCRIPT EVENTS SAVE`: the files' names, where the events of the whole run come from, and their
/// number.
#[derive(Drop)]
pub struct Resume<'a> {
    pub saved: &'a str,
    pub policy: &'a str,
    pub script: Source<'a>,
    pub events: u64,
    /// The name under which the disk is saved after the report, where it is.
    pub save: Option<&'a str>,
}

/// `measure OUT KERNEL RAM HARTS ENTRIES INIT MODULES...`: the name that the policy is saved under, the files' names, and
/// what it says besides them.
#[derive(Drop)]
pub struct MakePolicy<'a> {
    pub out: &'a str,
    pub kernel: &'a str,
    pub terms: Terms<'a>,
    pub modules: Vec<&'a str>,
}

/// Where the events of a run come from, and how many they are at most.
#[derive(Drop)]
pub struct Order<'a> {
    pub script: Source<'a>,
    pub events: u64,
}

/// What `flat` is told besides its file.
#[derive(Drop)]
pub struct FlatTerms {
    pub wanted: Digest,
    pub events: u64,
}

/// What `sweep` is told besides its files.
#[derive(Drop)]
pub struct Draws {
    pub order: DrawnOrder,
    pub first: u64,
    pub count: u64,
    pub events: u64,
}

/// What a policy says besides its files.
#[derive(Drop)]
pub struct Terms<'a> {
    pub ram_pages: u32,
    pub harts: u8,
    /// The word of the entries, which are all in range.
    pub entries: &'a str,
    pub init: Option<Span>,
}

/// Where the events of a run come from.
#[derive(Drop)]
pub enum Source<'a> {
    /// The harts in turn.
    Rounds,
    /// Drawn after a number.
    Auto(u64),
    /// Bursts of one hart, drawn after a number.
    Bursts(u64),
    /// The text of a file.
    Text(&'a str),
}

/// A word that is a number in a range.
pub fn number_of(name: Word, word: &str, low: u64, high: u64) -> Result<u64, Refusal>
    ensures word { IsWord name (λ n. n) (number_within low high word.now) result }
    ensures range { IfOk result (λ n. (low ≤ n) × (n ≤ high)) }
{
    match number_within(word.as_bytes(), low, high) {
        Some(number) => Ok(number),
        None => Err(Refusal::OutOfRange { word: name }),
    }
}

/// The most events of a run.
pub fn events_of(word: &str) -> Result<u64, Refusal>
    ensures word { IsWord Word.Events (λ n. n) (number_within 0 max_events word.now) result }
    ensures range { IfOk result (λ n. n ≤ max_events) }
{
    number_of(Word::Events, word, 0, MAX_EVENTS)
}

/// Where the events of a run come from.
pub fn script_of(word: &str) -> Result<Source<'_>, Refusal>
    ensures { IsWord Word.Script source_value (source_of word.now) result }
{
    match source_of(word) {
        Some(source) => Ok(source),
        None => Err(Refusal::OutOfRange { word: Word::Script }),
    }
}

/// The measure that a flat text is to have.
pub fn measure_of(word: &str) -> Result<Digest, Refusal>
    ensures { IsWord Word.Measure (λ digest. digest) (digest_of word.now) result }
{
    match digest_of(word) {
        Some(digest) => Ok(digest),
        None => Err(Refusal::OutOfRange {
            word: Word::Measure,
        }),
    }
}

/// How each number of a sweep draws.
pub fn schedule_of(word: &str) -> Result<DrawnOrder, Refusal>
    ensures { IsWord Word.Schedule (λ order. order) (drawn_order_of word.now) result }
{
    match word {
        "auto" => Ok(DrawnOrder::Auto),
        "bursts" => Ok(DrawnOrder::Bursts),
        _ => Err(Refusal::OutOfRange {
            word: Word::Schedule,
        }),
    }
}

/// The most numbers from the first on.
pub fn most_runs(first: u64) -> u64
    ensures most { result ≡ most_runs first }
    ensures within { first + result ≤ 2 ^ 64 }
{
    let after = u64::MAX - first;
    if after < MAX_SWEEP_RUNS {
        after + 1
    } else {
        MAX_SWEEP_RUNS
    }
}

/// A name, where the word isn't `none`.
pub fn unless_none(word: &str) -> Option<&str>
    ensures { option_copied result ≡ unless_none word.now }
{
    if word == "none" { None } else { Some(word) }
}

/// Whether a word as SCRIPT is no file.
pub fn is_no_file(word: &str) -> bool
    ensures { result ≡ is_no_file word.now }
{
    !matches!(source_of(word), Some(Source::Text(_)))
}

// Where the events of a run come from, none where the word is out of range.
#[tactic(auto, unfolding(crate::specs::CommandLine::source_of))]
fn source_of(word: &str) -> Option<Source<'_>>
    ensures { option_map source_value result ≡ source_of word.now }
{
    if word == "none" {
        return Some(Source::Rounds);
    }
    if let Some(number) = word.strip_prefix("auto:") {
        return auto_of(number);
    }
    match word.strip_prefix("bursts:") {
        Some(number) => bursts_of(number),
        None => Some(Source::Text(word)),
    }
}

fn auto_of(number: &str) -> Option<Source<'_>>
    ensures { option_map source_value result ≡ auto_of number.now }
{
    match number_within(number.as_bytes(), 0, u64::MAX) {
        Some(number) => Some(Source::Auto(number)),
        None => None,
    }
}

fn bursts_of(number: &str) -> Option<Source<'_>>
    ensures { option_map source_value result ≡ bursts_of number.now }
{
    match number_within(number.as_bytes(), 0, u64::MAX) {
        Some(number) => Some(Source::Bursts(number)),
        None => None,
    }
}

/// What a policy says besides its files.
#[tactic(auto, unfolding(crate::specs::CommandLine::terms_words, crate::specs::CommandLine::terms_with))]
pub fn terms_of<'a>(
    ram: &str,
    harts: &str,
    entries: &'a str,
    init: &str,
) -> Result<Terms<'a>, Refusal>
    ensures { IsRead terms_value (terms_judged ram.now harts.now entries.now init.now) result }
{
    let (least, most) = (u64::from(MIN_RAM_PAGES), u64::from(MAX_RAM_PAGES));
    let ram_pages = number_of(Word::Ram, ram, least, most)? as u32;
    let harts = number_of(Word::Harts, harts, 1, u64::from(MAX_HARTS))? as u8;
    if !are_entries(entries) {
        return Err(Refusal::OutOfRange {
            word: Word::Entries,
        });
    }
    let init = init_of(ram_pages, init)?;
    Ok(Terms {
        ram_pages,
        harts,
        entries,
        init,
    })
}

// The pages that the word names, if it isn't `none`.
#[tactic(auto, unfolding(crate::specs::CommandLine::init_of))]
fn init_of(ram_pages: u32, word: &str) -> Result<Option<Span>, Refusal>
    ensures { IsWord Word.Init (λ init. init) (init_of ram_pages word.now) result }
{
    if word == "none" {
        return Ok(None);
    }
    match span_of(ram_pages, word) {
        Some(span) => Ok(Some(span)),
        None => Err(Refusal::OutOfRange { word: Word::Init }),
    }
}
