// Why a command isn't carried out.
ghost use Rattle.std.specs.Prelude.{◌≡◌, ◌<◌, ◌-◌, IsTrue, IsErrOf, OnOk, IfOk, None, true, string_bytes};
ghost use Rattle.std.specs.Option.{ForSome};
ghost use Rattle.cli_plans.specs.declared.file_fault.FileFault.TheVariants as Fault;
ghost use Rattle.host_io.specs.Outside.{after_taking, BreaksOff, MayWrite};
ghost use Rattle.cli_plans.specs.Refusals.{is_formatted, is_formatted_fault, refusal_line, refusal_status, takes_memory, word_name};

use crate::file_fault::{FileFault, Part};
use host_io::{Sink, Trouble, write_all};
use snapshot_format::SnapRefusal;
use std::alloc::{AllocError, Global};
use sv_types::{Digest, Status};
use text_numbers::{address_text, digest_text};

/// A word by its name.
#[derive(Clone, Copy, Drop)]
pub enum Word {
    Measure,
    Script,
    Schedule,
    First,
    Count,
    Events,
    Calls,
    Ram,
    Harts,
    Entries,
    Init,
    Modules,
}

/// Why a command isn't carried out.
#[derive(Clone, Copy, Drop)]
pub enum Refusal {
    /// The words are of no command.
    NoCommand,
    /// The first word that is out of its range.
    OutOfRange { word: Word },
    /// A read failed, or the file isn't held.
    ReadFault { part: Part },
    /// A file is refused.
    File { fault: FileFault },
    /// The text measures to another digest than the one that is wanted.
    Measure { found: Digest, wanted: Digest },
    /// The machine would begin at an address that isn't permitted.
    Entry { entry: u64 },
}

impl Word {
    /// The word's name.
    pub fn name(self) -> &'static str
        ensures { result.now ≡ word_name self }
    {
        match self {
            Word::Measure => "MEASURE",
            Word::Script => "SCRIPT",
            Word::Schedule => "SCHEDULE",
            Word::First => "FIRST",
            Word::Count => "COUNT",
            Word::Events => "EVENTS",
            Word::Calls => "N",
            Word::Ram => "RAM",
            Word::Harts => "HARTS",
            Word::Entries => "ENTRIES",
            Word::Init => "INIT",
            Word::Modules => "MODULES",
        }
    }

    // The whole line, so that words are refused without memory.
    #[tactic(auto, unfolding(crate::specs::Refusals::refusal_line))]
    fn line(self) -> &'static str
        ensures { result.now ≡ refusal_line (Refusal.OutOfRange self) }
    {
        match self {
            Word::Measure => "usage MEASURE\n",
            Word::Script => "usage SCRIPT\n",
            Word::Schedule => "usage SCHEDULE\n",
            Word::First => "usage FIRST\n",
            Word::Count => "usage COUNT\n",
            Word::Events => "usage EVENTS\n",
            Word::Calls => "usage N\n",
            Word::Ram => "usage RAM\n",
            Word::Harts => "usage HARTS\n",
            Word::Entries => "usage ENTRIES\n",
            Word::Init => "usage INIT\n",
            Word::Modules => "usage MODULES\n",
        }
    }
}

impl Refusal {
    /// The status that the program ends with.
    pub fn status(&self) -> Status
        ensures { result ≡ refusal_status self.now }
    {
        match self {
            Refusal::NoCommand | Refusal::OutOfRange { word: _ } => Status::Usage,
            Refusal::ReadFault { part: _ } => Status::ReadFault,
            Refusal::File { fault: _ }
            | Refusal::Measure {
                found: _,
                wanted: _,
            }
            | Refusal::Entry { entry: _ } => Status::Refused,
        }
    }

    /// Writes the line. It asks for memory only where the line is put together, and never for words.
    pub fn write_line<O: Sink>(&self, alloc: Global, out: &mut O) -> Result<(), Trouble>
        requires sink { MayWrite (O.state out.old) }
        ensures whole { OnOk result (O.state out.new ≡ after_taking (O.state out.old) (refusal_line self.now)) }
        ensures failed { IsErrOf result Trouble.Write → BreaksOff (O.state out.old) (O.state out.new) (refusal_line self.now) }
        ensures wants { IsErrOf result Trouble.Memory → IsTrue (takes_memory self.now) }
        ensures formatted { IsErrOf result Trouble.Memory → IsTrue (is_formatted self.now) }
        ensures quiet { IsErrOf result Trouble.Memory → O.state out.new ≡ O.state out.old }
    {
        match self {
            Refusal::NoCommand => Ok(write_all(out, usage_line().as_bytes())?),
            Refusal::OutOfRange { word } => Ok(write_all(out, word.line().as_bytes())?),
            Refusal::ReadFault { part } => {
                Ok(write_all(out, read_fault_line(*part).as_bytes())?)
            }
            Refusal::File { fault } => write_file_line(alloc, *fault, out),
            Refusal::Measure { found, wanted } => {
                let line = measure_line(alloc, found, wanted)?;
                Ok(write_all(out, line.as_str().as_bytes())?)
            }
            Refusal::Entry { entry } => {
                let line = entry_line(alloc, *entry)?;
                Ok(write_all(out, line.as_str().as_bytes())?)
            }
        }
    }
}

#[tactic(auto, unfolding(crate::specs::Refusals::refusal_line))]
fn usage_line() -> &'static str
    ensures { result.now ≡ refusal_line Refusal.NoCommand }
{
    "usage\n"
}

#[tactic(auto, unfolding(crate::specs::Refusals::refusal_line))]
fn read_fault_line(part: Part) -> &'static str
    ensures { result.now ≡ refusal_line (Refusal.ReadFault part) }
{
    match part {
        Part::Flat => "read fault flat\n",
        Part::Policy => "read fault policy\n",
        Part::Image => "read fault image\n",
        Part::Disk => "read fault disk\n",
        Part::Script => "read fault script\n",
        Part::Module => "read fault module\n",
        Part::Convert => "read fault convert\n",
        Part::Snapshot => "read fault snapshot\n",
    }
}

fn write_file_line<O: Sink>(alloc: Global, fault: FileFault, out: &mut O) -> Result<(), Trouble>
    requires sink { MayWrite (O.state out.old) }
    ensures whole { OnOk result (O.state out.new ≡ after_taking (O.state out.old) (refusal_line (Refusal.File fault))) }
    ensures failed { IsErrOf result Trouble.Write → BreaksOff (O.state out.old) (O.state out.new) (refusal_line (Refusal.File fault)) }
    ensures formatted { IsErrOf result Trouble.Memory → IsTrue (is_formatted_fault fault) }
    ensures quiet { IsErrOf result Trouble.Memory → O.state out.new ≡ O.state out.old }
{
    match short_line(fault) {
        Some(line) => Ok(write_all(out, line.as_bytes())?),
        None => {
            let line = file_line(alloc, fault)?;
            Ok(write_all(out, line.as_str().as_bytes())?)
        }
    }
}

// The whole line of a file that is no snapshot.
fn short_line(fault: FileFault) -> Option<&'static str>
    ensures line { ForSome result (λ line. line.now ≡ refusal_line (Refusal.File fault)) }
    ensures none { result ≡ None → is_formatted_fault fault ≡ true }
{
    match fault {
        FileFault::Snapshot(refusal) => Some(no_snapshot_line(refusal)),
        FileFault::Longer { part: _ }
        | FileFault::FlatPages
        | FileFault::Policy(_)
        | FileFault::Image(_)
        | FileFault::Module(_)
        | FileFault::DiskSectors
        | FileFault::ScriptLine { line: _ }
        | FileFault::Convert(_)
        | FileFault::Resume(_) => None,
    }
}

#[tactic(auto, unfolding(crate::specs::Refusals::refusal_line))]
fn no_snapshot_line(refusal: SnapRefusal) -> &'static str
    ensures { result.now ≡ refusal_line (Refusal.File (Fault.Snapshot refusal)) }
{
    match refusal {
        SnapRefusal::TooLong => "refused snapshot 0\n",
        SnapRefusal::OtherLength => "refused snapshot 1\n",
        SnapRefusal::OtherBeginning => "refused snapshot 2\n",
        SnapRefusal::OutOfRange => "refused snapshot 3\n",
    }
}

#[tactic(auto, unfolding(crate::specs::Refusals::refusal_line))]
fn file_line(alloc: Global, fault: FileFault) -> Result<String, AllocError>
    ensures { IfOk result (λ t. string_bytes t ≡ refusal_line (Refusal.File fault)) }
{
    let name = fault.part().name();
    let number = fault.number();
    format!(in alloc; "refused {name} {number}\n")
}

#[tactic(auto, unfolding(crate::specs::Refusals::refusal_line))]
fn measure_line(alloc: Global, found: &Digest, wanted: &Digest) -> Result<String, AllocError>
    ensures { IfOk result (λ t. string_bytes t ≡ refusal_line (Refusal.Measure found.now wanted.now)) }
{
    let found = digest_text(alloc, found)?;
    let wanted = digest_text(alloc, wanted)?;
    format!(in alloc; "refused measure found {found} wanted {wanted}\n")
}

#[tactic(auto, unfolding(crate::specs::Refusals::refusal_line))]
fn entry_line(alloc: Global, entry: u64) -> Result<String, AllocError>
    ensures { IfOk result (λ t. string_bytes t ≡ refusal_line (Refusal.Entry entry)) }
{
    let entry = address_text(alloc, entry)?;
    format!(in alloc; "refused entry {entry}\n")
}
