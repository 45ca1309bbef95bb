// What there is to say of a run that a broken rule stopped, or in which a module was refused.

ghost use Rattle.std.specs.Prelude.{◌≡◌, ◌<◌, ◌⊎◌, true, Some};
ghost use Rattle.std.specs.Option.{ForSome};

use crate::files::{Found, MostBytes, Reread, read_part};
use crate::running::policy_file;
use cli_plans::command_words::{CommandName, Naming, named};
use elf64_load::symbols::{KernelNames, Location, kernel_names, location_text};
use elf64_load::{KernelImage, Segment, read_kernel};
use rv64_decode::decode;
use rv64_encode::text::instruction_text;
use spec_processor::page_of;
use std::alloc::Global;
use sv_types::{Note, Policy, Rule, SbiCode, Span, Verdict};
use text_numbers::address_text;

/// How a run ended: its verdict, and its first notes.
#[derive(Clone, Copy, Drop)]
pub struct Ending<'a> {
    pub verdict: Verdict,
    pub notes: &'a [Note],
}

/// A run's policy and its kernel.
#[derive(Drop)]
struct Guest<'a> {
    policy: &'a Policy,
    image: &'a KernelImage<'a>,
    names: KernelNames<'a>,
}

/// What there is to say of a run that was stopped: the instruction or the trap that broke a rule, where it stands, and what it
/// leads to, with the names of the kernel's functions; and else of the first module that was refused. None where no rule was
/// broken, or the files can't be read again.
pub fn stop_remark<A: Reread>(
    alloc: Global,
    words: &[String],
    files: &A,
    most: &MostBytes,
    ending: &Ending<'_>,
) -> Option<String> {
    let (image, policy) = guest_names(words)?;
    match remark_of_files(alloc, files, most, (image, policy), ending) {
        Ok(said) => said,
        Err(_) => None,
    }
}

// The names of the image and of its policy, where the words are of a command that boots one.
fn guest_names(words: &[String]) -> Option<(&str, &str)> {
    let Naming { command, rest } = named(words)?;
    match (command, rest) {
        (
            CommandName::Run(_) | CommandName::Survey | CommandName::Snap(_) | CommandName::Live(_),
            [image, policy, ..],
        ) => Some((image.as_str(), policy.as_str())),
        _ => None,
    }
}

fn remark_of_files<A: Reread>(
    alloc: Global,
    files: &A,
    most: &MostBytes,
    names: (&str, &str),
    ending: &Ending<'_>,
) -> Result<Option<String>, Found> {
    let (image, policy) = names;
    let policy = policy_file(alloc, files, most.policy, policy)?;
    let bytes = read_part(alloc, files, image, most.image)?;
    let Ok(image) = read_kernel(alloc, &bytes, policy.ram_pages) else {
        return Ok(None);
    };
    remark_of_kernel(alloc, &policy, &bytes, &image, ending)
}

fn remark_of_kernel(
    alloc: Global,
    policy: &Policy,
    bytes: &[u8],
    image: &KernelImage<'_>,
    ending: &Ending<'_>,
) -> Result<Option<String>, Found> {
    let names = kernel_names(alloc, bytes, image)?;
    let guest = Guest {
        policy,
        image,
        names,
    };
    remark_of_ending(alloc, &guest, ending)
}

fn remark_of_ending(
    alloc: Global,
    guest: &Guest<'_>,
    ending: &Ending<'_>,
) -> Result<Option<String>, Found> {
    match ending.verdict {
        Verdict::Stopped {
            rule: Rule::Write { pc, gpa },
            hart,
            turn,
        } => {
            let said = write_text(alloc, guest, pc, gpa)?;
            Ok(Some(format!(in alloc; "hart {hart} turn {turn}: {said}")?))
        }
        Verdict::Stopped {
            rule: Rule::Entry { target },
            hart,
            turn,
        } => {
            let said = entry_text(alloc, guest, target)?;
            let before = demotion_text(alloc, guest, hart, ending.notes)?;
            Ok(Some(format!(in alloc; "hart {hart} turn {turn}: {said}{before}")?))
        }
        Verdict::Running | Verdict::Shutdown => refused_text(alloc, guest.policy, ending.notes),
    }
}

// ---- places

// An address, with its name in front where it has one.
fn place_text(alloc: Global, name: Option<Location<'_>>, address: u64) -> Result<String, Found> {
    let address = address_text(alloc, address)?;
    let Some(location) = name else {
        return Ok(address);
    };
    let bytes = location_text(alloc, &location)?;
    match str::from_utf8(&bytes) {
        Ok(name) => Ok(format!(in alloc; "{name} ({address})")?),
        Err(_) => Ok(address),
    }
}

fn pc_text(alloc: Global, guest: &Guest<'_>, pc: u64) -> Result<String, Found> {
    place_text(alloc, guest.names.name_of_pc(pc), pc)
}

fn gpa_text(alloc: Global, guest: &Guest<'_>, gpa: u64) -> Result<String, Found> {
    place_text(alloc, guest.names.name_of_gpa(gpa), gpa)
}

// ---- a write

fn write_text(alloc: Global, guest: &Guest<'_>, pc: u64, gpa: u64) -> Result<String, Found> {
    let instruction = instruction_at(alloc, guest, pc)?;
    let by = pc_text(alloc, guest, pc)?;
    let to = gpa_text(alloc, guest, gpa)?;
    Ok(format!(in alloc; "{instruction} at {by} writes to {to}, in a protected page")?)
}

// The text of the instruction at a pc of the kernel's own text, which is there as it stands in the file.
fn instruction_at(alloc: Global, guest: &Guest<'_>, pc: u64) -> Result<String, Found> {
    match text_word(guest, pc).and_then(decode) {
        Some(instr) => Ok(instruction_text(alloc, &instr)?),
        None => Ok(String::from_str(alloc, "an instruction")?),
    }
}

fn text_word(guest: &Guest<'_>, pc: u64) -> Option<u32> {
    for segment in &guest.image.segments {
        if let Some(offset) = offset_in(segment, pc) {
            if is_lasting(guest.policy.init, segment, offset) {
                return word_at(segment, offset);
            }
        }
    }
    None
}

// How far a pc is from the start of a text segment, by its virtual address, or else by its physical one.
fn offset_in(segment: &Segment<'_>, pc: u64) -> Option<u64>
    ensures inside { ForSome result (λ offset. offset < segment.now.memory) }
    ensures text { ForSome result (λ _. segment.now.executable ≡ true) }
{
    if !segment.executable {
        return None;
    }
    let by_va = pc.wrapping_sub(segment.va);
    if by_va < segment.memory {
        return Some(by_va);
    }
    let by_gpa = pc.wrapping_sub(segment.gpa);
    if by_gpa < segment.memory {
        return Some(by_gpa);
    }
    None
}

// Init text may be another one once it is retired.
fn is_lasting(init: Option<Span>, segment: &Segment<'_>, offset: u64) -> bool {
    let Some(span) = init else {
        return true;
    };
    let page = page_of(segment.gpa.wrapping_add(offset));
    let first = u64::from(span.first);
    page < first || page - first >= u64::from(span.count)
}

fn word_at(segment: &Segment<'_>, offset: u64) -> Option<u32> {
    let bytes = segment.bytes.get(offset as usize..)?;
    let word = bytes.first_chunk::<4>()?;
    Some(u32::from_le_bytes(*word))
}

// ---- an entry

fn entry_text(alloc: Global, guest: &Guest<'_>, target: u64) -> Result<String, Found> {
    let target_name = pc_text(alloc, guest, target)?;
    match nearest_entry(&guest.policy.entries, target) {
        Some(entry) => {
            let entry = pc_text(alloc, guest, entry)?;
            Ok(format!(in alloc;
                "a trap from user mode leads to {target_name}, which is no permitted entry; the nearest is {entry}"
            )?)
        }
        None => Ok(format!(in alloc; "a trap from user mode leads to {target_name}")?),
    }
}

fn nearest_entry(entries: &[u64], target: u64) -> Option<u64> {
    let mut nearest = None;
    for entry in entries {
        nearest = Some(nearer(*entry, nearest, target));
    }
    nearest
}

fn nearer(entry: u64, other: Option<u64>, target: u64) -> u64
    ensures { (result ≡ entry) ⊎ (other ≡ Some result) }
{
    match other {
        Some(other) if other.abs_diff(target) <= entry.abs_diff(target) => other,
        _ => entry,
    }
}

// The hart's last demotion, which may have led there.
fn demotion_text(
    alloc: Global,
    guest: &Guest<'_>,
    hart: u8,
    notes: &[Note],
) -> Result<String, Found> {
    match last_demotion(hart, notes) {
        Some((turn, pc, gpa)) => {
            let by = pc_text(alloc, guest, pc)?;
            let page = gpa_text(alloc, guest, gpa)?;
            Ok(format!(in alloc;
                "; in turn {turn} it left kernel mode at {by}, since {page} isn't in an approved page"
            )?)
        }
        None => Ok(String::new(alloc)),
    }
}

fn last_demotion(hart: u8, notes: &[Note]) -> Option<(u64, u64, u64)> {
    let mut last = None;
    for note in notes {
        if let Note::Demote {
            hart: demoted,
            turn,
            pc,
            gpa,
        } = *note
        {
            if demoted == hart {
                last = Some((turn, pc, gpa));
            }
        }
    }
    last
}

// ---- a module

// The first module that was refused.
fn refused_text(alloc: Global, policy: &Policy, notes: &[Note]) -> Result<Option<String>, Found> {
    for note in notes {
        if let Note::Load {
            hart,
            turn,
            id,
            code,
        } = *note
        {
            if code != SbiCode::Success {
                let module = module_text(alloc, policy, id)?;
                let why = why_refused(code);
                return Ok(Some(format!(in alloc;
                    "hart {hart} turn {turn}: the load of {module} is refused: {why}"
                )?));
            }
        }
    }
    Ok(None)
}

fn module_text(alloc: Global, policy: &Policy, id: u64) -> Result<String, Found> {
    match policy.modules.get(id as usize) {
        Some(module) => {
            let name = module.name.text();
            Ok(format!(in alloc; "module {name:?}")?)
        }
        None => Ok(format!(in alloc; "module {id}")?),
    }
}

fn why_refused(code: SbiCode) -> &'static str {
    match code {
        SbiCode::RefusedByMeasure => {
            "its text has another measure than the policy permits, or a relocated field is wrong"
        }
        SbiCode::InvalidParameter => "the policy has no such module",
        SbiCode::InvalidAddress => "its addresses are no place for it",
        SbiCode::Already => "it is loaded already",
        SbiCode::PendingLoad => "another load is under way",
        SbiCode::Success | SbiCode::NoInput | SbiCode::NotSupported => "no reason is known",
    }
}
