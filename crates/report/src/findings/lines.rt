// The lines of a survey's findings.

ghost use Rattle.std.specs.Prelude.{◌≡◌, ◌++◌, IfOk, OnOk, option_map, slice_get, string_bytes};
ghost use Rattle.sv_types.specs.Policies.{rules_of};
ghost use Rattle.elf64_load.specs.KernelViews.{names_view};
ghost use Rattle.elf64_load.specs.SymbolsViews.{location_view};
ghost use Rattle.report.specs.Lines as spec;
ghost use Rattle.report.specs.Views.{loads_view, notes_view, writes_view};

use crate::findings::findings::Finding;
use crate::findings::found::Found;
use crate::findings::loads::{Loads, RefusedLoad};
use crate::findings::noted::NotesFound;
use elf64_load::symbols::{KernelNames, Location, location_text, push_name};
use page_measure::fields::WrongField;
use std::alloc::{AllocError, Global};
use sv_types::{Note, Policy};
use text_numbers::address_text;

// The name of an address, or a dash.
#[tactic(auto, unfolding(crate::specs::Lines::name_text))]
fn name_text(alloc: Global, name: Option<Location>) -> Result<Vec<u8>, AllocError>
    ensures { IfOk result (λ t. t.items ≡ spec.name_text (option_map location_view name.entry)) }
{
    match name {
        Some(location) => location_text(alloc, &location),
        None => {
            let mut text = Vec::new(alloc);
            text.extend_from_slice(b"-")?;
            Ok(text)
        }
    }
}

// Who wrote, how often, and when first.
#[tactic(auto, unfolding(crate::specs::Lines::write_head))]
fn write_head(alloc: Global, finding: &Finding) -> Result<String, AllocError>
    ensures { IfOk result (λ t. string_bytes t ≡ spec.write_head finding.now) }
{
    let pc = address_text(alloc, finding.key)?;
    let times = finding.times;
    let hart = finding.hart;
    let turn = finding.turn;
    format!(in alloc; "write pc {pc} times {times} hart {hart} turn {turn}")
}

// And where.
#[tactic(auto, unfolding(crate::specs::Lines::write_range))]
fn write_range(alloc: Global, finding: &Finding) -> Result<String, AllocError>
    ensures { IfOk result (λ t. string_bytes t ≡ spec.write_range finding.now) }
{
    let low = address_text(alloc, finding.low)?;
    let high = address_text(alloc, finding.high)?;
    format!(in alloc; " gpa {low} to {high} by ")
}

// The parts of a line, one after another.
fn joined_line(
    alloc: Global,
    head: &[u8],
    range: &[u8],
    by: &[u8],
    at: &[u8],
) -> Result<Vec<u8>, AllocError>
    ensures { IfOk result (λ t. t.items ≡ spec.joined_line head.now range.now by.now at.now) }
{
    let mut line = head.to_vec(alloc)?;
    line.extend_from_slice(range)?;
    line.extend_from_slice(by)?;
    line.extend_from_slice(b" at ")?;
    line.extend_from_slice(at)?;
    line.extend_from_slice(b"\n")?;
    Ok(line)
}

#[tactic(auto, unfolding(crate::specs::Lines::write_line))]
fn write_line(alloc: Global, names: &KernelNames, finding: &Finding) -> Result<Vec<u8>, AllocError>
    ensures { IfOk result (λ t. t.items ≡ spec.write_line (names_view names.now) finding.now) }
{
    let head = write_head(alloc, finding)?;
    let range = write_range(alloc, finding)?;
    let by = name_text(alloc, names.name_of_pc(finding.key))?;
    let at = name_text(alloc, names.name_of_gpa(finding.low))?;
    joined_line(
        alloc,
        head.as_str().as_bytes(),
        range.as_str().as_bytes(),
        &by,
        &at,
    )
}

// The lines of the writes that were passed over.
#[tactic(auto, unfolding(crate::specs::Lines::write_lines))]
fn push_write_lines(
    alloc: Global,
    text: &mut Vec<u8>,
    names: &KernelNames,
    findings: &[Finding],
) -> Result<(), AllocError>
    ensures { OnOk result (text.new.items ≡ text.old.items ++ spec.write_lines (names_view names.now) findings.now) }
{
    'findings: for finding in findings {
        let line = write_line(alloc, names, finding)?;
        text.extend_from_slice(&line)?;
    }
    Ok(())
}

// How many writes there were, where there were any.
#[tactic(auto, unfolding(crate::specs::Lines::total_line))]
fn total_line(alloc: Global, total: u64) -> Result<String, AllocError>
    ensures { IfOk result (λ t. string_bytes t ≡ spec.total_line total) }
{
    if total == 0 {
        return Ok(String::new(alloc));
    }
    format!(in alloc; "writes {total}\n")
}

// Where kernel mode was left, and how often.
#[tactic(auto, unfolding(crate::specs::Lines::fetch_head))]
fn fetch_head(alloc: Global, finding: &Finding) -> Result<String, AllocError>
    ensures { IfOk result (λ t. string_bytes t ≡ spec.fetch_head finding.now) }
{
    let page = address_text(alloc, finding.key)?;
    let times = finding.times;
    let hart = finding.hart;
    format!(in alloc; "fetch gpa {page} times {times} hart {hart}")
}

// And when first.
#[tactic(auto, unfolding(crate::specs::Lines::fetch_first))]
fn fetch_first(alloc: Global, finding: &Finding) -> Result<String, AllocError>
    ensures { IfOk result (λ t. string_bytes t ≡ spec.fetch_first finding.now) }
{
    let turn = finding.turn;
    let pc = address_text(alloc, finding.first)?;
    format!(in alloc; " turn {turn} pc {pc} by ")
}

fn joined_fetch(alloc: Global, head: &[u8], first: &[u8], by: &[u8]) -> Result<Vec<u8>, AllocError>
    ensures { IfOk result (λ t. t.items ≡ spec.joined_fetch head.now first.now by.now) }
{
    let mut line = head.to_vec(alloc)?;
    line.extend_from_slice(first)?;
    line.extend_from_slice(by)?;
    line.extend_from_slice(b"\n")?;
    Ok(line)
}

#[tactic(auto, unfolding(crate::specs::Lines::fetch_line))]
fn fetch_line(alloc: Global, names: &KernelNames, finding: &Finding) -> Result<Vec<u8>, AllocError>
    ensures { IfOk result (λ t. t.items ≡ spec.fetch_line (names_view names.now) finding.now) }
{
    let head = fetch_head(alloc, finding)?;
    let first = fetch_first(alloc, finding)?;
    let by = name_text(alloc, names.name_of_pc(finding.first))?;
    joined_fetch(
        alloc,
        head.as_str().as_bytes(),
        first.as_str().as_bytes(),
        &by,
    )
}

// The lines of the pages at which kernel mode was left.
#[tactic(auto, unfolding(crate::specs::Lines::fetch_lines))]
fn push_fetch_lines(
    alloc: Global,
    text: &mut Vec<u8>,
    names: &KernelNames,
    findings: &[Finding],
) -> Result<(), AllocError>
    ensures { OnOk result (text.new.items ≡ text.old.items ++ spec.fetch_lines (names_view names.now) findings.now) }
{
    'findings: for finding in findings {
        let line = fetch_line(alloc, names, finding)?;
        text.extend_from_slice(&line)?;
    }
    Ok(())
}

// The name of a module of the policy.
#[tactic(auto, unfolding(crate::specs::Lines::module_text))]
fn module_text(alloc: Global, policy: &Policy, id: u64) -> Result<Vec<u8>, AllocError>
    ensures { IfOk result (λ t. t.items ≡ spec.module_text (slice_get (rules_of policy.now).modules id)) }
{
    let mut text = Vec::new(alloc);
    match policy.modules.get(id as usize) {
        Some(module) => push_name(&mut text, module.name.text().as_bytes())?,
        None => text.extend_from_slice(b"-")?,
    }
    Ok(text)
}

// What was found of its text.
#[tactic(auto, unfolding(crate::specs::Lines::fault_text))]
fn fault_text(alloc: Global, wrong: Option<WrongField>) -> Result<String, AllocError>
    ensures { IfOk result (λ t. string_bytes t ≡ spec.fault_text wrong) }
{
    match wrong {
        None => format!(in alloc; " measure"),
        Some(field) => {
            let offset = address_text(alloc, field.offset as u64)?;
            let holds = address_text(alloc, field.holds)?;
            let due = address_text(alloc, field.due)?;
            format!(in alloc; " field {offset} holds {holds} due {due}")
        }
    }
}

// In which hart, and when.
#[tactic(auto, unfolding(crate::specs::Lines::load_end))]
fn load_end(alloc: Global, load: &RefusedLoad) -> Result<String, AllocError>
    ensures { IfOk result (λ t. string_bytes t ≡ spec.load_end load.now) }
{
    let hart = load.hart;
    let turn = load.turn;
    format!(in alloc; " hart {hart} turn {turn}\n")
}

fn joined_load(alloc: Global, name: &[u8], fault: &[u8], rest: &[u8]) -> Result<Vec<u8>, AllocError>
    ensures { IfOk result (λ t. t.items ≡ spec.joined_load name.now fault.now rest.now) }
{
    let mut line = b"load ".to_vec(alloc)?;
    line.extend_from_slice(name)?;
    line.extend_from_slice(fault)?;
    line.extend_from_slice(rest)?;
    Ok(line)
}

#[tactic(auto, unfolding(crate::specs::Lines::load_line))]
fn load_line(alloc: Global, policy: &Policy, load: &RefusedLoad) -> Result<Vec<u8>, AllocError>
    ensures { IfOk result (λ t. t.items ≡ spec.load_line (rules_of policy.now).modules load.now) }
{
    let name = module_text(alloc, policy, load.id)?;
    let fault = fault_text(alloc, load.wrong)?;
    let rest = load_end(alloc, load)?;
    joined_load(
        alloc,
        &name,
        fault.as_str().as_bytes(),
        rest.as_str().as_bytes(),
    )
}

// The lines of the loads that were refused.
#[tactic(auto, unfolding(crate::specs::Lines::load_lines))]
fn push_load_lines(
    alloc: Global,
    text: &mut Vec<u8>,
    policy: &Policy,
    loads: &[RefusedLoad],
) -> Result<(), AllocError>
    ensures { OnOk result (text.new.items ≡ text.old.items ++ spec.load_lines (rules_of policy.now).modules loads.now) }
{
    'loads: for load in loads {
        let line = load_line(alloc, policy, load)?;
        text.extend_from_slice(&line)?;
    }
    Ok(())
}

// How many loads were refused, where any were.
#[tactic(auto, unfolding(crate::specs::Lines::loads_line))]
fn loads_line(alloc: Global, total: u64) -> Result<String, AllocError>
    ensures { IfOk result (λ t. string_bytes t ≡ spec.loads_line total) }
{
    if total == 0 {
        return Ok(String::new(alloc));
    }
    format!(in alloc; "loads {total}\n")
}

// All that is said of refused loads.
#[tactic(auto, unfolding(crate::specs::Lines::all_loads))]
fn push_all_loads(
    alloc: Global,
    text: &mut Vec<u8>,
    policy: &Policy,
    loads: &Loads,
) -> Result<(), AllocError>
    ensures { OnOk result (text.new.items ≡ text.old.items ++ spec.all_loads (rules_of policy.now).modules (loads_view loads.now)) }
{
    push_load_lines(alloc, text, policy, &loads.kept)?;
    let total = loads_line(alloc, loads.total)?;
    text.extend_from_slice(total.as_str().as_bytes())
}

#[tactic(auto, unfolding(crate::specs::Lines::denied_line))]
fn denied_line(alloc: Global, finding: &Finding) -> Result<String, AllocError>
    ensures { IfOk result (λ t. string_bytes t ≡ spec.denied_line finding.now) }
{
    let page = address_text(alloc, finding.key)?;
    let times = finding.times;
    format!(in alloc; "denied gpa {page} times {times}\n")
}

// The lines of the pages that devices were kept from.
#[tactic(auto, unfolding(crate::specs::Lines::denied_lines))]
fn push_denied_lines(
    alloc: Global,
    text: &mut Vec<u8>,
    findings: &[Finding],
) -> Result<(), AllocError>
    ensures { OnOk result (text.new.items ≡ text.old.items ++ spec.denied_lines findings.now) }
{
    'findings: for finding in findings {
        let line = denied_line(alloc, finding)?;
        text.extend_from_slice(line.as_str().as_bytes())?;
    }
    Ok(())
}

// All lines, where what was found by notes is known.
#[tactic(auto, unfolding(crate::specs::Lines::found_lines))]
fn found_lines(
    alloc: Global,
    names: &KernelNames,
    policy: &Policy,
    found: &Found,
    noted: &NotesFound,
) -> Result<Vec<u8>, AllocError>
    ensures { IfOk result (λ t. t.items ≡
        spec.found_lines (names_view names.now) (rules_of policy.now).modules (writes_view found.now.writes) (loads_view found.now.loads) noted.now) }
{
    let mut text = Vec::new(alloc);
    push_write_lines(alloc, &mut text, names, &found.writes.findings)?;
    let total = total_line(alloc, found.writes.total)?;
    text.extend_from_slice(total.as_str().as_bytes())?;
    push_fetch_lines(alloc, &mut text, names, noted.demotions())?;
    push_all_loads(alloc, &mut text, policy, &found.loads)?;
    push_denied_lines(alloc, &mut text, noted.denied())?;
    Ok(text)
}

/// The lines of a survey's findings. First those of the writes that it passed over, in the order of their first turns: of each pc how
/// often it wrote, the first hart and turn, the lowest and highest address, and the names of the pc and of the lowest address, or a
/// dash, and then how many writes there were in all, where there were any. Then by the notes those of the pages at which kernel mode
/// was left, with the first hart, turn and pc; those of the loads that were refused for their text, with the module's name and what
/// was found, and how many they were; and by the notes those of the pages that devices were kept from. The notes are these, or all
/// those by which findings were kept. Fails where memory runs out.
pub fn survey_lines(
    alloc: Global,
    names: &KernelNames,
    policy: &Policy,
    found: &Found,
    notes: &[Note],
) -> Result<Vec<u8>, AllocError>
    ensures { IfOk result (λ t. t.items ≡ spec.found_lines (names_view names.now) (rules_of policy.now).modules
        (writes_view found.now.writes) (loads_view found.now.loads) (notes_view found.now.noted notes.now)) }
{
    match &found.noted {
        Some(noted) => found_lines(alloc, names, policy, found, noted),
        None => {
            let noted = NotesFound::of(alloc, notes)?;
            found_lines(alloc, names, policy, found, &noted)
        }
    }
}
