// The files of `flat`, of `run` and of the commands that take the same.

ghost use Rattle.std.specs.Prelude.{◌<◌, ◌≤◌, IfOk, IsTrue};
ghost use Rattle.sv_types.specs.Limits.{max_harts};
ghost use Rattle.sv_types.specs.Policies.{rules_of, rules_within};

use crate::faults::{image_fault, policy_fault};
use crate::files::{Found, MostBytes, Reread, read_part, remark_at, remark_on};
use cli_plans::is_no_file;
use elf64_load::{ElfRefusal, read_kernel};
use policy::PolicyRefusal;
use policy_limits::PolicyFault;
use script::ScriptRefusal;
use spec_processor::PAGE_SIZE;
use std::alloc::Global;
use sv_types::{Policy, SECTOR_BYTES};

/// The names of a run's files.
#[derive(Clone, Copy, Drop)]
pub(crate) struct RunNames<'a> {
    pub(crate) image: &'a str,
    pub(crate) policy: &'a str,
    pub(crate) disk: &'a str,
    pub(crate) script: &'a str,
}

/// The plain pages of `flat`.
pub(crate) fn flat_file<A: Reread>(
    alloc: Global,
    files: &A,
    most: usize,
    name: &str,
) -> Result<(), Found> {
    let bytes = read_part(alloc, files, name, most)?;
    if bytes.is_empty() || bytes.len() % PAGE_SIZE != 0 {
        return Err(remark_on(alloc, name, "no whole pages of 4096 bytes"));
    }
    Ok(())
}

/// The files of a run, in the order in which they are judged.
pub(crate) fn run_files<A: Reread>(
    alloc: Global,
    files: &A,
    most: &MostBytes,
    names: &RunNames<'_>,
) -> Result<(), Found> {
    let policy = policy_file(alloc, files, most.policy, names.policy)?;
    image_file(alloc, files, most.image, names.image, policy.ram_pages)?;
    disk_file(alloc, files, most.disk, names.disk)?;
    script_file(alloc, files, most.script, names.script, policy.harts)
}

/// A kernel's file, which is read.
pub(crate) fn image_file<A: Reread>(
    alloc: Global,
    files: &A,
    most: usize,
    name: &str,
    ram_pages: u32,
) -> Result<(), Found> {
    let image = read_part(alloc, files, name, most)?;
    kernel_file(alloc, name, &image, ram_pages)
}

/// A policy's file.
pub(crate) fn policy_file<A: Reread>(
    alloc: Global,
    files: &A,
    most: usize,
    name: &str,
) -> Result<Policy, Found>
    ensures { IfOk result (λ policy. IsTrue (rules_within (rules_of policy))) }
{
    let text = read_part(alloc, files, name, most)?;
    match policy::read(alloc, &text) {
        Ok(policy) => Ok(policy),
        Err(PolicyRefusal::Fault(fault)) => Err(policy_refused(alloc, name, &text, fault)),
        Err(PolicyRefusal::Memory) => Err(Found::Nothing),
    }
}

fn policy_refused(alloc: Global, name: &str, text: &[u8], fault: PolicyFault) -> Found {
    match policy::refused_place(alloc, text) {
        Ok(place) => policy_fault_at(alloc, name, place, fault),
        Err(_) => Found::Nothing,
    }
}

// Where a text isn't TOML, its place tells why.
fn policy_fault_at(alloc: Global, name: &str, place: Option<String>, fault: PolicyFault) -> Found {
    match (fault, place) {
        (PolicyFault::NotToml, Some(place)) => remark_on(alloc, name, place.as_str()),
        (fault, place) => remark_at(alloc, name, place, policy_fault(fault)),
    }
}

/// A kernel's file.
pub(crate) fn kernel_file(
    alloc: Global,
    name: &str,
    image: &[u8],
    ram_pages: u32,
) -> Result<(), Found> {
    match read_kernel(alloc, image, ram_pages) {
        Ok(_) => Ok(()),
        Err(ElfRefusal::Fault(fault)) => Err(remark_on(alloc, name, image_fault(fault))),
        Err(ElfRefusal::Memory) => Err(Found::Nothing),
    }
}

fn disk_file<A: Reread>(alloc: Global, files: &A, most: usize, name: &str) -> Result<(), Found> {
    if name == "none" {
        return Ok(());
    }
    let disk = read_part(alloc, files, name, most)?;
    if disk.len() as u64 % SECTOR_BYTES != 0 {
        return Err(remark_on(alloc, name, "no whole sectors of 512 bytes"));
    }
    Ok(())
}

/// The file of a script, unless the word stands for none.
pub(crate) fn script_file<A: Reread>(
    alloc: Global,
    files: &A,
    most: usize,
    name: &str,
    harts: u8,
) -> Result<(), Found>
    requires some { 0 < harts }
    requires few { harts ≤ max_harts }
{
    if is_no_file(name) {
        return Ok(());
    }
    let text = read_part(alloc, files, name, most)?;
    script_in(alloc, name, &text, harts)
}

fn script_in(alloc: Global, name: &str, text: &[u8], harts: u8) -> Result<(), Found>
    requires some { 0 < harts }
    requires few { harts ≤ max_harts }
{
    match script::read(alloc, text, harts) {
        Err(ScriptRefusal::Line { line }) => Err(line_refused(alloc, name, line)),
        Ok(_) | Err(ScriptRefusal::Memory) => Ok(()),
    }
}

fn line_refused(alloc: Global, name: &str, line: u64) -> Found {
    match format!(in alloc; "line {line} is of no form") {
        Ok(what) => remark_on(alloc, name, what.as_str()),
        Err(_) => Found::Nothing,
    }
}
