// What stands after the console of a survey.
ghost use Rattle.std.specs.Prelude.{◌≡◌, ◌++◌, IfOk, IsErrOf};
ghost use Rattle.sv_types.specs.Kernel.{kernel_segments};
ghost use Rattle.spec_reference.specs.Report.{report};
ghost use Rattle.elf64_load.specs.Images.{segments_of};
ghost use Rattle.host_io.specs.Outside.{MayWrite};
ghost use Rattle.host_io.specs.declared.trouble.Trouble.TheVariants.{Memory};
ghost use Rattle.secvisor_cli.specs.Answers.{Writes as WritesAll};
ghost use Rattle.cli_survey.specs.SurveyAnswers.{lines_found, set_apart, survey_status};

use crate::ready::KernelFile;
use elf64_load::symbols::kernel_names;
use elf64_load::{KernelImage, read_kernel};
use host_io::{Sink, Trouble, write_all};
use machine::Machine;
use report::findings::{Found, survey_lines};
use report::{report, status_of};
use std::alloc::{AllocError, Global};
use sv_types::{Status, Verdict};

// The image of a kernel's file, which was read before, so that nothing but memory is left to fail.
fn image_again(alloc: Global, kernel: &KernelFile) -> Result<KernelImage<'_>, AllocError>
    ensures { IfOk result (λ image. segments_of image ≡ kernel_segments kernel.now.bytes.items) }
{
    match read_kernel(alloc, &kernel.bytes, kernel.ram_pages) {
        Ok(image) => Ok(image),
        Err(_) => Err(AllocError),
    }
}

// The lines of what was found, with the names of the kernel's addresses.
fn lines(
    alloc: Global,
    kernel: &KernelFile,
    machine: &Machine,
    found: &Found,
) -> Result<Vec<u8>, AllocError>
    ensures { IfOk result (λ lines. lines.items ≡ lines_found kernel.now.bytes.items machine.now found.now) }
{
    let image = image_again(alloc, kernel)?;
    lines_with(alloc, &kernel.bytes, &image, machine, found)
}

// The same with the image of the kernel's file.
fn lines_with(
    alloc: Global,
    file: &[u8],
    image: &KernelImage<'_>,
    machine: &Machine,
    found: &Found,
) -> Result<Vec<u8>, AllocError>
    requires { segments_of image.now ≡ kernel_segments file.now }
    ensures { IfOk result (λ lines. lines.items ≡ lines_found file.now machine.now found.now) }
{
    let names = kernel_names(alloc, file, image)?;
    let lines = survey_lines(alloc, &names, machine.policy(), found, machine.journal())?;
    set_apart(alloc, &lines)
}

// Lines are set apart from the console before them, where there are any.
fn set_apart(alloc: Global, lines: &[u8]) -> Result<Vec<u8>, AllocError>
    ensures { IfOk result (λ apart. apart.items ≡ set_apart lines.now) }
{
    let mut apart = Vec::new(alloc);
    match lines {
        [] => Ok(apart),
        [_, ..] => {
            apart.push(b'\n')?;
            apart.extend_from_slice(lines)?;
            Ok(apart)
        }
    }
}

// The machine stopped where a line says so.
fn status_with(lines: &[u8], verdict: Verdict) -> Status
    ensures { result ≡ survey_status lines.now verdict }
{
    match lines {
        [] => status_of(verdict),
        [_, ..] => Status::Stopped,
    }
}

/// Writes the rest of the console, the lines of what was found, and the report. Where memory runs out, nothing is written.
pub(crate) fn finish<O: Sink>(
    alloc: Global,
    machine: &Machine,
    found: &Found,
    kernel: &KernelFile,
    out: &mut O,
) -> Result<Status, Trouble>
    requires sink { MayWrite (O.state out.old) }
    ensures writes { WritesAll
        (survey_status (lines_found kernel.now.bytes.items machine.now found.now) machine.now.journal.verdict)
        (machine.now.journal.printed ++ (lines_found kernel.now.bytes.items machine.now found.now ++ report machine.now.journal))
        (O.state out.old) (O.state out.new) result }
    ensures quiet { IsErrOf result Memory → O.state out.new ≡ O.state out.old }
{
    let lines = lines(alloc, kernel, machine, found)?;
    let status = status_with(&lines, machine.verdict());
    let text = ending(alloc, machine, lines)?;
    write_all(out, machine.printed())?;
    write_all(out, &text)?;
    Ok(status)
}

// The report stands after the lines.
fn ending(alloc: Global, machine: &Machine, lines: Vec<u8>) -> Result<Vec<u8>, AllocError>
    ensures { IfOk result (λ text. text.items ≡ lines.items ++ report machine.now.journal) }
{
    let mut lines = lines;
    let text = report(
        alloc,
        machine.journal(),
        machine.verdict(),
        &machine.counts(),
    )?;
    lines.extend_from_slice(text.as_str().as_bytes())?;
    Ok(lines)
}
