// The answer to the words of `show`.
ghost use Rattle.std.specs.Prelude.{◌≡◌, ◌<◌, ◌≤◌, ◌-◌, Some, Ok, Err, None, [], ◌∷◌, false, length, map, option_map, string_bytes, true, IsTrue};
ghost use Rattle.std.specs.Option.{option_copied};
ghost use Rattle.host_io.specs.Outside.{MayWrite};
ghost use Rattle.spec_processor.specs.Counters.{CanCount};
ghost use Rattle.spec_processor.specs.Regions.{max_ram_pages};
ghost use Rattle.sv_types.specs.Kernel.{kernel_segments};
ghost use Rattle.elf64_load.specs.Images.{segments_of};
ghost use Rattle.elf64_load.specs.KernelViews.{names_view};
ghost use Rattle.elf64_load.specs.Names.{names_in};
ghost use Rattle.snapshot_format.specs.Snapshots as form;
ghost use Rattle.cli_plans.specs.Commands.{ShowSplit};
ghost use Rattle.cli_plans.specs.Plans.{max_image_bytes};
ghost use Rattle.cli_plans.specs.Refusals.{is_formatted};
ghost use Rattle.cli_plans.specs.Values.{show_split_of};
ghost use Rattle.cli_plans.specs.declared.file_fault.FileFault.TheVariants as Fault;
ghost use Rattle.cli_plans.specs.declared.refusal.Refusal.TheVariants as Why;
ghost use Rattle.cli_snap.specs.SnapshotTexts as text;
ghost use Rattle.cli_snap.specs.Showing as spec;
ghost use Rattle.cli_snap.specs.Answers.{Ends, Refuses, ShowsFiles, ShowsKernel, ShowsRead, EndsBytes, EndsUnread, Shows, Headline};
ghost use Rattle.cli_snap.specs.Answers.{Answers, MayAsk, MayAskKernel};

use crate::show::whole::snapshot_text;
use cli_plans::command_words::ShowWords;
use cli_plans::{FileFault, Part, Refusal, Unread, ask_show};
use elf64_load::symbols::{KernelNames, kernel_names};
use elf64_load::{ElfRefusal, KernelImage, read_kernel};
use host_io::{FileRefusal, Files, Sink, Trouble, status_of_end, write_all};
use secvisor_cli::MAX_IMAGE_BYTES;
use snapshot_format::reader::{MAX_SNAPSHOT_BYTES, ReadError, read};
use snapshot_format::{SnapRefusal, Snapshot};
use std::alloc::Global;
use sv_types::Status;

/// Does all that `show` does: judges the words, reads the snapshot that they name and the kernel, where one is named, and writes what
/// the snapshot says of the machine, with the names of the kernel's code, or the line that says why nothing is shown. It runs nothing
/// and saves nothing.
pub fn secvisor_show<F: Files, O: Sink>(
    alloc: Global,
    words: &[String],
    files: &mut F,
    out: &mut O,
) -> Status
    // Nothing but the snapshot may be asked for, once and up to the most bytes that one has, and then the kernel, so too.
    requires permitted { MayAsk (spec.asked_in (map string_bytes words.now)) (F.state files.old) }
    requires sink { MayWrite (O.state out.old) }
    requires reads { CanCount (F.state files.old).read_faults }

    // For every file and all words, what is written and the status are those that the definitions give to what was read.
    ensures headline { Headline (spec.asked_in (map string_bytes words.now))
        (F.state files.old) (F.state files.new) (O.state out.old) (O.state out.new) result }

    // In files that tell what they hold, they are those of what the names hold, where no read failed.
    ensures held { (asked : ShowSplit) → spec.asked_in (map string_bytes words.now) ≡ Some asked → IsTrue (F.state files.old).tells →
        (F.state files.new).read_faults ≡ (F.state files.old).read_faults →
        Answers (spec.held_shown (F.state files.old).held asked) (O.state out.old) (O.state out.new) result }

    // No file changes, nothing is saved, and the counts of faults never fall.
    ensures same { ((F.state files.new).held ≡ (F.state files.old).held) × ((F.state files.new).save_faults ≡ (F.state files.old).save_faults) }
    ensures reads { (F.state files.old).read_faults ≤ (F.state files.new).read_faults }
    ensures writes { (O.state out.old).faults ≤ (O.state out.new).faults }
{
    status_of_end(answer(alloc, words, files, out))
}

fn answer<F: Files, O: Sink>(
    alloc: Global,
    words: &[String],
    files: &mut F,
    out: &mut O,
) -> Result<Status, Trouble>
    requires permitted { MayAsk (spec.asked_in (map string_bytes words.now)) (F.state files.old) }
    requires sink { MayWrite (O.state out.old) }
    requires reads { CanCount (F.state files.old).read_faults }
    ensures { Shows (spec.asked_in (map string_bytes words.now)) (F.state files.old) (F.state files.new) (O.state out.old) (O.state out.new) result }
{
    match ask_show(alloc, words) {
        Ok(asked) => show_files(alloc, &asked, files, out),
        Err(Unread::Refused(_)) => refuse(alloc, Refusal::NoCommand, out),
        Err(Unread::Memory) => Err(Trouble::Memory),
    }
}

fn show_files<F: Files, O: Sink>(
    alloc: Global,
    asked: &ShowWords<'_>,
    files: &mut F,
    out: &mut O,
) -> Result<Status, Trouble>
    requires permitted { MayAsk (Some (show_split_of asked.now)) (F.state files.old) }
    requires sink { MayWrite (O.state out.old) }
    requires reads { CanCount (F.state files.old).read_faults }
    ensures { ShowsFiles (show_split_of asked.now) (F.state files.old) (F.state files.new) (O.state out.old) (O.state out.new) result }
{
    match files.read(alloc, asked.saved, MAX_SNAPSHOT_BYTES) {
        Ok(bytes) => show_bytes(alloc, &bytes, asked.kernel, files, out),
        Err(found) => refuse_unread(alloc, found, out),
    }
}

// The snapshot is judged before the kernel is read.
fn show_bytes<F: Files, O: Sink>(
    alloc: Global,
    bytes: &[u8],
    kernel: Option<&str>,
    files: &mut F,
    out: &mut O,
) -> Result<Status, Trouble>
    requires permitted { MayAskKernel (option_copied kernel) (F.state files.old) }
    requires sink { MayWrite (O.state out.old) }
    requires reads { CanCount (F.state files.old).read_faults }
    ensures { EndsBytes (option_copied kernel.entry) bytes.now (F.state files.old) (F.state files.new) (O.state out.old) (O.state out.new) result }
{
    match read(alloc, bytes) {
        Ok(snapshot) => show_snapshot(alloc, &snapshot, kernel, files, out),
        Err(ReadError::Refused(refusal)) => refuse(alloc, no_snapshot(refusal), out),
        Err(ReadError::Memory) => Err(Trouble::Memory),
    }
}

fn show_snapshot<F: Files, O: Sink>(
    alloc: Global,
    snapshot: &Snapshot,
    kernel: Option<&str>,
    files: &mut F,
    out: &mut O,
) -> Result<Status, Trouble>
    requires permitted { MayAskKernel (option_copied kernel) (F.state files.old) }
    requires form { form.snapshot.has (form.contents snapshot.now) ≡ true }
    requires sink { MayWrite (O.state out.old) }
    requires reads { CanCount (F.state files.old).read_faults }
    ensures { ShowsRead (form.contents snapshot.now) (option_copied kernel.entry)
        (F.state files.old) (F.state files.new) (O.state out.old) (O.state out.new) result }
{
    match kernel {
        Some(name) => show_with_kernel(alloc, snapshot, name, files, out),
        None => print(alloc, snapshot, None, out),
    }
}

fn show_with_kernel<F: Files, O: Sink>(
    alloc: Global,
    snapshot: &Snapshot,
    kernel: &str,
    files: &mut F,
    out: &mut O,
) -> Result<Status, Trouble>
    requires permitted { IsTrue ((F.state files.old).permits ((kernel.now, max_image_bytes) ∷ [])) }
    requires form { form.snapshot.has (form.contents snapshot.now) ≡ true }
    requires sink { MayWrite (O.state out.old) }
    requires reads { CanCount (F.state files.old).read_faults }
    ensures { ShowsKernel (form.contents snapshot.now) kernel.now (F.state files.old) (F.state files.new) (O.state out.old) (O.state out.new) result }
{
    match files.read(alloc, kernel, MAX_IMAGE_BYTES) {
        Ok(file) => show_with_file(alloc, snapshot, &file, out),
        Err(FileRefusal::Absent) | Err(FileRefusal::Failed) => {
            refuse_image(alloc, Refusal::ReadFault { part: Part::Image }, out)
        }
        Err(FileRefusal::TooLong) => refuse_image(
            alloc,
            Refusal::File {
                fault: FileFault::Longer { part: Part::Image },
            },
            out,
        ),
        Err(FileRefusal::Memory) => Err(Trouble::Memory),
    }
}

// The number of a snapshot's pages of RAM.
fn ram_pages(snapshot: &Snapshot) -> u32
    requires { length (form.contents snapshot.now).protection ≤ max_ram_pages }
    ensures { result ≡ length (form.contents snapshot.now).protection }
{
    snapshot.machine.protection.len() as u32
}

#[tactic(auto, unfolding(crate::specs::Showing::due_with_kernel))]
fn show_with_file<O: Sink>(
    alloc: Global,
    snapshot: &Snapshot,
    file: &[u8],
    out: &mut O,
) -> Result<Status, Trouble>
    requires form { form.snapshot.has (form.contents snapshot.now) ≡ true }
    requires sink { MayWrite (O.state out.old) }
    ensures { Ends (spec.due_with_kernel (form.contents snapshot.now) file.now) (O.state out.old) (O.state out.new) result }
{
    match read_kernel(alloc, file, ram_pages(snapshot)) {
        Ok(image) => show_with_names(alloc, snapshot, file, &image, out),
        Err(ElfRefusal::Fault(fault)) => refuse_image(
            alloc,
            Refusal::File {
                fault: FileFault::Image(fault),
            },
            out,
        ),
        Err(ElfRefusal::Memory) => Err(Trouble::Memory),
    }
}

fn show_with_names<O: Sink>(
    alloc: Global,
    snapshot: &Snapshot,
    file: &[u8],
    image: &KernelImage<'_>,
    out: &mut O,
) -> Result<Status, Trouble>
    requires image { segments_of image.now ≡ kernel_segments file.now }
    requires sink { MayWrite (O.state out.old) }
    ensures { Ends (Ok (text.snapshot_text (Some (names_in file.now (kernel_segments file.now))) (form.contents snapshot.now)))
        (O.state out.old) (O.state out.new) result }
{
    let names = kernel_names(alloc, file, image)?;
    print(alloc, snapshot, Some(names), out)
}

fn print<O: Sink>(
    alloc: Global,
    snapshot: &Snapshot,
    names: Option<KernelNames<'_>>,
    out: &mut O,
) -> Result<Status, Trouble>
    requires sink { MayWrite (O.state out.old) }
    ensures { Ends (Ok (text.snapshot_text (option_map names_view names.entry) (form.contents snapshot.now))) (O.state out.old) (O.state out.new) result }
{
    let text = snapshot_text(alloc, snapshot, names)?;
    write_all(out, &text)?;
    Ok(Status::Done)
}

fn no_snapshot(refusal: SnapRefusal) -> Refusal
    ensures { result ≡ Why.File (Fault.Snapshot refusal) }
{
    Refusal::File {
        fault: FileFault::Snapshot(refusal),
    }
}

// A snapshot that isn't read.
fn refuse_unread<O: Sink>(alloc: Global, found: FileRefusal, out: &mut O) -> Result<Status, Trouble>
    requires sink { MayWrite (O.state out.old) }
    ensures { EndsUnread found (O.state out.old) (O.state out.new) result }
{
    match found {
        FileRefusal::Absent | FileRefusal::Failed => refuse(
            alloc,
            Refusal::ReadFault {
                part: Part::Snapshot,
            },
            out,
        ),
        FileRefusal::TooLong => refuse(alloc, no_snapshot(SnapRefusal::TooLong), out),
        FileRefusal::Memory => Err(Trouble::Memory),
    }
}

// A refusal whose line takes no memory.
fn refuse<O: Sink>(alloc: Global, refusal: Refusal, out: &mut O) -> Result<Status, Trouble>
    requires sink { MayWrite (O.state out.old) }
    requires plain { is_formatted refusal ≡ false }
    ensures { Refuses refusal (O.state out.old) (O.state out.new) result }
{
    refusal.write_line(alloc, out)?;
    Ok(refusal.status())
}

// A refusal whose line may take memory.
fn refuse_image<O: Sink>(alloc: Global, refusal: Refusal, out: &mut O) -> Result<Status, Trouble>
    requires sink { MayWrite (O.state out.old) }
    ensures { Ends (Err refusal) (O.state out.old) (O.state out.new) result }
{
    refusal.write_line(alloc, out)?;
    Ok(refusal.status())
}
