// The words of a command.

use crate::converting::{ConvertNames, convert_files};
use crate::files::{Found, MostBytes, Reread};
use crate::making::{MakingNames, making_files};
use crate::resuming::{ResumeNames, resume_files, snapshot_file};
use crate::running::{RunNames, flat_file, image_file, run_files};
use cli_plans::command_words::{CommandName, Naming, named};
use std::alloc::Global;
use std::thread::Threads;

/// What there is to say of the file that is refused of a command with these words, beyond the line that refuses it: its
/// name, where in it, and the fault. None where no file is refused, or one can't be read again.
pub fn remark<R: Threads + Sync, A: Reread>(
    rt: &R,
    alloc: Global,
    words: &[String],
    files: &A,
    most: &MostBytes,
) -> Option<String> {
    match judge_command(rt, alloc, words, files, most) {
        Err(Found::Remark(text)) => Some(text),
        Ok(()) | Err(Found::Nothing) => None,
    }
}

fn judge_command<R: Threads + Sync, A: Reread>(
    rt: &R,
    alloc: Global,
    words: &[String],
    files: &A,
    most: &MostBytes,
) -> Result<(), Found> {
    let Some(Naming { command, rest }) = named(words) else {
        return Ok(());
    };
    match command {
        CommandName::Flat => flat_words(alloc, rest, files, most),
        CommandName::Run(_) | CommandName::Snap(_) | CommandName::Shrink => {
            run_words(alloc, rest, files, most)
        }
        CommandName::Sweep => sweep_words(alloc, rest, files, most),
        CommandName::Survey | CommandName::Debug => survey_words(alloc, rest, files, most),
        CommandName::Live(_) => live_words(alloc, rest, files, most),
        CommandName::Measure => measure_words(alloc, rest, files, most),
        CommandName::Convert => convert_words(rt, alloc, rest, files, most),
        CommandName::Resume => resume_words(rt, alloc, rest, files, most),
        CommandName::Show => show_words(alloc, rest, files, most),
        CommandName::Generated => Ok(()),
    }
}

fn flat_words<A: Reread>(
    alloc: Global,
    words: &[String],
    files: &A,
    most: &MostBytes,
) -> Result<(), Found> {
    match words {
        [file, _, _] => flat_file(alloc, files, most.flat, file.as_str()),
        _ => Ok(()),
    }
}

fn run_words<A: Reread>(
    alloc: Global,
    words: &[String],
    files: &A,
    most: &MostBytes,
) -> Result<(), Found> {
    match words {
        [image, policy, disk, script, _, _] => {
            let names = RunNames {
                image: image.as_str(),
                policy: policy.as_str(),
                disk: disk.as_str(),
                script: script.as_str(),
            };
            run_files(alloc, files, most, &names)
        }
        _ => Ok(()),
    }
}

fn sweep_words<A: Reread>(
    alloc: Global,
    words: &[String],
    files: &A,
    most: &MostBytes,
) -> Result<(), Found> {
    match words {
        [image, policy, disk, _, _, _, _] => {
            let names = RunNames {
                image: image.as_str(),
                policy: policy.as_str(),
                disk: disk.as_str(),
                script: "none",
            };
            run_files(alloc, files, most, &names)
        }
        _ => Ok(()),
    }
}

fn survey_words<A: Reread>(
    alloc: Global,
    words: &[String],
    files: &A,
    most: &MostBytes,
) -> Result<(), Found> {
    match words {
        [image, policy, disk, script, _] => {
            let names = RunNames {
                image: image.as_str(),
                policy: policy.as_str(),
                disk: disk.as_str(),
                script: script.as_str(),
            };
            run_files(alloc, files, most, &names)
        }
        _ => Ok(()),
    }
}

fn live_words<A: Reread>(
    alloc: Global,
    words: &[String],
    files: &A,
    most: &MostBytes,
) -> Result<(), Found> {
    match words {
        [image, policy, disk, _, _] => {
            let names = RunNames {
                image: image.as_str(),
                policy: policy.as_str(),
                disk: disk.as_str(),
                script: "none",
            };
            run_files(alloc, files, most, &names)
        }
        _ => Ok(()),
    }
}

fn measure_words<A: Reread>(
    alloc: Global,
    words: &[String],
    files: &A,
    most: &MostBytes,
) -> Result<(), Found> {
    match words {
        [out, kernel, ram, _, _, _, modules @ ..] => {
            let names = MakingNames {
                out: out.as_str(),
                kernel: kernel.as_str(),
                ram: ram.as_str(),
                modules,
            };
            making_files(alloc, files, most, &names)
        }
        _ => Ok(()),
    }
}

fn convert_words<R: Threads + Sync, A: Reread>(
    rt: &R,
    alloc: Global,
    words: &[String],
    files: &A,
    most: &MostBytes,
) -> Result<(), Found> {
    match words {
        [kernel, given, _] => {
            let names = ConvertNames {
                kernel: kernel.as_str(),
                given: given.as_str(),
            };
            convert_files(rt, alloc, files, most, &names)
        }
        _ => Ok(()),
    }
}

fn resume_words<R: Threads + Sync, A: Reread>(
    rt: &R,
    alloc: Global,
    words: &[String],
    files: &A,
    most: &MostBytes,
) -> Result<(), Found> {
    match words {
        [saved, policy, script, _, _] => {
            let names = ResumeNames {
                saved: saved.as_str(),
                policy: policy.as_str(),
                script: script.as_str(),
            };
            resume_files(rt, alloc, files, most, &names)
        }
        _ => Ok(()),
    }
}

fn show_words<A: Reread>(
    alloc: Global,
    words: &[String],
    files: &A,
    most: &MostBytes,
) -> Result<(), Found> {
    match words {
        [saved] => {
            let _good = snapshot_file(alloc, files, most.snapshot, saved.as_str())?;
            Ok(())
        }
        [saved, kernel] => {
            let snapshot = snapshot_file(alloc, files, most.snapshot, saved.as_str())?;
            match u32::try_from(snapshot.machine.protection.len()) {
                Ok(pages) => image_file(alloc, files, most.image, kernel.as_str(), pages),
                Err(_) => Ok(()),
            }
        }
        _ => Ok(()),
    }
}
