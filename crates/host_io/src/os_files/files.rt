// Files by name.
ghost use Rattle.std.specs.Prelude.{◌≡◌};
ghost use Rattle.host_io.specs.Held.{real_state};

use crate::os_files::escaped::Escaped;
use crate::os_files::saving::{save_whole, try_place};
use crate::{FileRefusal, Files, SaveFailed};
use std::alloc::Global;
use std::fs::File;
use std::io;
use std::io::{ErrorKind, Read};

/// The files of the operating system. A file that is missing is a fault; of one that is too long, or never ends, one byte
/// more than the limit is read. Standard error says of a fault the system's error.
#[derive(Drop)]
pub struct RealFiles<R: std::rt::Files + AllocGlobal + Eprint + Drop> {
    rt: R,
    remarks: bool,
    read_faults: u64,
    save_faults: u64,
}

impl<R: std::rt::Files + AllocGlobal + Eprint + Drop> RealFiles<R> {
    /// No call has failed yet. With `cli_diagnostics` standard error also says which file is read or saved.
    pub fn new(rt: R, remarks: bool) -> RealFiles<R>
        ensures faults { real_state result.read_faults result.save_faults ≡ real_state 0 0 }
        ensures remarks { result.remarks ≡ remarks }
    {
        RealFiles {
            rt,
            remarks,
            read_faults: 0,
            save_faults: 0,
        }
    }

    // A failure changes nothing.
    fn remark(&self, work: &str, name: &str) {
        if self.remarks {
            let name = Escaped { text: name };
            let _written = eprintln!(self.rt; "secvisor: {work} {name}");
        }
    }

    fn remark_fault(&self, name: &str, error: &io::Error) {
        let name = Escaped { text: name };
        let _written = eprintln!(self.rt; "secvisor: {name}: {error}");
    }
}

impl<R: std::rt::Files + AllocGlobal + Eprint + Drop> Files for RealFiles<R> {
    ghost state = { λ f. real_state f.read_faults f.save_faults };

    fn read(&mut self, alloc: Global, name: &str, limit: usize) -> Result<Vec<u8>, FileRefusal> {
        self.remark("reads", name);
        match first_bytes(&self.rt, alloc, name, limit) {
            Ok(bytes) => {
                if bytes.len() > limit {
                    Err(FileRefusal::TooLong)
                } else {
                    Ok(bytes)
                }
            }
            Err(error) => {
                if error.kind() == ErrorKind::OutOfMemory {
                    Err(FileRefusal::Memory)
                } else {
                    self.remark_fault(name, &error);
                    self.read_faults += 1;
                    Err(FileRefusal::Failed)
                }
            }
        }
    }

    // A plain file holds all of the bytes after it, or what it held.
    fn save(&mut self, name: &str, bytes: &[u8]) -> Result<(), SaveFailed> {
        self.remark("saves", name);
        match save_whole(&self.rt, name, bytes) {
            Ok(()) => Ok(()),
            Err(error) => {
                self.remark_fault(name, &error);
                self.save_faults += 1;
                Err(SaveFailed)
            }
        }
    }

    fn try_save(&mut self, name: &str) -> Result<(), SaveFailed> {
        match try_place(&self.rt, name) {
            Ok(()) => Ok(()),
            Err(error) => {
                self.remark_fault(name, &error);
                self.save_faults += 1;
                Err(SaveFailed)
            }
        }
    }
}

// The first bytes of a file, at most one more than the limit.
fn first_bytes<R: std::rt::Files>(
    rt: &R,
    alloc: Global,
    name: &str,
    limit: usize,
) -> io::Result<Vec<u8>> {
    let mut bytes = Vec::new(alloc);
    let most = (limit as u64).saturating_add(1);
    File::open(rt, name)?.take(most).read_to_end(&mut bytes)?;
    Ok(bytes)
}
