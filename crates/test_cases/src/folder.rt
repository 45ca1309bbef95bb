// Files in memory, as they lie in the folder that the program is run in.
ghost use Rattle.std.specs.Prelude.{◌≡◌, ◌<◌, ◌-◌, OnOk};
ghost use Rattle.spec_processor.specs.Counters.{CanCount};

use host_io::{Files, MemFiles};
use std::io::ErrorKind;
use std::{fs, io};

/// Holds the files that words name, without the one that is to be made.
pub fn hold_named<R: std::rt::Files + AllocGlobal>(
    rt: &R,
    words: &[String],
    made: &str,
    files: &mut MemFiles,
) -> io::Result<()>
    requires { CanCount files.old.save_faults }
    ensures reads { OnOk result (files.new.read_faults ≡ files.old.read_faults) }
    ensures saves { OnOk result (files.new.save_faults ≡ files.old.save_faults) }
{
    for word in words {
        if word.as_str() != made {
            hold(rt, word, files)?;
        }
    }
    Ok(())
}

// Holds the file that a word names. A word that names none is left out.
fn hold<R: std::rt::Files + AllocGlobal>(rt: &R, word: &str, files: &mut MemFiles) -> io::Result<()>
    requires { CanCount files.old.save_faults }
    ensures reads { OnOk result (files.new.read_faults ≡ files.old.read_faults) }
    ensures saves { OnOk result (files.new.save_faults ≡ files.old.save_faults) }
{
    match fs::read(rt, word) {
        Ok(bytes) => save(word, &bytes, files),
        Err(error) => {
            if error.kind() == ErrorKind::NotFound {
                Ok(())
            } else {
                Err(error)
            }
        }
    }
}

// Puts bytes under a name, or says that there is no room for them.
fn save(name: &str, bytes: &[u8], files: &mut MemFiles) -> io::Result<()>
    requires { CanCount files.old.save_faults }
    ensures reads { OnOk result (files.new.read_faults ≡ files.old.read_faults) }
    ensures saves { OnOk result (files.new.save_faults ≡ files.old.save_faults) }
{
    match files.save(name, bytes) {
        Ok(()) => Ok(()),
        Err(_) => Err(io::Error::from(ErrorKind::StorageFull)),
    }
}
