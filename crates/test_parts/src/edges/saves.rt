// Files and saves under names of the operating system: whole, or nothing is lost.

use host_io::os_files::RealFiles;
use host_io::{FileRefusal, Files};
use std::alloc::{AllocError, Allocator, Global};
use std::fs::{Metadata, OpenOptions, Permissions};
use std::io::{ErrorKind, PipeReader, PipeWriter, Write};
use std::os::fd::BorrowedFd;
use std::os::unix::fs::{PermissionsExt, symlink};
use std::os::unix::net::SocketAddr;
use std::path::PathBuf;
use std::{fs, io};

// ---- files some of whose calls fail

// Which calls fail: a disk takes a part of a new file, a folder takes no new file, or no file is replaced by another.
#[derive(Clone, Copy, Drop)]
enum Fault {
    Full,
    Closed,
    Fixed,
    None,
}

#[derive(Drop)]
struct FaultyFiles<H: std::rt::Files + AllocGlobal + Eprint + Drop> {
    host: H,
    fault: Fault,
}

// A new file that has a few bytes and takes no more, since it is open to be read alone.
fn full_file<H: std::rt::Files>(host: &H, how: &OpenOptions, path: &str) -> io::Result<H::File> {
    let mut file = host.open_file(how, path)?;
    file.write_all(b"a part")?;
    fs::File::open(host, path)
}

impl<H: std::rt::Files + AllocGlobal + Eprint + Drop> std::rt::Files for FaultyFiles<H> {
    type File = H::File;

    type Dir = H::Dir;

    fn open_file(&self, how: &OpenOptions, path: &str) -> io::Result<H::File> {
        match (how.asks_create_new(), self.fault) {
            (true, Fault::Closed) => Err(io::Error::from(ErrorKind::PermissionDenied)),
            (true, Fault::Full) => full_file(&self.host, how, path),
            _ => self.host.open_file(how, path),
        }
    }

    fn open_dir(&self, path: &str) -> io::Result<H::Dir> {
        self.host.open_dir(path)
    }

    fn metadata(&self, path: &str) -> io::Result<Metadata> {
        self.host.metadata(path)
    }

    fn symlink_metadata(&self, path: &str) -> io::Result<Metadata> {
        self.host.symlink_metadata(path)
    }

    fn copy(&self, from: &str, to: &str) -> io::Result<u64> {
        self.host.copy(from, to)
    }

    fn rename(&self, from: &str, to: &str) -> io::Result<()> {
        match self.fault {
            Fault::Fixed => Err(io::Error::from(ErrorKind::InvalidInput)),
            _ => self.host.rename(from, to),
        }
    }

    fn remove_file(&self, path: &str) -> io::Result<()> {
        self.host.remove_file(path)
    }

    fn create_dir(&self, path: &str) -> io::Result<()> {
        self.host.create_dir(path)
    }

    fn remove_dir(&self, path: &str) -> io::Result<()> {
        self.host.remove_dir(path)
    }

    fn remove_dir_all<B: Allocator>(&self, alloc: B, path: &str) -> io::Result<()> {
        self.host.remove_dir_all(alloc, path)
    }

    // No save calls those that follow. They have bodies of their own since those of the trait take longer to prove.
    fn canonicalize<B: Allocator>(&self, alloc: B, path: &str) -> io::Result<PathBuf<B>> {
        self.host.canonicalize(alloc, path)
    }

    fn read_link<B: Allocator>(&self, alloc: B, path: &str) -> io::Result<PathBuf<B>> {
        self.host.read_link(alloc, path)
    }

    fn hard_link(&self, original: &str, link: &str) -> io::Result<()> {
        self.host.hard_link(original, link)
    }

    fn set_permissions(&self, path: &str, perm: Permissions) -> io::Result<()> {
        self.host.set_permissions(path, perm)
    }

    fn symlink(&self, original: &str, link: &str) -> io::Result<()> {
        self.host.symlink(original, link)
    }

    fn pipe(&self) -> io::Result<(PipeReader, PipeWriter)> {
        self.host.pipe()
    }

    fn chown(&self, path: &str, uid: Option<u32>, gid: Option<u32>) -> io::Result<()> {
        self.host.chown(path, uid, gid)
    }

    fn lchown(&self, path: &str, uid: Option<u32>, gid: Option<u32>) -> io::Result<()> {
        self.host.lchown(path, uid, gid)
    }

    fn create_dir_with_mode(&self, path: &str, mode: u32) -> io::Result<()> {
        self.host.create_dir_with_mode(path, mode)
    }

    fn bind_unix(&self, socket: BorrowedFd<'_>, addr: &SocketAddr) -> io::Result<()> {
        self.host.bind_unix(socket, addr)
    }
}

impl<H: std::rt::Files + AllocGlobal + Eprint + Drop> Alloc for FaultyFiles<H> {
    type A = Global;

    fn alloc(&self) -> Global {
        self.host.alloc()
    }
}

impl<H: std::rt::Files + AllocGlobal + Eprint + Drop> Eprint for FaultyFiles<H> {
    fn eprint<D: std::fmt::Display + Drop>(&self, value: D) -> io::Result<()> {
        self.host.eprint(value)
    }

    fn eprintln<D: std::fmt::Display + Drop>(&self, value: D) -> io::Result<()> {
        self.host.eprintln(value)
    }
}

// ---- what is done and found under names

// What is done with a text under a name, or found there.
#[derive(Clone, Copy, Drop)]
enum Step {
    // By the program's calls, with a fault.
    Saves(Fault),
    CanSave(Fault),
    // The text 2,000 times over is saved, and read again.
    SavesMany,
    // The text is read, or more than its length isn't.
    Reads,
    IsRefused(FileRefusal),
    // By others: a text is written, a folder or a link to the text is made, and mode bits are set.
    IsWritten,
    IsFolder,
    LeadsTo,
    TakesMode,
    // Found: this text, nothing, a link, something that is no plain file, and the mode bits that were set.
    Holds,
    IsAbsent,
    IsLink,
    IsSpecial,
    KeepsMode,
}

const MODE: u32 = 0o640;

const SAVES: Step = Step::Saves(Fault::None);

const CAN_SAVE: Step = Step::CanSave(Fault::None);

// 30 bytes, and 5.
const LONG: &str = "A text that is a bit longer...";

const SHORT: &str = "short";

// A name, what is done there or found with a text, and whether it is so.
type Row = (&'static str, Step, &'static str, bool);

static ROWS: [Row; 60] = [
    // What is saved is read, up to a limit.
    ("read", SAVES, SHORT, true),
    ("read", Step::Reads, SHORT, true),
    ("read", Step::IsRefused(FileRefusal::TooLong), "four", true),
    (
        "no_such_file",
        Step::IsRefused(FileRefusal::Failed),
        SHORT,
        true,
    ),
    ("no_such_folder/file", SAVES, SHORT, false),
    // A shorter save leaves nothing of one of 10,000 bytes, and no new file.
    ("shorter", Step::SavesMany, SHORT, true),
    ("shorter", SAVES, SHORT, true),
    ("shorter", Step::Holds, SHORT, true),
    ("shorter.new0", Step::IsAbsent, "", true),
    // A save that fails leaves the old file, and no new one.
    ("kept", SAVES, SHORT, true),
    ("kept", Step::Saves(Fault::Full), LONG, false),
    ("kept", Step::Holds, SHORT, true),
    ("kept.new0", Step::IsAbsent, "", true),
    ("kept", Step::Saves(Fault::Fixed), LONG, false),
    ("kept", Step::Holds, SHORT, true),
    ("kept.new0", Step::IsAbsent, "", true),
    ("not_made", Step::Saves(Fault::Full), LONG, false),
    ("not_made", Step::IsAbsent, "", true),
    // A folder that takes no file keeps its names.
    ("closed", SAVES, LONG, true),
    ("closed", Step::Saves(Fault::Closed), SHORT, true),
    ("closed", Step::Holds, SHORT, true),
    // A try changes nothing.
    ("tried", SAVES, SHORT, true),
    ("tried", CAN_SAVE, "", true),
    ("tried", Step::Holds, SHORT, true),
    ("tried.new0", Step::IsAbsent, "", true),
    ("untried", CAN_SAVE, "", true),
    ("untried", Step::IsAbsent, "", true),
    ("untried.new0", Step::IsAbsent, "", true),
    ("/dev/full", CAN_SAVE, "", true),
    ("tried_folder", Step::IsFolder, "", true),
    ("tried_folder", CAN_SAVE, "", false),
    ("no_such_folder/file", CAN_SAVE, "", false),
    ("loose", Step::LeadsTo, "nothing", true),
    ("loose", CAN_SAVE, "", true),
    ("nothing", Step::IsAbsent, "", true),
    ("firm", Step::LeadsTo, "tried", true),
    ("firm", CAN_SAVE, "", true),
    ("tried", Step::Holds, SHORT, true),
    // A try tells of a folder that takes no file.
    ("fast", SAVES, SHORT, true),
    ("fast", Step::CanSave(Fault::Closed), "", true),
    ("unmade", Step::CanSave(Fault::Closed), "", false),
    ("unmade", Step::IsAbsent, "", true),
    // A save keeps mode bits.
    ("mode", SAVES, SHORT, true),
    ("mode", Step::TakesMode, "", true),
    ("mode", SAVES, SHORT, true),
    ("mode", Step::KeepsMode, "", true),
    // A save spares what an earlier one left.
    ("spared.new0", Step::IsWritten, "left", true),
    ("spared", SAVES, SHORT, true),
    ("spared", Step::Holds, SHORT, true),
    ("spared.new0", Step::Holds, "left", true),
    // What is no plain file stays what it is.
    ("aim", Step::IsWritten, LONG, true),
    ("link", Step::LeadsTo, "aim", true),
    ("link", SAVES, SHORT, true),
    ("aim", Step::Holds, SHORT, true),
    ("link", Step::IsLink, "", true),
    ("/dev/null", SAVES, SHORT, true),
    ("/dev/full", SAVES, SHORT, false),
    ("/dev/null", Step::IsSpecial, "", true),
    ("folder", Step::IsFolder, "", true),
    ("folder", SAVES, SHORT, false),
];

fn saves<H: std::rt::Files + AllocGlobal + Eprint + Drop>(host: H, name: &str, text: &str) -> bool {
    RealFiles::new(host, false)
        .save(name, text.as_bytes())
        .is_ok()
}

fn saves_many<H: std::rt::Files + AllocGlobal + Eprint + Drop>(
    host: H,
    name: &str,
    text: &str,
) -> Result<bool, AllocError> {
    let alloc = host.alloc();
    let mut many = Vec::new(alloc);
    for _ in 0..2_000 {
        many.extend_from_slice(text.as_bytes())?;
    }
    let mut files = RealFiles::new(host, false);
    let is_saved = files.save(name, &many).is_ok();
    let read = files.read(alloc, name, many.len());
    Ok(is_saved && read.is_ok_and(|read| read.as_slice() == many.as_slice()))
}

fn can_save<H: std::rt::Files + AllocGlobal + Eprint + Drop>(host: H, name: &str) -> bool {
    RealFiles::new(host, false).try_save(name).is_ok()
}

fn is_read<H: std::rt::Files + AllocGlobal + Eprint + Drop>(
    host: H,
    name: &str,
    text: &str,
) -> bool {
    let alloc = host.alloc();
    match RealFiles::new(host, false).read(alloc, name, text.len()) {
        Ok(read) => read.as_slice() == text.as_bytes(),
        Err(_) => false,
    }
}

fn is_refused<H: std::rt::Files + AllocGlobal + Eprint + Drop>(
    host: H,
    name: &str,
    text: &str,
    refusal: FileRefusal,
) -> bool {
    let alloc = host.alloc();
    let read = RealFiles::new(host, false).read(alloc, name, text.len());
    read.err() == Some(refusal)
}

// The outcome of a call of the program.
fn is_done<H: std::rt::Files + AllocGlobal + Eprint + Drop>(
    host: H,
    name: &str,
    step: Step,
    text: &str,
) -> bool {
    match step {
        Step::Saves(fault) => saves(FaultyFiles { host, fault }, name, text),
        Step::CanSave(fault) => can_save(FaultyFiles { host, fault }, name),
        Step::SavesMany => saves_many(host, name, text).unwrap_or(false),
        Step::IsRefused(refusal) => is_refused(host, name, text, refusal),
        _ => is_read(host, name, text),
    }
}

fn is_held<H: std::rt::Files + AllocGlobal>(host: &H, name: &str, text: &str) -> bool {
    match fs::read(host, name) {
        Ok(read) => read.as_slice() == text.as_bytes(),
        Err(_) => false,
    }
}

fn is_of_kind<H: std::rt::Files>(host: &H, name: &str, step: Step) -> io::Result<bool> {
    let found = fs::symlink_metadata(host, name)?;
    Ok(match step {
        Step::IsLink => found.is_symlink(),
        Step::IsSpecial => !found.is_file(),
        _ => found.permissions().mode() & 0o777 == MODE,
    })
}

// What others do or find.
fn is_found<H: std::rt::Files + AllocGlobal>(
    host: &H,
    name: &str,
    step: Step,
    text: &str,
) -> io::Result<bool> {
    match step {
        Step::IsWritten => fs::write(host, name, text)?,
        Step::IsFolder => fs::create_dir(host, name)?,
        Step::LeadsTo => symlink(host, text, name)?,
        Step::TakesMode => fs::set_permissions(host, name, Permissions::from_mode(MODE))?,
        Step::Holds => return Ok(is_held(host, name, text)),
        Step::IsAbsent => return Ok(fs::symlink_metadata(host, name).is_err()),
        _ => return is_of_kind(host, name, step),
    }
    Ok(true)
}

fn is_so<H: std::rt::Files + AllocGlobal + Eprint + Drop>(host: H, row: &Row) -> bool {
    let (name, step, text, _) = *row;
    match step {
        Step::Saves(_) | Step::CanSave(_) | Step::SavesMany | Step::Reads | Step::IsRefused(_) => {
            is_done(host, name, step, text)
        }
        _ => is_found(&host, name, step, text).unwrap_or(false),
    }
}

// Row by row, since each finds what those before it left.
#[test]
fn saves_and_what_they_leave(rt: HostRuntime) -> Result<(), AllocError> {
    for (number, row) in ROWS.iter().enumerate() {
        let is_so = is_so(rt.clone()?, row);
        let name = row.0;
        assert!(rt; is_so == row.3, "row {number}, {name}");
    }
    Ok(())
}
