// Files that are read again, for a remark.

use cli_diagnostics::Reread;
use std::alloc::Global;
use std::fs::File;
use std::io::Read;
use std::{fs, io};

/// The plain files of the operating system. What isn't one, as a pipe, gives its bytes only once.
#[derive(Drop)]
pub struct PlainFiles<'a> {
    pub rt: &'a HostRuntime,
}

impl<'a> Reread for PlainFiles<'a> {
    fn first_bytes(&self, alloc: Global, name: &str, most: usize) -> Option<Vec<u8>> {
        match plain_bytes(self.rt, alloc, name, most) {
            Ok(bytes) => bytes,
            Err(_) => None,
        }
    }
}

// The first bytes of a plain file.
fn plain_bytes<R: std::rt::Files>(
    rt: &R,
    alloc: Global,
    name: &str,
    most: usize,
) -> io::Result<Option<Vec<u8>>> {
    if !fs::metadata(rt, name)?.is_file() {
        return Ok(None);
    }
    let mut bytes = Vec::new(alloc);
    File::open(rt, name)?
        .take(most as u64)
        .read_to_end(&mut bytes)?;
    Ok(Some(bytes))
}
