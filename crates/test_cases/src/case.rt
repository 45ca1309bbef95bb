// What the orders of a case have made so far.

use crate::memory::{GOOD, Handed, Outside};
use cli_diagnostics::Reread;
use std::alloc::{AllocError, Global};

/// The files and the outside of the next call.
#[derive(Drop)]
pub struct Case {
    pub handed: Handed,
    pub outside: Outside,
    /// What `{measure}` stands for, 64 hexadecimal digits.
    pub measure: String,
    /// What the last call saved that saved something.
    pub saved: Vec<u8>,
}

impl Case {
    /// A case with empty files, over an outside without a fault.
    pub fn new(alloc: Global) -> Case {
        Case {
            handed: Handed {
                image: Vec::new(alloc),
                policy: Vec::new(alloc),
                disk: Vec::new(alloc),
                script: Vec::new(alloc),
            },
            outside: GOOD,
            measure: String::new(alloc),
            saved: Vec::new(alloc),
        }
    }

    /// Makes it such a case again.
    pub fn clear(&mut self) {
        self.handed.image.clear();
        self.handed.policy.clear();
        self.handed.disk.clear();
        self.handed.script.clear();
        self.outside = GOOD;
        self.measure.clear();
        self.saved.clear();
    }

    // The bytes under a name.
    fn bytes(&self, name: &str) -> Option<&[u8]> {
        match name {
            "image" => Some(self.handed.image.as_slice()),
            "policy" => Some(self.handed.policy.as_slice()),
            "disk" => Some(self.handed.disk.as_slice()),
            "script" => Some(self.handed.script.as_slice()),
            _ => None,
        }
    }
}

impl Reread for Case {
    fn first_bytes(&self, alloc: Global, name: &str, most: usize) -> Option<Vec<u8>> {
        let bytes = self.bytes(name)?;
        first(alloc, bytes, most).ok()
    }
}

// The first bytes of these, at most so many.
fn first(alloc: Global, bytes: &[u8], most: usize) -> Result<Vec<u8>, AllocError> {
    match bytes.get(..most) {
        Some(front) => front.to_vec(alloc),
        None => bytes.to_vec(alloc),
    }
}
