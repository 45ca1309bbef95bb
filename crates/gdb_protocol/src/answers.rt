// Answers that aren't stops.
ghost use Rattle.std.specs.Prelude.{◌≡◌, ◌++◌, OnOk, drop};
ghost use Rattle.gdb_protocol.specs.Answers as spec;

use crate::digits::push_digits;
use crate::packet::Range;
use std::alloc::AllocError;

/// Text that the console prints is put at the end, as an answer of its own.
#[tactic(auto, unfolding(crate::specs::Answers::console_text))]
pub fn push_console(out: &mut Vec<u8>, bytes: &[u8]) -> Result<(), AllocError>
    ensures { OnOk result (out.new.items ≡ out.old.items ++ spec.console_text bytes.now) }
{
    out.extend_from_slice(b"O")?;
    push_digits(out, bytes)
}

// The bytes of a document from a place on.
fn from_place(document: &[u8], start: u64) -> &[u8]
    ensures { result.now ≡ drop start document.now }
{
    if start < document.len() as u64 {
        &document[start as usize..]
    } else {
        &[]
    }
}

/// A part of a document is put at the end, with the letter that says whether more is left after it.
#[tactic(auto, unfolding(crate::specs::Answers::part_text))]
pub fn push_part(out: &mut Vec<u8>, document: &[u8], part: Range) -> Result<(), AllocError>
    ensures { OnOk result (out.new.items ≡ out.old.items ++ spec.part_text document.now part) }
{
    let rest = from_place(document, part.start);
    if part.length < rest.len() as u64 {
        out.extend_from_slice(b"m")?;
        out.extend_from_slice(&rest[..part.length as usize])
    } else {
        out.extend_from_slice(b"l")?;
        out.extend_from_slice(rest)
    }
}
