// Whether a page of text is touched by two segments. The segments are judged in the order of their first pages: each of
// them against the furthest page that those before it touch. So the time is that of sorting the headers.

ghost use Rattle.std.specs.Prelude.{◌≡◌, ◌<◌, ◌^◌, All, IfOk};
ghost use Rattle.std.specs.List.Sorted.{IsNonDecreasingBy};
ghost use Rattle.sv_types.specs.Kernel.{first_page, last_page, text_is_shared};
ghost use Rattle.elf64_load.specs.Headers.{HasMemory};

use crate::checks::{end_of, is_executable};
use spec_processor::{PAGE_BYTES, RAM_BASE, page_of};
use std::alloc::{AllocError, Global};
use sv_types::ProgramHeader;

fn first_page(header: &ProgramHeader) -> u64
    ensures { result ≡ first_page header.now }
{
    page_of(header.gpa)
}

fn last_page(header: &ProgramHeader) -> u64
    ensures page { result ≡ last_page header.now }
    ensures small { result < 2 ^ 54 }
{
    let last = end_of(header.gpa, header.memory_size)
        .saturating_sub(1)
        .saturating_sub(RAM_BASE as u128);
    (last / PAGE_BYTES as u128) as u64
}

// Whether two segments, one of them executable, touch one page, where none begins on a page before one in front of it.
fn sorted_text_is_shared(headers: &[ProgramHeader]) -> bool
    requires order { IsNonDecreasingBy first_page headers.now }
    requires memory { All HasMemory headers.now }
    ensures { result ≡ text_is_shared headers.now }
{
    // the page after all segments so far, and the one after those of text
    let mut end = 0;
    let mut text_end = 0;
    'headers: for header in headers {
        let is_text = is_executable(header);
        let reached = if is_text { end } else { text_end };
        if first_page(header) < reached {
            return true;
        }
        end = end.max(last_page(header) + 1);
        if is_text {
            text_end = end;
        }
    }
    false
}

/// Whether two segments, one of them executable, touch one page. Fails where memory runs out.
pub(crate) fn text_is_shared(alloc: Global, headers: &[ProgramHeader]) -> Result<bool, AllocError>
    requires { All HasMemory headers.now }
    ensures { IfOk result (λ shared. shared ≡ text_is_shared headers.now) }
{
    let mut sorted = Vec::from_slice(alloc, headers)?;
    sorted.sort_unstable_by_key(|header| first_page(header));
    Ok(sorted_text_is_shared(&sorted))
}
