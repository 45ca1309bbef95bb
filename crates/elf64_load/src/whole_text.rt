// Text that lies in the file as it is measured.

ghost use Rattle.std.specs.Prelude.{◌≡◌, [], ◌∷◌, filter, map, IfSome, true};
ghost use Rattle.sv_types.specs.Kernel.{text_of};
ghost use Rattle.elf64_load.specs.Images.{IsWhole, is_text, segment_of, segments_of};

use crate::image::{KernelImage, Segment};
use policy_limits::MAX_RAM_PAGES;
use spec_processor::{PAGE_BYTES, is_in_ram, ram_offset};

impl<'a> KernelImage<'a> {
    /// The text where it lies in the file as it is measured: one segment of whole pages, of which the file has all bytes.
    pub fn text_in_file(&self) -> Option<&'a [u8]>
        ensures { IfSome result (λ text. text.now ≡ text_of (segments_of self.now)) }
    {
        let text = only_text(&self.segments)?;
        if is_whole(&text) {
            Some(text.bytes)
        } else {
            None
        }
    }
}

// The executable segment, where there is one alone.
fn only_text<'a>(segments: &[Segment<'a>]) -> Option<Segment<'a>>
    ensures { IfSome result (λ text. filter is_text (map segment_of segments.now) ≡ segment_of text ∷ []) }
{
    let mut only = None;
    'segments: for i in 0..segments.len() {
        if segments[i].executable {
            if only.is_some() {
                return None;
            }
            only = Some(segments[i]);
        }
    }
    only
}

// A segment has whole pages of RAM, and the file has all its bytes.
fn is_whole(segment: &Segment) -> bool
    ensures { result ≡ true → IsWhole (segment_of segment.now) }
{
    let ram_bytes = PAGE_BYTES * u64::from(MAX_RAM_PAGES);
    is_in_ram(segment.gpa, segment.memory, ram_bytes)
        && ram_offset(segment.gpa) % PAGE_BYTES == 0
        && segment.memory % PAGE_BYTES == 0
        && segment.bytes.len() as u64 == segment.memory
}
