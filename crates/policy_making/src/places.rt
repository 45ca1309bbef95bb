// The place of an entry in a kernel.

ghost use Rattle.std.specs.Prelude.{◌≡◌, ◌+◌, ◌≤◌, ◌<◌, ◌^◌, find, map};
ghost use Rattle.std.specs.List.{list_any};
ghost use Rattle.elf64_load.specs.Images.{segment_of};
ghost use Rattle.policy_making.specs.Binding as spec;
ghost use Rattle.policy_making.specs.InText.{EndInWords};

use crate::bind_fault::{BindFault, ConvertFault};
use elf64_load::Segment;
use spec_processor::PAGE_BYTES;

// The memory of an executable segment, from this address on, holds the entry.
fn holds_from(segment: &Segment, start: u64, entry: u64) -> bool
    ensures { result ≡ spec.holds_from start entry (segment_of segment.now) }
{
    segment.executable && start <= entry && entry - start < segment.memory
}

fn maps(segment: &Segment, entry: u64) -> bool
    ensures { result ≡ spec.maps entry (segment_of segment.now) }
{
    holds_from(segment, segment.va, entry)
}

fn is_held(segments: &[Segment], entry: u64) -> bool
    ensures { result ≡ list_any (λ s. spec.holds entry (segment_of s)) segments.now }
{
    segments
        .iter()
        .any(|segment| holds_from(segment, segment.gpa, entry))
}

// The first segment that maps the entry.
fn mapping<'a>(segments: &[Segment<'a>], entry: u64) -> Option<Segment<'a>>
    ensures { result ≡ find (λ s. spec.maps entry (segment_of s)) segments.now }
{
    segments
        .iter()
        .copied()
        .find(|segment| maps(segment, entry))
}

// The place of an entry that a segment maps.
fn place_in(segment: &Segment, entry: u64) -> u64
    requires from { segment.now.va ≤ entry }
    requires before { entry < segment.now.va + segment.now.memory }
    requires end { segment.now.gpa + segment.now.memory < 2 ^ 64 }
    ensures { result ≡ spec.place_in entry (segment_of segment.now) }
{
    segment.gpa + (entry - segment.va)
}

#[tactic(auto, unfolding(crate::specs::Binding::place_of))]
fn place_of(segments: &[Segment], entry: u64) -> Option<u64>
    requires end { EndInWords (map segment_of segments.now) }
    ensures { result ≡ spec.place_of (map segment_of segments.now) entry }
{
    match mapping(segments, entry) {
        Some(segment) => Some(place_in(&segment, entry)),
        None if is_held(segments, entry) => Some(entry),
        None => None,
    }
}

/// The guest-physical address that an entry is bound to.
#[tactic(auto, unfolding(crate::specs::Binding::bound_place))]
pub(crate) fn bound_place(segments: &[Segment], entry: u64) -> Result<u64, BindFault>
    requires end { EndInWords (map segment_of segments.now) }
    ensures { result ≡ spec.bound_place (map segment_of segments.now) entry }
{
    match place_of(segments, entry) {
        Some(gpa) if gpa % PAGE_BYTES == entry % PAGE_BYTES => Ok(gpa),
        Some(_) => Err(BindFault::Convert(ConvertFault::OtherByte)),
        None => Err(BindFault::Convert(ConvertFault::NoPlace)),
    }
}
