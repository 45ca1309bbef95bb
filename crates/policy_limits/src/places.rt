// The places of relocated fields in a module, and the addresses that entries are bound to.

ghost use Rattle.std.specs.Prelude.{◌≡◌, ◌≤◌, Some};
ghost use Rattle.sv_types.specs.Policies as limits;

use spec_processor::{INSTRUCTION_BYTES, PAGE_BYTES, is_in_ram};
use sv_types::{RelocationKind, Site};

/// The bytes of a field.
pub fn site_size(kind: RelocationKind) -> u64
    ensures size { result ≡ limits.site_size kind }
    ensures most { result ≤ 8 }
{
    match kind {
        RelocationKind::Word64 => 8,
        _ => INSTRUCTION_BYTES,
    }
}

/// An instruction of a module of so many pages begins at this byte of it.
pub fn is_place(pages: u32, place: u64) -> bool
    ensures { result ≡ limits.place_within pages place }
{
    place % INSTRUCTION_BYTES == 0 && place < PAGE_BYTES * u64::from(pages)
}

/// The field holds the low part of an address, whose high part stands at the anchor.
pub fn is_low_part(kind: RelocationKind) -> bool
    ensures { result ≡ limits.is_low_part kind }
{
    match kind {
        RelocationKind::PcrelLo12I | RelocationKind::PcrelLo12S => true,
        _ => false,
    }
}

/// A field of this kind may stand at this byte of a module.
pub fn is_aligned(kind: RelocationKind, offset: u32) -> bool
    ensures { result ≡ limits.is_aligned kind offset }
{
    u64::from(offset) % site_size(kind) == 0
}

/// The anchor of a field in a module of so many pages: the field's own offset, or for a low part any place.
pub fn is_anchor(pages: u32, kind: RelocationKind, offset: u32, anchor: u64) -> bool
    ensures { result ≡ limits.anchor_within pages kind offset anchor }
{
    is_place(pages, anchor) && (is_low_part(kind) || anchor == u64::from(offset))
}

/// The byte after a site's field.
pub fn field_end(site: &Site) -> u64
    ensures { result ≡ limits.field_end site.now }
{
    u64::from(site.offset) + site_size(site.kind)
}

fn end(sites: &[Site]) -> u64
    ensures { result ≡ limits.sites_end sites.now }
{
    match sites.last() {
        Some(site) => field_end(site),
        None => 0,
    }
}

/// The site begins after the fields of the sites before it.
pub fn is_after(before: &[Site], site: &Site) -> bool
    ensures { result ≡ limits.is_after before.now site.now }
{
    end(before) <= u64::from(site.offset)
}

/// An entry may be bound to this guest-physical address in RAM of so many pages: it is in RAM, and it stands in its page
/// where the entry stands in its own.
#[tactic(auto, using(crate::proofs::InRam::byte_in_ram))]
pub fn bound_fits(ram_pages: u32, entry: u64, gpa: u64) -> bool
    ensures { result ≡ limits.bound_fits ram_pages entry gpa }
{
    is_in_ram(gpa, 1, PAGE_BYTES * u64::from(ram_pages)) && gpa % PAGE_BYTES == entry % PAGE_BYTES
}
