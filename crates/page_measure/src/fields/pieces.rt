// Pieces of a module's text.

ghost use Rattle.std.specs.Prelude.{◌≡◌, ◌%◌, ◌≤◌, length, All};
ghost use Rattle.spec_processor.specs.Bytes.{page_size};
ghost use Rattle.spec_reference.specs.Relocations as spec;
ghost use Rattle.page_measure.specs.Pieces.{lies_in, site_from, piece_sites, IsAligned};
ghost use Rattle.page_measure.specs.Steps.{cleared_in_piece, right_in_piece};
ghost use Rattle.spec_processor.specs.Regions.{IsWidth};
ghost use Rattle.sv_types.specs.Policies.{field_end};

use crate::fields::field::{field_bits, field_of, in_field, value_fits};
use crate::fields::value::site_value;
use host_mem::{put_word, word_at};
use policy_limits::site_size;
use sv_types::{Bases, Export, Site};

// Whether a field begins in the piece of `size` bytes at `first`.
fn lies_in(first: u32, size: usize, site: &Site) -> bool
    ensures { result ≡ lies_in first size site.now }
{
    site.offset >= first && ((site.offset - first) as usize) < size
}

// The site as the piece at `first` has it.
fn site_from(first: u32, site: &Site) -> Site
    requires { first ≤ site.now.offset }
    ensures { result ≡ site_from first site.now }
{
    Site {
        offset: site.offset - first,
        ..*site
    }
}

/// The bytes of a site's field.
#[tactic(auto, using(spec_reference::proofs::FieldWidths::sizes))]
pub(crate) fn width_of(site: &Site) -> u8
    ensures value { result ≡ spec.width_of site.now }
    ensures width { IsWidth result }
{
    site_size(site.kind) as u8
}

#[tactic(auto, unfolding(spec_reference::specs::Relocations::clear_field))]
fn clear_field(text: &mut [u8], site: &Site)
    requires { field_end site.now ≤ length text.old }
    ensures text { text.new ≡ spec.clear_field text.old site.now }
{
    let field = field_of(site.kind);
    let at = site.offset as usize;
    let word = word_at(text, at, width_of(site));
    put_word(text, at, width_of(site), word & !field_bits(field));
}

/// Whether the field has the value for the bases, and the value fits.
#[tactic(auto, unfolding(spec_reference::specs::Relocations::field_right))]
pub(crate) fn field_right(text: &[u8], site: &Site, bases: &Bases, exports: &[Export]) -> bool
    requires { field_end site.now ≤ length text.now }
    ensures { result ≡ spec.field_right exports.now bases.now text.now site.now }
{
    let field = field_of(site.kind);
    let value = site_value(exports, bases, site);
    let word = word_at(text, site.offset as usize, width_of(site));
    word & field_bits(field) == in_field(field, value) && value_fits(field, value)
}

// Whether a site's field is right, if it begins in the piece.
#[tactic(auto, using(crate::proofs::Sites::ends_inside))]
fn is_right(text: &[u8], first: u32, site: &Site, bases: &Bases, exports: &[Export]) -> bool
    requires pages { length text.now % page_size ≡ 0 }
    requires start { first % page_size ≡ 0 }
    requires aligned { IsAligned site.now }
    ensures { result ≡ right_in_piece exports.now bases.now first text.now site.now }
{
    if !lies_in(first, text.len(), site) {
        return true;
    }
    field_right(text, &site_from(first, site), bases, exports)
}

// Clears a site's field, if it begins in the piece.
#[tactic(auto, using(crate::proofs::Sites::ends_inside))]
fn clear_in_piece(text: &mut [u8], first: u32, site: &Site)
    requires pages { length text.old % page_size ≡ 0 }
    requires start { first % page_size ≡ 0 }
    requires aligned { IsAligned site.now }
    ensures { text.new ≡ cleared_in_piece first text.old site.now }
{
    if lies_in(first, text.len(), site) {
        clear_field(text, &site_from(first, site));
    }
}

/// Clears the fields that begin in this piece of a module's text, which is whole pages from the byte `first` on. Each
/// site's offset is a multiple of its field's bytes.
pub fn mask(text: &mut [u8], first: u32, sites: &[Site])
    requires pages { length text.old % page_size ≡ 0 }
    requires start { first % page_size ≡ 0 }
    requires aligned { All IsAligned sites.now }
    ensures { text.new ≡ spec.masked_text text.old (piece_sites first (length text.old) sites.now) }
{
    'sites: for site in sites {
        clear_in_piece(text, first, site);
    }
}

/// Whether each field that begins in this piece has the value for the bases, and fits. The piece is whole pages from the
/// byte `first` on, and each site's offset a multiple of its field's bytes.
pub fn fields_right(
    text: &[u8],
    first: u32,
    sites: &[Site],
    bases: &Bases,
    exports: &[Export],
) -> bool
    requires pages { length text.now % page_size ≡ 0 }
    requires start { first % page_size ≡ 0 }
    requires aligned { All IsAligned sites.now }
    ensures { result ≡ spec.fields_right exports.now bases.now (piece_sites first (length text.now) sites.now) text.now }
{
    'sites: for site in sites {
        if !is_right(text, first, site, bases, exports) {
            return false;
        }
    }
    true
}
