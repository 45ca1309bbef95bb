// The first field of a module's text that isn't right.

ghost use Rattle.std.specs.Prelude.{◌≡◌, ◌≤◌, length, All};
ghost use Rattle.sv_types.specs.Policies.{field_end};
ghost use Rattle.page_measure.specs.Fields.{field_view};
ghost use Rattle.page_measure.specs.Wrong as spec;

use crate::fields::field::{Field, field_bits, field_of, in_field, value_fits};
use crate::fields::pieces::{field_right, width_of};
use crate::fields::value::site_value;
use host_mem::word_at;
use sv_types::{Bases, Export, Site};

/// A field that isn't right: where it stands in the module's text, the bits that it holds there, and those that are due; or the
/// value that is due, where it doesn't fit into the field.
#[derive(Clone, Copy, Drop)]
pub struct WrongField {
    pub offset: u32,
    pub holds: u64,
    pub due: u64,
}

// What is due in a field for a value.
fn due_in(field: Field, value: u64) -> u64
    ensures { result ≡ spec.due_in (field_view field) value }
{
    if value_fits(field, value) {
        in_field(field, value)
    } else {
        value
    }
}

// What is told of a field.
fn wrong_field(text: &[u8], site: &Site, bases: &Bases, exports: &[Export]) -> WrongField
    requires { field_end site.now ≤ length text.now }
    ensures { result ≡ spec.wrong_field exports.now bases.now text.now site.now }
{
    let field = field_of(site.kind);
    let word = word_at(text, site.offset as usize, width_of(site));
    let value = site_value(exports, bases, site);
    WrongField {
        offset: site.offset,
        holds: word & field_bits(field),
        due: due_in(field, value),
    }
}

/// The first of these fields of a module's whole text that hasn't the value that the bases ask for. Each lies in the text.
pub fn first_wrong(
    text: &[u8],
    sites: &[Site],
    bases: &Bases,
    exports: &[Export],
) -> Option<WrongField>
    requires inside { All (λ site. field_end site ≤ length text.now) sites.now }
    ensures { result ≡ spec.first_wrong exports.now bases.now text.now sites.now }
{
    'sites: for site in sites {
        if !field_right(text, site, bases, exports) {
            return Some(wrong_field(text, site, bases, exports));
        }
    }
    None
}
