// The value of a relocated field.

ghost use Rattle.std.specs.Prelude.{◌≡◌};
ghost use Rattle.spec_reference.specs.Relocations as spec;

use sv_types::{
    Bases, DATA_BASE, Export, FIRST_EXPORT_BASE, NO_BASE, RelocationKind, Site, TEXT_BASE,
};

// The address that a symbol's base stands for: the text's, the data's, none, or an export's.
fn symbol_base(exports: &[Export], bases: &Bases, base: u16) -> u64
    ensures { result ≡ spec.symbol_base exports.now bases.now base }
{
    match base {
        TEXT_BASE => bases.va,
        DATA_BASE => bases.data_va,
        NO_BASE => 0,
        _ => match exports.get((base - FIRST_EXPORT_BASE) as usize) {
            Some(export) => export.addr,
            None => 0,
        },
    }
}

// Whether the value is an address, and none that is relative to the field's place.
fn is_absolute(kind: RelocationKind) -> bool
    ensures { result ≡ spec.is_absolute kind }
{
    match kind {
        RelocationKind::Word64
        | RelocationKind::Hi20
        | RelocationKind::Lo12I
        | RelocationKind::Lo12S => true,
        RelocationKind::Branch
        | RelocationKind::Jal
        | RelocationKind::PcrelHi20
        | RelocationKind::PcrelLo12I
        | RelocationKind::PcrelLo12S => false,
    }
}

/// The value that a field has to have for these bases, modulo 2^64.
#[tactic(auto, unfolding(spec_reference::specs::Relocations::site_value))]
pub(crate) fn site_value(exports: &[Export], bases: &Bases, site: &Site) -> u64
    ensures { result ≡ spec.site_value exports.now bases.now site.now }
{
    let address = symbol_base(exports, bases, site.base).wrapping_add(site.addend.cast_unsigned());
    if is_absolute(site.kind) {
        address
    } else {
        address.wrapping_sub(bases.va.wrapping_add(site.anchor as u64))
    }
}
