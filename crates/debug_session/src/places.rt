// Addresses that a kernel's symbols name.
ghost use Rattle.std.specs.Prelude.{◌≡◌, ◌++◌, IfOk, OnOk, option_map};
ghost use Rattle.sv_types.specs.Kernel.{kernel_segments};
ghost use Rattle.elf64_load.specs.Images.{segments_of};
ghost use Rattle.elf64_load.specs.KernelViews.{names_view};
ghost use Rattle.elf64_load.specs.SymbolsViews.{location_view};
ghost use Rattle.debug_session.specs.Places as spec;

use elf64_load::KernelImage;
use elf64_load::symbols::{KernelNames, Location, kernel_names, location_text};
use std::alloc::{AllocError, Global};

/// An address that may have a name.
#[derive(Clone, Copy, Debug, PartialEq, Eq, Drop)]
pub enum Place {
    /// Who did something: a pc.
    By(u64),
    /// What it was done to: a physical address.
    At(u64),
    /// Where it went: an address of code.
    To(u64),
}

fn location_of<'a>(names: &KernelNames<'a>, place: Place) -> Option<Location<'a>>
    ensures { option_map location_view result ≡ spec.location_of (names_view names.now) place }
{
    match place {
        Place::By(pc) | Place::To(pc) => names.name_of_pc(pc),
        Place::At(gpa) => names.name_of_gpa(gpa),
    }
}

fn located(alloc: Global, location: Option<Location<'_>>) -> Result<Vec<u8>, AllocError>
    ensures { IfOk result (λ name. name.items ≡ spec.located (option_map location_view location.entry)) }
{
    match location {
        Some(location) => location_text(alloc, &location),
        None => Ok(Vec::new(alloc)),
    }
}

/// The name of a place by the symbols of a kernel's file, with the image that was read of it. Nothing where it has none.
#[tactic(auto, unfolding(crate::specs::Places::place_name))]
pub fn place_name(
    alloc: Global,
    file: &[u8],
    image: &KernelImage<'_>,
    place: Place,
) -> Result<Vec<u8>, AllocError>
    requires { segments_of image.now ≡ kernel_segments file.now }
    ensures { IfOk result (λ name. name.items ≡ spec.place_name file.now place) }
{
    let names = kernel_names(alloc, file, image)?;
    located(alloc, location_of(&names, place))
}

/// The word before a name.
pub(crate) fn word_of(place: Place) -> &'static [u8]
    ensures { result.now ≡ spec.word_of place }
{
    match place {
        Place::By(_) => b"by ",
        Place::At(_) => b"at ",
        Place::To(_) => b"to ",
    }
}

/// A line with a name is put at the end, where there is one.
pub(crate) fn push_named_line(out: &mut Vec<u8>, word: &[u8], name: &[u8]) -> Result<(), AllocError>
    ensures { OnOk result (out.new.items ≡ out.old.items ++ spec.named_line word.now name.now) }
{
    match name {
        [] => Ok(()),
        [_, ..] => {
            out.extend_from_slice(word)?;
            out.extend_from_slice(name)?;
            out.extend_from_slice(b"\n")
        }
    }
}
