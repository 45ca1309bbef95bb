// The names of a kernel's code.
ghost use Rattle.std.specs.Prelude.{◌≡◌, ◌++◌, IfOk, codes, option_map};
ghost use Rattle.elf64_load.specs.KernelViews.{names_view};
ghost use Rattle.elf64_load.specs.SymbolsViews.{location_view};
ghost use Rattle.cli_snap.specs.CodeNames as spec;

use elf64_load::symbols::{KernelNames, Location, location_text};
use std::alloc::{AllocError, Global};

/// What stands after an address: a blank and its name, where a kernel is given that has one.
#[tactic(auto, unfolding(crate::specs::CodeNames::name_after))]
pub fn name_after(
    alloc: Global,
    names: Option<KernelNames<'_>>,
    address: u64,
) -> Result<Vec<u8>, AllocError>
    ensures { IfOk result (λ t. t.items ≡ spec.name_after (option_map names_view names.entry) address) }
{
    match names {
        Some(names) => located(alloc, names.name_of_pc(address)),
        None => Ok(Vec::new(alloc)),
    }
}

fn located(alloc: Global, location: Option<Location<'_>>) -> Result<Vec<u8>, AllocError>
    ensures { IfOk result (λ t. t.items ≡ spec.located (option_map location_view location.entry)) }
{
    match location {
        Some(location) => after_blank(alloc, &location_text(alloc, &location)?),
        None => Ok(Vec::new(alloc)),
    }
}

fn after_blank(alloc: Global, name: &[u8]) -> Result<Vec<u8>, AllocError>
    ensures { IfOk result (λ t. t.items ≡ codes " " ++ name.now) }
{
    let mut text = Vec::new(alloc);
    text.extend_from_slice(b" ")?;
    text.extend_from_slice(name)?;
    Ok(text)
}
