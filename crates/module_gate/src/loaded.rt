// Lists of loaded modules, which ascend by id.

ghost use Rattle.std.specs.Prelude.{◌≡◌, ◌==◌, find, ◌≤◌, length, nat_lt, position, vec_capacity};
ghost use Rattle.std.specs.List.{insert};
ghost use Rattle.spec_reference.specs.States.{find_module, with_module, without_module};

use sv_types::ModulePlacement;

// The first module of an id.
fn first_of(modules: &[ModulePlacement], id: u64) -> Option<ModulePlacement>
    ensures { result ≡ find (λ m. m.id == id) modules.now }
{
    modules.iter().copied().find(|module| module.id == id)
}

/// The module of an id, if it is loaded.
pub fn find_module(modules: &[ModulePlacement], id: u64) -> Option<ModulePlacement>
    ensures { result ≡ find_module modules.now id }
{
    first_of(modules, id)
}

// The place of the first module whose id is above one.
fn first_above(modules: &[ModulePlacement], id: u64) -> Option<usize>
    ensures { result ≡ position (λ m. nat_lt id m.id) modules.now }
{
    modules.iter().position(|module| id < module.id)
}

/// Where a module goes among those that are loaded: before the first whose id is above its own.
pub fn place_of(modules: &[ModulePlacement], about: &ModulePlacement) -> usize
    ensures inside { result ≤ length modules.now }
    ensures place { insert modules.now result about.now ≡ with_module modules.now about.now }
{
    first_above(modules, about.id).unwrap_or(modules.len())
}

/// Takes the module of an id out of the list.
pub fn remove_module(modules: &mut Vec<ModulePlacement>, id: u64)
    ensures items { modules.new.items ≡ without_module modules.old.items id }
    ensures capacity { vec_capacity modules.new ≡ vec_capacity modules.old }
{
    modules.retain(|module| module.id != id);
}
