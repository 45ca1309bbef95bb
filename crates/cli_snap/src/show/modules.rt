// The lines of modules.
ghost use Rattle.std.specs.Prelude.{◌≡◌, ◌++◌, OnOk, IfOk, Some, string_bytes};
ghost use Rattle.cli_snap.specs.DeviceTexts as spec;

use spec_reference::saved_machine::SavedLoad;
use std::alloc::{AllocError, Global};
use sv_types::ModulePlacement;
use text_numbers::address_text;

#[tactic(auto, unfolding(crate::specs::DeviceTexts::module_places))]
fn module_places(alloc: Global, loaded: &ModulePlacement) -> Result<String, AllocError>
    ensures { IfOk result (λ t. string_bytes t ≡ spec.module_places loaded.now) }
{
    let id = loaded.id;
    let gpa = address_text(alloc, loaded.gpa)?;
    let va = address_text(alloc, loaded.va)?;
    let data = address_text(alloc, loaded.data_va)?;
    format!(in alloc; "{id} gpa {gpa} va {va} data {data}")
}

#[tactic(auto, unfolding(crate::specs::DeviceTexts::module_line))]
fn module_line(alloc: Global, loaded: &ModulePlacement) -> Result<String, AllocError>
    ensures { IfOk result (λ t. string_bytes t ≡ spec.module_line loaded.now) }
{
    let places = module_places(alloc, loaded)?;
    format!(in alloc; "module {places}\n")
}

fn push_module(alloc: Global, text: &mut String, loaded: &ModulePlacement) -> Result<(), AllocError>
    ensures { OnOk result (string_bytes text.new ≡ string_bytes text.old ++ spec.module_line loaded.now) }
{
    text.push_str(module_line(alloc, loaded)?.as_str())
}

pub fn push_modules(
    alloc: Global,
    text: &mut String,
    modules: &[ModulePlacement],
) -> Result<(), AllocError>
    ensures { OnOk result (string_bytes text.new ≡ string_bytes text.old ++ spec.module_lines modules.now) }
{
    'modules: for place in 0..modules.len() {
        push_module(alloc, text, &modules[place])?;
    }
    Ok(())
}

#[tactic(auto, unfolding(crate::specs::DeviceTexts::load_line))]
fn load_line(alloc: Global, load: &SavedLoad) -> Result<String, AllocError>
    ensures { IfOk result (λ t. string_bytes t ≡ spec.load_line (Some load.now)) }
{
    let places = module_places(alloc, &load.module)?;
    let hart = load.hart;
    let left = load.left;
    format!(in alloc; "load {places} hart {hart} left {left}\n")
}

#[tactic(auto, unfolding(crate::specs::DeviceTexts::load_line))]
pub fn push_load(
    alloc: Global,
    text: &mut String,
    load: Option<SavedLoad>,
) -> Result<(), AllocError>
    ensures { OnOk result (string_bytes text.new ≡ string_bytes text.old ++ spec.load_line load) }
{
    match load {
        Some(load) => text.push_str(load_line(alloc, &load)?.as_str()),
        None => Ok(()),
    }
}

pub fn push_init(text: &mut String, retired: bool) -> Result<(), AllocError>
    ensures { OnOk result (string_bytes text.new ≡ string_bytes text.old ++ spec.init_line retired) }
{
    if retired {
        return text.push_str("init retired\n");
    }
    Ok(())
}
