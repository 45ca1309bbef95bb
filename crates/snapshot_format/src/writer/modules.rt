// The bytes of loaded modules and of a load under way.

ghost use Rattle.std.specs.Prelude.{◌≡◌, ℕ, Bool, List, ◌++◌, true, Some, OnOk};
ghost use Rattle.std.specs.List.{list_all};
ghost use Rattle.spec_reference.specs.declared.saved_machine.harts.SavedHart.{SavedHart};
ghost use Rattle.snapshot_format.specs.PageForms.{gate, load, load_under_way, module_within, modules};
ghost use Rattle.snapshot_format.specs.Typed.{are_words, is_typed_module, load_numbers};

use crate::writer::values::{write_flag, write_number};
use spec_reference::saved_machine::{Saved, SavedLoad};
use std::alloc::AllocError;
use sv_types::ModulePlacement;

#[tactic(auto, unfolding(crate::specs::PageForms::gate))]
pub(crate) fn write_gate(out: &mut Vec<u8>, machine: &Saved) -> Result<(), AllocError>
    ensures encoded { (harts : List SavedHart) →
        OnOk result (out.new.items ≡ out.old.items ++ (gate harts).encode (machine.now.modules.items, (machine.now.retired, machine.now.loading))) }
    ensures modules { OnOk result (list_all is_typed_module machine.now.modules.items ≡ true) }
    ensures loading { OnOk result (are_words (load_numbers machine.now.loading) ≡ true) }
{
    write_modules(out, &machine.modules)?;
    write_flag(out, machine.retired)?;
    write_loading(out, machine.loading)
}

fn write_modules(out: &mut Vec<u8>, loaded: &[ModulePlacement]) -> Result<(), AllocError>
    ensures encoded { OnOk result (out.new.items ≡ out.old.items ++ modules.encode loaded.now) }
    ensures typed { OnOk result (list_all is_typed_module loaded.now ≡ true) }
{
    write_number(out, loaded.len() as u64)?;
    'modules: for m in loaded {
        write_module(out, m)?;
    }
    Ok(())
}

#[tactic(auto, unfolding(crate::specs::PageForms::module_within, crate::specs::HartForms::multiple_of))]
fn write_module(out: &mut Vec<u8>, m: &ModulePlacement) -> Result<(), AllocError>
    ensures encoded { (good : ℕ → Bool) → OnOk result (out.new.items ≡ out.old.items ++ (module_within good).encode m.now) }
    ensures typed { OnOk result (is_typed_module m.now ≡ true) }
{
    write_number(out, m.id)?;
    write_number(out, m.gpa)?;
    write_number(out, m.va)?;
    write_number(out, m.data_va)
}

#[tactic(auto, unfolding(crate::specs::PageForms::load_under_way, crate::specs::PageForms::load_after))]
fn write_loading(out: &mut Vec<u8>, under_way: Option<SavedLoad>) -> Result<(), AllocError>
    ensures encoded { (harts : List SavedHart) → OnOk result (out.new.items ≡ out.old.items ++ (load_under_way harts).encode under_way) }
    ensures typed { OnOk result (are_words (load_numbers under_way) ≡ true) }
{
    let Some(under_way) = under_way else {
        return write_flag(out, false);
    };
    write_flag(out, true)?;
    write_load(out, &under_way)
}

#[tactic(auto, unfolding(crate::specs::PageForms::load))]
fn write_load(out: &mut Vec<u8>, under_way: &SavedLoad) -> Result<(), AllocError>
    ensures encoded { (harts : List SavedHart) → OnOk result (out.new.items ≡ out.old.items ++ (load harts).encode under_way.now) }
    ensures typed { OnOk result (are_words (load_numbers (Some under_way.now)) ≡ true) }
{
    write_number(out, u64::from(under_way.hart))?;
    write_module(out, &under_way.module)?;
    write_number(out, u64::from(under_way.left))
}
