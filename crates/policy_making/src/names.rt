// The names that modules want of the kernel.

ghost use Rattle.std.specs.Prelude.{◌≡◌, Ok, IfOk, IfErr, OnOk, OnErr};
ghost use Rattle.std.specs.BTreeSet.{replace_key};
ghost use Rattle.std.specs.Cmp.Lexicographic.{slice_cmp};
ghost use Rattle.std.specs.Ordering.{nat_cmp};
ghost use Rattle.elf64_reloc.specs.NameKeys.{names_of, AreNamed};
ghost use Rattle.policy_making.specs.Making as spec;
ghost use Rattle.policy_making.specs.Refusals.{Refuses};

use crate::refusal::{MakingRefusal, of_module};
use elf64_reloc::{names_in_order, undefined_names};
use std::alloc::{AllocError, Global};
use std::collections::BTreeMap;
use sv_types::Name;

/// Puts the names that an object wants after those of the objects before it. Refuses an object for a fault of its header,
/// its sections, its symbols or a name, and when out of memory; then the names stay as they were.
#[tactic(auto, unfolding(crate::specs::Making::names_with), using(crate::proofs::Refused::object_refused))]
pub fn want_names(alloc: Global, names: &mut Vec<Name>, object: &[u8]) -> Result<(), MakingRefusal>
    ensures names { OnOk result (spec.names_with names.old.items object.now ≡ Ok names.new.items) }
    ensures refused { IfErr result (Refuses (spec.names_with names.old.items object.now)) }
    ensures kept { OnErr result (names.new.items ≡ names.old.items) }
{
    match undefined_names(alloc, object) {
        Ok(wanted) => Ok(names.extend_from_slice(&wanted)?),
        Err(refusal) => Err(of_module(refusal)),
    }
}

// Puts a name at its place.
fn put_name<'a>(once: &mut BTreeMap<&'a str, Name>, name: &'a Name) -> Result<(), AllocError>
    requires { AreNamed once.old }
    ensures named { OnOk result (AreNamed once.new) }
    ensures put { OnOk result (names_of once.new ≡ replace_key (slice_cmp nat_cmp) (names_of once.old) name.now) }
{
    let text = name.text();
    match once.insert(text, *name) {
        Ok(_) => Ok(()),
        Err(_) => Err(AllocError),
    }
}

/// The names, each once, in the order of their bytes. Fails where memory runs out.
pub(crate) fn each_once(alloc: Global, names: &[Name]) -> Result<Vec<Name>, AllocError>
    ensures { IfOk result (λ once. once.items ≡ spec.each_once names.now) }
{
    let mut once = BTreeMap::new(alloc);
    'names: for name in names {
        put_name(&mut once, name)?;
    }
    names_in_order(alloc, &once)
}
