// Names that were met before.

ghost use Rattle.std.specs.Prelude.{◌≡◌, map};
ghost use Rattle.std.specs.List.{list_any};
ghost use Rattle.std.specs.Str.{bytes_eq};
ghost use Rattle.sv_types.specs.Policies as limits;

use sv_types::{Export, ModulePolicy, Name};

/// One of the exports has the name.
pub(crate) fn is_exported(name: &Name, exports: &[Export]) -> bool
    ensures { result ≡ limits.is_exported name.now exports.now }
{
    exports
        .iter()
        .any(|export| export.name.text() == name.text())
}

fn has_name(name: &Name, modules: &[ModulePolicy]) -> bool
    ensures { result ≡ list_any (λ m. bytes_eq m.name name.now) modules.now }
{
    modules.iter().any(|m| m.name.text() == name.text())
}

/// One of the modules has the name.
#[tactic(auto, using(crate::proofs::ModuleNames::is_module_of_rules))]
pub fn is_module(name: &Name, modules: &[ModulePolicy]) -> bool
    ensures { result ≡ limits.is_module name.now (map limits.module_rule modules.now) }
{
    has_name(name, modules)
}
