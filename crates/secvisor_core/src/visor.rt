// SecVisor.

ghost use Rattle.std.specs.Prelude.{IfSome};
ghost use Rattle.page_guard.specs.Guarded.{TablesMatchGuard};
ghost use Rattle.module_gate.specs.Conditions.{MayEnd};

use host_mem::HostMem;
use module_gate::Modules;
use page_guard::{Entries, Guard};
use sv_types::Policy;

/// What SecVisor keeps: the policy, the entries that it permits, the guard of pages, and the modules with the load that is under way.
/// It can't be dropped: `end` cancels a load.
pub struct Visor {
    pub policy: Policy,
    pub entries: Entries,
    pub guard: Guard,
    pub modules: Modules,
}

impl Visor {
    /// Frees the pages of a load that is under way, and drops the rest.
    pub fn end(self, mem: &mut HostMem)
        requires may { IfSome self.modules.loading (MayEnd self.guard.pages self.modules.gate.loaded) }
        requires tables_match { TablesMatchGuard mem.old self.guard }
    {
        let Visor {
            policy: _,
            entries: _,
            mut guard,
            modules,
        } = self;
        modules.end(&mut guard, mem);
    }
}
