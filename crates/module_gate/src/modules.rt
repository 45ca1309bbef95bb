// The gate of modules with the load that is under way.

ghost use Rattle.std.specs.Prelude.{◌≡◌, Some, None, IfOk, IfSome, is_some};
ghost use Rattle.page_guard.specs.Guarded.{TablesMatchGuard, TablesStayMatched};
ghost use Rattle.module_gate.specs.Gates.{no_modules};
ghost use Rattle.module_gate.specs.Conditions.{MayEnd};
ghost use Rattle.module_gate.specs.Parts.{loading_of, without_load};

use crate::gate::Gate;
use crate::load::Load;
use host_mem::HostMem;
use page_guard::Guard;
use std::alloc::{AllocError, Global};
use std::mem;

/// A load under way, with the hart that asked for it.
pub struct PendingLoad {
    pub hart: u8,
    pub load: Load,
}

/// What is loaded, and the load that is under way. It can't be dropped: `end` cancels a load.
pub struct Modules {
    pub gate: Gate,
    pub loading: Option<PendingLoad>,
}

impl Modules {
    /// No module is loaded, and no load is under way. The room that loads need is taken now.
    pub fn new(alloc: Global) -> Result<Modules, AllocError>
        ensures gate { IfOk result (λ modules. modules.gate ≡ no_modules) }
        ensures loading { IfOk result (λ modules. modules.loading ≡ None) }
    {
        let gate = Gate::new(alloc)?;
        Ok(Modules {
            gate,
            loading: None,
        })
    }

    /// Whether a load is under way.
    pub fn is_loading(&self) -> bool
        ensures { result ≡ is_some (loading_of self.now) }
    {
        match &self.loading {
            None => false,
            Some(_) => true,
        }
    }

    /// Frees the pages of a load that is under way, and drops the rest.
    pub fn end(self, guard: &mut Guard, mem: &mut HostMem)
        requires may { IfSome self.loading (MayEnd guard.old.pages self.gate.loaded) }
        requires tables_match { TablesMatchGuard mem.old guard.old }
        ensures guard { guard.new.pages ≡ without_load guard.old.pages self.loading }
        ensures tables_match { TablesStayMatched mem.old mem.new guard.old guard.new }
    {
        let Modules { gate: _, loading } = self;
        if let Some(PendingLoad { hart: _, load }) = loading {
            load.release(guard, mem);
        }
    }
}

/// A load begins or goes on, where none is under way.
pub(crate) fn put_load(modules: &mut Modules, hart: u8, load: Load)
    requires { modules.old.loading ≡ None }
    ensures { modules.new ≡ record modules.old { loading = Some (record { hart = hart; load = load }) } }
{
    let before = mem::replace(&mut modules.loading, Some(PendingLoad { hart, load }));
    let None = before else {
        unreachable!();
    };
}
