// The gate of modules.

ghost use Rattle.std.specs.Prelude.{◌≡◌, ◌<◌, [], ◌∷◌, ◌++◌, length, slice_get, Some, None, IfOk, IsTrue, IsSome, true};
ghost use Rattle.sv_types.specs.Limits.{max_modules, max_module_pages};
ghost use Rattle.sv_types.specs.Policies.{rules_of, rules_within};
ghost use Rattle.sv_types.specs.declared.protection.Protection.TheVariants.{Free, Held};
ghost use Rattle.spec_reference.specs.Protections.{with_each};
ghost use Rattle.spec_reference.specs.States.{find_module, with_module, without_module, pages_in_rule};
ghost use Rattle.page_guard.specs.Guarded.{with_span, TablesMatchGuard, TablesStayMatched};
ghost use Rattle.module_gate.specs.Ascending.{AscendsFrom};
ghost use Rattle.module_gate.specs.Retiring.{kernel_pages};
ghost use Rattle.module_gate.specs.Gates.{no_modules, new_load, is_good_place, load_span, module_span, AreApproved};

use crate::init::free_pages;
use crate::load::Load;
use crate::loaded::{find_module, place_of, remove_module};
use crate::rules::{module_pages, pages_at, rule_of};
use host_mem::HostMem;
use page_guard::Guard;
use policy_limits::{MAX_MODULE_PAGES, MAX_MODULES};
use std::alloc::{AllocError, Global};
use std::marker::Model;
use sv_types::{Digest, ModulePlacement, Policy, Span};

/// What is loaded. Contracts see the loaded modules, ascending by id, the digests of the pages that the last load counted, and
/// whether the init pages are retired.
#[derive(Drop)]
pub struct Gate {
    loaded: Vec<ModulePlacement>,
    /// Of the pages that the last load counted. There is room for those of the largest module.
    digests: Vec<Digest>,
    retired: bool,
}

impl Model for Gate {
    ghost use Rattle.module_gate.specs.Gates.{Records};

    ghost Value = { Records };

    ghost use Rattle.module_gate.specs.InsideGate.{records_of, IsSoundGate};

    ghost view = { records_of };

    ghost invariant = { IsSoundGate };
}

impl Gate {
    /// No module is loaded. The room that loads need is taken now.
    pub fn new(alloc: Global) -> Result<Gate, AllocError>
        ensures { IfOk result (λ gate. gate ≡ no_modules) }
    {
        let loaded = Vec::with_capacity(alloc, MAX_MODULES)?;
        let digests = Vec::with_capacity(alloc, MAX_MODULE_PAGES as usize)?;
        Ok(Gate {
            loaded,
            digests,
            retired: false,
        })
    }

    /// These modules are loaded, ascending by id. The room that loads need is taken now.
    pub fn from_values(
        alloc: Global,
        modules: &[ModulePlacement],
        retired: bool,
    ) -> Result<Gate, AllocError>
        requires ascends { AscendsFrom 0 modules.now }
        ensures { IfOk result (λ gate. gate ≡ record { loaded = modules.now; digests = []; retired = retired }) }
    {
        let mut loaded = Vec::with_capacity(alloc, MAX_MODULES)?;
        loaded.extend_from_slice(modules)?;
        let digests = Vec::with_capacity(alloc, MAX_MODULE_PAGES as usize)?;
        Ok(Gate {
            loaded,
            digests,
            retired,
        })
    }

    /// The loaded modules, ascending by id.
    pub fn loaded(&self) -> &[ModulePlacement]
        ensures modules { result.now ≡ self.now.loaded }
        ensures ascends { AscendsFrom 0 result.now }
    {
        &self.loaded
    }

    /// Whether the init pages are retired.
    pub fn retired(&self) -> bool
        ensures { result ≡ self.now.retired }
    {
        self.retired
    }

    /// The digests of the pages that the last load counted.
    pub fn digests(&self) -> &[Digest]
        ensures { result.now ≡ self.now.digests }
    {
        &self.digests
    }

    /// The loaded module of an id.
    pub fn find(&self, id: u64) -> Option<ModulePlacement>
        ensures { result ≡ find_module self.now.loaded id }
    {
        find_module(&self.loaded, id)
    }

    /// Begins the load of a module of the policy at a good place, where none is under way. Its pages are then held, and none is
    /// counted. The policy's values are within their limits.
    pub fn begin(
        &mut self,
        guard: &mut Guard,
        mem: &mut HostMem,
        policy: &Policy,
        about: ModulePlacement,
    ) -> Load
        requires within { IsTrue (rules_within (rules_of policy.now)) }
        requires known { IsSome (slice_get (rules_of policy.now).modules about.id) }
        requires place { is_good_place mem.old.ram guard.old.pages about (pages_in_rule (slice_get (rules_of policy.now).modules about.id)) ≡ true }
        requires tables_match { TablesMatchGuard mem.old guard.old }
        ensures load { result ≡ new_load about (pages_in_rule (slice_get (rules_of policy.now).modules about.id)) }
        ensures gate { self.new ≡ record self.old { digests = [] } }
        ensures guard { guard.new.pages ≡ with_span guard.old.pages (load_span result) Held }
        ensures tables_match { TablesStayMatched mem.old mem.new guard.old guard.new }
    {
        let Some(rule) = rule_of(policy, about.id) else {
            unreachable!();
        };
        // tells that RAM has so few pages that their numbers fit
        let _pages = mem.ram_pages();
        let Ok(hold) = guard.hold(mem, pages_at(about.gpa, rule.pages)) else {
            unreachable!();
        };
        self.digests.clear();
        Load {
            hold,
            about,
            pages: rule.pages,
            left: rule.pages,
            right: true,
        }
    }

    /// Unloads a module, whose pages become free.
    pub fn unload(
        &mut self,
        guard: &mut Guard,
        mem: &mut HostMem,
        policy: &Policy,
        about: &ModulePlacement,
    )
        requires loaded { find_module self.old.loaded about.now.id ≡ Some about.now }
        requires approved { AreApproved (rules_of policy.now) guard.old.pages self.old.loaded }
        requires tables_match { TablesMatchGuard mem.old guard.old }
        ensures gate { self.new ≡ record self.old { loaded = without_module self.old.loaded about.now.id } }
        ensures guard { guard.new.pages ≡ with_span guard.old.pages (module_span (rules_of policy.now) about.now) Free }
        ensures tables_match { TablesStayMatched mem.old mem.new guard.old guard.new }
    {
        guard.unapprove(mem, module_pages(policy, about));
        remove_module(&mut self.loaded, about.id);
    }

    /// Retires the policy's init pages: those that are approved and no loaded module's become free. The policy's values are
    /// within their limits, and RAM has as many pages as it says.
    pub fn retire(&mut self, guard: &mut Guard, mem: &mut HostMem, policy: &Policy, init: Span)
        requires within { IsTrue (rules_within (rules_of policy.now)) }
        requires init { (rules_of policy.now).init ≡ Some init }
        requires pages { length guard.old.pages ≡ policy.now.ram_pages }
        requires tables_match { TablesMatchGuard mem.old guard.old }
        ensures gate { self.new ≡ record self.old { retired = true } }
        ensures guard { guard.new.pages ≡ with_each guard.old.pages (kernel_pages (rules_of policy.now) self.old.loaded guard.old.pages init) Free }
        ensures tables_match { TablesStayMatched mem.old mem.new guard.old guard.new }
    {
        self.retired = true;
        free_pages(guard, mem, policy, &self.loaded, init);
    }

    /// Keeps the digest of one more page.
    pub(crate) fn add_digest(&mut self, digest: Digest)
        requires { length self.old.digests < max_module_pages }
        ensures { self.new ≡ record self.old { digests = self.old.digests ++ digest ∷ [] } }
    {
        self.digests.push_reserved(digest);
    }

    /// A module is loaded.
    pub(crate) fn add(&mut self, about: ModulePlacement)
        requires id { about.id < max_modules }
        requires other { find_module self.old.loaded about.id ≡ None }
        ensures { self.new ≡ record self.old { loaded = with_module self.old.loaded about } }
    {
        let at = place_of(&self.loaded, &about);
        let Ok(()) = self.loaded.insert(at, about) else {
            unreachable!();
        };
    }
}
