// A load under way.

ghost use Rattle.std.specs.Prelude.{◌≡◌, ℕ, ◌+◌, ◌%◌, ◌<◌, None, length, slice_get, All, IsTrue};
ghost use Rattle.spec_processor.specs.Bytes.{page_size};
ghost use Rattle.sv_types.specs.Measure.{page_digest};
ghost use Rattle.sv_types.specs.Policies.{rules_of, rules_within};
ghost use Rattle.sv_types.specs.declared.protection.Protection.TheVariants.{Free, Held, Approved};
ghost use Rattle.spec_reference.specs.Relocations.{masked_text};
ghost use Rattle.spec_reference.specs.States.{find_module, with_module, pages_in_rule};
ghost use Rattle.spec_hardware.specs.HwExits.{hw_is_good};
ghost use Rattle.page_measure.specs.Pieces.{piece_sites, IsAligned};
ghost use Rattle.page_guard.specs.Guarded.{with_span, IsInRam, AllAre, TablesMatchGuard, TablesStayMatched};
ghost use Rattle.module_gate.specs.Gates.{hw_load, load_span, next_counted, with_digests};

use crate::gate::Gate;
use crate::rules::rule_of;
use host_mem::HostMem;
use page_guard::{Guard, Hold};
use page_measure::fields::{fields_right, mask};
use page_measure::{join_digests, page_digest};
use spec_processor::{PAGE_BYTES, PAGE_SIZE};
use std::marker::Model;
use sv_types::{Bases, Digest, ModulePlacement, Policy, Site};

/// A load under way, which can't be dropped. Contracts see the arguments of the load, the pages of the module, how many of
/// them are left to count, and whether the fields of those that were counted are right. The gate keeps their digests.
pub struct Load {
    pub(crate) hold: Hold,
    pub(crate) about: ModulePlacement,
    pub(crate) pages: u32,
    pub(crate) left: u32,
    pub(crate) right: bool,
}

impl Model for Load {
    ghost use Rattle.module_gate.specs.Gates.{Progress};

    ghost Value = { Progress };

    ghost use Rattle.module_gate.specs.InsideLoad.{progress_of, IsSoundLoad};

    ghost view = { progress_of };

    ghost invariant = { IsSoundLoad };
}

impl Load {
    /// The arguments of the load.
    pub fn about(&self) -> ModulePlacement
        ensures { result ≡ self.now.about }
    {
        self.about
    }

    /// The pages that are left to count.
    pub fn left(&self) -> u32
        ensures { result ≡ self.now.left }
    {
        self.left
    }

    /// Counts the next page of the module, whose 4,096 bytes these are: the gate keeps the digest of the page with its fields
    /// cleared, and the load whether its fields are right for its addresses. Gate and policy are those that the load began with.
    pub fn page(&mut self, gate: &mut Gate, policy: &Policy, bytes: &[u8])
        requires within { IsTrue (rules_within (rules_of policy.now)) }
        requires policy { pages_in_rule (slice_get (rules_of policy.now).modules self.old.about.id) ≡ self.old.pages }
        requires left { 0 < self.old.left }
        requires tallied { length gate.old.digests + self.old.left ≡ self.old.pages }
        requires page { length bytes.now ≡ page_size }
        ensures counted { (hart : ℕ) → hw_load hart (with_digests gate.new.digests self.new) ≡ next_counted (rules_of policy.now) bytes.now
            (hw_load hart (with_digests gate.old.digests self.old)) (slice_get (rules_of policy.now).modules self.old.about.id) }
        ensures pages { self.new.pages ≡ self.old.pages }
        ensures tallied { length gate.new.digests + self.new.left ≡ self.new.pages }
        ensures gate { gate.new ≡ record gate.old { digests = gate.new.digests } }
    {
        let Some(rule) = rule_of(policy, self.about.id) else {
            unreachable!();
        };
        let first = PAGE_BYTES as u32 * (self.pages - self.left);
        let bases = Bases {
            va: self.about.va,
            data_va: self.about.data_va,
        };
        let sites = rule.sites.as_slice();
        let exports = policy.exports.as_slice();
        let digest = masked_digest(bytes, first, sites);
        let right = fields_right(bytes, first, sites, &bases, exports);
        gate.add_digest(digest);
        self.right &= right;
        self.left -= 1;
    }

    /// Whether the counted pages are those that the policy measured, with all fields right. The gate is the one of the load.
    pub fn is_good(&self, gate: &Gate, policy: &Policy) -> bool
        ensures { (hart : ℕ) → result ≡
            hw_is_good (hw_load hart (with_digests gate.now.digests self.now)) (slice_get (rules_of policy.now).modules self.now.about.id) }
    {
        match rule_of(policy, self.about.id) {
            None => false,
            Some(rule) => join_digests(gate.digests()) == rule.measure && self.right,
        }
    }

    /// Ends the load of this gate, of which all pages are counted: they are approved, and the module is loaded.
    pub fn approve(self, gate: &mut Gate, guard: &mut Guard, mem: &mut HostMem)
        requires other { find_module gate.old.loaded self.about.id ≡ None }
        requires counted { self.left ≡ 0 }
        requires inside { IsInRam guard.old.pages (load_span self) }
        requires held { AllAre guard.old.pages (load_span self) Held }
        requires tables_match { TablesMatchGuard mem.old guard.old }
        ensures gate { gate.new ≡ record gate.old { loaded = with_module gate.old.loaded self.about } }
        ensures guard { guard.new.pages ≡ with_span guard.old.pages (load_span self) Approved }
        ensures tables_match { TablesStayMatched mem.old mem.new guard.old guard.new }
    {
        let Load {
            hold,
            about,
            pages: _,
            left: _,
            right: _,
        } = self;
        guard.approve(mem, hold);
        gate.add(about);
    }

    /// Ends the load at any moment: its pages are free again.
    pub fn release(self, guard: &mut Guard, mem: &mut HostMem)
        requires inside { IsInRam guard.old.pages (load_span self) }
        requires held { AllAre guard.old.pages (load_span self) Held }
        requires tables_match { TablesMatchGuard mem.old guard.old }
        ensures guard { guard.new.pages ≡ with_span guard.old.pages (load_span self) Free }
        ensures tables_match { TablesStayMatched mem.old mem.new guard.old guard.new }
    {
        let Load {
            hold,
            about: _,
            pages: _,
            left: _,
            right: _,
        } = self;
        guard.release(mem, hold);
    }
}

// The digest of a page with the fields cleared that begin in it. The page begins at the byte `first` of the text.
fn masked_digest(bytes: &[u8], first: u32, sites: &[Site]) -> Digest
    requires page { length bytes.now ≡ page_size }
    requires start { first % page_size ≡ 0 }
    requires aligned { All IsAligned sites.now }
    ensures { result ≡ page_digest (masked_text bytes.now (piece_sites first page_size sites.now)) }
{
    let mut page = [0; PAGE_SIZE];
    page.copy_from_slice(bytes);
    mask(&mut page, first, sites);
    page_digest(&page)
}
