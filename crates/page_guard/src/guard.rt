// The guard of pages.

ghost use Rattle.std.specs.Prelude.{◌≡◌, ◌+◌, ◌/◌, ◌<◌, ◌≤◌, length, map, replicate, slice_set, slice_get, Some, None, IfOk, OnOk, IfErr, OnErr};
ghost use Rattle.spec_processor.specs.Bytes.{page_size};
ghost use Rattle.sv_types.specs.declared.protection.Protection.TheVariants.{Free, Held, Approved};
ghost use Rattle.gstage_tables.specs.Layout.{max_bound, table_size};
ghost use Rattle.sv_types.specs.Protections.{is_free};
ghost use Rattle.page_guard.specs.Guarded.{with_span, IsInRam, AllAre, first_taken, TablesMatchGuard, TablesStayMatched, Guards};

use dma_guard::DmaGuard;
use gstage_tables::Trees;
use host_mem::HostMem;
use std::alloc::{AllocError, Global};
use std::marker::Model;
use sv_types::{Protection, Span};

/// The protection of each page of RAM, with the trees and the bits for devices that follow it. Contracts see the list of
/// protections, by the number of the page, and the page that each entry is bound to.
#[derive(Drop)]
pub struct Guard {
    trees: Trees,
    dma: DmaGuard,
    protections: Vec<Protection>,
}

impl Model for Guard {
    ghost use Rattle.page_guard.specs.Guarded.{Guarded};

    ghost Value = { Guarded };

    ghost use Rattle.std.specs.Prelude.{◌≡◌, ◌≤◌, length, map};
    ghost use Rattle.spec_processor.specs.Regions.{max_ram_pages};
    ghost use Rattle.gstage_tables.specs.Blocks.{CountsTaken};
    ghost use Rattle.sv_types.specs.Protections.{is_free};
    ghost use Rattle.spec_reference.specs.Protections.{protection_at};

    ghost view = { λ g. record { pages = g.protections.items; bound = g.trees.bound } };

    ghost invariant = { λ g. (g.trees.ram_pages ≡ length g.protections.items) ×
        (CountsTaken g.trees.counts (length g.protections.items) (protection_at g.protections.items) ×
        ((g.dma ≡ map is_free g.protections.items) × (length g.protections.items ≤ max_ram_pages))) };
}

/// Pages that are held, until they are approved or released. It can't be dropped. Contracts see the span.
pub struct Hold {
    span: Span,
}

impl Model for Hold {
    ghost use Rattle.sv_types.specs.declared.module.Span.{Span as Pages};

    ghost Value = { Pages };

    ghost view = { λ h. h.span };
}

/// The first page of a span that isn't free.
#[derive(Clone, Copy, Debug, Drop)]
pub struct Taken {
    pub page: u32,
}

impl Guard {
    /// All pages free, where `bound` has the page that each entry is bound to. The region's table part has the size that the
    /// trees ask for.
    pub fn new(alloc: Global, mem: &mut HostMem, bound: &[u32]) -> Result<Guard, AllocError>
        requires few { length bound.now ≤ max_bound }
        requires size { length mem.old.tables ≡ table_size (length mem.old.ram / page_size) (length bound.now) }
        ensures guard { IfOk result (λ g. g.pages ≡ replicate (length mem.old.ram / page_size) Free) }
        ensures guards { IfOk result (λ g. Guards mem.new bound.now g) }
        ensures ram { mem.new.ram ≡ mem.old.ram }
    {
        let pages = mem.ram_pages();
        let protections = vec![in alloc; Protection::Free; pages]?;
        let dma = DmaGuard::new(alloc, pages)?;
        let trees = Trees::new(mem, bound);
        Ok(Guard {
            trees,
            dma,
            protections,
        })
    }

    /// The protection of a page of RAM.
    pub fn protection(&self, page: u32) -> Protection
        requires { page < length self.now.pages }
        ensures { slice_get self.now.pages page ≡ Some result }
    {
        self.protections[page as usize]
    }

    /// The protections of all pages of RAM.
    pub fn protections(&self) -> &[Protection]
        ensures { result.now ≡ self.now.pages }
    {
        &self.protections
    }

    /// Which pages a device may write: the free ones.
    pub fn dma(&self) -> &DmaGuard
        ensures { result.now ≡ map is_free self.now.pages }
    {
        &self.dma
    }

    /// Holds the pages of a span, all of them or, where one is not free, none.
    pub fn hold(&mut self, mem: &mut HostMem, span: Span) -> Result<Hold, Taken>
        requires inside { IsInRam self.old.pages span }
        requires tables_match { TablesMatchGuard mem.old self.old }
        ensures free { OnOk result (first_taken self.old.pages span ≡ None) }
        ensures guard { OnOk result (self.new.pages ≡ with_span self.old.pages span Held) }
        ensures held { OnOk result (AllAre self.new.pages span Held) }
        ensures hold { IfOk result (λ hold. hold ≡ span) }
        ensures taken { IfErr result (λ taken. first_taken self.old.pages span ≡ Some taken.page) }
        ensures kept { OnErr result ((self.new ≡ self.old) × (mem.new ≡ mem.old)) }
        ensures tables_match { TablesStayMatched mem.old mem.new self.old self.new }
    {
        self.all_free(span)?;
        self.set_all(mem, span, Protection::Held);
        Ok(Hold { span })
    }

    /// Approves the pages that are held.
    pub fn approve(&mut self, mem: &mut HostMem, hold: Hold)
        requires inside { IsInRam self.old.pages hold }
        requires held { AllAre self.old.pages hold Held }
        requires tables_match { TablesMatchGuard mem.old self.old }
        ensures guard { self.new.pages ≡ with_span self.old.pages hold Approved }
        ensures approved { AllAre self.new.pages hold Approved }
        ensures tables_match { TablesStayMatched mem.old mem.new self.old self.new }
    {
        let Hold { span: approved } = hold;
        self.set_all(mem, approved, Protection::Approved);
    }

    /// Frees the pages that are held.
    pub fn release(&mut self, mem: &mut HostMem, hold: Hold)
        requires inside { IsInRam self.old.pages hold }
        requires held { AllAre self.old.pages hold Held }
        requires tables_match { TablesMatchGuard mem.old self.old }
        ensures guard { self.new.pages ≡ with_span self.old.pages hold Free }
        ensures tables_match { TablesStayMatched mem.old mem.new self.old self.new }
    {
        let Hold { span: released } = hold;
        self.set_all(mem, released, Protection::Free);
    }

    /// Frees pages that are approved.
    pub fn unapprove(&mut self, mem: &mut HostMem, span: Span)
        requires inside { IsInRam self.old.pages span }
        requires approved { AllAre self.old.pages span Approved }
        requires tables_match { TablesMatchGuard mem.old self.old }
        ensures guard { self.new.pages ≡ with_span self.old.pages span Free }
        ensures tables_match { TablesStayMatched mem.old mem.new self.old self.new }
    {
        self.set_all(mem, span, Protection::Free);
    }

    // The first page of a span that isn't free is the refusal.
    fn all_free(&self, span: Span) -> Result<(), Taken>
        requires { IsInRam self.now.pages span }
        ensures free { OnOk result (first_taken self.now.pages span ≡ None) }
        ensures taken { IfErr result (λ taken. first_taken self.now.pages span ≡ Some taken.page) }
    {
        'tested: for i in 0..span.count {
            let page = span.first + i;
            if !self.protections[page as usize].is_free() {
                return Err(Taken { page });
            }
        }
        Ok(())
    }

    fn set_all(&mut self, mem: &mut HostMem, span: Span, protection: Protection)
        requires inside { IsInRam self.old.pages span }
        requires tables_match { TablesMatchGuard mem.old self.old }
        ensures guard { self.new.pages ≡ with_span self.old.pages span protection }
        ensures all { AllAre self.new.pages span protection }
        ensures tables_match { TablesStayMatched mem.old mem.new self.old self.new }
    {
        'changed: for i in 0..span.count {
            self.set(mem, span.first + i, protection);
        }
    }

    #[tactic(auto, using(crate::proofs::Sets::set_tables_match))]
    fn set(&mut self, mem: &mut HostMem, page: u32, protection: Protection)
        requires inside { page < length self.old.pages }
        requires tables_match { TablesMatchGuard mem.old self.old }
        ensures guard { self.new.pages ≡ slice_set self.old.pages page protection }
        ensures tables_match { TablesStayMatched mem.old mem.new self.old self.new }
    {
        self.trees.set(mem, page, protection);
        self.dma.set(page, protection.is_free());
        self.protections[page as usize] = protection;
    }
}
