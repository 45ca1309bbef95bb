// What tells one translation from another.

ghost use Rattle.std.specs.Prelude.{◌≡◌, ◌<◌, true};
ghost use Rattle.spec_processor.specs.Translation.{address_pages};
ghost use Rattle.hw_tlb.specs.Kept.{IsFor};
ghost use Rattle.hw_tlb.specs.Tags.{tag_of};

use crate::line::Line;
use spec_processor::{Access, Mode, PAGE_BYTES};
use sv39_walk::Regime;

/// One number for the page, the kind of access, the privilege, MXR and SUM.
#[inline(always)]
pub(crate) fn tag(regime: &Regime, access: Access, page: u64) -> u64
    requires { page < address_pages }
    ensures { result ≡ tag_of regime.now access page }
{
    let kind = match access {
        Access::Fetch => 0,
        Access::Load => 1,
        Access::Store => 2,
    };
    let mode = match regime.mode {
        Mode::Kernel => 0,
        Mode::User => 1,
    };
    let mxr = if regime.mxr { 1 } else { 0 };
    let sum = if regime.sum { 1 } else { 0 };
    PAGE_BYTES * page + (8 * kind + (4 * mode + (2 * mxr + sum)))
}

/// Whether a line is one of such accesses to a page. Three numbers tell it, so that it is found by few steps.
#[tactic(auto, using(crate::proofs::Tagged::found_by, crate::proofs::Tagged::tagged_alike))]
#[inline(always)]
pub(crate) fn is_for(line: &Line, regime: &Regime, access: Access, page: u64) -> bool
    requires { page < address_pages }
    ensures yes { result ≡ true → IsFor regime.now access page line.now }
    ensures no { IsFor regime.now access page line.now → result ≡ true }
{
    line.tag == tag(regime, access, page)
        && line.regime.hgatp == regime.hgatp
        && line.regime.vsatp == regime.vsatp
}
