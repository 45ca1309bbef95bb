// The loads that a survey saw refused.

ghost use Rattle.std.specs.Prelude.{◌≡◌, OnOk};
ghost use Rattle.report.specs.Findings as spec;
ghost use Rattle.report.specs.Views.{loads_view};

use crate::findings::findings::{MAX_FINDINGS, raised};
use page_measure::fields::WrongField;
use std::alloc::{AllocError, Global};

/// A load that was refused: the module by its place in the policy, its first field that was wrong, or none where its text wasn't the
/// one that the policy measured, and the hart and the turn.
#[derive(Clone, Copy, Drop)]
pub struct RefusedLoad {
    pub id: u64,
    pub wrong: Option<WrongField>,
    pub hart: u8,
    pub turn: u64,
}

/// The first loads that were refused, and how many they are in all.
#[derive(Drop)]
pub struct Loads {
    pub kept: Vec<RefusedLoad>,
    pub total: u64,
}

/// No load yet.
pub fn no_loads(alloc: Global) -> Loads
    ensures { loads_view result ≡ spec.no_loads }
{
    Loads {
        kept: Vec::new(alloc),
        total: 0,
    }
}

/// One load more. Fails where memory runs out.
pub fn add_load(loads: &mut Loads, load: &RefusedLoad) -> Result<(), AllocError>
    ensures { OnOk result (loads_view loads.new ≡ spec.with_load (loads_view loads.old) load.now) }
{
    if loads.kept.len() < MAX_FINDINGS {
        loads.kept.push(*load)?;
    }
    loads.total = raised(loads.total);
    Ok(())
}
