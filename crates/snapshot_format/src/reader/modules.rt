// The bytes of loaded modules and of a load under way.

ghost use Rattle.std.specs.Prelude.{◌≡◌, ◌≤◌, [], length, slice_get};
ghost use Rattle.sv_types.specs.Limits.{max_harts};
ghost use Rattle.snapshot_format.specs.Forms.{list_form, number, within};
ghost use Rattle.snapshot_format.specs.PageForms.{gate, is_above, last_id, load, load_under_way, may_load, module_within, modules, next_module};
ghost use Rattle.snapshot_format.specs.Reading.{Gives, Reads};
ghost use Rattle.snapshot_format.specs.Views.{gate_parts};

use crate::SnapRefusal;
use crate::reader::read_error::ReadError;
use crate::reader::row::{Range, read_row};
use crate::reader::values::{read_at_most, read_flag, read_number};
use policy_limits::{MAX_MODULE_PAGES, MAX_MODULES};
use spec_processor::Mode;
use spec_reference::saved_machine::{SavedHart, SavedLoad};
use std::alloc::Global;
use sv_types::ModulePlacement;

/// Loaded modules, whether init pages are retired, and the load under way.
#[derive(Drop)]
pub(crate) struct Gate {
    pub(crate) modules: Vec<ModulePlacement>,
    pub(crate) retired: bool,
    pub(crate) loading: Option<SavedLoad>,
}

#[tactic(auto, unfolding(crate::specs::PageForms::gate))]
pub(crate) fn read_gate<'a>(
    alloc: Global,
    bytes: &'a [u8],
    harts: &[SavedHart],
) -> Result<(Gate, &'a [u8]), ReadError>
    requires { length harts.now ≤ max_harts }
    ensures { Reads (λ x. (gate_parts x.0, x.1.now)) result ((gate harts.now).taken bytes.now) }
{
    let (modules, rest) = read_modules(alloc, bytes)?;
    let (retired, rest) = read_flag(rest)?;
    let (loading, rest) = read_loading(rest, harts)?;
    Ok((
        Gate {
            modules,
            retired,
            loading,
        },
        rest,
    ))
}

#[tactic(auto, unfolding(crate::specs::PageForms::modules))]
fn read_modules(alloc: Global, bytes: &[u8]) -> Result<(Vec<ModulePlacement>, &[u8]), ReadError>
    ensures { Reads (λ x. (x.0.items, x.1.now)) result (modules.taken bytes.now) }
{
    let (count, rest) = read_at_most(bytes, MAX_MODULES as u64)?;
    read_loaded(alloc, rest, count)
}

fn read_loaded(
    alloc: Global,
    bytes: &[u8],
    count: u64,
) -> Result<(Vec<ModulePlacement>, &[u8]), ReadError>
    ensures { Reads (λ x. (x.0.items, x.1.now)) result ((list_form next_module [] count).taken bytes.now) }
{
    let mut read = Vec::new(alloc);
    let mut rest = bytes;
    'modules: for _ in 0..count {
        let (loaded, after) = read_module(rest, last_id(&read))?;
        read.push(loaded)?;
        rest = after;
    }
    Ok((read, rest))
}

fn last_id(before: &[ModulePlacement]) -> Option<u64>
    ensures { result ≡ last_id before.now }
{
    let last = before.last()?;
    Some(last.id)
}

// A module whose id is above the last one.
fn read_module(bytes: &[u8], last: Option<u64>) -> Result<(ModulePlacement, &[u8]), SnapRefusal>
    ensures { Gives (λ x. (x.0, x.1.now)) result ((module_within (is_above last)).taken bytes.now) }
{
    let ranges = [
        Range::Above(last),
        Range::PageStart,
        Range::PageStart,
        Range::Any,
    ];
    let ([id, gpa, va, data_va], rest) = read_row(bytes, ranges)?;
    Ok((
        ModulePlacement {
            id,
            gpa,
            va,
            data_va,
        },
        rest,
    ))
}

#[tactic(auto, unfolding(crate::specs::PageForms::load_under_way, crate::specs::PageForms::load_after))]
fn read_loading<'a>(
    bytes: &'a [u8],
    harts: &[SavedHart],
) -> Result<(Option<SavedLoad>, &'a [u8]), SnapRefusal>
    requires { length harts.now ≤ max_harts }
    ensures { Gives (λ x. (x.0, x.1.now)) result ((load_under_way harts.now).taken bytes.now) }
{
    let (is_under_way, rest) = read_flag(bytes)?;
    if !is_under_way {
        return Ok((None, rest));
    }
    let (under_way, rest) = read_load(rest, harts)?;
    Ok((Some(under_way), rest))
}

#[tactic(auto, unfolding(crate::specs::PageForms::load))]
fn read_load<'a>(bytes: &'a [u8], harts: &[SavedHart]) -> Result<(SavedLoad, &'a [u8]), SnapRefusal>
    requires { length harts.now ≤ max_harts }
    ensures { Gives (λ x. (x.0, x.1.now)) result ((load harts.now).taken bytes.now) }
{
    let (hart, rest) = read_loading_hart(bytes, harts)?;
    let (loaded, rest) = read_module(rest, None)?;
    let (left, rest) = read_at_most(rest, u64::from(MAX_MODULE_PAGES))?;
    Ok((
        SavedLoad {
            hart,
            module: loaded,
            left: left as u32,
        },
        rest,
    ))
}

// A hart that is there, started and in kernel mode.
fn read_loading_hart<'a>(
    bytes: &'a [u8],
    harts: &[SavedHart],
) -> Result<(u8, &'a [u8]), SnapRefusal>
    requires { length harts.now ≤ max_harts }
    ensures { Gives (λ x. (x.0, x.1.now)) result ((within (λ h. may_load (slice_get harts.now h)) number).taken bytes.now) }
{
    let (n, rest) = read_number(bytes)?;
    if n >= harts.len() as u64 {
        return Err(SnapRefusal::OutOfRange);
    }
    let hart = harts[n as usize];
    if !hart.started || hart.mode != Mode::Kernel {
        return Err(SnapRefusal::OutOfRange);
    }
    Ok((n as u8, rest))
}
