// The entries of a policy, each once, and their places.

ghost use Rattle.std.specs.Prelude.{◌≡◌, map, IfOk, IfErr, OnOk, Ok};
ghost use Rattle.elf64_load.specs.Images.{segment_of};
ghost use Rattle.policy_making.specs.Binding as spec;
ghost use Rattle.policy_making.specs.Faults.{Refuses};
ghost use Rattle.policy_making.specs.InText.{EndInWords};

use crate::bind_fault::BindRefusal;
use crate::places::bound_place;
use elf64_load::Segment;
use std::alloc::{AllocError, Global};

// Puts an entry after those before it, if it isn't one of them.
fn put_entry(entries: &mut Vec<u64>, entry: u64) -> Result<(), AllocError>
    ensures { OnOk result (entries.new.items ≡ spec.with_entry entries.old.items entry) }
{
    if entries.contains(&entry) {
        return Ok(());
    }
    Ok(entries.push(entry)?)
}

/// Each entry once, where it stands first. Fails where memory runs out.
#[tactic(auto, unfolding(crate::specs::Binding::each_once))]
pub(crate) fn each_once(alloc: Global, entries: &[u64]) -> Result<Vec<u64>, AllocError>
    ensures { IfOk result (λ once. once.items ≡ spec.each_once entries.now) }
{
    let mut once = Vec::new(alloc);
    'entries: for entry in entries {
        put_entry(&mut once, *entry)?;
    }
    Ok(once)
}

/// The places of entries, in order. Refuses the first that isn't bound, and when out of memory.
pub(crate) fn bound_places(
    alloc: Global,
    segments: &[Segment],
    entries: &[u64],
) -> Result<Vec<u64>, BindRefusal>
    requires end { EndInWords (map segment_of segments.now) }
    ensures places { IfOk result (λ places. spec.bound_places (map segment_of segments.now) entries.now ≡ Ok places.items) }
    ensures refused { IfErr result (Refuses (spec.bound_places (map segment_of segments.now) entries.now)) }
{
    let mut places = Vec::new(alloc);
    'entries: for entry in entries {
        let place = bound_place(segments, *entry)?;
        places.push(place)?;
    }
    Ok(places)
}
