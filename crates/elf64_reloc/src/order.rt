// Fields in the order of their places.

ghost use Rattle.std.specs.Prelude.{◌≡◌, IfOk};
ghost use Rattle.std.specs.BTreeMap.{values};
ghost use Rattle.elf64_reloc.specs.Modules as spec;

use policy_limits::field_end;
use std::alloc::{AllocError, Global};
use std::collections::BTreeMap;
use sv_types::Site;

fn in_order(alloc: Global, sites: &BTreeMap<u32, Site>) -> Result<Vec<Site>, AllocError>
    ensures { IfOk result (λ list. list.items ≡ values sites.now) }
{
    sites.values().copied().collect(alloc)
}

/// The fields in the order of their places; of two at one place the later one alone. Fails where memory runs out.
pub(crate) fn ordered_sites(alloc: Global, sites: &[Site]) -> Result<Vec<Site>, AllocError>
    ensures { IfOk result (λ ordered. ordered.items ≡ spec.ordered_sites sites.now) }
{
    let mut entries = BTreeMap::new(alloc);
    'sites: for site in sites {
        entries.insert(site.offset, *site)?;
    }
    in_order(alloc, &entries)
}

fn some_touch(ordered: &[Site]) -> bool
    ensures { result ≡ spec.some_touch 0 ordered.now }
{
    let mut end = 0;
    'sites: for site in ordered {
        if (site.offset as u64) < end {
            return true;
        }
        end = field_end(site);
    }
    false
}

/// Whether two fields overlap: where two begin at one place, or one begins in front of the end of the one before it.
pub(crate) fn fields_overlap(sites: &[Site], ordered: &[Site]) -> bool
    ensures { result ≡ spec.fields_overlap sites.now ordered.now }
{
    ordered.len() < sites.len() || some_touch(ordered)
}
