// The pages that entries are bound to.

ghost use Rattle.std.specs.Prelude.{◌≡◌, ◌≤◌, length};
ghost use Rattle.gstage_tables.specs.Layout.{max_bound};

use std::marker::Model;
use sv_types::MAX_ENTRIES;

/// The page of each bound entry, at most 64. Contracts see the list of them.
#[derive(Drop)]
pub(crate) struct BoundPages {
    pages: [u32; MAX_ENTRIES],
    count: usize,
}

impl Model for BoundPages {
    ghost use Rattle.std.specs.Prelude.{ℕ, List};

    ghost Value = { List ℕ };

    ghost use Rattle.std.specs.Prelude.{◌≡◌, ◌≤◌, length, take};
    ghost use Rattle.gstage_tables.specs.Layout.{max_bound};

    ghost view = { λ b. take b.count b.pages };

    ghost invariant = { λ b. (b.count ≤ max_bound) × (length b.pages ≡ max_bound) };
}

impl BoundPages {
    /// These pages, one for each entry.
    pub(crate) fn new(bound: &[u32]) -> BoundPages
        requires { length bound.now ≤ max_bound }
        ensures { result ≡ bound.now }
    {
        let mut pages = no_pages();
        pages[..bound.len()].copy_from_slice(bound);
        BoundPages {
            pages,
            count: bound.len(),
        }
    }

    /// The page of each entry.
    pub(crate) fn as_slice(&self) -> &[u32]
        ensures { result.now ≡ self.now }
    {
        &self.pages[..self.count]
    }
}

fn no_pages() -> [u32; MAX_ENTRIES]
    ensures { length result ≡ max_bound }
{
    [0; MAX_ENTRIES]
}
