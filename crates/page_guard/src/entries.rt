// The addresses at which user mode may enter the kernel.

ghost use Rattle.std.specs.Prelude.{◌≡◌, ◌≤◌, length, IfOk, option_map, slice_get};
ghost use Rattle.sv_types.specs.Limits.{max_entries};
ghost use Rattle.spec_reference.specs.States.{Binding, binding_of, has_number, place_of_entry};

use std::alloc::{AllocError, Global};
use std::marker::Model;

/// A list of permitted addresses, with the guest-physical address that each is bound to, where a policy binds them. It can't be
/// changed. Contracts see both lists.
#[derive(Drop)]
pub struct Entries {
    list: Vec<u64>,
    bound: Vec<u64>,
}

impl Model for Entries {
    ghost use Rattle.page_guard.specs.Permitted.{Permitted};

    ghost Value = { Permitted };

    ghost use Rattle.std.specs.Prelude.{◌≤◌, length};
    ghost use Rattle.sv_types.specs.Limits.{max_entries};

    ghost view = { λ e. record { entries = e.list.items; bound = e.bound.items } };

    ghost invariant = { λ e. (length e.bound.items ≤ length e.list.items) × (length e.bound.items ≤ max_entries) };
}

impl Entries {
    /// The addresses of a list, and what they are bound to: none, or each.
    pub fn new(alloc: Global, list: &[u64], bound: &[u64]) -> Result<Entries, AllocError>
        requires along { length bound.now ≤ length list.now }
        requires few { length bound.now ≤ max_entries }
        ensures { IfOk result (λ e. e ≡ record { entries = list.now; bound = bound.now }) }
    {
        let list = list.to_vec(alloc)?;
        let bound = bound.to_vec(alloc)?;
        Ok(Entries { list, bound })
    }

    /// Whether an address, all 64 bits of it, is in the list.
    pub fn permits(&self, target: u64) -> bool
        ensures { result ≡ has_number self.now.entries target }
    {
        self.list.contains(&target)
    }

    /// The first place of an address in the list, where it is bound.
    pub fn place(&self, target: u64) -> Option<u8>
        ensures { result ≡ place_of_entry self.now.entries self.now.bound target }
    {
        first_place(&self.list, &self.bound, target)
    }

    /// The address at a place of the list, where it is bound.
    pub fn address(&self, place: u8) -> Option<u64>
        ensures { result ≡ option_map (λ (entry : Binding). entry.va) (binding_of (slice_get self.now.entries place) (slice_get self.now.bound place)) }
    {
        match self.list.get(usize::from(place)).copied() {
            Some(address) => match self.bound.get(usize::from(place)).copied() {
                Some(_) => Some(address),
                None => None,
            },
            None => None,
        }
    }
}

// The first place of an address in a list, among those that go along with the other list.
fn first_place(list: &[u64], bound: &[u64], target: u64) -> Option<u8>
    requires along { length bound.now ≤ length list.now }
    requires few { length bound.now ≤ max_entries }
    ensures { result ≡ place_of_entry list.now bound.now target }
{
    'sought: for place in 0..bound.len() {
        if list[place] == target {
            return Some(place as u8);
        }
    }
    None
}
