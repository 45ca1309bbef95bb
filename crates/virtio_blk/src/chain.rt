// Chains of descriptors, read from guest memory.

ghost use Rattle.std.specs.Prelude.{◌≡◌, ◌+◌, ◌*◌, ◌≤◌, length, option_map};
ghost use Rattle.spec_reference.specs.VirtioChain.{chain, descriptor_at, descriptor_size, max_parts};

use arrayvec::ArrayVec;
use host_mem::word_at;
use spec_processor::has_bit;
use sv_types::{MAX_VIRTIO_PARTS, VirtioDescriptor, VirtioPart};

/// The bytes of a descriptor. Virtio 1.2, 2.7.5.
pub const DESCRIPTOR_BYTES: usize = 16;
/// Where it has a part's length, its flags, and the place of the one that follows.
const LENGTH_OFFSET: usize = 8;

const FLAGS_OFFSET: usize = 12;

const FOLLOWER_OFFSET: usize = 14;

/// The flag that says that a chain goes on.
const NEXT_BIT: u8 = 0;
/// The flag that says that the device writes a part.
const WRITE_BIT: u8 = 1;
/// The flag that says that a part is a table of descriptors.
const INDIRECT_BIT: u8 = 2;

// The descriptor at a place in RAM.
#[tactic(auto, unfolding(spec_reference::specs::VirtioChain::descriptor_at))]
fn descriptor_at(ram: &[u8], at: usize) -> VirtioDescriptor
    requires { at + descriptor_size ≤ length ram.now }
    ensures { result ≡ descriptor_at ram.now at }
{
    let flags = word_at(ram, at + FLAGS_OFFSET, 2);
    VirtioDescriptor {
        part: VirtioPart {
            gpa: word_at(ram, at, 8),
            len: word_at(ram, at + LENGTH_OFFSET, 4) as u32,
            write: has_bit(flags, WRITE_BIT),
        },
        goes_on: has_bit(flags, NEXT_BIT),
        next: word_at(ram, at + FOLLOWER_OFFSET, 2),
        is_indirect: has_bit(flags, INDIRECT_BIT),
    }
}

/// What the descriptors of a chain say, of which one begins it. None where one isn't in the table of `size` places or has
/// a table of its own, or there are more than 34.
#[tactic(auto, unfolding(spec_reference::specs::VirtioChain::chain, spec_reference::specs::VirtioChain::with_rest))]
pub fn read_chain(
    ram: &[u8],
    table: usize,
    size: u64,
    head: u64,
) -> Option<ArrayVec<VirtioPart, MAX_VIRTIO_PARTS>>
    requires { table + descriptor_size * size ≤ length ram.now }
    ensures { option_map (λ parts. parts.items) result ≡ chain max_parts ram.now table size head }
{
    let mut parts = ArrayVec::new();
    let mut index = head;
    for place in 0..MAX_VIRTIO_PARTS {
        if index >= size {
            return None;
        }
        let descriptor = descriptor_at(ram, table + DESCRIPTOR_BYTES * index as usize);
        if descriptor.is_indirect {
            return None;
        }
        parts.push(descriptor.part);
        if !descriptor.goes_on {
            return Some(parts);
        }
        index = descriptor.next;
    }
    None
}
