// Words of memory that are watched.
ghost use Rattle.std.specs.Prelude.{◌≡◌, ◌==◌, not, IfOk, OnOk, Some};
ghost use Rattle.spec_processor.specs.Regions.{IsWidth};
ghost use Rattle.debug_session.specs.Watches as spec;

use debug_views::seen_address;
use gdb_protocol::Range;
use host_mem::word_at;
use spec_processor::{is_in_ram, ram_offset};
use spec_reference::saved_machine::SavedHart;
use std::alloc::{AllocError, Global};

/// How many bytes are watched.
#[derive(Clone, Copy, Debug, PartialEq, Eq, Drop)]
pub enum Width {
    One,
    Two,
    Four,
    Eight,
}

/// A word that is watched: the address by which it was asked for, its guest-physical address, and its width.
#[derive(Clone, Copy, Debug, PartialEq, Eq, Drop)]
pub struct Watch {
    pub address: u64,
    pub place: u64,
    pub width: Width,
}

impl Width {
    fn bytes(self) -> u8
        ensures value { result ≡ spec.bytes_of self }
        ensures width { IsWidth result }
    {
        match self {
            Width::One => 1,
            Width::Two => 2,
            Width::Four => 4,
            Width::Eight => 8,
        }
    }

    fn of(length: u64) -> Option<Width>
        ensures { result ≡ spec.width_of length }
    {
        match length {
            1 => Some(Width::One),
            2 => Some(Width::Two),
            4 => Some(Width::Four),
            8 => Some(Width::Eight),
            _ => None,
        }
    }
}

#[tactic(auto, unfolding(crate::specs::Watches::watched))]
fn watched(ram: &[u8], watch: Watch) -> u64
    ensures { result ≡ spec.watched ram.now watch }
{
    let bytes = watch.width.bytes();
    if is_in_ram(watch.place, u64::from(bytes), ram.len() as u64) {
        word_at(ram, ram_offset(watch.place) as usize, bytes)
    } else {
        0
    }
}

/// All words that are watched.
pub(crate) fn all_watched(
    alloc: Global,
    watches: &[Watch],
    ram: &[u8],
) -> Result<Vec<u64>, AllocError>
    ensures { IfOk result (λ words. words.items ≡ spec.all_watched watches.now ram.now) }
{
    let mut words = Vec::new(alloc);
    'watches: for watch in watches {
        if words.push(watched(ram, *watch)).is_err() {
            return Err(AllocError);
        }
    }
    Ok(words)
}

/// The address of the first watch whose word isn't what it was before.
pub(crate) fn first_changed(watches: &[Watch], before: &[u64], ram: &[u8]) -> Option<u64>
    ensures { result ≡ spec.first_changed watches.now before.now ram.now }
{
    'watches: for i in 0..watches.len() {
        if i >= before.len() {
            return None;
        }
        let was = before[i];
        let watch = watches[i];
        if watched(ram, watch) != was {
            return Some(watch.address);
        }
    }
    None
}

// The watch of an aligned word.
fn watch_of_width(ram: &[u8], range: Range, satp: u64, width: Width) -> Option<Watch>
    ensures { result ≡ spec.watch_of_width ram.now range satp width }
{
    if range.start % u64::from(width.bytes()) != 0 {
        return None;
    }
    let place = seen_address(ram, satp, range.start)?;
    Some(Watch {
        address: range.start,
        place,
        width,
    })
}

/// The watch of a word of a hart's memory. None where there is no such word.
#[tactic(auto, unfolding(crate::specs::Watches::watch_of))]
pub(crate) fn watch_of(ram: &[u8], range: Range, hart: &SavedHart) -> Option<Watch>
    ensures { result ≡ spec.watch_of ram.now range hart.now }
{
    let width = Width::of(range.length)?;
    watch_of_width(ram, range, hart.satp, width)
}

fn is_elsewhere(watch: Watch, address: u64) -> bool
    ensures { result ≡ not (watch.address == address) }
{
    watch.address != address
}

/// A watch is cleared.
pub(crate) fn clear_watch(watches: &mut Vec<Watch>, address: u64)
    ensures { watches.new.items ≡ spec.without_watch watches.old.items address }
{
    watches.retain(|w| is_elsewhere(*w, address));
}

/// A watch is set, in the place of one of the same address.
pub(crate) fn set_watch(watches: &mut Vec<Watch>, watch: Watch) -> Result<(), AllocError>
    ensures { OnOk result (watches.new.items ≡ spec.with_watch watches.old.items (Some watch)) }
{
    clear_watch(watches, watch.address);
    if watches.push(watch).is_err() {
        return Err(AllocError);
    }
    Ok(())
}
