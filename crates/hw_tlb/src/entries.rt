// The entries that a translation read.

ghost use Rattle.std.specs.Prelude.{◌≡◌, ◌<◌, true};
ghost use Rattle.spec_processor.specs.Regions.{IsHostPlace};
ghost use Rattle.spec_processor.specs.GStage.{WalksApart};
ghost use Rattle.hw_tlb.specs.Kept.{with_entry, IsThere, AreThere, ArePlaces};
ghost use Rattle.spec_processor.specs.Translation.{entry_size, table_levels};

use host_mem::HostMem;
use spec_processor::ENTRY_WIDTH;

/// An entry of a table that a walk read: its host place, and the word that stood there.
#[derive(Clone, Copy, Drop)]
pub struct Entry {
    pub at: u64,
    pub word: u64,
}

impl Entry {
    // Whether the word that was read still stands there.
    #[inline(always)]
    fn is_there(self, mem: &HostMem) -> bool
        requires { IsHostPlace mem.now self.at entry_size }
        ensures yes { result ≡ true → IsThere mem.now self }
        ensures no { IsThere mem.now self → result ≡ true }
    {
        mem.read(self.at as usize, ENTRY_WIDTH) == self.word
    }
}

/// The entries that a walk of the first stage read, of the root first. Where it ended sooner, its last one stands for those
/// that it didn't come to.
#[derive(Clone, Copy, Drop)]
pub struct Entries {
    pub root: Entry,
    pub middle: Entry,
    pub last: Entry,
}

impl Entries {
    // Those of no walk.
    pub(crate) fn none() -> Entries {
        let none = Entry { at: 0, word: 0 };
        Entries {
            root: none,
            middle: none,
            last: none,
        }
    }

    // With the entry of the level that has so many below it, which stands for these too.
    pub(crate) fn with_entry(self, below: u32, seen: Entry) -> Entries
        requires { below < table_levels }
        ensures { result ≡ with_entry below self seen }
    {
        match below {
            0 => Entries {
                root: self.root,
                middle: self.middle,
                last: seen,
            },
            1 => Entries {
                root: self.root,
                middle: seen,
                last: seen,
            },
            _ => Entries {
                root: seen,
                middle: seen,
                last: seen,
            },
        }
    }

    // Whether all words that were read still stand there.
    #[inline(always)]
    pub(crate) fn are_there(&self, mem: &HostMem, hgatp: u64) -> bool
        requires apart { WalksApart mem.now hgatp }
        requires places { ArePlaces mem.now.tables hgatp self.now }
        ensures yes { result ≡ true → AreThere mem.now self.now }
        ensures no { AreThere mem.now self.now → result ≡ true }
    {
        let _table_bytes = mem.table_bytes();
        self.last.is_there(mem) && self.middle.is_there(mem) && self.root.is_there(mem)
    }
}
