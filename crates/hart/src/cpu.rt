// The count of the attempts that were made.

ghost use Rattle.std.specs.Prelude.{◌≡◌, ◌+◌, ◌%◌, IfOk};
ghost use Rattle.spec_processor.specs.Counters.{CanCount};
ghost use Rattle.spec_processor.specs.GStage.{WalksApart};
ghost use Rattle.spec_processor.specs.CachedWalks.{CacheAgrees, FilledUnder};
ghost use Rattle.spec_processor.specs.HardwareAttempt.{attempt, OnlyWrites};
ghost use Rattle.spec_processor.specs.Roots.{IsSv39x4};
ghost use Rattle.hart.specs.Cores.{core_of, attempted_of};
ghost use Rattle.hart.specs.Conditions.{KeepsMode};
ghost use Rattle.spec_processor.specs.Bytes.{instruction_size};

use crate::decode_cache::DecodeCache;
use crate::execution::attempt;
use crate::hart::Core;
use crate::interrupt_lines::InterruptLines;
use host_mem::HostMem;
use hw_tlb::gstage_cache::Cache;
use spec_processor::{HRegs, Outcome};
use std::alloc::{AllocError, Global};
use std::marker::Model;

/// Counts the attempts that are made through it. Contracts see the count.
#[derive(Drop)]
pub struct Cpu {
    count: u64,
    words: DecodeCache,
}

impl Model for Cpu {
    ghost use Rattle.std.specs.Prelude.{ℕ};

    ghost Value = { ℕ };

    ghost view = { λ c. c.count };
}

impl Cpu {
    /// No attempt was made. Out of memory is the one refusal.
    pub fn new(alloc: Global) -> Result<Cpu, AllocError>
        ensures { IfOk result (λ count. count ≡ 0) }
    {
        let words = DecodeCache::new(alloc)?;
        Ok(Cpu { count: 0, words })
    }

    /// The attempts that were made.
    pub fn count(&self) -> u64
        ensures { result ≡ self.now }
    {
        self.count
    }

    /// One attempt of a hart in VS or VU mode, counted: it takes an interrupt, or fetches an instruction through both
    /// stages of translation and carries it out. The bytes that it wrote are those that `Retired` names.
    ///
    /// `hgatp` has mode 8 (Sv39x4). Walks under it read the tables alone and lead to RAM, and every line of the cache
    /// agrees with the tables.
    #[inline(always)]
    pub fn attempt<W: InterruptLines>(
        &mut self,
        core: &mut Core,
        regs: &HRegs,
        cache: &mut Cache,
        mem: &mut HostMem,
        interrupt_lines: &W,
    ) -> Outcome
        requires count { CanCount self.old }
        requires aligned { core.old.pc % instruction_size ≡ 0 }
        requires mode { KeepsMode regs.now }
        requires second { IsSv39x4 regs.now.hgatp }
        requires apart { WalksApart mem.old regs.now.hgatp }
        requires agrees { CacheAgrees mem.old.tables cache.old }
        ensures counted { self.new ≡ self.old + 1 }
        ensures attempted { attempted_of mem.new core.new regs.now result ≡ attempt mem.old (core_of core.old regs.now) (W.seen interrupt_lines.now) }
        ensures pc { core.new.pc % instruction_size ≡ 0 }
        ensures tables { mem.new.tables ≡ mem.old.tables }
        ensures filled { FilledUnder mem.old.tables regs.now.hgatp cache.old cache.new }
        ensures agrees { CacheAgrees mem.new.tables cache.new }
        ensures written { OnlyWrites mem.old mem.new result }
    {
        self.count += 1;
        attempt(&mut self.words, core, regs, cache, mem, interrupt_lines)
    }
}
