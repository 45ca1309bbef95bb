// Turns in a row.

ghost use Rattle.std.specs.Prelude.{◌≡◌, ◌+◌, ◌<◌, ◌≤◌, ◌^◌, None};
ghost use Rattle.spec_processor.specs.Counters.{CanCount};
ghost use Rattle.spec_processor.specs.HardwareAttempt.{attempt};
ghost use Rattle.spec_processor.specs.HypervisorRegisters.{pending};
ghost use Rattle.spec_processor.specs.declared.lines.Lines.{Lines};
ghost use Rattle.hart.specs.Cores.{core_of};
ghost use Rattle.hw_fast_path.specs.Quick.{Comes, GoesOn, Leads, MayTurn, Turned};
ghost use Rattle.hw_fast_path.specs.Ends.{turns_of};
ghost use Rattle.hw_fast_path.specs.Batches.{EndsBy};
ghost use Rattle.hw_tlb.specs.Kept.{ReachAgrees};
ghost use Rattle.hw_fast_path.specs.declared.leaving.Leaving.TheVariants.{Stays};

use crate::leaving::{Leaving, leave};
use crate::micro_op_cache::{FlatWords, MicroOpCache};
use crate::requests::{carry_out, carry_out_held};
use crate::tried::Tried;
use crate::window::{Window, at_pc, word_at_pc};
use hart::Core;
use host_mem::HostMem;
use hw_tlb::HartCaches;
use spec_processor::HRegs;

// A turn, with the window after it.
#[inline(always)]
fn turn(
    words: &mut FlatWords,
    core: &mut Core,
    regs: &HRegs,
    caches: &mut HartCaches,
    mem: &mut HostMem,
    window: &mut Window,
) -> Tried
    requires may { MayTurn mem.old core.old regs.now caches.old.second caches.old.both }
    requires leads { Leads mem.old (core_of core.old regs.now) window.old.page window.old.host }
    ensures comes { (lines : Lines) → pending regs.now core.old.csrs lines ≡ None →
        Comes result (attempt mem.old (core_of core.old regs.now) lines) mem.old mem.new (core_of core.old regs.now) (core_of core.new regs.now) }
    ensures turned { Turned result mem.old mem.new core.old core.new regs.now caches.old.second caches.new.second caches.new.both }
    ensures leads { Leads mem.new (core_of core.new regs.now) window.new.page window.new.host }
{
    let Some(here) = at_pc(core, regs, caches, mem, *window) else {
        return Tried::Stopped;
    };
    let word = here.word(core, regs, mem);
    match carry_out(core, regs, caches, mem, words.micro_op(core.pc, word)) {
        Tried::Stopped => {
            *window = here;
            Tried::Stopped
        }
        Tried::Retired => {
            *window = here;
            Tried::Retired
        }
        Tried::Stored => {
            *window = here.behind_store(core);
            Tried::Stored
        }
        Tried::ContextChanged => {
            *window = Window::none();
            Tried::ContextChanged
        }
    }
}

/// A row of turns: how many carried out their instructions, and how the hart left the guest in the turn after them.
#[derive(Clone, Copy, Drop)]
pub struct Batch {
    pub made: u64,
    pub left: Leaving,
}

impl Batch {
    /// No turn was made.
    #[inline(always)]
    pub fn none() -> Batch
        ensures { result ≡ record { made = 0; left = Stays } }
    {
        Batch {
            made: 0,
            left: Leaving::Stays,
        }
    }

    /// All turns that were made.
    #[inline(always)]
    pub fn turns(self) -> u64
        requires { CanCount self.made }
        ensures { result ≡ turns_of self }
    {
        match self.left {
            Leaving::Stays => self.made,
            Leaving::Calls | Leaving::Returns => self.made + 1,
        }
    }
}

// The turns themselves. All that they read and change is handed over by itself, so that the loop keeps it in registers.
#[inline(never)]
fn batch_of_turns(
    words: &mut FlatWords,
    core: &mut Core,
    regs: &HRegs,
    caches: &mut HartCaches,
    mem: &mut HostMem,
    most: u64,
) -> Batch
    requires may { MayTurn mem.old core.old regs.now caches.old.second caches.old.both }
    ensures ends { (lines : Lines) → pending regs.now core.old.csrs lines ≡ None →
        EndsBy result.left result.made mem.old (core_of core.old regs.now) lines mem.new (core_of core.new regs.now) }
    ensures most { turns_of result ≤ most }
    ensures on { GoesOn mem.old mem.new core.old core.new regs.now caches.old.second caches.new.second }
    ensures reach { ReachAgrees mem.new.tables caches.new.both }
{
    let mut window = Window::none();
    let mut made = 0;
    'turns: while made < most {
        let tried = turn(words, core, regs, caches, mem, &mut window);
        if !tried.is_made() {
            let left = leave(core, regs, mem, window);
            return Batch { made, left };
        }
        made += 1;
        if !tried.keeps_course() {
            return Batch {
                made,
                left: Leaving::Stays,
            };
        }
    }
    Batch {
        made,
        left: Leaving::Stays,
    }
}

// A turn by itself, by what is held alone: no call stands on its way. It is made, or all is as it was.
#[inline(never)]
fn lone_turn(
    words: &FlatWords,
    core: &mut Core,
    regs: &HRegs,
    caches: &mut HartCaches,
    mem: &mut HostMem,
) -> Tried
    requires may { MayTurn mem.old core.old regs.now caches.old.second caches.old.both }
    ensures comes { (lines : Lines) → pending regs.now core.old.csrs lines ≡ None →
        Comes result (attempt mem.old (core_of core.old regs.now) lines) mem.old mem.new (core_of core.old regs.now) (core_of core.new regs.now) }
    ensures turned { Turned result mem.old mem.new core.old core.new regs.now caches.old.second caches.new.second caches.new.both }
{
    let Some(word) = word_at_pc(core, regs, caches, mem) else {
        return Tried::Stopped;
    };
    let Some(micro_op) = words.held(core.pc, word) else {
        return Tried::Stopped;
    };
    carry_out_held(core, regs, caches, mem, micro_op)
}

/// A way by which turns of a hart are made.
pub trait Way {
    /// Up to `most` turns of a hart in a row, each of whose attempts carries out its instruction, and one after them that
    /// leaves the guest. Answers how many were made: what isn't a computation, a load, a store, an atomic operation, or an
    /// access to a register whose value doesn't go by the wires, or is refused, or misaligned, stops the row before its turn.
    /// Where the row stops at ECALL in user mode or SRET in kernel mode before it has `most` turns, that turn may be made too,
    /// and isn't among `made`; its exit is the caller's to answer. After a write of `sstatus`, `sie` or `satp` the row ends,
    /// since an interrupt may be due then.
    ///
    /// The hart has no reservation. No other hart's is looked at. That no interrupt is taken at the start is what the
    /// clause on turns asks; none comes up on the way, since no register changes that decides it. Each turn is an attempt,
    /// and counted.
    fn quick_turns(
        words: &mut MicroOpCache,
        core: &mut Core,
        regs: &HRegs,
        caches: &mut HartCaches,
        mem: &mut HostMem,
        most: u64,
    ) -> Batch
        requires may { MayTurn mem.old core.old regs.now caches.old.second caches.old.both }
        requires count { words.old + most < 2 ^ 64 }
        ensures ends { (lines : Lines) → pending regs.now core.old.csrs lines ≡ None →
            EndsBy result.left result.made mem.old (core_of core.old regs.now) lines mem.new (core_of core.new regs.now) }
        ensures most { turns_of result ≤ most }
        ensures on { GoesOn mem.old mem.new core.old core.new regs.now caches.old.second caches.new.second }
        ensures reach { ReachAgrees mem.new.tables caches.new.both }
        ensures count { words.new ≡ words.old + turns_of result };
}

/// In a row, by walks where a translation isn't held.
pub struct InRow;

impl Way for InRow {
    #[inline(always)]
    fn quick_turns(
        words: &mut MicroOpCache,
        core: &mut Core,
        regs: &HRegs,
        caches: &mut HartCaches,
        mem: &mut HostMem,
        most: u64,
    ) -> Batch {
        let batch = batch_of_turns(&mut words.micro_op, core, regs, caches, mem, most);
        words.count(batch);
        batch
    }
}

/// One alone, by what is held. Where that isn't enough, none is made.
pub struct Alone;

impl Way for Alone {
    #[inline(always)]
    fn quick_turns(
        words: &mut MicroOpCache,
        core: &mut Core,
        regs: &HRegs,
        caches: &mut HartCaches,
        mem: &mut HostMem,
        most: u64,
    ) -> Batch {
        if most == 0 {
            return Batch::none();
        }
        let tried = lone_turn(&words.micro_op, core, regs, caches, mem);
        if !tried.is_made() {
            return Batch::none();
        }
        let one = Batch {
            made: 1,
            left: Leaving::Stays,
        };
        words.count(one);
        one
    }
}
