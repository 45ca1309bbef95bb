// The effects of instructions that quick turns carry out.

ghost use Rattle.std.specs.Prelude.{◌≡◌, ◌⊎◌, ◌<◌, ◌%◌, ℕ, None};
ghost use Rattle.spec_processor.specs.Regions.{IsWidth, Region};
ghost use Rattle.spec_processor.specs.Requests.{loaded_value, IsRequest};
ghost use Rattle.spec_processor.specs.Hardware.{with_region};
ghost use Rattle.spec_processor.specs.HardwareAttempt.{after_effect, after_supervisor_only, after_word};
ghost use Rattle.spec_processor.specs.HardwareMemory.{aligned_translation, after_amo, after_load, after_store};
ghost use Rattle.spec_processor.specs.IntegerRegisters.{register_count};
ghost use Rattle.spec_processor.specs.declared.access.Access.TheVariants as Access;
ghost use Rattle.spec_processor.specs.declared.lines.Lines.{Lines};
ghost use Rattle.hart.specs.Cores.{core_of};
ghost use Rattle.hart.specs.Conditions.{MayStep};
ghost use Rattle.hw_fast_path.specs.Quick.{Comes, MayTurn, Steers, Turned};
ghost use Rattle.spec_processor.specs.Bytes.{instruction_size};

use crate::memory::{Held, Lookup, Reference, Walks, aligned_place};
use crate::micro_op::MicroOp;
use crate::registers::{CsrAccess, csr};
use crate::tried::Tried;
use hart::Core;
use host_mem::HostMem;
use hw_tlb::HartCaches;
use rv64_exec::{amo, loaded_value};
use spec_processor::{Access, AmoOp, Effect, HRegs, INSTRUCTION_BYTES, Mode};

// A load into a register.
#[derive(Clone, Copy, Drop)]
struct Loading {
    rd: u8,
    address: u64,
    width: u8,
    signed: bool,
}

// A load, where its place is reached.
#[tactic(auto, using(hw_tlb::specs::Fills::nothing_filled), unfolding(spec_processor::specs::HardwareMemory::after_load))]
#[inline(always)]
fn load<L: Lookup>(
    core: &mut Core,
    regs: &HRegs,
    caches: &mut HartCaches,
    mem: &HostMem,
    load: Loading,
) -> Tried
    requires may { MayTurn mem.now core.old regs.now caches.old.second caches.old.both }
    requires register { load.rd < register_count }
    requires width { IsWidth load.width }
    ensures comes { (htinst : ℕ) →
        Comes result
        (with_region mem.now (after_load mem.now (core_of core.old regs.now) load.rd load.width load.signed
        (aligned_translation mem.now (core_of core.old regs.now) Access.Load load.address load.width htinst))) mem.now mem.now
        (core_of core.old regs.now) (core_of core.new regs.now) }
    ensures turned { Turned result mem.now mem.now core.old core.new regs.now caches.old.second caches.new.second caches.new.both }
{
    let reference = Reference {
        access: Access::Load,
        address: load.address,
        width: load.width,
    };
    match aligned_place::<L>(core, regs, caches, mem, reference) {
        Some(hpa) => {
            let word = mem.read(hpa as usize, load.width);
            core.regs
                .set(load.rd, loaded_value(load.signed, load.width, word));
            core.pc = core.pc.wrapping_add(INSTRUCTION_BYTES);
            Tried::Retired
        }
        None => Tried::Stopped,
    }
}

// A store of the lowest bytes of a value.
#[derive(Clone, Copy, Drop)]
struct Storing {
    address: u64,
    width: u8,
    value: u64,
}

// A store, where its place is reached. No hart but this one, which has no reservation, is looked at.
#[tactic(auto, using(crate::proofs::Stores::kept), unfolding(spec_processor::specs::HardwareMemory::after_store, spec_processor::specs::Requests::after_write))]
#[inline(always)]
fn store<L: Lookup>(
    core: &mut Core,
    regs: &HRegs,
    caches: &mut HartCaches,
    mem: &mut HostMem,
    store: Storing,
) -> Tried
    requires may { MayTurn mem.old core.old regs.now caches.old.second caches.old.both }
    requires width { IsWidth store.width }
    ensures comes { (htinst : ℕ) →
        Comes result (after_store mem.old (core_of core.old regs.now) store.width store.value
        (aligned_translation mem.old (core_of core.old regs.now) Access.Store store.address store.width htinst)) mem.old mem.new
        (core_of core.old regs.now) (core_of core.new regs.now) }
    ensures turned { Turned result mem.old mem.new core.old core.new regs.now caches.old.second caches.new.second caches.new.both }
{
    let reference = Reference {
        access: Access::Store,
        address: store.address,
        width: store.width,
    };
    match aligned_place::<L>(core, regs, caches, mem, reference) {
        Some(hpa) => {
            mem.write(hpa as usize, store.width, store.value);
            core.pc = core.pc.wrapping_add(INSTRUCTION_BYTES);
            Tried::Stored
        }
        None => Tried::Stopped,
    }
}

// An atomic operation: a register takes the word that is read, and what the operation makes of it is stored.
#[derive(Clone, Copy, Drop)]
struct Operation {
    rd: u8,
    address: u64,
    width: u8,
    op: AmoOp,
    value: u64,
}

// An atomic operation, where its place is reached. As with a store, no other hart is looked at.
#[tactic(auto, using(crate::proofs::Stores::kept), unfolding(spec_processor::specs::HardwareMemory::after_amo, spec_processor::specs::Requests::after_write))]
#[inline(always)]
fn atomic(
    core: &mut Core,
    regs: &HRegs,
    caches: &mut HartCaches,
    mem: &mut HostMem,
    operation: Operation,
) -> Tried
    requires may { MayTurn mem.old core.old regs.now caches.old.second caches.old.both }
    requires register { operation.rd < register_count }
    requires width { IsWidth operation.width }
    requires word { (operation.width ≡ 4) ⊎ (operation.width ≡ 8) }
    ensures comes { (htinst : ℕ) →
        Comes result (after_amo mem.old (core_of core.old regs.now) operation.rd operation.width operation.op operation.value
        (aligned_translation mem.old (core_of core.old regs.now) Access.Store operation.address operation.width htinst)) mem.old mem.new
        (core_of core.old regs.now) (core_of core.new regs.now) }
    ensures turned { Turned result mem.old mem.new core.old core.new regs.now caches.old.second caches.new.second caches.new.both }
{
    // Its word is read where stores may go, and never where loads alone may.
    let access = Access::Store;
    let reference = Reference {
        access,
        address: operation.address,
        width: operation.width,
    };
    match aligned_place::<Walks>(core, regs, caches, mem, reference) {
        Some(hpa) => {
            let word = mem.read(hpa as usize, operation.width);
            let made = amo(operation.op, operation.width, word, operation.value);
            mem.write(hpa as usize, operation.width, made);
            core.regs
                .set(operation.rd, loaded_value(true, operation.width, word));
            core.pc = core.pc.wrapping_add(INSTRUCTION_BYTES);
            Tried::Stored
        }
        None => Tried::Stopped,
    }
}

// An instruction that kernel mode alone has and that changes nothing but the pc: a wait for an interrupt, which doesn't wait,
// and a fence of translations, of which none is kept alongside the words that it comes of.
#[tactic(auto, unfolding(spec_processor::specs::HardwareAttempt::after_supervisor_only))]
#[inline(always)]
fn supervisor_only(core: &mut Core, regs: &HRegs) -> Tried
    requires ready { MayStep core.old regs.now }
    requires free { core.old.reservation ≡ None }
    ensures comes { (r : Region) → (word : ℕ) →
        Comes result (with_region r (after_supervisor_only (core_of core.old regs.now) word regs.now.mode)) r r (core_of core.old regs.now)
        (core_of core.new regs.now) }
    ensures pc { core.new.pc % instruction_size ≡ 0 }
    ensures free { core.new.reservation ≡ None }
    ensures course { Steers result core.old.csrs core.new.csrs }
{
    match regs.mode {
        Mode::Kernel => {
            core.pc = core.pc.wrapping_add(INSTRUCTION_BYTES);
            Tried::Retired
        }
        Mode::User => Tried::Stopped,
    }
}

// An effect carried out, where it only computes, loads, stores, operates on a word of memory, or reads or writes a register that
// doesn't go by the wires.
#[tactic(auto, using(hw_tlb::specs::Fills::nothing_filled), unfolding(spec_processor::specs::HardwareAttempt::after_effect))]
#[inline(always)]
fn apply(
    core: &mut Core,
    regs: &HRegs,
    caches: &mut HartCaches,
    mem: &mut HostMem,
    effect: Effect,
) -> Tried
    requires may { MayTurn mem.old core.old regs.now caches.old.second caches.old.both }
    requires request { IsRequest effect }
    ensures comes { (lines : Lines) → (word : ℕ) →
        Comes result (after_effect mem.old (core_of core.old regs.now) lines word effect) mem.old mem.new (core_of core.old regs.now)
        (core_of core.new regs.now) }
    ensures turned { Turned result mem.old mem.new core.old core.new regs.now caches.old.second caches.new.second caches.new.both }
{
    match effect {
        Effect::Set { rd, value, next } => {
            core.regs.set(rd, value);
            core.pc = next;
            Tried::Retired
        }
        Effect::Load {
            rd,
            addr,
            width,
            signed,
        } => load::<Walks>(
            core,
            regs,
            caches,
            mem,
            Loading {
                rd,
                address: addr,
                width,
                signed,
            },
        ),
        Effect::Store { addr, width, value } => store::<Walks>(
            core,
            regs,
            caches,
            mem,
            Storing {
                address: addr,
                width,
                value,
            },
        ),
        Effect::Amo {
            rd,
            addr,
            width,
            op,
            value,
        } => atomic(
            core,
            regs,
            caches,
            mem,
            Operation {
                rd,
                address: addr,
                width,
                op,
                value,
            },
        ),
        Effect::Csr {
            rd,
            number,
            op,
            value,
            writes,
        } => csr(
            core,
            regs,
            CsrAccess {
                rd,
                number,
                op,
                operand: value,
                writes,
            },
        ),
        Effect::Fence => {
            core.pc = core.pc.wrapping_add(INSTRUCTION_BYTES);
            Tried::Retired
        }
        Effect::Wfi | Effect::SfenceVma => supervisor_only(core, regs),
        _ => Tried::Stopped,
    }
}

// An effect carried out, where it only computes, loads or stores, and by what is held alone: all that is done without a call.
#[tactic(auto, using(hw_tlb::specs::Fills::nothing_filled), unfolding(spec_processor::specs::HardwareAttempt::after_effect))]
#[inline(always)]
fn apply_held(
    core: &mut Core,
    regs: &HRegs,
    caches: &mut HartCaches,
    mem: &mut HostMem,
    effect: Effect,
) -> Tried
    requires may { MayTurn mem.old core.old regs.now caches.old.second caches.old.both }
    requires request { IsRequest effect }
    ensures comes { (lines : Lines) → (word : ℕ) →
        Comes result (after_effect mem.old (core_of core.old regs.now) lines word effect) mem.old mem.new (core_of core.old regs.now)
        (core_of core.new regs.now) }
    ensures turned { Turned result mem.old mem.new core.old core.new regs.now caches.old.second caches.new.second caches.new.both }
{
    match effect {
        Effect::Set { rd, value, next } => {
            core.regs.set(rd, value);
            core.pc = next;
            Tried::Retired
        }
        Effect::Load {
            rd,
            addr,
            width,
            signed,
        } => load::<Held>(
            core,
            regs,
            caches,
            mem,
            Loading {
                rd,
                address: addr,
                width,
                signed,
            },
        ),
        Effect::Store { addr, width, value } => store::<Held>(
            core,
            regs,
            caches,
            mem,
            Storing {
                address: addr,
                width,
                value,
            },
        ),
        _ => Tried::Stopped,
    }
}

/// An instruction carried out by what is held alone.
#[tactic(auto, using(hw_tlb::specs::Fills::nothing_filled))]
#[inline(always)]
pub(crate) fn carry_out_held(
    core: &mut Core,
    regs: &HRegs,
    caches: &mut HartCaches,
    mem: &mut HostMem,
    micro_op: &MicroOp,
) -> Tried
    requires may { MayTurn mem.old core.old regs.now caches.old.second caches.old.both }
    ensures comes { (lines : Lines) →
        Comes result (after_word mem.old (core_of core.old regs.now) lines micro_op.now.word) mem.old mem.new (core_of core.old regs.now)
        (core_of core.new regs.now) }
    ensures turned { Turned result mem.old mem.new core.old core.new regs.now caches.old.second caches.new.second caches.new.both }
{
    match micro_op.effect::<Held>(&core.regs, core.pc) {
        Some(effect) => apply_held(core, regs, caches, mem, effect),
        None => Tried::Stopped,
    }
}

/// An instruction carried out, where it is one that rows have and its effect can be carried out in one.
#[tactic(auto, using(hw_tlb::specs::Fills::nothing_filled))]
#[inline(always)]
pub(crate) fn carry_out(
    core: &mut Core,
    regs: &HRegs,
    caches: &mut HartCaches,
    mem: &mut HostMem,
    micro_op: &MicroOp,
) -> Tried
    requires may { MayTurn mem.old core.old regs.now caches.old.second caches.old.both }
    ensures comes { (lines : Lines) →
        Comes result (after_word mem.old (core_of core.old regs.now) lines micro_op.now.word) mem.old mem.new (core_of core.old regs.now)
        (core_of core.new regs.now) }
    ensures turned { Turned result mem.old mem.new core.old core.new regs.now caches.old.second caches.new.second caches.new.both }
{
    match micro_op.effect::<Walks>(&core.regs, core.pc) {
        Some(effect) => apply(core, regs, caches, mem, effect),
        None => Tried::Stopped,
    }
}
