// One attempt of a hart.

ghost use Rattle.std.specs.Prelude.{◌≡◌, ◌<◌, Some, None};
ghost use Rattle.spec_processor.specs.Effects.{set_register};
ghost use Rattle.spec_processor.specs.HypervisorRegisters.{pending};
ghost use Rattle.spec_processor.specs.HardwareMemory.{translation_result};
ghost use Rattle.spec_processor.specs.declared.access.Access.TheVariants as Access;
ghost use Rattle.spec_processor.specs.HardwareAttempt.{after_word, after_fetch, attempt, OnlyWrites};
ghost use Rattle.spec_processor.specs.IntegerRegisters.{register_count};
ghost use Rattle.hart.specs.Cores.{core_of, attempted_of};
ghost use Rattle.hart.specs.Conditions.{MayAttempt, StaysReady};

use crate::decode_cache::{DecodeCache, Decoded};
use crate::hart::Core;
use crate::interrupt_lines::InterruptLines;
use crate::memory::{Request, aligned_place, translation_result};
use crate::requests::{
    Format, Operation, Stored, atomic, load, load_reserved, retire, store, store_conditional,
};
use crate::system::{
    CsrAccess, call, csr, csr_reached, illegal, sret, supervisor_only, virtual_instruction,
};
use crate::trap::{interrupt, plain_exception, raise};
use csr_file::pending;
use host_mem::HostMem;
use hw_tlb::gstage_cache::Cache;
use rv64_exec::effect;
use spec_processor::{Access, Cause, Effect, HRegs, INSTRUCTION_BYTES, Interrupt, Outcome};

/// What `Cpu::attempt` does, without the count.
#[tactic(auto, using(crate::proofs::AttemptStages::fills), unfolding(crate::proofs::AttemptStages::first_stage))]
#[inline(always)]
pub(crate) fn attempt<W: InterruptLines>(
    words: &mut DecodeCache,
    core: &mut Core,
    regs: &HRegs,
    cache: &mut Cache,
    mem: &mut HostMem,
    interrupt_lines: &W,
) -> Outcome
    requires ready { MayAttempt mem.old core.old regs.now cache.old }
    ensures attempted { attempted_of mem.new core.new regs.now result ≡ attempt mem.old (core_of core.old regs.now) (W.seen interrupt_lines.now) }
    ensures kept { StaysReady mem.old mem.new core.new regs.now cache.old cache.new }
    ensures written { OnlyWrites mem.old mem.new result }
{
    match interrupt_due(core, regs, interrupt_lines) {
        Some(taken) => interrupt(core, regs, taken),
        None => fetch(words, core, regs, cache, mem, interrupt_lines),
    }
}

// The interrupt that is taken. Where none is enabled, no wire is read.
#[tactic(auto, unfolding(spec_processor::specs::HypervisorRegisters::pending, spec_processor::specs::HypervisorRegisters::is_taken))]
#[inline(always)]
fn interrupt_due<W: InterruptLines>(
    core: &Core,
    regs: &HRegs,
    interrupt_lines: &W,
) -> Option<Interrupt>
    ensures { result ≡ pending regs.now core.now.csrs (W.seen interrupt_lines.now) }
{
    if core.csrs.hie == 0 {
        return None;
    }
    pending(&core.csrs, regs, &interrupt_lines.lines())
}

// What the pc leads to, carried out.
#[tactic(auto, using(crate::proofs::AttemptStages::fills), unfolding(spec_processor::specs::HardwareAttempt::after_fetch))]
#[inline(always)]
fn fetch<W: InterruptLines>(
    words: &mut DecodeCache,
    core: &mut Core,
    regs: &HRegs,
    cache: &mut Cache,
    mem: &mut HostMem,
    interrupt_lines: &W,
) -> Outcome
    requires ready { MayAttempt mem.old core.old regs.now cache.old }
    ensures attempted { attempted_of mem.new core.new regs.now result ≡
        after_fetch mem.old (core_of core.old regs.now) (W.seen interrupt_lines.now)
        (translation_result mem.old (core_of core.old regs.now) Access.Fetch core.old.pc 0) }
    ensures kept { StaysReady mem.old mem.new core.new regs.now cache.old cache.new }
{
    match translation_result(core, regs, cache, mem, Request::fetch(core.pc)) {
        Ok(hpa) => {
            let word = mem.read(hpa as usize, INSTRUCTION_BYTES as u8) as u32;
            let decoded = words.decoded_word(core.pc, word);
            carry_out(core, regs, cache, mem, interrupt_lines, decoded)
        }
        Err(exception) => raise(core, regs, exception),
    }
}

#[inline(always)]
fn set(core: &mut Core, rd: u8, value: u64, next: u64) -> Outcome
    requires { rd < register_count }
    ensures core { core.new ≡ record core.old { regs = set_register core.old.regs rd value; pc = next } }
    ensures outcome { result ≡ Outcome.Retired None }
{
    core.regs.set(rd, value);
    core.pc = next;
    Outcome::Retired { wrote: None }
}

// A word that was decoded, carried out.
#[tactic(auto, using(crate::proofs::AttemptStages::fills_by_request), unfolding(crate::proofs::AttemptStages::word_stages))]
#[inline(always)]
fn carry_out<W: InterruptLines>(
    core: &mut Core,
    regs: &HRegs,
    cache: &mut Cache,
    mem: &mut HostMem,
    interrupt_lines: &W,
    decoded: &Decoded,
) -> Outcome
    requires ready { MayAttempt mem.old core.old regs.now cache.old }
    ensures attempted { attempted_of mem.new core.new regs.now result ≡
        after_word mem.old (core_of core.old regs.now) (W.seen interrupt_lines.now) decoded.now.word }
    ensures kept { StaysReady mem.old mem.new core.new regs.now cache.old cache.new }
{
    let word = decoded.word;
    let Some(instr) = &decoded.instr else {
        return raise(core, regs, illegal(word));
    };
    match effect(instr, &core.regs, core.pc) {
        Effect::Set { rd, value, next } => set(core, rd, value, next),
        Effect::MisalignedJump { target } => {
            raise(core, regs, plain_exception(Cause::InstrMisaligned, target))
        }
        Effect::Load {
            rd,
            addr,
            width,
            signed,
        } => {
            let source = aligned_place(core, regs, cache, mem, Request::load(addr, word), width);
            load(core, regs, mem, rd, Format { width, signed }, source)
        }
        Effect::Store { addr, width, value } => {
            let target = aligned_place(core, regs, cache, mem, Request::store(addr, word), width);
            store(core, regs, mem, Stored { width, value }, target)
        }
        Effect::LoadReserved { rd, addr, width } => {
            let request = Request::atomic(Access::Load, addr, word);
            let source = aligned_place(core, regs, cache, mem, request, width);
            load_reserved(core, regs, mem, rd, width, source)
        }
        Effect::StoreConditional {
            rd,
            addr,
            width,
            value,
        } => {
            let request = Request::atomic(Access::Store, addr, word);
            let target = aligned_place(core, regs, cache, mem, request, width);
            let stored = Stored { width, value };
            store_conditional(core, regs, mem, rd, stored, target)
        }
        Effect::Amo {
            rd,
            addr,
            width,
            op,
            value,
        } => {
            let request = Request::atomic(Access::Store, addr, word);
            let place = aligned_place(core, regs, cache, mem, request, width);
            let operation = Operation { op, width, value };
            atomic(core, regs, mem, rd, operation, place)
        }
        Effect::Csr {
            rd,
            number,
            op,
            value,
            writes,
        } => {
            let reached = csr_reached(core, regs, word, number, writes);
            let access = CsrAccess { op, value, writes };
            csr(core, regs, &interrupt_lines.lines(), rd, access, reached)
        }
        Effect::Ecall => call(core, regs),
        Effect::Ebreak => raise(core, regs, plain_exception(Cause::Breakpoint, core.pc)),
        Effect::Sret => sret(core, regs, word),
        Effect::Wfi | Effect::SfenceVma => supervisor_only(core, regs, word),
        Effect::Fence => retire(core, None),
        Effect::Hyper => raise(core, regs, virtual_instruction(word)),
    }
}
