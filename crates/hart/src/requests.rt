// Loads, stores and atomic instructions, by the host place that they reached.

ghost use Rattle.std.specs.Prelude.{true, ◌≡◌, ◌⊎◌, ◌<◌, ◌≤◌, ◌%◌, length, IfOk};
ghost use Rattle.spec_processor.specs.Effects.{set_register, next_pc};
ghost use Rattle.spec_processor.specs.Regions.{IsWidth, IsHostPlace};
ghost use Rattle.spec_processor.specs.Requests.{loaded_value, covers};
ghost use Rattle.spec_processor.specs.HardwareMemory.{retire, retire_with, after_load, after_load_reserved, after_store, after_store_conditional, after_amo};
ghost use Rattle.spec_processor.specs.IntegerRegisters.{register_count};
ghost use Rattle.hart.specs.Cores.{core_of, step_of, attempted_of};
ghost use Rattle.hart.specs.Conditions.{MayStep};
ghost use Rattle.spec_processor.specs.Bytes.{instruction_size};

use crate::hart::Core;
use crate::trap::raise;
use host_mem::HostMem;
use rv64_exec::{amo, loaded_value};
use spec_processor::{AmoOp, Exception, HRegs, INSTRUCTION_BYTES, Outcome, RESERVED_BYTES, Wrote};

/// The hart goes on after an instruction that is done.
#[inline(always)]
pub(crate) fn retire(core: &mut Core, wrote: Option<Wrote>) -> Outcome
    ensures core { core.new ≡ record core.old { pc = next_pc core.old.pc } }
    ensures outcome { result ≡ Outcome.Retired wrote }
{
    core.pc = core.pc.wrapping_add(INSTRUCTION_BYTES);
    Outcome::Retired { wrote }
}

/// The same with a register set.
#[inline(always)]
pub(crate) fn retire_with(core: &mut Core, rd: u8, value: u64, wrote: Option<Wrote>) -> Outcome
    requires { rd < register_count }
    ensures core { core.new ≡ record core.old { regs = set_register core.old.regs rd value; pc = next_pc core.old.pc } }
    ensures outcome { result ≡ Outcome.Retired wrote }
{
    core.regs.set(rd, value);
    retire(core, wrote)
}

/// How many bytes a load reads, and whether the highest bit of these fills those above.
#[derive(Clone, Copy, Drop)]
pub(crate) struct Format {
    pub(crate) width: u8,
    pub(crate) signed: bool,
}

/// A load.
#[tactic(auto, unfolding(spec_processor::specs::HardwareMemory::after_load))]
#[inline(always)]
pub(crate) fn load(
    core: &mut Core,
    regs: &HRegs,
    mem: &HostMem,
    rd: u8,
    format: Format,
    place: Result<u64, Exception>,
) -> Outcome
    requires ready { MayStep core.old regs.now }
    requires register { rd < register_count }
    requires width { IsWidth format.width }
    requires place { IfOk place (λ hpa. IsHostPlace mem.now hpa format.width) }
    ensures step { step_of core.new regs.now result ≡ after_load mem.now (core_of core.old regs.now) rd format.width format.signed place }
    ensures pc { core.new.pc % instruction_size ≡ 0 }
{
    match place {
        Ok(hpa) => {
            let word = mem.read(hpa as usize, format.width);
            retire_with(
                core,
                rd,
                loaded_value(format.signed, format.width, word),
                None,
            )
        }
        Err(exception) => raise(core, regs, exception),
    }
}

/// A load that reserves its place.
#[tactic(auto, unfolding(spec_processor::specs::HardwareMemory::after_load_reserved))]
#[inline(always)]
pub(crate) fn load_reserved(
    core: &mut Core,
    regs: &HRegs,
    mem: &HostMem,
    rd: u8,
    width: u8,
    place: Result<u64, Exception>,
) -> Outcome
    requires ready { MayStep core.old regs.now }
    requires register { rd < register_count }
    requires width { IsWidth width }
    requires place { IfOk place (λ hpa. IsHostPlace mem.now hpa width) }
    ensures step { step_of core.new regs.now result ≡ after_load_reserved mem.now (core_of core.old regs.now) rd width place }
    ensures pc { core.new.pc % instruction_size ≡ 0 }
{
    match place {
        Ok(hpa) => {
            let word = mem.read(hpa as usize, width);
            core.reservation = Some(hpa - hpa % RESERVED_BYTES);
            retire_with(core, rd, loaded_value(true, width, word), None)
        }
        Err(exception) => raise(core, regs, exception),
    }
}

/// The `width` lowest bytes of a value.
#[derive(Clone, Copy, Drop)]
pub(crate) struct Stored {
    pub(crate) width: u8,
    pub(crate) value: u64,
}

/// A store.
#[tactic(auto, using(hw_tlb::proofs::WritesAndWalks::write_after), unfolding(spec_processor::specs::HardwareMemory::after_store))]
#[inline(always)]
pub(crate) fn store(
    core: &mut Core,
    regs: &HRegs,
    mem: &mut HostMem,
    stored: Stored,
    place: Result<u64, Exception>,
) -> Outcome
    requires ready { MayStep core.old regs.now }
    requires place { IfOk place (λ hpa. IsHostPlace mem.old hpa stored.width) }
    requires ram { IfOk place (λ hpa. length mem.old.tables ≤ hpa) }
    ensures attempted { attempted_of mem.new core.new regs.now result ≡ after_store mem.old (core_of core.old regs.now) stored.width stored.value place }
    ensures tables { mem.new.tables ≡ mem.old.tables }
    ensures pc { core.new.pc % instruction_size ≡ 0 }
{
    match place {
        Ok(hpa) => {
            mem.write(hpa as usize, stored.width, stored.value);
            core.forget(hpa, u64::from(stored.width));
            retire(
                core,
                Some(Wrote {
                    hpa,
                    width: u64::from(stored.width),
                }),
            )
        }
        Err(exception) => raise(core, regs, exception),
    }
}

#[tactic(auto, unfolding(spec_processor::specs::Requests::covers))]
fn covers(reservation: Option<u64>, hpa: u64, width: u8) -> bool
    ensures { result ≡ covers reservation hpa width }
{
    match reservation {
        Some(reserved) => {
            let width = u64::from(width);
            width <= RESERVED_BYTES && reserved <= hpa && hpa - reserved <= RESERVED_BYTES - width
        }
        None => false,
    }
}

/// A store that is carried out where its bytes lie in the hart's reservation, which goes in both cases.
#[tactic(auto, using(hw_tlb::proofs::WritesAndWalks::write_after), unfolding(spec_processor::specs::HardwareMemory::after_store_conditional))]
#[inline(always)]
pub(crate) fn store_conditional(
    core: &mut Core,
    regs: &HRegs,
    mem: &mut HostMem,
    rd: u8,
    stored: Stored,
    place: Result<u64, Exception>,
) -> Outcome
    requires ready { MayStep core.old regs.now }
    requires register { rd < register_count }
    requires place { IfOk place (λ hpa. IsHostPlace mem.old hpa stored.width) }
    requires ram { IfOk place (λ hpa. length mem.old.tables ≤ hpa) }
    ensures attempted { attempted_of mem.new core.new regs.now result ≡
        after_store_conditional mem.old (core_of core.old regs.now) rd stored.width stored.value place }
    ensures tables { mem.new.tables ≡ mem.old.tables }
    ensures pc { core.new.pc % instruction_size ≡ 0 }
{
    match place {
        Ok(hpa) => {
            let holds = covers(core.reservation, hpa, stored.width);
            core.reservation = None;
            if holds {
                mem.write(hpa as usize, stored.width, stored.value);
                retire_with(
                    core,
                    rd,
                    0,
                    Some(Wrote {
                        hpa,
                        width: u64::from(stored.width),
                    }),
                )
            } else {
                retire_with(core, rd, 1, None)
            }
        }
        Err(exception) => raise(core, regs, exception),
    }
}

/// What an atomic instruction makes of the word of `width` bytes that it reads and the value of rs2.
#[derive(Clone, Copy, Drop)]
pub(crate) struct Operation {
    pub(crate) op: AmoOp,
    pub(crate) width: u8,
    pub(crate) value: u64,
}

/// An atomic instruction: a load, and a store of what the operation makes of the loaded word.
#[tactic(auto, using(hw_tlb::proofs::WritesAndWalks::write_after), unfolding(spec_processor::specs::HardwareMemory::after_amo))]
#[inline(always)]
pub(crate) fn atomic(
    core: &mut Core,
    regs: &HRegs,
    mem: &mut HostMem,
    rd: u8,
    operation: Operation,
    place: Result<u64, Exception>,
) -> Outcome
    requires ready { MayStep core.old regs.now }
    requires register { rd < register_count }
    requires width { (operation.width ≡ 4) ⊎ (operation.width ≡ 8) }
    requires place { IfOk place (λ hpa. IsHostPlace mem.old hpa operation.width) }
    requires ram { IfOk place (λ hpa. length mem.old.tables ≤ hpa) }
    ensures attempted { attempted_of mem.new core.new regs.now result ≡
        after_amo mem.old (core_of core.old regs.now) rd operation.width operation.op operation.value place }
    ensures tables { mem.new.tables ≡ mem.old.tables }
    ensures pc { core.new.pc % instruction_size ≡ 0 }
{
    match place {
        Ok(hpa) => {
            let word = mem.read(hpa as usize, operation.width);
            mem.write(
                hpa as usize,
                operation.width,
                amo(operation.op, operation.width, word, operation.value),
            );
            core.forget(hpa, u64::from(operation.width));
            retire_with(
                core,
                rd,
                loaded_value(true, operation.width, word),
                Some(Wrote {
                    hpa,
                    width: u64::from(operation.width),
                }),
            )
        }
        Err(exception) => raise(core, regs, exception),
    }
}
