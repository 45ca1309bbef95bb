// The checks of each file's lines: none where a line can't be read, or its instruction asks for something else.

ghost use Rattle.std.specs.Prelude.{◌<◌};

use crate::instructions::line::{columns, is_next, number};
use crate::instructions::names::name_of;
use rv64_decode::decode;
use rv64_encode::text::instruction_text;
use rv64_exec::{Effect, Regs, amo, effect};
use std::alloc::{AllocError, Global};

/// Where the vectors' instructions stood.
const PC: u64 = 0x4000_0800;

/// Where the 8 bytes of memory stood.
const MEMORY: u64 = 0x5000_0800;

// The effect of a word with the values that its registers have.
fn effect_of(word: u64, rs1: u64, rs2: u64) -> Option<Effect> {
    let instr = decode(u32::try_from(word).ok()?)?;
    let mut regs = Regs::new();
    regs.set(register(word, 20), rs2);
    regs.set(register(word, 15), rs1);
    Some(effect(&instr, &regs, PC))
}

// The register number that a word has from a bit on.
fn register(word: u64, bit: u32) -> u8
    requires { bit < 64 }
    ensures { result < 32 }
{
    ((word >> bit) % 32) as u8
}

// The effect sets the word's rd, which then reads as this value, and goes on there. A fence sets no register.
fn sets(found: Effect, word: u64, wanted: u64, then: u64) -> bool {
    match found {
        Effect::Set { rd, value, next } => rd == register(word, 7)
            && reads(word, value, wanted)
            && next == then,
        Effect::Fence => wanted == 0,
        _ => false,
    }
}

// The effect sets no register, and goes on there.
fn goes_on(found: Effect, then: u64) -> bool {
    match found {
        Effect::Set { rd, value, next } => rd == 0 && value == 0 && next == then,
        _ => false,
    }
}

// The effect is a jump to this address, which is no multiple of 4.
fn is_misaligned(found: Effect, wanted: u64) -> bool {
    match found {
        Effect::MisalignedJump { target } => target == wanted,
        _ => false,
    }
}

// Once it has a value, the word's rd reads as the wanted one.
fn reads(word: u64, value: u64, wanted: u64) -> bool {
    let mut regs = Regs::new();
    regs.set(register(word, 7), value);
    regs.get(register(word, 7)) == wanted
}

/// `word rs1 rs2 -> value`
pub fn computes(text: &str) -> Option<bool> {
    let mut words = columns(text);
    let word = number(&mut words)?;
    let found = effect_of(word, number(&mut words)?, number(&mut words)?)?;
    let arrow = is_next(&mut words, "->");
    Some(arrow && sets(found, word, number(&mut words)?, PC + 4))
}

/// `word rs1 rs2 -> value next`, with `-` for the value of a branch, or `trap 0 target`
pub fn jumps(text: &str) -> Option<bool> {
    let mut words = columns(text);
    let word = number(&mut words)?;
    let found = effect_of(word, number(&mut words)?, number(&mut words)?)?;
    let arrow = is_next(&mut words, "->");
    let first = words.next()?;
    let agrees = if first == "trap" {
        let cause = number(&mut words)?;
        let target = number(&mut words)?;
        cause == 0 && is_misaligned(found, target)
    } else if first == "-" {
        goes_on(found, number(&mut words)?)
    } else {
        let value = u64::from_str_radix(first, 16).ok()?;
        sets(found, word, value, number(&mut words)?)
    };
    Some(arrow && agrees)
}

/// `word rs1 rs2 memory -> value memory`, with `-` for the value of a store. Conditional stores find no reservation.
pub fn accesses(text: &str) -> Option<bool> {
    let mut words = columns(text);
    let word = number(&mut words)?;
    let found = effect_of(word, number(&mut words)?, number(&mut words)?)?;
    let before = number(&mut words)?;
    let arrow = is_next(&mut words, "->");
    let value = number(&mut words);
    let after = number(&mut words)?;
    let (read, written) = access_result(found, before)?;
    let sets = match (read, value) {
        (Some(read), Some(wanted)) => reads(word, read, wanted),
        (None, None) => true,
        _ => false,
    };
    Some(arrow && sets && written == after)
}

// What an access reads, if it sets a register, and the memory that it leaves.
fn access_result(found: Effect, before: u64) -> Option<(Option<u64>, u64)> {
    match found {
        Effect::Load {
            addr,
            width,
            signed,
            ..
        } => Some((Some(load_value(before, addr, width, signed)?), before)),
        Effect::Store { addr, width, value } => Some((
            None,
            memory_after_store(before, addr, width, value)?,
        )),
        Effect::LoadReserved { addr, width, .. } => Some((
            Some(load_value(before, addr, width, true)?),
            before,
        )),
        Effect::StoreConditional { .. } => Some((Some(1), before)),
        Effect::Amo {
            addr,
            width,
            op,
            value,
            ..
        } => {
            let old = load_value(before, addr, width, true)?;
            if width != 4 && width != 8 {
                return None;
            }
            Some((
                Some(old),
                memory_after_store(before, addr, width, amo(op, width, old, value))?,
            ))
        }
        _ => None,
    }
}

// The bytes of memory before an address, as bits, and the bits of an access that lies in memory.
fn place(addr: u64, width: u8) -> Option<(u32, u32)> {
    let offset = addr.checked_sub(MEMORY)?;
    if offset < 8 && width > 0 && offset + u64::from(width) <= 8 {
        Some((8 * offset as u32, 8 * u32::from(width)))
    } else {
        None
    }
}

// A value of all ones in its low bits.
fn ones(bits: u32) -> u64 {
    if bits < 64 { (1 << bits) - 1 } else { u64::MAX }
}

fn load_value(memory: u64, addr: u64, width: u8, signed: bool) -> Option<u64> {
    let (below, bits) = place(addr, width)?;
    let value = memory.wrapping_shr(below) & ones(bits);
    let negative = value.wrapping_shr(bits.saturating_sub(1)) == 1;
    if signed && negative {
        Some(value | !ones(bits))
    } else {
        Some(value)
    }
}

fn memory_after_store(memory: u64, addr: u64, width: u8, value: u64) -> Option<u64> {
    let (below, bits) = place(addr, width)?;
    let mask = ones(bits).wrapping_shl(below);
    Some(memory & !mask | value.wrapping_shl(below) & mask)
}

/// `word | name | disassembly`, with the name `None` where no instruction is meant
pub fn is_named(alloc: Global, text: &str) -> Result<bool, AllocError> {
    let mut parts = text.split('|');
    let (Some(word), Some(name)) = (parts.next(), parts.next()) else {
        return Ok(false);
    };
    let Ok(word) = u32::from_str_radix(word.trim(), 16) else {
        return Ok(false);
    };
    let wanted = name.trim().replace(alloc, '.', "")?;
    let found = match decode(word) {
        Some(instr) => name_of(alloc, &instr)?,
        None => format!(in alloc; "None")?,
    };
    Ok(found.as_str().eq_ignore_ascii_case(wanted.as_str()))
}

/// `word | text`
pub fn is_printed(alloc: Global, text: &str) -> Result<bool, AllocError> {
    let Some((word, wanted)) = text.split_once('|') else {
        return Ok(false);
    };
    let Ok(word) = u32::from_str_radix(word.trim(), 16) else {
        return Ok(false);
    };
    let Some(instr) = decode(word) else {
        return Ok(false);
    };
    let found = instruction_text(alloc, &instr)?;
    Ok(found.as_str() == wanted.trim())
}
