// Words of loads, stores, fences and atomic operations.

ghost use Rattle.std.specs.Prelude.{◌≡◌};
ghost use Rattle.spec_processor.specs.Instructions as table;
ghost use Rattle.spec_processor.specs.Opcodes.{amo_opcode, load_opcode, misc_mem_opcode, store_opcode};
ghost use Rattle.rv64_decode.specs.Widths.{IsWidthCode};

use crate::fields::{bits, funct3, rs2};
use crate::forms;
use spec_processor::{AmoOp, Instr, LoadOp, StoreOp};

pub fn load(word: u32) -> Option<Instr>
    requires { table.bits word 0 7 ≡ load_opcode }
    ensures { result ≡ table.instruction_of word }
{
    let op = match funct3(word) {
        0 => LoadOp::Lb,
        1 => LoadOp::Lh,
        2 => LoadOp::Lw,
        3 => LoadOp::Ld,
        4 => LoadOp::Lbu,
        5 => LoadOp::Lhu,
        6 => LoadOp::Lwu,
        _ => return None,
    };
    Some(forms::load(op, word))
}

pub fn store(word: u32) -> Option<Instr>
    requires { table.bits word 0 7 ≡ store_opcode }
    ensures { result ≡ table.instruction_of word }
{
    let op = match funct3(word) {
        0 => StoreOp::Sb,
        1 => StoreOp::Sh,
        2 => StoreOp::Sw,
        3 => StoreOp::Sd,
        _ => return None,
    };
    Some(forms::store(op, word))
}

pub fn fence(word: u32) -> Option<Instr>
    requires { table.bits word 0 7 ≡ misc_mem_opcode }
    ensures { result ≡ table.instruction_of word }
{
    match funct3(word) {
        0 => Some(Instr::Fence),
        1 => Some(Instr::FenceI),
        _ => None,
    }
}

pub fn atomic(word: u32) -> Option<Instr>
    requires { table.bits word 0 7 ≡ amo_opcode }
    ensures { result ≡ table.instruction_of word }
{
    match funct3(word) {
        2 => atomic_of_width(4, word),
        3 => atomic_of_width(8, word),
        _ => None,
    }
}

fn atomic_of_width(width: u8, word: u32) -> Option<Instr>
    requires opcode { table.bits word 0 7 ≡ amo_opcode }
    requires funct3 { IsWidthCode width (table.bits word 12 15) }
    ensures { result ≡ table.instruction_of word }
{
    let op = match bits(word, 27, 32) {
        0x00 => AmoOp::Amoadd,
        0x01 => AmoOp::Amoswap,
        0x02 => return load_reserved(width, word),
        0x03 => return Some(forms::sc(width, word)),
        0x04 => AmoOp::Amoxor,
        0x08 => AmoOp::Amoor,
        0x0C => AmoOp::Amoand,
        0x10 => AmoOp::Amomin,
        0x14 => AmoOp::Amomax,
        0x18 => AmoOp::Amominu,
        0x1C => AmoOp::Amomaxu,
        _ => return None,
    };
    Some(forms::amo(op, width, word))
}

fn load_reserved(width: u8, word: u32) -> Option<Instr>
    requires opcode { table.bits word 0 7 ≡ amo_opcode }
    requires funct3 { IsWidthCode width (table.bits word 12 15) }
    requires funct5 { table.bits word 27 32 ≡ 0x02 }
    ensures { result ≡ table.instruction_of word }
{
    if rs2(word) == 0 {
        Some(forms::lr(width, word))
    } else {
        None
    }
}
