// Words of the opcode SYSTEM.

ghost use Rattle.std.specs.Prelude.{◌≡◌, ◌≢◌, ◌==◌, if◌then◌else◌};
ghost use Rattle.spec_processor.specs.Instructions as table;
ghost use Rattle.spec_processor.specs.Opcodes.{system_opcode};

use crate::fields::{funct3, funct7, rd, rs2};
use crate::forms;
use spec_processor::{CsrOp, EBREAK, ECALL, HyperOp, Instr, SRET, WFI};

pub fn system(word: u32) -> Option<Instr>
    requires { table.bits word 0 7 ≡ system_opcode }
    ensures { result ≡ table.instruction_of word }
{
    let op = match funct3(word) {
        0 => return privileged(word),
        1 => CsrOp::Csrrw,
        2 => CsrOp::Csrrs,
        3 => CsrOp::Csrrc,
        4 => return hyper(word),
        5 => CsrOp::Csrrwi,
        6 => CsrOp::Csrrsi,
        _ => CsrOp::Csrrci,
    };
    Some(forms::csr(op, word))
}

fn privileged(word: u32) -> Option<Instr>
    requires opcode { table.bits word 0 7 ≡ system_opcode }
    requires funct3 { table.bits word 12 15 ≡ 0 }
    ensures { result ≡ table.instruction_of word }
{
    match word {
        ECALL => Some(Instr::Ecall),
        EBREAK => Some(Instr::Ebreak),
        SRET => Some(Instr::Sret),
        WFI => Some(Instr::Wfi),
        _ => translation_fence(word),
    }
}

fn translation_fence(word: u32) -> Option<Instr>
    requires opcode { table.bits word 0 7 ≡ system_opcode }
    requires funct3 { table.bits word 12 15 ≡ 0 }
    requires ecall { word ≢ table.ecall_word }
    requires ebreak { word ≢ table.ebreak_word }
    requires sret { word ≢ table.sret_word }
    requires wfi { word ≢ table.wfi_word }
    ensures { result ≡ table.instruction_of word }
{
    if rd(word) != 0 {
        return None;
    }
    match funct7(word) {
        0x09 => Some(forms::sfence(word)),
        0x11 => Some(forms::hyper_store(HyperOp::HfenceVvma, word)),
        0x31 => Some(forms::hyper_store(HyperOp::HfenceGvma, word)),
        _ => None,
    }
}

fn hyper(word: u32) -> Option<Instr>
    requires opcode { table.bits word 0 7 ≡ system_opcode }
    requires funct3 { table.bits word 12 15 ≡ 4 }
    ensures { result ≡ table.instruction_of word }
{
    match funct7(word) {
        0x30 => load_byte(word),
        0x31 => store_without_rd(HyperOp::HsvB, word),
        0x32 => load_half(word),
        0x33 => store_without_rd(HyperOp::HsvH, word),
        0x34 => load_word(word),
        0x35 => store_without_rd(HyperOp::HsvW, word),
        0x36 => load_double(word),
        0x37 => store_without_rd(HyperOp::HsvD, word),
        _ => None,
    }
}

fn store_without_rd(op: HyperOp, word: u32) -> Option<Instr>
    ensures { result ≡ (if table.rd word == 0 then Some (table.hyper_store op word) else None) }
{
    if rd(word) == 0 {
        Some(forms::hyper_store(op, word))
    } else {
        None
    }
}

fn load_byte(word: u32) -> Option<Instr>
    requires opcode { table.bits word 0 7 ≡ system_opcode }
    requires funct3 { table.bits word 12 15 ≡ 4 }
    requires funct7 { table.bits word 25 32 ≡ 0x30 }
    ensures { result ≡ table.instruction_of word }
{
    let op = match rs2(word) {
        0 => HyperOp::HlvB,
        1 => HyperOp::HlvBu,
        _ => return None,
    };
    Some(forms::hyper_load(op, word))
}

fn load_half(word: u32) -> Option<Instr>
    requires opcode { table.bits word 0 7 ≡ system_opcode }
    requires funct3 { table.bits word 12 15 ≡ 4 }
    requires funct7 { table.bits word 25 32 ≡ 0x32 }
    ensures { result ≡ table.instruction_of word }
{
    let op = match rs2(word) {
        0 => HyperOp::HlvH,
        1 => HyperOp::HlvHu,
        3 => HyperOp::HlvxHu,
        _ => return None,
    };
    Some(forms::hyper_load(op, word))
}

fn load_word(word: u32) -> Option<Instr>
    requires opcode { table.bits word 0 7 ≡ system_opcode }
    requires funct3 { table.bits word 12 15 ≡ 4 }
    requires funct7 { table.bits word 25 32 ≡ 0x34 }
    ensures { result ≡ table.instruction_of word }
{
    let op = match rs2(word) {
        0 => HyperOp::HlvW,
        1 => HyperOp::HlvWu,
        3 => HyperOp::HlvxWu,
        _ => return None,
    };
    Some(forms::hyper_load(op, word))
}

fn load_double(word: u32) -> Option<Instr>
    requires opcode { table.bits word 0 7 ≡ system_opcode }
    requires funct3 { table.bits word 12 15 ≡ 4 }
    requires funct7 { table.bits word 25 32 ≡ 0x36 }
    ensures { result ≡ table.instruction_of word }
{
    if rs2(word) == 0 {
        Some(forms::hyper_load(HyperOp::HlvD, word))
    } else {
        None
    }
}
