// The lines of harts.
ghost use Rattle.std.specs.Prelude.{◌≡◌, ◌++◌, OnOk, IfOk, option_map, string_bytes};
ghost use Rattle.sv_types.specs.Output.{line_end};
ghost use Rattle.elf64_load.specs.KernelViews.{names_view};
ghost use Rattle.cli_snap.specs.HartTexts as spec;

use crate::show::lines::{joined, named_line, push_registers};
use crate::show::names::name_after;
use elf64_load::symbols::KernelNames;
use spec_processor::Mode;
use spec_reference::saved_machine::SavedHart;
use std::alloc::{AllocError, Global};
use text_numbers::address_text;

const REGISTERS: [&str; 31] = [
    "ra", "sp", "gp", "tp", "t0", "t1", "t2", "s0", "s1", "a0", "a1", "a2", "a3", "a4", "a5", "a6",
    "a7", "s2", "s3", "s4", "s5", "s6", "s7", "s8", "s9", "s10", "s11", "t3", "t4", "t5", "t6",
];

const SUPERVISOR: [&str; 11] = [
    "sstatus",
    "sie",
    "stvec",
    "scounteren",
    "sscratch",
    "sepc",
    "scause",
    "stval",
    "sip",
    "satp",
    "timer",
];

pub fn push_harts(
    alloc: Global,
    text: &mut Vec<u8>,
    names: Option<KernelNames<'_>>,
    harts: &[SavedHart],
) -> Result<(), AllocError>
    ensures { OnOk result (text.new.items ≡ text.old.items ++ spec.hart_texts (option_map names_view names.entry) harts.now) }
{
    'harts: for number in 0..harts.len() {
        push_hart(alloc, text, names, number, &harts[number])?;
    }
    Ok(())
}

#[tactic(auto, unfolding(crate::specs::HartTexts::hart_text))]
fn push_hart(
    alloc: Global,
    text: &mut Vec<u8>,
    names: Option<KernelNames<'_>>,
    number: usize,
    hart: &SavedHart,
) -> Result<(), AllocError>
    ensures { OnOk result (text.new.items ≡ text.old.items ++ spec.hart_text (option_map names_view names.entry) number hart.now) }
{
    let mut lines = hart_head(alloc, names, number, hart)?;
    push_integers(alloc, &mut lines, names, hart)?;
    push_supervisor(alloc, &mut lines, names, hart)?;
    push_reservation(alloc, &mut lines, hart.reservation)?;
    text.extend_from_slice(&lines)
}

#[tactic(auto, unfolding(crate::specs::HartTexts::hart_head))]
fn hart_head(
    alloc: Global,
    names: Option<KernelNames<'_>>,
    number: usize,
    hart: &SavedHart,
) -> Result<Vec<u8>, AllocError>
    ensures { IfOk result (λ t. t.items ≡ spec.hart_head (option_map names_view names.entry) number hart.now) }
{
    let pc = hart_pc(alloc, number, hart)?;
    let name = name_after(alloc, names, hart.pc)?;
    let rest = head_rest(alloc, hart.entry)?;
    joined(
        alloc,
        pc.as_str().as_bytes(),
        &name,
        rest.as_str().as_bytes(),
    )
}

#[tactic(auto, unfolding(crate::specs::HartTexts::hart_pc))]
fn hart_pc(alloc: Global, number: usize, hart: &SavedHart) -> Result<String, AllocError>
    ensures { IfOk result (λ t. string_bytes t ≡ spec.hart_pc number hart.now) }
{
    let standing = standing_name(hart.started);
    let mode = mode_name(hart.mode);
    let pc = address_text(alloc, hart.pc)?;
    format!(in alloc; "hart {number} {standing} {mode} pc {pc}")
}

fn head_rest(alloc: Global, entry: Option<u8>) -> Result<String, AllocError>
    ensures { IfOk result (λ t. string_bytes t ≡ spec.entry_text entry ++ line_end) }
{
    let entry = entry_text(alloc, entry)?;
    format!(in alloc; "{entry}\n")
}

fn standing_name(started: bool) -> &'static str
    ensures { result.now ≡ spec.standing_name started }
{
    if started { "started" } else { "stopped" }
}

fn mode_name(mode: Mode) -> &'static str
    ensures { result.now ≡ spec.mode_name mode }
{
    match mode {
        Mode::Kernel => "kernel",
        Mode::User => "user",
    }
}

#[tactic(auto, unfolding(crate::specs::HartTexts::entry_text))]
fn entry_text(alloc: Global, entry: Option<u8>) -> Result<String, AllocError>
    ensures { IfOk result (λ t. string_bytes t ≡ spec.entry_text entry) }
{
    match entry {
        Some(place) => format!(in alloc; " entry {place}"),
        None => Ok(String::new(alloc)),
    }
}

#[tactic(auto, unfolding(crate::specs::HartTexts::integer_lines))]
fn push_integers(
    alloc: Global,
    text: &mut Vec<u8>,
    names: Option<KernelNames<'_>>,
    hart: &SavedHart,
) -> Result<(), AllocError>
    ensures { OnOk result (text.new.items ≡ text.old.items ++ spec.integer_lines (option_map names_view names.entry) hart.now) }
{
    let (_zero, registers) = hart.registers.split_at(1);
    push_registers(alloc, text, names, &REGISTERS, registers)
}

#[tactic(auto, unfolding(crate::specs::HartTexts::supervisor_lines))]
fn push_supervisor(
    alloc: Global,
    text: &mut Vec<u8>,
    names: Option<KernelNames<'_>>,
    hart: &SavedHart,
) -> Result<(), AllocError>
    ensures { OnOk result (text.new.items ≡ text.old.items ++ spec.supervisor_lines (option_map names_view names.entry) hart.now) }
{
    let values = [
        hart.sstatus,
        hart.sie,
        hart.stvec,
        hart.scounteren,
        hart.sscratch,
        hart.sepc,
        hart.scause,
        hart.stval,
        hart.sip,
        hart.satp,
        hart.timer,
    ];
    push_registers(alloc, text, names, &SUPERVISOR, &values)
}

#[tactic(auto, unfolding(crate::specs::HartTexts::reservation_line))]
fn push_reservation(
    alloc: Global,
    text: &mut Vec<u8>,
    reservation: Option<u64>,
) -> Result<(), AllocError>
    ensures { OnOk result (text.new.items ≡ text.old.items ++ spec.reservation_line reservation) }
{
    match reservation {
        Some(gpa) => text.extend_from_slice(
            named_line(alloc, "reservation", gpa)?.as_str().as_bytes(),
        ),
        None => Ok(()),
    }
}
