// Numbers by their names, and registers with the names of the code that they hold addresses of.
ghost use Rattle.std.specs.Prelude.{◌≡◌, ◌≤◌, ◌++◌, OnOk, IfOk, length, map, option_map, string_bytes};
ghost use Rattle.elf64_load.specs.KernelViews.{names_view};
ghost use Rattle.cli_snap.specs.Lines as spec;

use crate::show::names::name_after;
use elf64_load::symbols::KernelNames;
use std::alloc::{AllocError, Global};
use text_numbers::address_text;

#[tactic(auto, unfolding(crate::specs::Lines::named_line))]
pub fn named_line(alloc: Global, name: &str, value: u64) -> Result<String, AllocError>
    ensures { IfOk result (λ t. string_bytes t ≡ spec.named_line name.now value) }
{
    let value = address_text(alloc, value)?;
    format!(in alloc; "{name} {value}\n")
}

fn holds_code(register: &str) -> bool
    ensures { result ≡ spec.holds_code register.now }
{
    register == "ra" || register == "stvec" || register == "sepc"
}

#[tactic(auto, unfolding(crate::specs::Lines::code_name))]
fn code_name(
    alloc: Global,
    names: Option<KernelNames<'_>>,
    register: &str,
    value: u64,
) -> Result<Vec<u8>, AllocError>
    ensures { IfOk result (λ t. t.items ≡ spec.code_name (option_map names_view names.entry) register.now value) }
{
    if holds_code(register) {
        name_after(alloc, names, value)
    } else {
        Ok(Vec::new(alloc))
    }
}

#[tactic(auto, unfolding(crate::specs::Lines::register_head))]
fn register_head(alloc: Global, register: &str, value: u64) -> Result<String, AllocError>
    ensures { IfOk result (λ t. string_bytes t ≡ spec.register_head register.now value) }
{
    let value = address_text(alloc, value)?;
    format!(in alloc; "{register} {value}")
}

#[tactic(auto, unfolding(crate::specs::Lines::register_line))]
fn register_line(
    alloc: Global,
    names: Option<KernelNames<'_>>,
    register: &str,
    value: u64,
) -> Result<Vec<u8>, AllocError>
    ensures { IfOk result (λ t. t.items ≡ spec.register_line (option_map names_view names.entry) register.now value) }
{
    let head = register_head(alloc, register, value)?;
    let name = code_name(alloc, names, register, value)?;
    joined(alloc, head.as_str().as_bytes(), &name, b"\n")
}

/// The parts of a line, one after another.
pub fn joined(alloc: Global, head: &[u8], name: &[u8], rest: &[u8]) -> Result<Vec<u8>, AllocError>
    ensures { IfOk result (λ t. t.items ≡ (head.now ++ name.now) ++ rest.now) }
{
    let mut line = Vec::new(alloc);
    line.extend_from_slice(head)?;
    line.extend_from_slice(name)?;
    line.extend_from_slice(rest)?;
    Ok(line)
}

/// A line for each value, with the register at its place.
pub fn push_registers(
    alloc: Global,
    text: &mut Vec<u8>,
    names: Option<KernelNames<'_>>,
    registers: &[&str],
    values: &[u64],
) -> Result<(), AllocError>
    requires { length values.now ≤ length registers.now }
    ensures { OnOk result (text.new.items ≡
        text.old.items ++ spec.register_lines (option_map names_view names.entry) (map (λ name. name.now) registers.now) values.now) }
{
    'values: for place in 0..values.len() {
        let line = register_line(alloc, names, registers[place], values[place])?;
        text.extend_from_slice(&line)?;
    }
    Ok(())
}
