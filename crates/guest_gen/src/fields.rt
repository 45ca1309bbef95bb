// Fields of a file, the lowest byte first.

ghost use Rattle.std.specs.Prelude.{◌≡◌, ◌+◌, ◌*◌, ◌≤◌, ◌++◌, OnOk, IsTrue, flat_map, length, vec_len};
ghost use Rattle.std.specs.List.{list_all};
ghost use Rattle.spec_processor.specs.Bytes.{with_padding};
ghost use Rattle.spec_processor.specs.Encoding.{fits};
ghost use Rattle.guest_gen.specs.Images as spec;

use rv64_encode::{Instr, encode};
use std::alloc::AllocError;

/// A field of a file.
#[derive(Clone, Copy, Drop)]
pub enum Field {
    Byte(u8),
    Half(u16),
    Word(u32),
    Double(u64),
}

#[tactic(auto, using(crate::proofs::FieldBytes::fields_low_first))]
fn push_field(file: &mut Vec<u8>, field: Field) -> Result<(), AllocError>
    ensures { OnOk result (file.new.items ≡ file.old.items ++ spec.field_bytes field) }
{
    match field {
        Field::Byte(value) => file.extend_from_slice(&[value]),
        Field::Half(value) => file.extend_from_slice(&value.to_le_bytes()),
        Field::Word(value) => file.extend_from_slice(&value.to_le_bytes()),
        Field::Double(value) => file.extend_from_slice(&value.to_le_bytes()),
    }
}

/// Puts fields after the bytes. Fails where memory runs out.
pub fn push_fields(file: &mut Vec<u8>, fields: &[Field]) -> Result<(), AllocError>
    ensures { OnOk result (file.new.items ≡ file.old.items ++ flat_map spec.field_bytes fields.now) }
{
    for field in fields {
        push_field(file, *field)?;
    }
    Ok(())
}

/// Puts the words of instructions after the bytes. Fails where memory runs out.
pub fn push_code(file: &mut Vec<u8>, text: &[Instr]) -> Result<(), AllocError>
    requires { IsTrue (list_all fits text.now) }
    ensures code { OnOk result (file.new.items ≡ file.old.items ++ spec.code_bytes text.now) }
    ensures bytes { OnOk result (vec_len file.new ≡ vec_len file.old + 4 * length text.now) }
{
    for instr in text {
        push_field(file, Field::Word(encode(instr)))?;
    }
    Ok(())
}

/// Puts zeros after the bytes up to a size. Fails where memory runs out.
pub fn pad(file: &mut Vec<u8>, size: usize) -> Result<(), AllocError>
    ensures padded { OnOk result (file.new.items ≡ with_padding file.old.items size) }
    ensures bytes { OnOk result (vec_len file.old ≤ size → vec_len file.new ≡ size) }
{
    if file.len() < size {
        file.resize(size, 0)?;
    }
    Ok(())
}
