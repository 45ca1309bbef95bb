// Numbers, and what is encoded as one.

ghost use Rattle.std.specs.Prelude.{◌≡◌, ◌++◌, true, OnOk};
ghost use Rattle.snapshot_format.specs.Forms.{counted_bytes, encode_number};
ghost use Rattle.snapshot_format.specs.HartForms.{address_number, flag, place};

use std::alloc::AllocError;

#[tactic(auto, unfolding(crate::specs::Forms::encode_number))]
pub(crate) fn write_number(out: &mut Vec<u8>, number: u64) -> Result<(), AllocError>
    ensures { OnOk result (out.new.items ≡ out.old.items ++ encode_number number) }
{
    out.extend_from_slice(&number.to_le_bytes())
}

#[tactic(auto, unfolding(crate::specs::HartForms::flag))]
pub(crate) fn write_flag(out: &mut Vec<u8>, is: bool) -> Result<(), AllocError>
    ensures { OnOk result (out.new.items ≡ out.old.items ++ flag.encode is) }
{
    write_number(out, u64::from(is))
}

#[tactic(auto, unfolding(crate::specs::HartForms::place))]
pub(crate) fn write_bit(out: &mut Vec<u8>, index: Option<u8>) -> Result<(), AllocError>
    ensures { OnOk result (out.new.items ≡ out.old.items ++ place.encode index) }
{
    match index {
        None => write_number(out, 0),
        Some(i) => write_number(out, u64::from(i) + 1),
    }
}

// Address 0 stands for none.
pub(crate) fn write_address(out: &mut Vec<u8>, address: Option<u64>) -> Result<(), AllocError>
    ensures { OnOk result (out.new.items ≡ out.old.items ++ encode_number (address_number address)) }
{
    write_number(out, address.unwrap_or(0))
}

// The number of bytes, and the bytes.
pub(crate) fn write_measured(out: &mut Vec<u8>, bytes: &[u8]) -> Result<(), AllocError>
    ensures { OnOk result (out.new.items ≡ out.old.items ++ (counted_bytes (λ _. true)).encode bytes.now) }
{
    write_number(out, bytes.len() as u64)?;
    out.extend_from_slice(bytes)
}
