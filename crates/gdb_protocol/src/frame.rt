// Frames.
ghost use Rattle.std.specs.Prelude.{◌≡◌, ◌++◌, OnOk};
ghost use Rattle.gdb_protocol.specs.Framing as spec;

use crate::digits::push_digits;
use std::alloc::AllocError;

/// Begins a packet.
pub(crate) const PACKET_START: u8 = b'$';

/// Ends the data of a packet.
pub(crate) const PACKET_END: u8 = b'#';

/// Stands before a byte that is written with `ESCAPE_BIT` turned over.
pub(crate) const ESCAPE: u8 = b'}';

/// The bit that an escape turns over.
pub(crate) const ESCAPE_BIT: u8 = 0x20;

// Says in an answer that a character is repeated.
const REPEAT_MARK: u8 = b'*';

fn is_reserved(byte: u8) -> bool
    ensures { result ≡ spec.is_reserved byte }
{
    byte == PACKET_END || byte == PACKET_START || byte == ESCAPE || byte == REPEAT_MARK
}

fn push_escaped_byte(out: &mut Vec<u8>, byte: u8) -> Result<(), AllocError>
    ensures { OnOk result (out.new.items ≡ out.old.items ++ spec.escaped_byte byte) }
{
    if is_reserved(byte) {
        out.extend_from_slice(&[ESCAPE, byte ^ ESCAPE_BIT])
    } else {
        out.extend_from_slice(&[byte])
    }
}

fn push_escaped(out: &mut Vec<u8>, payload: &[u8]) -> Result<(), AllocError>
    ensures { OnOk result (out.new.items ≡ out.old.items ++ spec.escaped payload.now) }
{
    'bytes: for byte in payload {
        push_escaped_byte(out, *byte)?;
    }
    Ok(())
}

#[tactic(auto, unfolding(crate::specs::Framing::sum_onto))]
fn checksum(bytes: &[u8]) -> u8
    ensures { result ≡ spec.checksum bytes.now }
{
    let mut sum: u8 = 0;
    'bytes: for byte in bytes {
        sum = sum.wrapping_add(*byte);
    }
    sum
}

/// The frame of a payload is put at the end.
#[tactic(auto, unfolding(crate::specs::Framing::frame))]
pub fn push_frame(out: &mut Vec<u8>, payload: &[u8]) -> Result<(), AllocError>
    ensures { OnOk result (out.new.items ≡ out.old.items ++ spec.frame payload.now) }
{
    let alloc = *out.allocator();
    let mut data = Vec::new(alloc);
    push_escaped(&mut data, payload)?;
    out.extend_from_slice(&[PACKET_START])?;
    out.extend_from_slice(&data)?;
    out.extend_from_slice(&[PACKET_END])?;
    push_digits(out, &[checksum(&data)])
}
