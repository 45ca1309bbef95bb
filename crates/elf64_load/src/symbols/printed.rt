// How the name of an address is printed.

ghost use Rattle.std.specs.Prelude.{◌≡◌, ◌++◌, ◌<◌, IfOk, OnOk, flat_map};
ghost use Rattle.std.specs.Char.{digit_char};
ghost use Rattle.elf64_load.specs.Printed as spec;
ghost use Rattle.elf64_load.specs.SymbolsViews.{location_view};

use crate::symbols::symbols::Location;
use std::alloc::{AllocError, Global};

// A character of ASCII that is seen, other than the backslash.
fn is_plain(byte: u8) -> bool
    ensures { result ≡ spec.is_plain byte }
{
    b' ' < byte && byte < 0x7F && byte != b'\\'
}

// The hexadecimal digit of a number below 16.
fn digit(number: u8) -> u8
    requires { number < 16 }
    ensures { result ≡ digit_char number }
{
    if number < 10 {
        b'0' + number
    } else {
        b'a' + (number - 10)
    }
}

fn push_escaped(text: &mut Vec<u8>, byte: u8) -> Result<(), AllocError>
    ensures { OnOk result (text.new.items ≡ text.old.items ++ spec.escaped byte) }
{
    if is_plain(byte) {
        text.extend_from_slice(&[byte])
    } else {
        text.extend_from_slice(&[b'\\', b'x', digit(byte / 16), digit(byte % 16)])
    }
}

/// A name: each of its bytes that isn't a seen character of ASCII, and a backslash, is printed as `\x` and two hexadecimal digits.
/// Fails where memory runs out.
pub fn push_name(text: &mut Vec<u8>, name: &[u8]) -> Result<(), AllocError>
    ensures { OnOk result (text.new.items ≡ text.old.items ++ flat_map spec.escaped name.now) }
{
    'name: for byte in name {
        push_escaped(text, *byte)?;
    }
    Ok(())
}

/// The text of an address's name, as `NAME+0x18`. Each byte of the name that isn't a seen character of ASCII, and a backslash, is
/// printed as `\x` and two hexadecimal digits. Fails where memory runs out.
#[tactic(auto, unfolding(crate::specs::Printed::location_text))]
pub fn location_text(alloc: Global, location: &Location) -> Result<Vec<u8>, AllocError>
    ensures { IfOk result (λ text. text.items ≡ spec.location_text (location_view location.now)) }
{
    let mut text = Vec::new(alloc);
    push_name(&mut text, location.name)?;
    let offset = location.offset;
    let offset = format!(in alloc; "+0x{offset:x}")?;
    text.extend_from_slice(offset.as_str().as_bytes())?;
    Ok(text)
}
