// Names of symbols.

ghost use Rattle.std.specs.Prelude.{◌≡◌, ◌≤◌, ◌==◌, Some, None, if◌then◌else◌, ◌<◌, IfSome, length, position, option_map};
ghost use Rattle.std.specs.Str.{is_utf8};
ghost use Rattle.sv_types.specs.Limits.{max_name_bytes};
ghost use Rattle.elf64_load.specs.Sections as spec;

use std::str;
use sv_types::MAX_NAME_BYTES;

/// The most bytes of a name, with the zero byte after it.
const MAX_BYTES: usize = MAX_NAME_BYTES + 1;

// Where the first zero byte stands.
fn zero_byte(bytes: &[u8]) -> Option<usize>
    ensures { result ≡ position (λ b. b == 0) bytes.now }
{
    bytes.iter().position(|byte| *byte == 0)
}

fn text_of(bytes: &[u8]) -> Option<&str>
    ensures text { option_map (λ name. name.now) result ≡ (if is_utf8 bytes.now then Some bytes.now else None) }
    ensures same { IfSome result (λ name. name.now ≡ bytes.now) }
{
    match str::from_utf8(bytes) {
        Ok(text) => Some(text),
        Err(_) => None,
    }
}

fn name_in(bytes: &[u8]) -> Option<&str>
    ensures name { option_map (λ name. name.now) result ≡ spec.name_of bytes.now }
    ensures some { IfSome result (λ name. 0 < length name.now) }
    ensures most { IfSome result (λ name. length name.now ≤ max_name_bytes) }
{
    let most = bytes.len().min(MAX_BYTES);
    let Some(length) = zero_byte(&bytes[..most]) else {
        return None;
    };
    if length == 0 {
        return None;
    }
    text_of(&bytes[..length])
}

/// The name that begins at `at`: 1 to 64 bytes of UTF-8 text with a zero byte after them. None where no such name does.
#[tactic(auto, unfolding(crate::specs::Sections::name_at))]
pub fn name_at(strings: &[u8], at: u32) -> Option<&str>
    ensures name { option_map (λ name. name.now) result ≡ spec.name_at strings.now at }
    ensures some { IfSome result (λ name. 0 < length name.now) }
    ensures most { IfSome result (λ name. length name.now ≤ max_name_bytes) }
{
    name_in(&strings[strings.len().min(at as usize)..])
}
