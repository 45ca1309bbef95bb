// The name of a file, of a module or of an export.
ghost use Rattle.spec_processor.specs.Bytes.{with_padding};
ghost use Rattle.std.specs.Prelude.{◌≡◌, ◌<◌, ◌≤◌, length, IsSome, IfSome};
ghost use Rattle.sv_types.specs.Limits.{max_name_bytes};

use std::marker::Model;
use std::str;

/// The most bytes of a name.
pub const MAX_NAME_BYTES: usize = 64;

/// 1 to 64 bytes of UTF-8 text. Contracts see the list of its bytes.
#[derive(Clone, Copy, Drop)]
pub struct Name {
    bytes: [u8; MAX_NAME_BYTES],
    length: usize,
}

impl Model for Name {
    ghost use Rattle.std.specs.Prelude.{ℕ, List};
    ghost use Rattle.std.specs.Coded.{coded_ℕ, coded_list};

    ghost Value = { List ℕ };

    ghost coded = { coded_list coded_ℕ };

    ghost use Rattle.sv_types.specs.Names.{name_bytes, name_inside, name_inside-name_bytes, IsName};

    ghost view = { name_bytes };

    ghost invariant = { IsName };

    ghost inverse = { name_inside };

    ghost inverse_ok = { name_inside-name_bytes };
}

fn with_zeros(text: &[u8]) -> [u8; MAX_NAME_BYTES]
    requires { length text.now ≤ max_name_bytes }
    ensures { result ≡ with_padding text.now max_name_bytes }
{
    let mut bytes = [0u8; MAX_NAME_BYTES];
    bytes[..text.len()].copy_from_slice(text);
    bytes
}

impl Name {
    /// The name of this text. None exactly where it has no byte, or more than 64.
    pub fn new(text: &str) -> Option<Name>
        ensures name { IfSome result (λ name. name ≡ text.now) }
        ensures some { (0 < length text.now) × (length text.now ≤ max_name_bytes) → IsSome result }
        ensures none { IfSome result (λ name. (0 < length text.now) × (length text.now ≤ max_name_bytes)) }
    {
        let text = text.as_bytes();
        if text.is_empty() || text.len() > MAX_NAME_BYTES {
            return None;
        }
        Some(Name {
            bytes: with_zeros(text),
            length: text.len(),
        })
    }

    /// The name's characters: 1 to 64 bytes.
    pub fn text(&self) -> &str
        ensures text { result.now ≡ self.now }
        ensures some { 0 < length result.now }
        ensures most { length result.now ≤ max_name_bytes }
    {
        unsafe { str::from_utf8_unchecked(&self.bytes[..self.length]) }
    }
}
