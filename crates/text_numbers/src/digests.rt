// Digests as text.

ghost use Rattle.std.specs.Prelude.{◌≡◌};
ghost use Rattle.sv_types.specs.Numbers as spec;

use sv_types::{DIGEST_BYTES, Digest};

/// The 32 bytes that 64 hexadecimal digits of either case write. None where the text is another one.
#[tactic(auto, unfolding(sv_types::specs::Numbers::digest_of))]
pub fn digest_of(text: &str) -> Option<Digest>
    ensures { result ≡ spec.digest_of text.now }
{
    let mut digest = [0u8; DIGEST_BYTES];
    match hex::decode_to_slice(text.as_bytes(), &mut digest) {
        Ok(()) => Some(digest),
        Err(_) => None,
    }
}
