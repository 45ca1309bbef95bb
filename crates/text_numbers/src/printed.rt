// Addresses and digests as they are printed.

ghost use Rattle.std.specs.Prelude.{◌≡◌, IfOk, string_bytes};
ghost use Rattle.sv_types.specs.Output as spec;

use std::alloc::{AllocError, Global};
use sv_types::Digest;

/// `0x` and the 16 hexadecimal digits of an address, in lower case.
#[tactic(auto, using(crate::proofs::HexadecimalPrinted::sixteen_digits), unfolding(sv_types::specs::Output::address_text))]
pub fn address_text(alloc: Global, address: u64) -> Result<String, AllocError>
    ensures { IfOk result (λ t. string_bytes t ≡ spec.address_text address) }
{
    format!(in alloc; "0x{address:016x}")
}

/// The 64 hexadecimal digits of a digest, in lower case.
#[tactic(auto, using(crate::proofs::DigestsPrinted::encoded))]
pub fn digest_text(alloc: Global, digest: &Digest) -> Result<String, AllocError>
    ensures { IfOk result (λ t. string_bytes t ≡ spec.hexadecimal_bytes digest.now) }
{
    let text = hex::encode(alloc, digest.as_slice())?;
    Ok(text)
}
