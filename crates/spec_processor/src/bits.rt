// Single bits of a register.

ghost use Rattle.std.specs.Prelude.{◌≡◌, ◌<◌};
ghost use Rattle.spec_processor.specs.Bits.{bit, with_bits};

/// Whether the bit at a place, from 0 to 63, is set.
#[tactic(auto, using(std::proofs::lemmas::Nat::Bits::shr_and_one))]
pub fn has_bit(register: u64, place: u8) -> bool
    requires { place < 64 }
    ensures { result ≡ bit register place }
{
    (register >> place) & 1 == 1
}

/// The register with the bits of a mask set or cleared.
pub fn with_bits(register: u64, mask: u64, set: bool) -> u64
    ensures { result ≡ with_bits register mask set }
{
    if set {
        register | mask
    } else {
        register & !mask
    }
}
