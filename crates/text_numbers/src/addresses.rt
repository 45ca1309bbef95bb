// Addresses as text.

ghost use Rattle.std.specs.Prelude.{◌≡◌};
ghost use Rattle.std.specs.List.{list_all};
ghost use Rattle.std.specs.Char.{is_ascii_hexdigit};
ghost use Rattle.sv_types.specs.Addresses as spec;

/// The most hexadecimal digits that an address has.
const ADDRESS_DIGITS: usize = 16;

fn has_hexadecimal_digits_alone(text: &[u8]) -> bool
    ensures { result ≡ list_all is_ascii_hexdigit text.now }
{
    text.iter().all(|c| c.is_ascii_hexdigit())
}

fn is_hexadecimal(text: &[u8]) -> bool
    ensures { result ≡ spec.is_hexadecimal text.now }
{
    1 <= text.len() && text.len() <= ADDRESS_DIGITS && has_hexadecimal_digits_alone(text)
}

fn hexadecimal_number(digits: &str) -> Option<u64>
    ensures { result ≡ spec.hexadecimal_number digits.now }
{
    if !is_hexadecimal(digits.as_bytes()) {
        return None;
    }
    u64::from_str_radix(digits, 16).ok()
}

/// The address that a text writes by `0x` and 1 to 16 hexadecimal digits of either case. None where the text is another
/// one.
#[tactic(auto, unfolding(sv_types::specs::Addresses::address_of))]
pub fn address_of(text: &str) -> Option<u64>
    ensures { result ≡ spec.address_of text.now }
{
    match text.strip_prefix("0x") {
        Some(digits) => hexadecimal_number(digits),
        None => None,
    }
}

/// The same for a text's bytes. None where they are no text.
#[tactic(auto, using(crate::proofs::AddressBytes::no_address))]
pub fn address_of_bytes(bytes: &[u8]) -> Option<u64>
    ensures { result ≡ spec.address_of bytes.now }
{
    match str::from_utf8(bytes) {
        Ok(text) => address_of(text),
        Err(_) => None,
    }
}
