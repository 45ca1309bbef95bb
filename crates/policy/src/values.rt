// Values of a policy's table.

ghost use Rattle.std.specs.Prelude.{◌≡◌, is_some, option_map, map};
ghost use Rattle.std.specs.List.{list_any};
ghost use Rattle.std.specs.Str.{bytes_eq};
ghost use Rattle.toml.specs.Data.{get_member};
ghost use Rattle.toml.specs.View.{view, table_view, items_view};
ghost use Rattle.policy.specs.Refusals.{judged_map};
ghost use Rattle.policy.specs.Values as spec;

use policy_limits::PolicyFault;
use spec_processor::INSTRUCTION_BYTES;
use sv_types::{Digest, Name};
use text_numbers::{address_of, digest_of};
use toml::{Table, Value};

/// The value at a key, if the table has it.
pub fn optional<'a>(table: &'a Table, key: &str) -> Option<&'a Value>
    ensures { option_map (λ v. view v.now) result ≡ get_member key.now (table_view table.now) }
{
    table.get(key)
}

pub fn required_member<'a>(table: &'a Table, key: &str) -> Result<&'a Value, PolicyFault>
    ensures { judged_map (λ v. view v.now) result ≡ spec.required_member key.now (table_view table.now) }
{
    optional(table, key).ok_or(PolicyFault::MissingKey)
}

pub fn integer(value: &Value) -> Result<i64, PolicyFault>
    ensures { result ≡ spec.integer_of (view value.now) }
{
    value.as_integer().ok_or(PolicyFault::WrongKind)
}

fn text(value: &Value) -> Result<&str, PolicyFault>
    ensures { judged_map (λ t. t.now) result ≡ spec.text_of (view value.now) }
{
    value.as_str().ok_or(PolicyFault::WrongKind)
}

pub fn items(value: &Value) -> Result<&[Value], PolicyFault>
    ensures { judged_map (λ items. items_view items.now) result ≡ spec.items_in (view value.now) }
{
    match value.as_array() {
        Some(items) => Ok(items.as_slice()),
        None => Err(PolicyFault::WrongKind),
    }
}

pub fn members(value: &Value) -> Result<&Table, PolicyFault>
    ensures { judged_map (λ m. table_view m.now) result ≡ spec.members_in (view value.now) }
{
    value.as_table().ok_or(PolicyFault::WrongKind)
}

/// A number that is not negative.
pub fn natural(value: &Value) -> Result<u64, PolicyFault>
    ensures { result ≡ spec.natural_of (view value.now) }
{
    let number = integer(value)?;
    if number < 0 {
        return Err(PolicyFault::BeyondLimit);
    }
    Ok(number as u64)
}

pub fn name(value: &Value) -> Result<Name, PolicyFault>
    ensures { result ≡ spec.name_of (view value.now) }
{
    let text = text(value)?;
    Name::new(text).ok_or(PolicyFault::BeyondLimit)
}

pub fn address(value: &Value) -> Result<u64, PolicyFault>
    ensures { result ≡ spec.address_of (view value.now) }
{
    let text = text(value)?;
    address_of(text).ok_or(PolicyFault::BadHexadecimal)
}

/// An instruction's address.
pub fn entry(value: &Value) -> Result<u64, PolicyFault>
    ensures { result ≡ spec.entry_of (view value.now) }
{
    let address = address(value)?;
    if address % INSTRUCTION_BYTES != 0 {
        return Err(PolicyFault::BeyondLimit);
    }
    Ok(address)
}

/// The 32 bytes of a digest.
pub fn measure(value: &Value) -> Result<Digest, PolicyFault>
    ensures { result ≡ spec.measure_of (view value.now) }
{
    let text = text(value)?;
    digest_of(text).ok_or(PolicyFault::BadHexadecimal)
}

fn is_among(keys: &[&str], key: &str) -> bool
    ensures { result ≡ list_any (bytes_eq key.now) (map (λ k. k.now) keys.now) }
{
    for known in keys {
        if key == *known {
            return true;
        }
    }
    false
}

/// The first key that is none of these.
#[tactic(auto, using(crate::proofs::Tables::has_unknown_of_keys))]
pub(crate) fn first_unknown<'a>(keys: &[&str], table: &'a Table) -> Option<&'a str>
    ensures { is_some result ≡ spec.has_unknown (map (λ k. k.now) keys.now) (table_view table.now) }
{
    for key in table.keys() {
        let key = key.as_str();
        if !is_among(keys, key) {
            return Some(key);
        }
    }
    None
}

fn has_unknown(keys: &[&str], table: &Table) -> bool
    ensures { result ≡ spec.has_unknown (map (λ k. k.now) keys.now) (table_view table.now) }
{
    first_unknown(keys, table).is_some()
}

/// The members, if each key is one of these.
pub fn with_known<'a>(keys: &[&str], table: &'a Table) -> Result<&'a Table, PolicyFault>
    ensures { judged_map (λ m. table_view m.now) result ≡ spec.with_known (map (λ k. k.now) keys.now) (table_view table.now) }
{
    if has_unknown(keys, table) {
        Err(PolicyFault::UnknownKey)
    } else {
        Ok(table)
    }
}
