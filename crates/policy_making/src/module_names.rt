// The names of modules.

ghost use Rattle.std.specs.Prelude.{◌≡◌, map, string_bytes};
ghost use Rattle.std.specs.List.{list_any};
ghost use Rattle.std.specs.Str.{bytes_eq};
ghost use Rattle.policy_making.specs.WordRanges as spec;
ghost use Rattle.sv_types.specs.Names.{name_within};

use policy_limits::MAX_MODULES;
use sv_types::MAX_NAME_BYTES;

fn is_name(word: &str) -> bool
    ensures { result ≡ name_within word.now }
{
    1 <= word.len() && word.len() <= MAX_NAME_BYTES
}

fn is_among(name: &str, words: &[String]) -> bool
    ensures { result ≡ list_any (λ word. bytes_eq (string_bytes word) name.now) words.now }
{
    words.iter().any(|word| word.as_str() == name)
}

#[tactic(auto, using(crate::proofs::WordLemmas::list_any_map))]
fn is_new_name(before: &[String], word: &str) -> bool
    ensures { result ≡ spec.is_new_name (map string_bytes before.now) word.now }
{
    is_name(word) && !is_among(word, before)
}

fn all_new_names(words: &[String]) -> bool
    ensures { result ≡ spec.all_new_names (map string_bytes words.now) }
{
    for (i, word) in words.iter().enumerate() {
        if !is_new_name(&words[..i], word.as_str()) {
            return false;
        }
    }
    true
}

/// The words are at most 64 names of 1 to 64 bytes, and none stands twice.
pub fn are_module_names(words: &[String]) -> bool
    ensures { result ≡ spec.are_module_names (map string_bytes words.now) }
{
    words.len() <= MAX_MODULES && all_new_names(words)
}
