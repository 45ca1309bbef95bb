// The command that words name.
ghost use Rattle.std.specs.Prelude.{◌≡◌, false, map, option_map, string_bytes};
ghost use Rattle.std.specs.List.{list_any};
ghost use Rattle.std.specs.Option.{ForSome};
ghost use Rattle.cli_plans.specs.Commands.{has_dash, name_of, named_by, named_words};
ghost use Rattle.cli_plans.specs.Values.{named_of};

use crate::command_words::table::{CommandName, command_of_name};

/// A command, and the words after its name.
#[derive(Clone, Copy, Drop)]
pub struct Naming<'a> {
    pub command: CommandName,
    pub rest: &'a [String],
}

/// The command that the first word names, and the words after it. None where there is no such command, or where a word
/// begins with a dash. It takes no memory.
#[tactic(auto, using(crate::proofs::Names::list_any_map), unfolding(crate::specs::Commands::named_words))]
pub fn named(words: &[String]) -> Option<Naming<'_>>
    ensures named { option_map named_of result ≡ named_words (map string_bytes words.now) }
    ensures plain { ForSome result (λ n. list_any has_dash (map string_bytes n.rest.now) ≡ false) }
{
    if any_has_dash(words) {
        return None;
    }
    match words {
        [name, rest @ ..] => named_after(name.as_str(), rest),
        [] => None,
    }
}

// Whether a word begins with a dash.
fn any_has_dash(words: &[String]) -> bool
    ensures { result ≡ list_any (λ word. has_dash (string_bytes word)) words.now }
{
    words.iter().any(|word| has_dash(word.as_str()))
}

const HYPHEN: u8 = b'-';

fn has_dash(word: &str) -> bool
    ensures { result ≡ has_dash word.now }
{
    match word.as_bytes() {
        [first, ..] => *first == HYPHEN,
        [] => false,
    }
}

fn named_after<'a>(name: &str, rest: &'a [String]) -> Option<Naming<'a>>
    requires plain { list_any has_dash (map string_bytes rest.now) ≡ false }
    ensures named { option_map named_of result ≡ named_by (name_of name.now) (map string_bytes rest.now) }
    ensures plain { ForSome result (λ n. list_any has_dash (map string_bytes n.rest.now) ≡ false) }
{
    match command_of_name(name) {
        Some(command) => Some(Naming { command, rest }),
        None => None,
    }
}
