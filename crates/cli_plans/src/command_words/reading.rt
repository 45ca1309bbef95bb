// The words after the name of a command by their names, as `clap` finds them.
ghost use Rattle.std.specs.Prelude.{◌≡◌, IfOk, IsTrue, false, map, string_bytes};
ghost use Rattle.std.specs.List.{list_any};
ghost use Rattle.std.specs.Option.{is_some, option_copied};
ghost use Rattle.clap.specs.Words.{found_of, first_of, rows_of};
ghost use Rattle.cli_plans.specs.Commands.{has_dash};
ghost use Rattle.cli_plans.specs.Parsing.{Finds, HasWords, IsKnown, modules_found, wants_of, word_of};

use crate::command_words::commands::read;
use crate::command_words::table::{CommandName, arguments_of};
use clap::ArgMatches;
use std::alloc::{AllocError, Global};

/// What `clap` finds in the words of a command.
pub fn find<'a>(
    alloc: Global,
    command: CommandName,
    words: &'a [String],
) -> Result<ArgMatches<'a>, AllocError>
    requires known { IsKnown command (map string_bytes words.now) }
    requires plain { list_any has_dash (map string_bytes words.now) ≡ false }
    ensures has { IfOk result (λ matches. HasWords (wants_of command) (rows_of (found_of matches))) }
    ensures finds { IfOk result (λ matches. Finds command (map string_bytes words.entry.now) (rows_of (found_of matches))) }
{
    read(alloc, arguments_of(command), words)
}

/// A word that the command wants.
pub fn word<'a>(matches: &ArgMatches<'a>, name: &str) -> &'a str
    requires { IsTrue (is_some (first_of name.now (rows_of (found_of matches.now)))) }
    ensures { result.now ≡ word_of name.now (rows_of (found_of matches.now)) }
{
    match matches.get_str(name) {
        Some(word) => word,
        None => unreachable!(),
    }
}

/// A word that may be left out.
pub fn word_if_any<'a>(matches: &ArgMatches<'a>, name: &str) -> Option<&'a str>
    ensures { option_copied result ≡ first_of name.now (rows_of (found_of matches.now)) }
{
    matches.get_str(name)
}

/// The modules of `measure`.
pub fn modules<'a>(alloc: Global, matches: &ArgMatches<'a>) -> Result<Vec<&'a str>, AllocError>
    ensures { IfOk result (λ words. map (λ w. w.now) words.items ≡ modules_found (rows_of (found_of matches.now))) }
{
    match matches.get_strs("MODULES") {
        Some(words) => Vec::from_slice(alloc, words),
        None => Ok(Vec::new(alloc)),
    }
}
