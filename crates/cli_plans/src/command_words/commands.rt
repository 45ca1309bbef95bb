// What `clap` reads after the name of a command.
ghost use Rattle.std.specs.Prelude.{◌≡◌, IfOk, IsTrue, false, map, string_bytes};
ghost use Rattle.clap.specs.Words.{app_of, found_of, kind_of, matches_of, rows_of, rule_of, takes};
ghost use Rattle.clap.specs.declared.builder.Command.TheViews.{out-Command};
ghost use Rattle.cli_plans.specs.Parsing.{want_of, rule_of_want, app_of_wants, bare_app};

use crate::command_words::table::Argument;
use clap::error::ErrorKind;
use clap::{Arg, ArgAction, ArgMatches, Command, Error};
use std::alloc::{AllocError, Global};

/// What `clap` finds in words of which it refuses none.
pub fn read<'a>(
    alloc: Global,
    arguments: &[Argument<'a>],
    words: &'a [String],
) -> Result<ArgMatches<'a>, AllocError>
    requires { IsTrue (takes (app_of_wants (map want_of arguments.now)) (map string_bytes words.now)) }
    ensures { IfOk result (λ matches. rows_of (found_of matches) ≡ matches_of (app_of_wants (map want_of arguments.now)) (map string_bytes words.entry.now)) }
{
    let command = command_of_arguments(alloc, arguments)?;
    match command.try_get_matches_from(words) {
        Ok(matches) => Ok(matches),
        Err(error) => Err(want_of_memory(error)),
    }
}

// A parse fails only where memory runs out.
fn want_of_memory(error: Error) -> AllocError
    requires { kind_of error ≡ ErrorKind.OutOfMemory }
{
    match error.kind() {
        ErrorKind::OutOfMemory => AllocError,
        _ => unreachable!(),
    }
}

fn command_of_arguments<'a>(
    alloc: Global,
    arguments: &[Argument<'a>],
) -> Result<Command<'a>, AllocError>
    ensures app { IfOk result (λ c. app_of c ≡ app_of_wants (map want_of arguments.now)) }
    ensures local { IfOk result (λ c. (out-Command c).has_globals ≡ false) }
{
    let mut command = bare(alloc);
    for argument in arguments {
        command = command.arg(arg_of(alloc, *argument))?;
    }
    Ok(command)
}

// The words stand after the name of the command, and nothing asks for help.
fn bare<'a>(alloc: Global) -> Command<'a>
    ensures app { app_of result ≡ bare_app }
    ensures local { (out-Command result).has_globals ≡ false }
{
    Command::new(alloc, "secvisor")
        .no_binary_name(true)
        .disable_help_flag(true)
}

fn arg_of<'a>(alloc: Global, argument: Argument<'a>) -> Arg<'a>
    ensures rule { rule_of result ≡ rule_of_want (want_of argument.entry) }
    ensures local { result.global ≡ false }
{
    match argument {
        Argument::One(name) => Arg::new(alloc, name).required(true).action(ArgAction::Set),
        Argument::Maybe(name) => Arg::new(alloc, name).action(ArgAction::Set),
        Argument::Any(name) => Arg::new(alloc, name).action(ArgAction::Append),
    }
}
