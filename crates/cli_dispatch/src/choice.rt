// Which call the words ask for.
ghost use Rattle.std.specs.Prelude.{◌≡◌, map, string_bytes};
ghost use Rattle.cli_plans.specs.Commands.{name_of};
ghost use Rattle.cli_dispatch.specs.Choice as spec;

use cli_plans::command_words::{CommandName, command_of_name};

/// The call of a command.
#[derive(Clone, Copy, Debug, PartialEq, Eq, Drop)]
pub enum TopCall {
    Survey,
    Debug,
    Live,
    Snap,
    Sweep,
    Shrink,
    Resume,
    Show,
    /// The call of all other commands, which also refuses what is of none.
    Others,
}

/// The call that these words ask for, by the first of them.
pub fn top_call_of(words: &[String]) -> TopCall
    ensures { result ≡ spec.top_call_of (map string_bytes words.now) }
{
    match words {
        [name, ..] => call_of_name(name.as_str()),
        [] => TopCall::Others,
    }
}

fn call_of_name(name: &str) -> TopCall
    ensures { result ≡ spec.call_of (name_of name.now) }
{
    match command_of_name(name) {
        Some(CommandName::Survey) => TopCall::Survey,
        Some(CommandName::Debug) => TopCall::Debug,
        Some(CommandName::Live(_)) => TopCall::Live,
        Some(CommandName::Snap(_)) => TopCall::Snap,
        Some(CommandName::Sweep) => TopCall::Sweep,
        Some(CommandName::Shrink) => TopCall::Shrink,
        Some(CommandName::Resume) => TopCall::Resume,
        Some(CommandName::Show) => TopCall::Show,
        Some(CommandName::Flat)
        | Some(CommandName::Generated)
        | Some(CommandName::Run(_))
        | Some(CommandName::Measure)
        | Some(CommandName::Convert)
        | None => TopCall::Others,
    }
}
