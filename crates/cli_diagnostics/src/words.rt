// What a person is told of words that are refused.

use cli_plans::command_words::{Argument, COMMANDS, CommandRow, WORDS, arguments_of};
use cli_plans::{Refusal, judge};
use std::alloc::{AllocError, Global};

/// What there is to say of words that are refused: what is wrong, what may stand there, and how the command is used.
#[derive(Drop)]
pub struct WordRemark {
    pub what: String,
    pub permitted: String,
    pub usage: String,
}

/// What there is to say of words that are refused.
pub fn word_remark(alloc: Global, words: &[String]) -> Result<WordRemark, AllocError> {
    match words {
        [name, rest @ ..] => match row_of(name.as_str()) {
            Some(row) => refused_word(alloc, words, &row, rest),
            None => unknown_command(alloc, name.as_str()),
        },
        [] => unknown_command(alloc, ""),
    }
}

fn row_of(name: &str) -> Option<CommandRow> {
    for row in &COMMANDS {
        if row.name == name {
            return Some(*row);
        }
    }
    None
}

fn unknown_command(alloc: Global, name: &str) -> Result<WordRemark, AllocError> {
    let mut names = String::new(alloc);
    for row in &COMMANDS {
        names.push_str(" ")?;
        names.push_str(row.name)?;
    }
    let names = names.as_str();
    Ok(WordRemark {
        what: format!(in alloc; "`{name}` is no command")?,
        permitted: format!(in alloc; "one of{names}")?,
        usage: format!(in alloc; "secvisor help explains them")?,
    })
}

// The words of a command that is known.
fn refused_word(
    alloc: Global,
    words: &[String],
    row: &CommandRow,
    rest: &[String],
) -> Result<WordRemark, AllocError> {
    match judge(words) {
        Err(Refusal::OutOfRange { word }) => out_of_range(alloc, row, rest, word.name()),
        _ => other_shape(alloc, row, rest),
    }
}

fn out_of_range(
    alloc: Global,
    row: &CommandRow,
    rest: &[String],
    name: &str,
) -> Result<WordRemark, AllocError> {
    let value = value_of(row, rest, name);
    let permitted = permitted(name);
    Ok(WordRemark {
        what: format!(in alloc; "{name} is `{value}`")?,
        permitted: format!(in alloc; "{name} is {permitted}")?,
        usage: usage(alloc, row)?,
    })
}

// Words of another number, or one with a dash.
fn other_shape(alloc: Global, row: &CommandRow, rest: &[String]) -> Result<WordRemark, AllocError> {
    if let Some(word) = rest.iter().find(|word| word.as_str().starts_with('-')) {
        let word = word.as_str();
        return Ok(WordRemark {
            what: format!(in alloc; "`{word}` begins with a dash")?,
            permitted: format!(in alloc; "no word does; a file of that name is ./{word}")?,
            usage: usage(alloc, row)?,
        });
    }
    let (name, count) = (row.name, rest.len());
    let wanted = wanted_words(alloc, arguments_of(row.command))?;
    let wanted = wanted.as_str();
    Ok(WordRemark {
        what: format!(in alloc; "{count} words after {name}")?,
        permitted: format!(in alloc; "{wanted} of them, as in the next line")?,
        usage: usage(alloc, row)?,
    })
}

// How many words a command has, of which the last one may be left out.
fn wanted_words(alloc: Global, arguments: &[Argument<'_>]) -> Result<String, AllocError> {
    let most = arguments.len();
    match arguments.last() {
        Some(Argument::Maybe(_)) => {
            let fewest = most.saturating_sub(1);
            format!(in alloc; "{fewest} or {most}")
        }
        _ => format!(in alloc; "{most}"),
    }
}

fn permitted(name: &str) -> &'static str {
    for row in &WORDS {
        if row.name == name {
            return row.permitted;
        }
    }
    ""
}

// The word under a name of the command; of several the first that may not stand there.
fn value_of<'a>(row: &CommandRow, rest: &'a [String], name: &str) -> &'a str {
    for (place, argument) in arguments_of(row.command).iter().enumerate() {
        match argument {
            Argument::One(one) | Argument::Maybe(one) => {
                if *one == name {
                    return word_at(rest, place);
                }
            }
            Argument::Any(any) => {
                if *any == name {
                    return wrong_among(rest, place);
                }
            }
        }
    }
    ""
}

fn word_at(rest: &[String], place: usize) -> &str {
    match rest.get(place) {
        Some(word) => word.as_str(),
        None => "",
    }
}

// The first of these names that is empty, too long, or stands there before.
fn wrong_among(rest: &[String], first: usize) -> &str {
    for (place, word) in rest.iter().enumerate().skip(first) {
        let name = word.as_str();
        let length = name.len();
        if length == 0 || length > 64 || stands_before(rest, first, place, name) {
            return name;
        }
    }
    ""
}

fn stands_before(rest: &[String], first: usize, place: usize, name: &str) -> bool {
    rest.iter()
        .take(place)
        .skip(first)
        .any(|other| other.as_str() == name)
}

/// How a command is used, a line.
pub(crate) fn usage(alloc: Global, row: &CommandRow) -> Result<String, AllocError> {
    let mut line = String::new(alloc);
    line.push_str("secvisor ")?;
    line.push_str(row.name)?;
    for argument in arguments_of(row.command) {
        line.push_str(" ")?;
        match argument {
            Argument::One(name) => line.push_str(name)?,
            Argument::Maybe(name) => {
                line.push_str("[")?;
                line.push_str(name)?;
                line.push_str("]")?;
            }
            Argument::Any(name) => {
                line.push_str(name)?;
                line.push_str("...")?;
            }
        }
    }
    Ok(line)
}
