// The words of a command line by their names, read with `clap`.

mod command;
mod commands;
mod naming;
mod reading;
mod table;

pub use command::{ConvertWords, DiskKind, ShowWords};
pub use naming::{Naming, named};
pub use reading::{find, modules, word, word_if_any};
pub use table::{
    Argument, COMMANDS, CommandName, CommandRow, WORDS, WordRow, arguments_of, command_of_name,
};
