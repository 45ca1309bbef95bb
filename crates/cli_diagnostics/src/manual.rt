// All that there is to say of how the program is used.

use crate::words::usage;
use cli_plans::command_words::{COMMANDS, WORDS};
use std::alloc::{AllocError, Global};

/// How each command is used, what its words are, an example, and what the status means.
pub fn help(alloc: Global) -> Result<String, AllocError> {
    let mut text = String::new(alloc);
    text.push_str("How secvisor is used:\n\n")?;
    for row in &COMMANDS {
        let usage = usage(alloc, row)?;
        let (usage, about) = (usage.as_str(), row.about);
        text.push_str(format!(in alloc; "  {usage}\n      {about}\n")?.as_str())?;
    }
    text.push_str("\n")?;
    for row in &WORDS {
        let (name, permitted) = (row.name, row.permitted);
        text.push_str(format!(in alloc; "  {name}: {permitted}\n")?.as_str())?;
    }
    text.push_str(EXAMPLE)?;
    Ok(text)
}

const EXAMPLE: &str = "
For example:

  secvisor measure hello.policy hello.elf 64 1 0x80000000,0x80000100 none
  secvisor run hello.elf hello.policy none none 100000 none

The status is 0 where the guest shut down, 1 where it broke a rule, 2 for words that are refused, 3
where a file was refused, 4 for a file that can't be read, 5 for a write that failed, 6 where memory
ran out, 7 where the events ran out.
";
