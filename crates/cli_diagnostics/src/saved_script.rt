// The name under which a live run saves its script.

use cli_plans::command_words::{CommandName, DiskKind, Naming, named};
use cli_plans::is_no_file;

/// What there is to say of a word under which `live` or `vlive` saves its script, where `run` or `vrun` takes that word for no
/// file.
pub fn script_remark(words: &[String]) -> Option<&'static str> {
    let Some(Naming { command, rest }) = named(words) else {
        return None;
    };
    match (command, rest) {
        (CommandName::Live(kind), [_, _, _, _, out]) if is_no_file(out.as_str()) => {
            Some(remark_of(kind))
        }
        _ => None,
    }
}

fn remark_of(kind: DiskKind) -> &'static str {
    match kind {
        DiskKind::Block => "OUT is a file of that name; as SCRIPT of `run` the word is no file",
        DiskKind::Virtio => "OUT is a file of that name; as SCRIPT of `vrun` the word is no file",
    }
}
