// The columns of a vector.

use std::str::SplitWhitespace;

/// The words of a line, without its remark.
pub fn columns(text: &str) -> SplitWhitespace<'_> {
    match text.split_once('#') {
        Some((columns, _)) => columns.split_whitespace(),
        None => text.split_whitespace(),
    }
}

/// The next word's hexadecimal number, none where it is another word.
pub fn number(columns: &mut SplitWhitespace<'_>) -> Option<u64> {
    u64::from_str_radix(columns.next()?, 16).ok()
}

/// The next word is this one.
pub fn is_next(columns: &mut SplitWhitespace<'_>, word: &str) -> bool {
    columns.next() == Some(word)
}
