// Words: numbers in those of an order, and those of a call.

use std::alloc::{AllocError, Global};
use text_numbers::{address_of, number_within};

/// The number that a word writes, in decimal digits or in hexadecimal ones after `0x`; 0 where it writes none.
pub fn number(word: &str) -> u64 {
    match address_of(word) {
        Some(value) => value,
        None => number_within(word.as_bytes(), 0, u64::MAX).unwrap_or(0),
    }
}

/// The first word of a line, and what stands after it.
pub fn first_word(line: &str) -> (&str, &str) {
    line.split_once(' ').unwrap_or((line, ""))
}

/// The words of a call. In them `{empty}` is no letter.
pub fn line_of(alloc: Global, words: &str) -> Result<Vec<String>, AllocError> {
    let mut line = Vec::new(alloc);
    for word in words.split_whitespace() {
        line.push(word.replace(alloc, "{empty}", "")?)?;
    }
    Ok(line)
}
