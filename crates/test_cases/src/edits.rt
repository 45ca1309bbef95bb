// Changes of one file's bytes.

use crate::values::{first_word, number};
use std::alloc::{AllocError, Global};

/// Changes bytes by an order and its words. False where there is no such order.
pub fn edit(
    alloc: Global,
    bytes: &mut Vec<u8>,
    order: &str,
    words: &str,
    measure: &str,
) -> Result<bool, AllocError> {
    match order {
        "put" => put(bytes, words)?,
        "fill" => fill(bytes, words)?,
        "text" => add_text(alloc, bytes, words, measure)?,
        "line" => add_line(alloc, bytes, words, measure)?,
        "repeat" => repeat(alloc, bytes, words)?,
        "change" => change(alloc, bytes, words)?,
        _ => return Ok(false),
    }
    Ok(true)
}

// Puts values of so many bytes each at a place and after it.
fn put(bytes: &mut Vec<u8>, words: &str) -> Result<(), AllocError> {
    let (width, words) = first_word(words);
    let (place, words) = first_word(words);
    let width = number(width) as usize;
    let mut place = number(place) as usize;
    for word in words.split_whitespace() {
        put_value(bytes, place, width, number(word))?;
        place = place.saturating_add(width);
    }
    Ok(())
}

// The most bytes of a file that a value makes longer.
const MOST: usize = 1_048_576;

// Puts a value of so many bytes at a place. Zeros fill up what lies before it.
fn put_value(
    bytes: &mut Vec<u8>,
    place: usize,
    width: usize,
    value: u64,
) -> Result<(), AllocError> {
    let end = place.saturating_add(width);
    if bytes.len() < end && end <= MOST {
        bytes.resize(end, 0)?;
    }
    for (i, byte) in value.to_le_bytes().iter().take(width).enumerate() {
        if let Some(slot) = bytes.get_mut(place.saturating_add(i)) {
            *slot = *byte;
        }
    }
    Ok(())
}

// Cuts a file, or fills it up with a byte, to so many bytes.
fn fill(bytes: &mut Vec<u8>, words: &str) -> Result<(), AllocError> {
    let (count, byte) = first_word(words);
    bytes.resize(number(count) as usize, (number(byte) % 256) as u8)
}

// Puts a text after the bytes, in which the measure stands for its name.
fn add_text(
    alloc: Global,
    bytes: &mut Vec<u8>,
    text: &str,
    measure: &str,
) -> Result<(), AllocError> {
    let text = text.replace(alloc, "{measure}", measure)?;
    bytes.extend_from_slice(text.as_str().as_bytes())
}

// Puts such a text after the bytes, and a line feed.
fn add_line(
    alloc: Global,
    bytes: &mut Vec<u8>,
    text: &str,
    measure: &str,
) -> Result<(), AllocError> {
    add_text(alloc, bytes, text, measure)?;
    bytes.extend_from_slice(b"\n")
}

// A text of an order. In it `{line}` is a line feed, and `{empty}` nothing.
fn text_of_order(alloc: Global, text: &str) -> Result<String, AllocError> {
    let text = text.replace(alloc, "{line}", "\n")?;
    text.as_str().replace(alloc, "{empty}", "")
}

// Puts a line after the bytes so many times. In it `{place}` is four times its number, from 0 on.
fn repeat(alloc: Global, bytes: &mut Vec<u8>, words: &str) -> Result<(), AllocError> {
    let (count, text) = first_word(words);
    let line = text_of_order(alloc, text)?;
    for i in 0..number(count) {
        let place = i.saturating_mul(4);
        let place = format!(in alloc; "{place}")?;
        let text = line.as_str().replace(alloc, "{place}", place.as_str())?;
        bytes.extend_from_slice(text.as_str().as_bytes())?;
        bytes.push(b'\n')?;
    }
    Ok(())
}

// Puts a text in the place of another one, wherever that stands.
fn change(alloc: Global, bytes: &mut Vec<u8>, words: &str) -> Result<(), AllocError> {
    let (from, to) = words.split_once(" => ").unwrap_or((words, ""));
    let from = text_of_order(alloc, from)?;
    let to = text_of_order(alloc, to)?;
    let text = str::from_utf8(bytes).unwrap_or("");
    let changed = text.replace(alloc, from.as_str(), to.as_str())?;
    *bytes = changed.into_bytes();
    Ok(())
}
