// The files of a case.

use crate::case::Case;
use crate::edits::edit;
use crate::values::{first_word, number};
use guest_gen::{MAX_CALLS, generate, image};
use page_measure::{join_digests, page_digest};
use std::alloc::{AllocError, Global};
use text_numbers::digest_text;

/// Changes the files of a case by an order. False where there is no such order.
pub fn make(alloc: Global, case: &mut Case, order: &str, words: &str) -> Result<bool, AllocError> {
    match order {
        "generated" => put_generated(alloc, case, number(words))?,
        "image" => put_image(alloc, case)?,
        "measured" => measure(alloc, case, words)?,
        "resumed" => case.handed.image = case.saved.to_vec(alloc)?,
        _ => return edit_file(alloc, case, order, words),
    }
    Ok(true)
}

fn edit_file(alloc: Global, case: &mut Case, order: &str, words: &str) -> Result<bool, AllocError> {
    let (name, words) = first_word(words);
    let handed = &mut case.handed;
    let bytes = match name {
        "image" => &mut handed.image,
        "policy" => &mut handed.policy,
        "disk" => &mut handed.disk,
        "script" => &mut handed.script,
        _ => return Ok(false),
    };
    edit(alloc, bytes, order, words, case.measure.as_str())
}

// Puts the image and the policy of the generated guest that calls its kernel so many times.
fn put_generated(alloc: Global, case: &mut Case, calls: u64) -> Result<(), AllocError> {
    let (image, policy) = generate(alloc, calls.clamp(1, MAX_CALLS))?;
    case.handed.image = image;
    case.handed.policy = policy::write(alloc, &policy)?;
    Ok(())
}

static BODY: [u8; 8192] = [0; 8192];

// Puts the image of a kernel that has a page of text and two pages after it, all zeros.
fn put_image(alloc: Global, case: &mut Case) -> Result<(), AllocError> {
    case.handed.image = image(alloc, &[], &BODY)?;
    Ok(())
}

// Measures the pages of the image from one of its places to another.
fn measure(alloc: Global, case: &mut Case, words: &str) -> Result<(), AllocError> {
    let (from, to) = first_word(words);
    let places = number(from) as usize..number(to) as usize;
    let pages = case.handed.image.get(places).unwrap_or(&[]);
    let mut digests = Vec::new(alloc);
    for page in pages.chunks_exact(4096) {
        digests.push(page_digest(page))?;
    }
    case.measure = digest_text(alloc, &join_digests(&digests))?;
    Ok(())
}
