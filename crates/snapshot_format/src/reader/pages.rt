// The bytes of protections and of the kernel's text.

ghost use Rattle.std.specs.Prelude.{◌≡◌, []};
ghost use Rattle.snapshot_format.specs.Forms.{list_form};
ghost use Rattle.snapshot_format.specs.PageForms.{is_above, last_page, pages, protection_form, protections, text, text_page};
ghost use Rattle.snapshot_format.specs.Reading.{Gives, Reads};
ghost use Rattle.snapshot_format.specs.Views.{pages_parts};

use crate::protection_number::{APPROVED, FREE, HELD};
use crate::reader::read_error::ReadError;
use crate::reader::values::{read_at_most, read_byte, read_number};
use crate::{SnapRefusal, TextPage};
use std::alloc::Global;
use sv_types::{DIGEST_BYTES, Protection};

/// What pages are, and the kernel's text.
#[derive(Drop)]
pub(crate) struct Pages {
    pub(crate) protection: Vec<Protection>,
    pub(crate) text: Vec<TextPage>,
}

#[tactic(auto, unfolding(crate::specs::PageForms::pages))]
pub(crate) fn read_pages(
    alloc: Global,
    bytes: &[u8],
    ram_pages: u32,
) -> Result<(Pages, &[u8]), ReadError>
    ensures { Reads (λ x. (pages_parts x.0, x.1.now)) result ((pages ram_pages).taken bytes.now) }
{
    let (protection, rest) = read_protections(alloc, bytes, ram_pages)?;
    let (text, rest) = read_text(alloc, rest, ram_pages)?;
    Ok((Pages { protection, text }, rest))
}

fn read_protections(
    alloc: Global,
    bytes: &[u8],
    ram_pages: u32,
) -> Result<(Vec<Protection>, &[u8]), ReadError>
    ensures { Reads (λ x. (x.0.items, x.1.now)) result ((protections ram_pages).taken bytes.now) }
{
    let mut read = Vec::new(alloc);
    let mut rest = bytes;
    'pages: for _ in 0..ram_pages {
        let (page, after) = read_protection(rest)?;
        read.push(page)?;
        rest = after;
    }
    Ok((read, rest))
}

#[tactic(auto, unfolding(crate::specs::PageForms::protection_form))]
fn read_protection(bytes: &[u8]) -> Result<(Protection, &[u8]), SnapRefusal>
    ensures { Gives (λ x. (x.0, x.1.now)) result (protection_form.taken bytes.now) }
{
    let (n, rest) = read_byte(bytes)?;
    match n {
        FREE => Ok((Protection::Free, rest)),
        HELD => Ok((Protection::Held, rest)),
        APPROVED => Ok((Protection::Approved, rest)),
        _ => Err(SnapRefusal::OutOfRange),
    }
}

#[tactic(auto, unfolding(crate::specs::PageForms::text))]
fn read_text(
    alloc: Global,
    bytes: &[u8],
    ram_pages: u32,
) -> Result<(Vec<TextPage>, &[u8]), ReadError>
    ensures { Reads (λ x. (x.0.items, x.1.now)) result ((text ram_pages).taken bytes.now) }
{
    let (count, rest) = read_at_most(bytes, u64::from(ram_pages))?;
    read_text_pages(alloc, rest, count, ram_pages)
}

fn read_text_pages(
    alloc: Global,
    bytes: &[u8],
    count: u64,
    ram_pages: u32,
) -> Result<(Vec<TextPage>, &[u8]), ReadError>
    ensures { Reads (λ x. (x.0.items, x.1.now)) result ((list_form (text_page ram_pages) [] count).taken bytes.now) }
{
    let mut read = Vec::new(alloc);
    let mut rest = bytes;
    'pages: for _ in 0..count {
        let (page, after) = read_text_page(rest, ram_pages, &read)?;
        read.push(page)?;
        rest = after;
    }
    Ok((read, rest))
}

// A page in RAM, above those before it, and its digest.
#[tactic(auto, unfolding(crate::specs::PageForms::text_page, crate::specs::Forms::bytes_at))]
fn read_text_page<'a>(
    bytes: &'a [u8],
    ram_pages: u32,
    before: &[TextPage],
) -> Result<(TextPage, &'a [u8]), SnapRefusal>
    ensures { Gives (λ x. (x.0, x.1.now)) result ((text_page ram_pages before.now).taken bytes.now) }
{
    let (page, rest) = read_number(bytes)?;
    if page >= u64::from(ram_pages) || !is_above(last_page(before), page) {
        return Err(SnapRefusal::OutOfRange);
    }
    let Some((digest, rest)) = rest.split_first_chunk::<DIGEST_BYTES>() else {
        return Err(SnapRefusal::OtherLength);
    };
    Ok((
        TextPage {
            page: page as u32,
            digest: *digest,
        },
        rest,
    ))
}

fn last_page(before: &[TextPage]) -> Option<u64>
    ensures { result ≡ last_page before.now }
{
    let last = before.last()?;
    Some(u64::from(last.page))
}

/// Whether a number is above the last of those before it.
pub(crate) fn is_above(last: Option<u64>, n: u64) -> bool
    ensures { result ≡ is_above last n }
{
    match last {
        None => true,
        Some(last) => last < n,
    }
}
