// The image of a kernel.

ghost use Rattle.std.specs.Prelude.{◌≡◌, ℕ, ◌≤◌, ◌<◌, ◌&&◌, ◌++◌, nat_le, nat_lt, map, Some, length, slice_index, if◌then◌else◌, IfOk, OnOk};
ghost use Rattle.sv_types.specs.Kernel.{is_text_of, filled_part, text_page, text_page_in, text_of};
ghost use Rattle.spec_processor.specs.Regions.{max_ram_pages};
ghost use Rattle.spec_processor.specs.Bytes.{page_size};
ghost use Rattle.elf64_load.specs.Images.{segment_of, segments_of, text_owner};

use crate::sections::push_zeros;
use policy_limits::MAX_RAM_PAGES;
use spec_processor::{PAGE_BYTES, ram_offset};
use std::alloc::{AllocError, Global};

/// A segment that is loaded: its bytes, which stay in the file, and zeros after them up to the size in memory.
#[derive(Clone, Copy, Drop)]
pub struct Segment<'a> {
    /// The virtual address.
    pub va: u64,
    /// The guest-physical address, in RAM.
    pub gpa: u64,
    /// The bytes in the file.
    pub bytes: &'a [u8],
    /// The size in memory, in bytes.
    pub memory: u64,
    /// Whether its pages are text.
    pub executable: bool,
}

/// A kernel: where its hart begins, and its segments in the order of their headers.
#[derive(Drop)]
pub struct KernelImage<'a> {
    pub entry: u64,
    pub segments: Vec<Segment<'a>>,
}

impl KernelImage<'_> {
    /// The pages of the executable segments, in ascending order, one after the other. After a segment's bytes its pages
    /// hold zeros. Fails where memory runs out.
    pub fn text(&self, alloc: Global) -> Result<Vec<u8>, AllocError>
        ensures { IfOk result (λ text. text.items ≡ text_of (segments_of self.now)) }
    {
        let owners = text_owners(alloc, &self.segments)?;
        let mut text = Vec::new(alloc);
        'pages: for (page, owner) in owners.iter().enumerate() {
            push_text_page(&mut text, page, &self.segments, *owner)?;
        }
        Ok(text)
    }

    /// For each page the number of the first executable segment in which it lies, or of all segments where there is none.
    /// Fails where memory runs out.
    pub fn page_owners(&self, alloc: Global) -> Result<Vec<usize>, AllocError>
        ensures pages { IfOk result (λ owners. length owners.items ≡ max_ram_pages) }
        ensures owners { IfOk result (λ owners. (page : ℕ) → page < max_ram_pages → slice_index owners.items page ≡ text_owner page (segments_of self.now)) }
    {
        text_owners(alloc, &self.segments)
    }
}

/// Pages from the first on, before the end.
#[derive(Clone, Copy, Drop)]
struct PageRange {
    first: usize,
    end: usize,
}

// The pages of a segment's text.
fn text_range(segment: &Segment) -> PageRange
    ensures ordered { result.first ≤ result.end }
    ensures within { result.end ≤ max_ram_pages }
    ensures text { (page : ℕ) → page < max_ram_pages → is_text_of page (segment_of segment.now) ≡ (nat_le result.first page && nat_lt page result.end) }
{
    if !segment.executable {
        return PageRange { first: 0, end: 0 };
    }
    let place = ram_offset(segment.gpa);
    let end = (place as u128 + segment.memory as u128).div_ceil(PAGE_BYTES as u128);
    PageRange {
        first: (place / PAGE_BYTES).min(u64::from(MAX_RAM_PAGES)) as usize,
        end: end.min(u128::from(MAX_RAM_PAGES)) as usize,
    }
}

// Writes a segment's number at the pages of its text.
fn claim_pages(owners: &mut [usize], segment: &Segment, number: usize)
    requires { length owners.old ≡ max_ram_pages }
    ensures { (page : ℕ) → page < max_ram_pages → slice_index owners.new page ≡
        (if is_text_of page (segment_of segment.now) then number else slice_index owners.old page) }
{
    let range = text_range(segment);
    owners[range.first..range.end].fill(number);
}

fn pages_of_none(alloc: Global, pages: usize, number: usize) -> Result<Vec<usize>, AllocError>
    ensures pages { IfOk result (λ owners. length owners.items ≡ pages) }
    ensures owners { IfOk result (λ owners. (page : ℕ) → page < pages → slice_index owners.items page ≡ number) }
{
    vec![in alloc; number; pages]
}

// For each page the number of the first executable segment in which it lies, or of all segments where there is none.
fn text_owners(alloc: Global, segments: &[Segment]) -> Result<Vec<usize>, AllocError>
    ensures pages { IfOk result (λ owners. length owners.items ≡ max_ram_pages) }
    ensures owners { IfOk result (λ owners. (page : ℕ) → page < max_ram_pages → slice_index owners.items page ≡ text_owner page (map segment_of segments.now)) }
{
    let mut owners = pages_of_none(alloc, MAX_RAM_PAGES as usize, segments.len())?;
    'segments: for i in (0..segments.len()).rev() {
        claim_pages(&mut owners, &segments[i], i);
    }
    Ok(owners)
}

// The bytes of a page of a segment's that lie in the file.
fn filled_part<'a>(page: usize, segment: &Segment<'a>) -> &'a [u8]
    requires { page ≤ max_ram_pages }
    ensures part { result.now ≡ filled_part page (segment_of segment.now) }
    ensures short { length result.now ≤ page_size }
{
    let place = ram_offset(segment.gpa);
    let start = (PAGE_BYTES * (page as u64).saturating_sub(place / PAGE_BYTES)) as usize;
    let bytes = segment.bytes;
    let from = start.min(bytes.len());
    let to = (start + PAGE_BYTES as usize).min(bytes.len());
    &bytes[from..to]
}

// Adds a page, if it is text: `owner` is the number of its segment.
fn push_text_page(
    text: &mut Vec<u8>,
    page: usize,
    segments: &[Segment],
    owner: usize,
) -> Result<(), AllocError>
    requires page { page ≤ max_ram_pages }
    requires owner { owner ≡ text_owner page (map segment_of segments.now) }
    ensures { OnOk result (text.new.items ≡ text.old.items ++ text_page (map segment_of segments.now) page) }
{
    if let Some(segment) = segments.get(owner) {
        push_filled_page(text, page, segment)?;
    }
    Ok(())
}

// Adds a page of a segment's.
fn push_filled_page(text: &mut Vec<u8>, page: usize, segment: &Segment) -> Result<(), AllocError>
    requires { page ≤ max_ram_pages }
    ensures { OnOk result (text.new.items ≡ text.old.items ++ text_page_in page (Some (segment_of segment.now))) }
{
    let filled = filled_part(page, segment);
    text.extend_from_slice(filled)?;
    push_zeros(text, PAGE_BYTES as usize - filled.len())
}
