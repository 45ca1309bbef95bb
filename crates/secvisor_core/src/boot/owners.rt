// For each page of RAM the last segment that covers it whole. From the last segment on, each page gets its owner once: a
// table of skips leads over pages that have one, so that the time is that of the segments and the pages together.

ghost use Rattle.std.specs.Prelude.{◌≡◌, ℕ, ◌+◌, ◌≤◌, ◌<◌, ◌==◌, ◌&&◌, nat_le, nat_lt, map, length, slice_index, if◌then◌else◌, IfOk};
ghost use Rattle.spec_processor.specs.Regions.{max_ram_pages};
ghost use Rattle.elf64_load.specs.Images.{segment_of};
ghost use Rattle.secvisor_core.specs.Whole.{covers, IsLastWhole, SkipsOwned};

use elf64_load::Segment;
use spec_processor::{PAGE_BYTES, ram_offset};
use std::alloc::{AllocError, Global};

/// Pages from the first on, before the end.
#[derive(Clone, Copy, Drop)]
struct PageRange {
    first: usize,
    end: usize,
}

// The pages of RAM that a segment covers whole.
fn whole_range(segment: &Segment, pages: usize) -> PageRange
    requires { pages ≤ max_ram_pages }
    ensures ordered { result.first ≤ result.end }
    ensures within { result.end ≤ pages }
    ensures whole { (page : ℕ) → page < pages → covers page (segment_of segment.now) ≡ (nat_le result.first page && nat_lt page result.end) }
{
    let place = ram_offset(segment.gpa);
    let end = (place as u128 + segment.memory as u128) / PAGE_BYTES as u128;
    let end = end.min(pages as u128) as usize;
    let first = place.div_ceil(PAGE_BYTES).min(end as u64) as usize;
    PageRange { first, end }
}

// Gives a page its owner, where it has none.
fn claim_page(owners: &mut [usize], page: usize, number: usize)
    requires inside { page < length owners.old }
    ensures size { length owners.new ≡ length owners.old }
    ensures owners { (other : ℕ) → slice_index owners.new other ≡
        (if other == page && slice_index owners.old page == 0 then number else slice_index owners.old other) }
{
    if owners[page] == 0 {
        owners[page] = number;
    }
}

// Gives the pages that a segment covers whole, and that have no owner yet, its number. Each page that it comes by skips
// to their end from then on.
fn claim_pages(owners: &mut [usize], skips: &mut [usize], segment: &Segment, number: usize)
    requires few { length owners.old ≤ max_ram_pages }
    requires number { 0 < number }
    requires skips { length skips.old ≡ length owners.old }
    requires owned { SkipsOwned owners.old skips.old }
    ensures size { length owners.new ≡ length owners.old }
    ensures owners { (page : ℕ) → page < length owners.old → slice_index owners.new page ≡
        (if slice_index owners.old page == 0 && covers page (segment_of segment.now) then number else slice_index owners.old page) }
    ensures skips { length skips.new ≡ length skips.old }
    ensures owned { SkipsOwned owners.new skips.new }
{
    let range = whole_range(segment, owners.len());
    let mut page = range.first;
    'pages: while page < range.end {
        claim_page(owners, page, number);
        let next = skips[page].max(page + 1);
        skips[page] = next.max(range.end);
        page = next;
    }
}

// Gives each page its owner, where none has one yet.
fn claim_all(owners: &mut [usize], skips: &mut [usize], segments: &[Segment])
    requires few { length owners.old ≤ max_ram_pages }
    requires none { (page : ℕ) → page < length owners.old → slice_index owners.old page ≡ 0 }
    requires skips { length skips.old ≡ length owners.old }
    requires owned { SkipsOwned owners.old skips.old }
    ensures size { length owners.new ≡ length owners.old }
    ensures owners { (page : ℕ) → page < length owners.old →
        IsLastWhole (map segment_of segments.now) (length segments.now) page (slice_index owners.new page) }
{
    'segments: for i in (0..segments.len()).rev() {
        claim_pages(owners, skips, &segments[i], i + 1);
    }
}

fn zeros(alloc: Global, count: usize) -> Result<Vec<usize>, AllocError>
    ensures count { IfOk result (λ zeros. length zeros.items ≡ count) }
    ensures zeros { IfOk result (λ zeros. (i : ℕ) → i < count → slice_index zeros.items i ≡ 0) }
{
    vec![in alloc; 0; count]
}

/// For each page how many segments there are up to and with the last that covers it whole; 0 where none does.
pub fn last_owners(
    alloc: Global,
    segments: &[Segment],
    pages: usize,
) -> Result<Vec<usize>, AllocError>
    requires { pages ≤ max_ram_pages }
    ensures pages { IfOk result (λ owners. length owners.items ≡ pages) }
    ensures owners { IfOk result (λ owners. (page : ℕ) → page < pages →
        IsLastWhole (map segment_of segments.now) (length segments.now) page (slice_index owners.items page)) }
{
    let mut owners = zeros(alloc, pages)?;
    let mut skips = zeros(alloc, pages)?;
    claim_all(&mut owners, &mut skips, segments);
    Ok(owners)
}
